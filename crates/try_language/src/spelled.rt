//! What a text spells.

use crate::tree::show_unit;
use const_fold::fold_body;
use st_lexer::{LexFault, Token, lex};
use st_parser::{ParseFault, Unit, parse};
use std::alloc::{AllocError, Global};
use try_text::{File, Page};

/// What is printed of a text.
#[derive(Clone, Copy, Drop)]
pub enum Wanted {
    Tokens,
    Count,
    Tree,
    Folded,
    Accepted,
}

fn push_tokens(alloc: Global, page: &mut Page, tokens: &[Token]) {
    for token in tokens {
        let (from, until, kind) = (token.from, token.until, token.kind);
        page.add_made(format!(in alloc; "{from}..{until} {kind:?}\n"));
    }
}

/// Puts the body with its constants folded in the place of each body.
fn fold_bodies(alloc: Global, unit: &mut Unit) -> Result<(), AllocError> {
    for pou in unit.pous.iter_mut() {
        pou.body = fold_body(alloc, &pou.body)?;
    }
    Ok(())
}

/// Adds a unit as text on a line.
fn push_shown(alloc: Global, page: &mut Page, unit: &Unit) {
    let mut shown = Page::new(alloc);
    show_unit(unit, &mut shown);
    if shown.is_short() {
        page.refuse();
    }
    let text = shown.as_slice();
    page.add_bytes(text.strip_suffix(b" ".as_slice()).unwrap_or(text));
    page.add("\n");
}

fn push_unit(alloc: Global, page: &mut Page, wanted: Wanted, unit: &mut Unit) {
    match wanted {
        Wanted::Accepted => page.line("ACCEPTED"),
        Wanted::Folded => {
            if fold_bodies(alloc, unit).is_err() {
                page.refuse();
            }
            push_shown(alloc, page, unit);
        }
        _ => push_shown(alloc, page, unit),
    }
}

fn push_tree(alloc: Global, page: &mut Page, wanted: Wanted, text: &[u8], tokens: &[Token]) {
    match parse(alloc, text, tokens) {
        Ok(mut unit) => {
            push_unit(alloc, page, wanted, &mut unit);
            drop(unit);
        }
        Err(ParseFault::At { token }) => {
            page.add("NO TREE");
            page.number(token as i128);
            page.add("\n");
        }
        Err(ParseFault::Memory) => page.refuse(),
    }
}

fn push_lexed(alloc: Global, page: &mut Page, wanted: Wanted, text: &[u8], tokens: &[Token]) {
    match wanted {
        Wanted::Tokens => push_tokens(alloc, page, tokens),
        Wanted::Count => {
            page.add_number(tokens.len() as i128);
            page.add("\n");
        }
        _ => push_tree(alloc, page, wanted, text, tokens),
    }
}

fn push_text(alloc: Global, page: &mut Page, wanted: Wanted, text: &[u8]) {
    match lex(alloc, text) {
        Ok(tokens) => push_lexed(alloc, page, wanted, text, tokens.as_slice()),
        Err(LexFault::Bad { line, column }) => {
            page.add("NO TOKEN");
            page.number(line as i128);
            page.number(column as i128);
            page.add("\n");
        }
        Err(LexFault::Memory) => page.refuse(),
    }
}

/// Adds what is wanted of the last of files, with a line in place of `..`.
pub fn push_spelled(alloc: Global, page: &mut Page, files: &[File], wanted: Wanted, given: &str) {
    let Some(file) = files.last() else {
        return;
    };
    match file.text(alloc, given) {
        Ok(text) => push_text(alloc, page, wanted, text.as_slice()),
        Err(_) => page.refuse(),
    }
}

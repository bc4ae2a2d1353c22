//! The requests that the pieces of an input are (`serve_requests`).

use crate::printing::{bytes_of, push_byte};
use serve_requests::{Ended, Held, Splitter, Taken};
use std::alloc::{AllocError, Global};
use try_text::Page;

/// How many bytes are printed at most; of more the number is.
const SHOWN: usize = 64;

/// Adds bytes, or how many they are.
fn push_shown(page: &mut Page, bytes: &[u8]) {
    if bytes.len() > SHOWN {
        page.add("#");
        return page.add_number(bytes.len() as i128);
    }
    for byte in bytes {
        push_byte(page, *byte);
    }
}

/// Adds a request: its line, and the bytes after it.
fn push_request(page: &mut Page, line: &[u8], body: &[u8]) {
    page.add(" [");
    push_shown(page, line);
    page.add("](");
    push_shown(page, body);
    page.add(")");
}

/// Adds a request of which bytes were held.
fn push_held(page: &mut Page, held: &Held) {
    let (line, body) = held.request();
    push_request(page, line, body);
}

/// Adds the request that ended, if one did.
fn push_ended(page: &mut Page, ended: &Ended<'_>) {
    match ended {
        Ended::Nothing => {}
        Ended::Line(line) => push_request(page, line, b""),
        Ended::Held(held) => push_held(page, held),
    }
}

/// Adds the requests that end in a piece, and then a mark.
fn push_piece(page: &mut Page, splitter: &mut Splitter, piece: &[u8]) -> Result<(), AllocError> {
    let mut rest = piece;
    while !rest.is_empty() {
        let Taken { ended, rest: after } = splitter.take(rest)?;
        push_ended(page, &ended);
        rest = after;
    }
    page.add(" |");
    Ok(())
}

/// Adds the requests of pieces that words spell, and the one that their end ends; `-` where there is none.
fn push_pieces(alloc: Global, page: &mut Page, words: &str) -> Result<(), AllocError> {
    let mut splitter = Splitter::new(alloc);
    for piece in words.split("|") {
        let bytes = bytes_of(alloc, piece)?;
        push_piece(page, &mut splitter, bytes.as_slice())?;
    }
    match splitter.end() {
        Some(held) => push_held(page, &held),
        None => page.word("-"),
    }
    Ok(())
}

/// The requests of an input that comes in pieces, with a `|` between two.
pub fn push_split(alloc: Global, page: &mut Page, words: &str) {
    if push_pieces(alloc, page, words).is_err() {
        page.refuse();
    }
}

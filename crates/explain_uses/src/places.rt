//! Where literals and operators stand, which have no place in a tree.

use crate::comments::comment_at;
use explain_tokens::{sign_at, sign_before};
use st_lexer::Token;

/// How far a walk of a body has come: the byte of the name that it passed last, and how many literals and divisions it passed behind that.
#[derive(Clone, Copy, Drop)]
pub struct Passed {
    pub at: usize,
    pub literals: usize,
    pub divisions: usize,
}

/// What is sought among tokens.
#[derive(Clone, Copy, Drop)]
pub enum Sought {
    /// A literal, and of the two of a range the first.
    Literal,
    /// An operator that divides.
    Division,
}

/// Whether the token of a number is what is sought.
fn is_sought(tokens: &[Token], number: usize, sought: Sought) -> bool {
    match (sought, sign_at(tokens, number)) {
        (Sought::Literal, "TRUE" | "FALSE" | "int" | "literal") => {
            let back = if sign_before(tokens, number, 1) == "-" {
                2
            } else {
                1
            };
            sign_before(tokens, number, back) != ".."
        }
        (Sought::Division, "/" | "MOD") => true,
        _ => false,
    }
}

/// The number of the first token of a body from a byte on: the one there, where that stands in the body, or the one behind the unit's declarations.
fn first_in_body(tokens: &[Token], at: usize) -> usize {
    let start = tokens.iter().position(|token| token.from >= at);
    let start = start.unwrap_or(tokens.len());
    let mut first = start;
    for number in start..tokens.len() {
        match sign_at(tokens, number) {
            "END_VAR" => first = number,
            "END_PROGRAM" | "END_FUNCTION_BLOCK" => return first,
            _ => {}
        }
    }
    first
}

/// The bytes of what is sought in a body behind a byte, the one of a number from 0; none where there is none.
pub fn place_of(tokens: &[Token], at: usize, sought: Sought, number: usize) -> (usize, usize) {
    let mut left = number;
    for number in first_in_body(tokens, at)..tokens.len() {
        if is_sought(tokens, number, sought) {
            if left == 0 {
                return tokens
                    .get(number)
                    .map_or((0, 0), |token| (token.from, token.until));
            }
            left = left.saturating_sub(1);
        }
    }
    (0, 0)
}

/// The first byte, from one on, that is neither blank nor in a comment.
fn behind_blanks(text: &[u8], from: usize) -> usize {
    let mut at = from;
    for _ in from..text.len() {
        at = match (text.get(at), comment_at(text, at)) {
            (_, Some(comment)) => comment.until,
            (Some(b' ' | b'\t' | b'\n' | b'\x0C' | b'\r'), None) => at.saturating_add(1),
            _ => return at,
        };
    }
    at
}

/// The bytes of the address of a name that ends before a byte.
pub fn address_behind(text: &[u8], until: usize) -> (usize, usize) {
    let at = behind_blanks(text, until);
    let from = behind_blanks(text, at.saturating_add(2));
    let rest = text.get(from..).unwrap_or(b"");
    let len = rest.iter().position(|byte| !(byte.is_ascii_alphanumeric()
        || matches!(byte, b'%' | b'.' | b'*')));
    (from, from.saturating_add(len.unwrap_or(rest.len())))
}

//! Lines and columns.

ghost use Rattle.std.specs.Prelude.{◌≡◌, ◌≤◌, ◌+◌, ◌==◌, not, length, count_by};
ghost use Rattle.std.specs.List.{suffix_len};
ghost use Rattle.st_lexer.specs.Lexes.{mark_len, unmarked, start_of};
ghost use Rattle.st_lexer.specs.Places.{line_at, column_at};

use crate::token::Token;

/// How many bytes of a byte order mark a text begins with: 3 for EF BB BF, else 0.
pub fn mark_len(text: &[u8]) -> usize
    ensures found { result ≡ mark_len text.now }
    ensures within { result ≤ length text.now }
{
    match text {
        [0xEF, 0xBB, 0xBF, ..] => 3,
        _ => 0,
    }
}

/// The line and the column of the place after these bytes, which are all that stand before it.
///
/// Both count from 1, and the column in bytes. Only LF ends a line.
pub fn place_after(before: &[u8]) -> (usize, usize)
    ensures line { result.0 ≡ count_by (λ b. b == 10) before.now + 1 }
    ensures column { result.1 ≡ suffix_len (λ b. not (b == 10)) before.now + 1 }
{
    let mut line = 1;
    let mut column = 1;
    for byte in before {
        if *byte == b'\n' {
            line += 1;
            column = 1;
        } else {
            column += 1;
        }
    }
    (line, column)
}

// Where the token of this number begins, or where the text ends if it has fewer tokens; a byte order mark isn't counted.
fn start_of(text: &[u8], tokens: &[Token], number: usize) -> usize
    ensures { result ≡ start_of text.now tokens.now number }
{
    let start = match tokens.get(number) {
        Some(token) => token.from,
        None => text.len(),
    };
    start.saturating_sub(mark_len(text))
}

// The line and the column of a place in a text; one after the text's end is at its end.
fn place_at(text: &[u8], at: usize) -> (usize, usize)
    ensures line { result.0 ≡ line_at text.now at }
    ensures column { result.1 ≡ column_at text.now at }
{
    match text.get(..at) {
        Some(before) => place_after(before),
        None => place_after(text),
    }
}

/// The line and the column at which the token of this number begins, or the text ends if it has fewer tokens.
///
/// Tokens are numbered from 0. Line and column count from 1, and the column in bytes; a byte order mark is not counted.
pub fn place_of(text: &[u8], tokens: &[Token], number: usize) -> (usize, usize)
    ensures line { result.0 ≡ line_at (unmarked text.now) (start_of text.now tokens.now number) }
    ensures column { result.1 ≡ column_at (unmarked text.now) (start_of text.now tokens.now number) }
{
    let body = &text[mark_len(text)..];
    place_at(body, start_of(text, tokens, number))
}

//! The pieces of a text.

use crate::token::TokenKind;

/// A piece of a text: a separator or a token.
#[derive(Clone, Copy, Drop)]
pub enum Piece {
    /// One space, tab, line feed, form feed or carriage return.
    Blank,
    /// From `(*` to the first `*)`, from `/*` to the first `*/`, or from `//` to the end of the line.
    Comment,
    /// Anything else, by its kind.
    Token(TokenKind),
}

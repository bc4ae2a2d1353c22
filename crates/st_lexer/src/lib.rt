//! The tokens of a source text (IEC 61131-3 Structured Text, this profile's spelling).
//!
//! Layer st_: it must not know cells, code, alarms or files.
#![tactic(auto)]

mod addresses;
mod bytes;
mod comments;
mod durations;
mod laws;
mod lexer;
mod literals;
mod next;
mod numbers;
mod piece;
mod places;
mod tables;
mod token;

pub use laws::{one_answer, one_cut, some_answer, word_spelling};
pub use lexer::{LexFault, lex};
pub use piece::Piece;
pub use places::place_of;
pub use token::{Keyword, Symbol, Token, TokenKind};

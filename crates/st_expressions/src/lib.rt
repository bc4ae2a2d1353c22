//! What the parser of Structured Text reads with: the tokens that are left, phrases one after another, and expressions. Each function returns what stands at the front of the tokens, or refuses the first token that does not fit.
//!
//! Contracts speak of a text's tokens as lexemes.
//!
//! Layer st_: it must not know cells, code, alarms or files.
#![tactic(auto)]

mod expr;
mod phrases;
mod reader;
mod stop;

pub use expr::{expression, negated, unknown_bounds};
pub use phrases::{Phrase, parse_after, parse_all};
pub use reader::Reader;
pub use stop::ParseStop;

//! The tokens of a source, what stands beside them, and the causes that are told of the files of a plant.
//!
//! A token is told by its sign, a short text as `word`, `END_IF` or `:=`, and where it stands by a word as `value`. What is said stands in tables of texts. A
//! cause is the bytes that are wrong and a sentence that a person understands. No clause says that it is the right one; that is tried on examples.
//!
//! Layer explain_: it must not know events or commands.
#![tactic(auto)]

mod cause;
mod near;
mod patterns;
mod place;
mod spot;
mod tokens;

pub use cause::{Cause, byte_at, cause_at, cause_of, part};
pub use near::{within_one, within_two};
pub use patterns::{closing_of, fits, said_of};
pub use place::TokenPlace;
pub use spot::{FileOf, Spot};
pub use tokens::{
    opens_section, sign_at, sign_before, sign_of, span_of, start_of, tokens_of, word_at,
};

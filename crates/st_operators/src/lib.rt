//! Operators of Structured Text on words of 64 bits: what `eval_unary` and `eval_binary` of st_tree give, without wider words where that is
//! possible.
//!
//! Layer st_: it must not know cells, code, alarms or files.
#![tactic(auto)]

mod words;

pub use words::{apply_binary, apply_unary, factor_of, has_remainder, near_sum, remainder_by};

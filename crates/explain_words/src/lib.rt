//! What a word or a sign in a source is told as: words of other dialects and words that are nearly a keyword (C5), and what stands around a token by which it
//! is more than its sign, as a label, or a `:=` in a condition.
//!
//! Words and signs are told by tables of texts. A word that its unit declares is a name, and never one of another dialect. No clause says what is told; that is
//! tried on examples.
//!
//! Layer explain_: it must not know events or commands.
#![tactic(auto)]

mod around;
mod signs;
mod words;

pub use around::{
    begins_call, begins_statement, closed_in, has_else, has_loose_end, is_behind_cased, is_braced,
    is_chosen, is_colon, is_in_case, is_in_line, is_label, is_labelling, is_second_kind,
    is_variable, lacks_end_var, next_end, parts_arguments, parts_case, statement_start,
};
pub use signs::{is_behind_title, is_marked, told_before, told_sign};
pub use words::{GRAMMAR, Misnomer, Said, misnomer, parted_len};

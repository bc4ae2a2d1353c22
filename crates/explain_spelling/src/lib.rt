//! Why bytes of a source begin no token (C4), and how far what they begin reaches.
//!
//! Marks are told by a table of texts. No clause says what is told; that is tried on examples.
//!
//! Layer explain_: it must not know events or commands.
#![tactic(auto)]

mod spelling;

pub use spelling::{first_character, misspelled_at, quoted_len, run_len};

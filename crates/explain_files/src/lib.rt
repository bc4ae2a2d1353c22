//! Where the keys of a plant file stand, which files it lists, and the texts of these, though it may be wrong: for what is told of them.
//!
//! `keys_of` finds the bytes of keys and values, for whoever shows one. `files_listed` says which files a plant file lists, and `Gathered` has their texts, from a
//! `Shelf`.
//!
//! No clause says what is found; that is tried on examples.
//!
//! Layer explain_: it must not know events or commands.
#![tactic(auto)]

mod gathered;
mod keys;
mod lines;
mod listed;
mod meant;

pub use gathered::{Gathered, MissingFile, Shelf, Shelved};
pub use keys::{KeyLine, Keys, Mark, NOBODY, keys_of};
pub use lines::{line_number, line_of};
pub use listed::{Listed, ListedFile, files_listed, key_of};

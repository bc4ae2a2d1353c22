//! What a person is told of a plant file that is refused (C1 to C3).
//!
//! What is wrong its reader, plant_file, has found: `no_document` tells why a text is no TOML document, and reads it on behind a line that is wrong by itself,
//! `wrong_keys` tells of keys and of what stands under them, `wrong_epoch` of the epoch. `areas_of` says which areas a plant file lists, though it may be wrong.
//!
//! No clause says what is told; that is tried on examples.
//!
//! Layer explain_: it must not know events or commands.
#![tactic(auto)]

mod areas;
mod broken;
mod document;
mod epochs;

pub use areas::{areas_of, strange_area};
pub use document::{WIDE, is_wide, no_document, wrong_epoch, wrong_keys};

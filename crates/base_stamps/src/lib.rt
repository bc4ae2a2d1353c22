//! Epochs and stamps: civil times in UTC, as text.
//!
//! Layer base_: it must not know sources, alarms or files.
#![tactic(auto)]

mod epoch;
mod instant;

pub use epoch::Epoch;

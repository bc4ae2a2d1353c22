//! The codes of the programs of a table of frames, and their runs.
//!
//! Codes are made once, when a plant is read: the frames that programs have instances of are folded and counted, and then one program after another is
//! folded, counted and compiled behind these, and let go. No frame is kept. What is known of a code speaks of the frames as they were given: it
//! runs as its frame does (`specs/Codes.antt`).
//!
//! Runs share one stack, which is made as long as a code needs before that code runs.
//!
//! Layer vm_: it must not know alarms, files or threads.
#![tactic(auto)]

mod codes;
mod folding;
mod running;

pub use codes::{codes_of, copy_codes};
pub use running::{Stack, run_code_counted};

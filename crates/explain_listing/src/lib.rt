//! What there is in an accepted plant, as a person reads it: its programs with their costs and levels, its alarms by area, and its consoles.
//!
//! What is told is asked of `Plant` and `Levelled` by their own calls; that it is laid out so is tried on examples.
//!
//! Layer explain_: it must not know events or commands.
#![tactic(auto)]

mod columns;
mod tables;
mod widths;

pub use tables::listing;

//! The instances of a table of frames, by which the paths below a frame are written: all that is left of the frames once their codes are made.
//!
//! Contracts see the frames whole, as they were when the table was made. Their statements take no memory any more.
//!
//! Layer logic_: it must not know instructions, alarms, files or threads.
#![tactic(auto)]

mod outlines;
mod table;

pub use table::SeatTable;

//! Where the instances of a routine lie: the seats of a frame.
//!
//! A routine's instances lie one behind another, each with so many values, clocks and path numbers as its block type has by a table of what is
//! known of each (`specs/Seats.antt`). An instance has path numbers only where the routine calls it: `called_in` gathers the names that a body
//! calls.
//!
//! Layer logic_: it must not know instructions, alarms, files or threads.
#![tactic(auto)]

mod called;
mod seats;

pub use called::{called_in, is_among};
pub use seats::{Callee, Extent, has_starts, seats_by};

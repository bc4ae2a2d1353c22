//! What ties a console to the owner of the engine: a ring for its orders and a ring for their answers.
//!
//! A console's ends are its `ConsoleRings`, which goes to a thread of its own; the owner keeps a `Lane` for each. Neither end waits, and none of
//! their calls takes memory. The two lists of a ring, what was put in and what was taken out, are joined where both ends have come to one
//! thread again, in `Lane::end`; before that each end knows its own list alone.
//!
//! The crate is generic in the order `O` and in the reply `R`, so that it stands on neither the engine nor the history.
//!
//! Layer console_: it must not know the bytes of commands.
#![tactic(auto)]

mod answer;
mod console;
mod lane;

pub use answer::Answer;
pub use console::{ConsoleRings, FinishedRings};
pub use lane::{Lane, open};

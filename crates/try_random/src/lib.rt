//! Sources with random programs, from dice: the same for the same seed.
//!
//! A source (`source`) has two block types and 2 to 12 programs, which share globals, with bodies of every statement and every operator,
//! nested, with calls and timers, and with arrays, whose indices are now and then out of bounds. Nothing here is part of the server.
//!
//! Layer try_: nothing of the product stands on it.
#![tactic(auto)]

mod bodies;
mod dice;
mod names;

pub use bodies::source;
pub use dice::Dice;

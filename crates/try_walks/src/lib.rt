//! Programs that run as their source is read: a walk, statement by statement, over cells.
//!
//! A server runs codes. What tries it runs both ways side by side: for this the frames of a source are made again, from its texts.
//!
//! Layer try_: nothing of the product stands on it.
#![tactic(auto)]

mod walker;

pub use walker::Walker;

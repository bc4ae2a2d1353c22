//! What operators ask.
//!
//! An order is a verb and what it is for. Consoles submit orders, boards show them, and each that is taken is an event of a history.
//!
//! Layer alarm_: it must not know programs, sources or files.
#![tactic(auto)]

mod order;

pub use order::Order;

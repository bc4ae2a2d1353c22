//! How the orders that wait are taken and answered.
//!
//! An order is taken of a console's lane, the owner's ends of its rings: it becomes the next event of a history, and its reply goes into the console's
//! ring. What makes it an event is known by its contract alone (`Recording`), so no function here names an engine: who owns one, or a lock round
//! one, proves how each of its parts is let go.
//!
//! Layer console_: it must not know the bytes of commands.
#![tactic(auto)]

mod answering;
mod recording;

pub use answering::{TakenOrders, take_parts};
pub use recording::{NotTaken, Recording};

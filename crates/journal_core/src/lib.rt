//! The journal of a plant's alarms: its numbered rows, and the text of each.
//!
//! A row says what an event did: a program's fault, the change of an alarm's code, or an operator's order with its reply.
//!
//! Layer engine_: it must not know the bytes of commands, or what people are told.
#![tactic(auto)]

mod log;
mod packing;
mod row;
mod text;

pub use log::Log;
pub use row::{Entry, Row};
pub use text::row_text;

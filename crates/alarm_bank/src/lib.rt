//! The alarms of a plant: each takes its step by itself, their codes are counted, and the least end of their shelves is known at once.
//!
//! An event changes the alarms by the table of `alarm_machine` and takes no memory. An annunciator has places for the alarms of another plant too. A scan may also be made ready as the list of the
//! alarms that it moves, while the bank stays; and its steps may be shared out among threads.
//!
//! Layer alarm_: it must not know programs, sources or files.
#![tactic(auto)]

mod annunciator;
mod bank;
mod event;
mod marks;
mod moves;
mod news;
mod rows;
mod shelf;
mod signals;

pub use alarm_counts::{Counted, Summary};
pub use annunciator::Annunciator;
pub use bank::Bank;
pub use event::BankEvent;
pub use marks::{BITS, Marks};
pub use moves::Moves;
pub use rows::{NewAlarm, Site};
pub use shelf::Shelf;
pub use signals::Signals;

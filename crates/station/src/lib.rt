//! A station: an engine with consoles in threads of their own, a board that they look at, and an archive that other threads read.
//!
//! The thread that owns a station calls `turn`: a scan, and then the orders that wait in the consoles' rings. Each of them is an event of the one
//! history and of the archive's, is shown on the board, and its reply goes into its console's ring. No console waits for the owner. The owner waits, at
//! each event, for who reads the archive, and for a console that holds a view of the board while two events are shown.
//!
//! Contracts see a station as its engine, its crew, its share of the ledger that counts the events of the engine and of the archive, and its lanes, the
//! owner's ends of the consoles' rings. Each lane has taken just the orders that the history has of its console, and has given their replies; `close`
//! says so of what each console submitted and took. Events go through one place, the `Recorder` of console_recorder.
//!
//! Layer console_: it must not know the bytes of commands.
#![tactic(auto)]

mod closing;
mod laws;
mod opening;
mod recording;
mod station;

pub use closing::Closing;
pub use console_link::Answer;
pub use console_operator::BoardView;
pub use console_recorder::{
    AlarmState, Archive, Book, Engine, Order, OrderFault, Plant, Reply, Verb,
};
pub use laws::{consoles_saw, consoles_stay};
pub use opening::StationFault;
pub use station::{Station, Turn};

/// An operator's console, which may go to a thread of its own.
pub type Console = console_operator::Console<console_recorder::Order, console_recorder::Reply>;

/// A console that has ended.
pub type Finished = console_operator::Finished<console_recorder::Order, console_recorder::Reply>;

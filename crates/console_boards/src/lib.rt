//! Boards: what consoles see of the history, read without a lock.
//!
//! A board shows the alarms of a plant after a list of entries, one for each event of the history. It has places for the alarms of a plant that takes the place
//! of this one. The owner of the engine has the writer, which
//! takes in entries and publishes; each console has a reader. There are two copies of the board, and readers have the one that was published
//! last, so that a reader never waits. Beside its alarms a board keeps, for contracts alone, the list of its entries: what a reader sees is
//! always the alarms after a list that begins with every list that this reader saw before. Contracts know which consoles' orders a board counts from
//! the picture with which it opens.
//!
//! The writer has a log of all entries that were laid by, and each board that is shown has a mark of its list in that log. So of whatever two readers
//! saw, and of what the writer laid by, each list is a beginning of one list.
//!
//! What an order is answered is the outcome of an alarm bank (`OrderOutcome`), so that the crate stands below the engine, whose replies say the same.
//!
//! Layer console_: it must not know the bytes of commands.
#![tactic(auto)]

mod board;
mod entry;
mod laws;
mod picture;
mod reader;
mod replies;
mod rule;
mod tally;
mod view;
mod writer;

pub use board::Board;
pub use entry::{AnsweredOrder, BoardEntry, Operation, OrderOutcome};
pub use laws::{orders_are_counted, replies_are_of_the_table};
pub use picture::Picture;
pub use reader::{BoardReader, BoardReading};
pub use rule::Grows;
pub use tally::Tally;
pub use view::View;
pub use writer::BoardWriter;

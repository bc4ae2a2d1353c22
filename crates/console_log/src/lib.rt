//! A log that only grows, and marks of it. A mark says that the log has had a list of entries: so of two marks of one log both lists are beginnings
//! of one list. No entry is stored: lists are for contracts alone, and a mark has no bytes.
//!
//! One end adds, and has the log's count. Its entries are counted in a word that only changes in single steps, under the rule that the word is the
//! number of entries (`logbook`). To add an entry is to count one more, where the word is still what this end knows.
//!
//! Layer console_: it must not know the bytes of commands.
#![tactic(auto)]

mod log;
mod mark;
mod rule;

pub use log::Log;
pub use mark::{LogName, Mark};

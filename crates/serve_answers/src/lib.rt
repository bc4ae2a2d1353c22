//! What the server answers to a command: what a line asks for is done, and its answer is made.
//!
//! What the answer is, and which events the command adds to the history, are definitions (`command_answer`, `command_events`), by the state that the history
//! so far has left. `answer_line` does what a line asks for, its programs run by any crew, and appends the answer to a text; the list of alarms and the journal,
//! which may be long, it leaves to `write_list` and `write_journal`, which write them as they are made.
//!
//! Layer serve_: it must not know consoles in threads, nor, but for `main`, what people are told.
#![tactic(auto)]

mod answer;
mod listings;
mod spilling;

pub use answer::{Said, answer_line};
pub use engine::{Crew, Done, Engine, EngineFault, Job, Start};
pub use spilling::{write_journal, write_list};

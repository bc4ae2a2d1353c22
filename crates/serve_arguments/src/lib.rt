//! The command line: which of its three things the program is asked for, and the status with which it ends.
//!
//! The words are read by `clap`. The command line is a definition in its words (`alarmd`), and what is chosen is its own function of
//! that definition and the words (`choice_of`). The texts of help and usage are in no contract.
//!
//! Layer serve_: it must not know consoles in threads, nor, but for `main`, what people are told.
#![tactic(auto)]

mod choice;
mod ended;
mod line;
mod words;

pub use choice::{Choice, UsageFault};
pub use ended::{Ended, status};
pub use line::MOST_WORKERS;
pub use words::choose;

//! The lines of a session: the command that a line asks for, and the lines of its answer.
//!
//! The command of a line (`command_of`) and each line of an answer (`alarm_line` and the others) are definitions on bytes, which the functions here compute.
//!
//! Layer serve_: it must not know consoles in threads, nor, but for `main`, what people are told.
#![tactic(auto)]

mod command;
mod faults;
mod given;
mod laws;
mod lines;
mod numbers;
mod outputs;
mod parse;
mod placing;
mod pool;
mod reloads;
mod words;

pub use command::Command;
pub use laws::printed_words_are_commands;
pub use lines::{
    push_alarm, push_count, push_done, push_end, push_fault, push_out, push_refused, push_reloaded,
    push_reply, push_row, push_state,
};
pub use outputs::{OutFront, put_out};
pub use parse::read_command;
pub use placing::{AlarmFront, put_alarm};
pub use pool::Pool;
pub use reloads::{TextSizes, reload_size, reload_sizes};

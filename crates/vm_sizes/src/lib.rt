//! Counts how much code the frames of a table become: instructions, words of stack, and paths.
//!
//! A frame is laid out anew for each instance that is called, so that the counts of a frame are by those of the frames before it. The frames of
//! a table are counted once, in their order.
//!
//! Instructions are counted exactly: each frame has fewer than 2^32, as the caller knows, since a frame that a program comes to call has at most
//! three for each unit of the program's size. Words of stack and paths are counted up to 2^64 - 1, and never refused: of a frame that becomes
//! code, both are below that, as codegen proves.
//!
//! Layer vm_: it must not know alarms, files or threads.
#![tactic(auto)]

mod capping;
mod counts;
mod lines;
mod paths;
mod turns;
mod words;

pub use counts::{Count, FrameCounts, count_frame, count_frames};
pub use lines::{body_lines, branches_lines, choices_lines, expr_lines, inputs_lines, stmt_lines};
pub use turns::{constant_span, frame_turns};

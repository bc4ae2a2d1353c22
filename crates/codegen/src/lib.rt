//! The compiler: the code of a program, laid out flat from the frames that it calls.
//!
//! The code of a frame is `specs/Codes.antt`. It names absolute slots of values and clocks, so that a routine is laid out anew for each instance
//! that is called. The law of the compiler is `RunsFrame` there: the machine runs the code to the end that the frame comes to.
//!
//! Code is emitted in order, line by line: each line is an instruction and its place. Where a jump leads is known beforehand by the counts of
//! vm_sizes, so that no line is written twice. The counts of the frames are found once for all programs of a table. Lines, slots and
//! clocks, where the values and clocks of an instance begin, its paths, and the turns of a FOR always have room: what the whole has room for, each part is
//! known to have room for. What is told as the cost of a code is given: it may be more than the frames cost of which the code is made.
//!
//! Layer vm_: it must not know alarms, files or threads.
#![tactic(auto)]

mod arguments;
mod emission;
mod expressions;
mod joining;
mod laws;
mod lines;
mod named;
mod numbers;
mod program;
mod scope;

pub use laws::frame_code_is_as_long;
pub use program::compile_counted;
pub use scope::PlacedProgram;
pub use vm_sizes::{FrameCounts, count_frame, count_frames};

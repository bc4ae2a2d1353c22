//! Runs the bodies of programs and function blocks over cells, where an instance of a block is a place in the cells.
//!
//! Each routine, a program or a block type, has one body over numbers, in a frame; no body is made for an instance. The frames stand in a
//! table in which each calls those before it alone. An instance is a seat in the frame of its routine: where its values and its clock lie,
//! from those of the routine on. A seat says whether the routine calls the instance; one of a frame that isn't called has no path, and a call
//! of it does nothing.
//!
//! A frame says whether it assigns an initial value, or an instance below it does, and how many standard blocks it has, nested ones too. So
//! an instance with no initial value below it is skipped when these are assigned, and one with no standard block when these are listed.
//!
//! The paths below a frame have numbers: 0 is the frame's own, and those below its instances follow, instance by instance. A trap comes with
//! the number of its path, which can be written out as names.
//!
//! In a body a variable below the number of globals is the global of that number; the others are the routine's own, in order. An instance is
//! the number of its seat. An input or output is, for a standard block, 0 (IN or CLK, and Q) or 1 (PT, and ET), and for a frame the number of
//! its own variable. A number for which there is nothing reads 0 and writes nothing.
//!
//! Layer logic_: it must not know instructions, alarms, files or threads.
#![tactic(auto)]

mod copy;
mod frame;
mod laws;
mod paths;
mod reading;
mod standards;
mod starts;
mod walk;
mod walker;

pub use copy::copy_seats;
pub use frame::{Base, Frame, Seat, SeatOf};
pub use laws::{frame_runs_its_body, seats_lie_apart};
pub use paths::push_path;
pub use standards::push_standards;
pub use starts::start_frame;
pub use walker::walk_frame;

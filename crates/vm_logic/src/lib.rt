//! The logic of a plant, made ready to run, and its runs.
//!
//! `Framed::of` judges the limits on slots, size and cost, and makes a code of each program, by way of a frame of each program and of each
//! block type that a program uses. The code and the names are kept, and neither the statements nor the frames: contracts alone see these.
//! `run` runs the code of a program over cells. It ends as the source does, and leaves the same cells.
//!
//! The cells have the values of the globals, then those of each program in turn with its instances; so have they the standard blocks. A
//! program has a frame, the numbers of its first value and of its first standard block, and the number of its first path: its own path
//! has that number, and those of the instances that it calls follow.
//!
//! Layer vm_: it must not know alarms, files or threads.
#![tactic(auto)]

mod framed;
mod headings;
mod laws;
mod names;
mod opening;
mod paths;
mod standards;
mod values;
mod walking;

pub use framed::{Framed, walked};
pub use headings::Heading;
pub use laws::{
    as_many_cells, assigned_global_stays_in_range, cell_of_global, each_found, found_global,
    global_is_in_range, opening_world_is_in_range, place_is_in_source, program_stays_in_range,
    programs_share_no_cell, sound_source_is_small, standing_cells_are_there, written_cell,
};
pub use logic_limits::LimitFault;
pub use logic_source::{Mistyped, TypeFault, Typed, Variable, check};
pub use paths::path_bases;
pub use standards::{Standards, standards_of};
pub use values::value_bases;
pub use vm_programs::Stack;
pub use walking::{Walked, run, run_counted};

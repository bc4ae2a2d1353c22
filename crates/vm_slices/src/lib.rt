//! What a program's code names of all cells, and its run over these alone.
//!
//! Instructions read slots, write slots and name clocks (`specs/Slots.antt`). A run leaves all that its code doesn't write as it was, and how
//! it ends depends on what the code names alone. So a part of the cells is enough for it: each slot and clock that the code names, by numbers
//! from 0 on, and the code by these numbers (`specs/Parts.antt`). Parts are made in time linear in the instructions, whatever the plant's size.
//!
//! Layer vm_: it must not know alarms, files or threads.
#![tactic(auto)]

mod laws;
mod named;
mod noting;
mod part;
mod pieces;
mod printed_code;
mod prints;
mod puts;
mod renaming;
mod rows;
mod same;

pub use laws::{
    part_keeps_rows, part_ran_as_whole, part_runs_as_whole, renamed_code_ends_alike,
    renamed_code_is_sound, renamed_code_runs_alike, run_keeps_what_isnt_written, standing_lasts,
};
pub use part::{Part, relocate};
pub use puts::put_clocks;
pub use same::same_cells;

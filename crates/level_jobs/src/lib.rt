//! Levels that are split into jobs, run in any order and gathered do what the programs do one after another.
//!
//! A level is split from the store into the jobs of its programs, each job runs by itself, and the runs are gathered in any order
//! (`specs/Gathers.antt`). The faults are those that the runs tell (`specs/Faults.antt`).
//!
//! `run_levels` runs all levels so, the jobs of each by a crew. The laws are for those who run the jobs in any other way.
//!
//! Layer level_: it must not know alarms, files or events.
#![tactic(auto)]

mod fault;
mod laws;
mod running;

pub use fault::ProgramFault;
pub use laws::{
    gathered_level_is_taken, gathered_levels_run_as_in_order, planned_levels_can_split,
    planned_parts_can_be_split,
};
pub use level_runs::plan_of;
pub use running::run_levels;
pub use slice_store::{Done, Job, Parts, Reserve, Start, Store};

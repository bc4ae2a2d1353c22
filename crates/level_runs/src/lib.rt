//! Programs in levels: run level by level, in any order within a level, they do what they do one after another.
//!
//! A store has slots (`specs/Stores.antt`). Each program names some of them and writes some of those; a run leaves all else as it was, and
//! how it ends depends on what the program names alone. Levels part the programs so that of two of which one writes what the other names the
//! earlier stands in the lower level (`specs/Levels.antt`). Then the levels in turn give the store, the faulted programs and the faults of
//! program order, whatever happens in which order within a level, and wherever programs trap.
//!
//! Of compiled programs, a code names slots of the cells, and writes some of them (`specs/Programs.antt`). Its level is that of the plan of what the codes
//! do to the globals; beside the globals each program has values and clocks of its own (`specs/Accesses.antt`).
//!
//! Layer level_: it must not know alarms, files or events.
#![tactic(auto)]

mod laws;
mod order;
mod planning;

pub use laws::{
    codes_are_local, plan_gives_levels, planned_levels_are_fewest, planned_levels_are_tight,
    planned_levels_run_as_in_order,
};
pub use order::{levels_are_as_in_order, levels_can_be_run, runs_make_a_level};
pub use planning::plan_of;

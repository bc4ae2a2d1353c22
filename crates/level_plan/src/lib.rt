//! Which programs of a plant may run at the same time, by the globals that each reads and writes.
//!
//! Programs run in order. Two conflict if one of them writes a global that the other reads or writes. A program stands one level above the
//! highest earlier program with which it conflicts, and in level 1 if it conflicts with none. Programs of one level may run at the same
//! time.
//!
//! Layer level_: it must not know alarms, files or events.
#![tactic(auto)]

mod access;
mod laws;
mod levels;
mod planning;
mod tables;

pub use access::{Access, Extent, stay_within};
pub use laws::{
    apart_in_level, fewest_levels, from_one_to_last, levels_in_order, one_plan, tight_levels,
};
pub use levels::Levels;
pub use planning::plan;

//! The store of a plant's cells, and the jobs that the programs of a level are run by.
//!
//! A job begins from a program's part of the cells as they are, and holds them by itself, so any crew may run it, in any order. What jobs give
//! is gathered: what each run's program wrote goes into the store (`specs/Level.antt`). Runs of which a crew doesn't promise that they are one
//! of each job are compared with the starts that are out.
//!
//! A run that ended brings its job's memory back, and a later job of its number takes it: a store is lent a `Reserve` of such memory for a scan.
//!
//! Layer level_: it must not know alarms, files or events.
#![tactic(auto)]

mod crews;
mod done;
mod laws;
mod matching;
mod misfit;
mod parts;
mod reserve;
mod start;
mod store;

pub use done::{Done, Job};
pub use laws::{apart_codes_can_split, done_ran_as_whole, gathered_run_is_whole};
pub use misfit::Misfit;
pub use parts::Parts;
pub use reserve::Reserve;
pub use start::Start;
pub use store::Store;

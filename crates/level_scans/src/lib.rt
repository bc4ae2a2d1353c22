//! The programs of a scan: run one after another, or level by level by a crew.
//!
//! By the source a scan's programs run in program order (`specs/Scans.antt`). Over cells they leave what they leave in the worlds that the cells
//! stand for, however they are run (`specs/Runs.antt`). A store of cells goes over to a plant that takes the place of its own (`carry_store`).
//!
//! Layer level_: it must not know alarms, files or events.
#![tactic(auto)]

mod by_crew;
mod carrying;
mod given;
mod in_order;
mod levels;
mod parts;
mod placing;
mod running;
mod workspace;

pub use by_crew::run_by_crew;
pub use carrying::carry_store;
pub use given::{LevelsGiven, ScanChanged, ScanGiven};
pub use in_order::run_in_order;
pub use level_jobs::{Done, Job, Start};
pub use levels::Levelled;
pub use running::{plan_levels, run_programs};
pub use vm_carry::carry;
pub use workspace::Workspace;

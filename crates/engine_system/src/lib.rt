//! The system of a plant, and what one event makes of it.
//!
//! What is kept of a system (`State`) stands for its variables, programs, alarms and outputs. A scan and an order are made ready from it: that may be
//! refused, and leaves it as it is. What was made ready is then put in its place, which allocates nothing and can't fail. Here is no history: the
//! engine, which keeps one, stands above.
//!
//! The programs of a scan are run by any crew: what follows from a scan is the same for each.
//!
//! Layer engine_: it must not know the bytes of commands, or what people are told.
#![tactic(auto)]

mod event;
mod image;
mod orders;
mod reloading;
mod reloads;
mod scan;
mod state;
mod steps;

pub use engine_history::{AlarmRow, ConfigFault, Event, Files, History, Limit, Plant, Variable};
pub use event::{EngineFault, MOST_EVENTS, Reply, Report};
pub use image::Input;
pub use level_scans::{Levelled, Workspace, plan_levels};
pub use orders::{PreparedOrder, prepared_order};
pub use reloading::{ReadyReload, ready_reload};
pub use reloads::{may_reload, news_of};
pub use scan::{Before, Prepared, ReadyScan, Room, RunRoom, empty_report, prepared_scan};
pub use state::{Effect, ScanEffect, State, alarm_state, apply, apply_scan, opening_state};

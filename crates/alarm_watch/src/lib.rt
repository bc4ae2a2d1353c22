//! What alarms watch, and which of them a scan moves, found by the globals that changed.
//!
//! Contracts see `Watches` as the list of what each alarm watches. Beside it stand, for each global, the alarms that watch it, so that a
//! scan looks only at the alarms one of whose globals changed.
//!
//! Layer alarm_: it must not know programs, sources or files.
#![tactic(auto)]

mod chains;
mod watched;
mod watches;

pub use watched::{Watch, Watched, value_at};
pub use watches::{LastScan, Watches};

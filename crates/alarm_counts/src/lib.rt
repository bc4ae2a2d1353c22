//! How many alarms of each area and priority have each code, kept as codes change. A change of one alarm costs the same however many alarms there are.
//!
//! Layer alarm_: it must not know programs, sources or files.
#![tactic(auto)]

mod counted;
mod summary;

pub use counted::Counted;
pub use summary::Summary;

//! On-delays of alarms: whether a condition counts in a scan, and which alarms have one that comes to count by time alone.
//!
//! A condition counts once it has been met for as long as the alarm's delay, without a break: it is the Q of a TON (IEC 61131-3) that each scan calls. Of all
//! scans so far only a moment is kept for each alarm.
//!
//! Layer alarm_: it must not know programs, sources or files.
#![tactic(auto)]

mod delays;
mod listed;
mod since;

pub use delays::{Delays, alarms_follow, delays_agree, kept_scans_agree};
pub use listed::Listed;

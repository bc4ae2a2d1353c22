//! One alarm: its nine states, the table of their transitions, and the orders that it takes.
//!
//! The states are those of ANSI/ISA-18.2 and IEC 62682; the table with its codes, and every choice that the standards leave open, are this profile's.
//! Nothing here allocates memory, and an alarm knows neither clock nor console: each scan passes its condition, its suppression and the moment.
//!
//! Layer alarm_: it must not know programs, sources or files. Only its words of orders and of their refusals name a program, since an operator orders both.
#![tactic(auto)]

mod alarm;
mod change;
mod laws;
mod limits;
mod states;

pub use alarm::Alarm;
pub use change::Change;
pub use laws::{
    code_changes_are_reported, codes_print_differently, latch_outlasts_scans,
    new_condition_in_service_needs_ack, no_order_hides_standing_condition,
    no_unsuppressed_scan_acknowledges, only_ack_acknowledges, only_reset_ends_latch,
    repeated_scan_changes_nothing, standing_condition_is_shown,
};
pub use limits::{LAST_MOMENT, LONGEST_SHELVE_MS};
pub use states::{AlarmState, Code, OrderFault, Verb};

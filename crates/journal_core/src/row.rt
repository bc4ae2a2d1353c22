use alarm_machine::{Change, OrderFault, Verb};
use plant_types::{Place, Trap};

/// What a row tells.
#[derive(Clone, Copy, Drop)]
pub enum Entry {
    /// A program was faulted: where, and why.
    Fault(Place, Trap),
    /// The code of the alarm of this number changed.
    Alarm(u32, Change),
    /// An operator's order, whether it was done or refused.
    Order {
        /// The console's number.
        console: u32,
        /// What was ordered.
        verb: Verb,
        /// The number of the alarm, or of the program for a restart; `None` for one that isn't there.
        target: Option<u32>,
        /// Why it was refused; `None` if it was done.
        refused: Option<OrderFault>,
    },
    /// The plant was replaced while it ran: so many alarms kept their states, and so many are new.
    Reload {
        kept: u32,
        fresh: u32,
    },
}

/// One row of a journal.
#[derive(Clone, Copy, Drop)]
pub struct Row {
    /// The row's number, from 1.
    pub number: u64,
    /// The moment of its event, in milliseconds.
    pub moment: u64,
    /// What it tells.
    pub entry: Entry,
}

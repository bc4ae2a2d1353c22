//! What a scan lists of the alarms.

ghost use Rattle.std.specs.Prelude.{◌≡◌, []};

use alarm_machine::{Alarm, Change};
use std::alloc::Global;

/// The alarms that a scan moves, each by its number and as the scan leaves it, and the changes of their codes, both in order.
#[derive(Drop)]
pub struct Moves {
    /// The alarms.
    pub moved: Vec<(u32, Alarm)>,
    /// The changes of codes.
    pub changes: Vec<(u32, Change)>,
}

impl Moves {
    /// Lists of nothing.
    pub fn new(alloc: Global) -> Moves
        ensures moved { result.moved.items ≡ [] }
        ensures changes { result.changes.items ≡ [] }
    {
        Moves {
            moved: Vec::new(alloc),
            changes: Vec::new(alloc),
        }
    }
}

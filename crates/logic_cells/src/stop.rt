//! Where a run over cells stops.

use plant_types::{Place, Trap};

/// A run stopped before its end: where, and with which trap. The path has a number among those of what was run.
#[derive(Clone, Copy, Drop)]
pub struct Stop {
    pub place: Place,
    pub trap: Trap,
}

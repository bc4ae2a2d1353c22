//! What a scan lists of the alarms and their delays.

ghost use Rattle.std.specs.Prelude.{◌≡◌, []};

use alarm_bank::Moves;
use std::alloc::Global;

/// What a scan lists: the conditions that it may have changed, and the alarms that it moves with the changes of their codes.
#[derive(Drop)]
pub struct Listed {
    /// Alarms whose conditions it may have changed, by number, with their conditions; the others of these move.
    pub met: Vec<(u32, bool)>,
    /// The alarms that it moves, and the changes of their codes.
    pub moves: Moves,
}

impl Listed {
    /// Lists of nothing.
    pub fn new(alloc: Global) -> Listed
        ensures met { result.met.items ≡ [] }
        ensures moved { result.moves.moved.items ≡ [] }
        ensures changes { result.moves.changes.items ≡ [] }
    {
        Listed {
            met: Vec::new(alloc),
            moves: Moves::new(alloc),
        }
    }
}

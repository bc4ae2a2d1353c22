//! The consoles of a recorder's plant.

ghost use Rattle.std.specs.Prelude.{◌≡◌, [], IfOk};
ghost use Rattle.console_boards.specs.Readers.{published, log_kept};
ghost use Rattle.station.specs.Lanes.{AreConsolesOf};

use crate::opening::{Consoles, Lanes, StationFault, open_lanes};
use console_recorder::Recorder;
use std::alloc::Global;
use std::sync::ledger::Ledger;

/// A console and a lane for each that the plant of a recorder without events lists, in order. The consoles' readers are told of the board as it is.
pub(crate) fn open_consoles<L: Ledger>(
    alloc: Global,
    recorder: &mut Recorder<L>,
) -> Result<(Consoles, Lanes), StationFault>
    requires none { recorder.old.engine.history ≡ [] }
    ensures engine { recorder.new.engine ≡ recorder.old.engine }
    ensures share { recorder.new.share.parts ≡ recorder.old.share.parts }
    ensures log { log_kept recorder.new.board ≡ log_kept recorder.old.board }
    ensures opened { IfOk result (λ r. AreConsolesOf recorder.old.engine.plant
        (published recorder.old.board) (log_kept recorder.old.board) r.0.items r.1.items) }
{
    let Recorder { engine, board, .. } = recorder;
    open_lanes(alloc, engine.plant().consoles(), board)
}

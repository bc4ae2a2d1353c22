//! How a plant's consoles are made.

ghost use Rattle.std.specs.Prelude.{◌≡◌, IfOk, All};
ghost use Rattle.console_boards.specs.Readers.{published, laid, log_kept};
ghost use Rattle.station.specs.Lanes.{numbers_of, links_of, AreOpened, HasNotLooked, IsOfLog};

use console_boards::BoardWriter;
use console_link::{Lane, open};
use console_operator::Console;
use console_recorder::{Order, Reply};
use std::alloc::{AllocError, AllocFailed, Global};

/// Why there is no station.
#[derive(Clone, Copy)]
pub enum StationFault {
    /// Memory was refused.
    Memory,
    /// A console's reader of the board wasn't given.
    Ends,
}

impl From<AllocError> for StationFault {
    ghost use Rattle.std.specs.Prelude.{◌≡◌};
    ghost use Rattle.station.specs.declared.opening.StationFault.TheVariants.{Memory};

    ghost from_gives = { λ _ e. e ≡ Memory };

    fn from(_refused: AllocError) -> StationFault {
        StationFault::Memory
    }
}

impl<T: Drop> From<AllocFailed<T>> for StationFault {
    ghost use Rattle.std.specs.Prelude.{◌≡◌};
    ghost use Rattle.station.specs.declared.opening.StationFault.TheVariants.{Memory};

    ghost from_gives = { λ _ e. e ≡ Memory };

    fn from(_refused: AllocFailed<T>) -> StationFault {
        StationFault::Memory
    }
}

/// A plant's consoles, in order.
pub(crate) type Consoles = Vec<Console<Order, Reply>>;

/// The owner's ends of their rings, in the same order.
pub(crate) type Lanes = Vec<Lane<Order, Reply>>;

/// A console and a lane for each that a plant lists, in order. Each console's reader is told of the board as it is.
pub(crate) fn open_lanes(
    alloc: Global,
    listed: &[console_recorder::ListedConsole],
    board: &mut BoardWriter,
) -> Result<(Consoles, Lanes), StationFault>
    ensures same { (published board.new ≡ published board.old) × (laid board.new ≡ laid board.old)
        × (log_kept board.new ≡ log_kept board.old) }
    ensures opened { IfOk result (λ r. AreOpened (numbers_of listed.now)
        (links_of r.0.items) r.1.items) }
    ensures looks { IfOk result (λ r. All (HasNotLooked (published board.old)) r.0.items) }
    ensures marked { IfOk result (λ r. All (IsOfLog (log_kept board.old)) r.1.items) }
{
    let start = board.mark();
    let mut consoles = Vec::new(alloc);
    let mut lanes = Vec::new(alloc);
    for row in listed {
        let (link, lane) = open(alloc, row.number, &start)?;
        let Ok(reader) = board.reader() else {
            return Err(StationFault::Ends);
        };
        consoles.push(Console::new(link, reader))?;
        lanes.push(lane)?;
    }
    Ok((consoles, lanes))
}

//! How the board of a plant is made.

ghost use Rattle.std.specs.Prelude.{◌≡◌, [], IfOk, All};
ghost use Rattle.engine.specs.System.{opening_system};
ghost use Rattle.console_boards.specs.Counts.{consoles_in};
ghost use Rattle.console_recorder.specs.Entries.{bank_of, counted_consoles, panel_of, picture_of};
ghost use Rattle.console_recorder.specs.Showing.{HasHistory};

use alarm_bank::{Annunciator, Bank};
use console_boards::{Board, BoardWriter, Tally};
use engine::{Plant, opening_state};
use plant_file::ListedConsole;
use std::alloc::{AllocError, Global};
use std::sync::Wait;

/// The alarms of a plant before the first event.
fn opening_bank(alloc: Global, plant: &Plant) -> Result<Bank, AllocError>
    ensures { IfOk result (λ bank. bank ≡ bank_of (opening_system plant.now)) }
{
    let state = opening_state(alloc, plant)?;
    Ok(state.bank)
}

/// For how many alarms a board has places: as many as a plant may have.
const PLACES: usize = 20_000;

/// The alarms of a plant before the first event in the places of a board.
fn opening_panel(alloc: Global, plant: &Plant) -> Result<Annunciator, AllocError>
    ensures { IfOk result (λ panel. panel ≡ panel_of (opening_system plant.now)) }
{
    plant.alarms();
    let bank = opening_bank(alloc, plant)?;
    Annunciator::of(alloc, &bank, PLACES)
}

/// A tally for each console, with no order yet.
fn tallies_of(alloc: Global, consoles: &[ListedConsole]) -> Result<Vec<Tally>, AllocError>
    ensures none { IfOk result (λ tallies. All (λ t. t.orders ≡ 0) tallies.items) }
    ensures all { IfOk result (λ tallies. consoles_in tallies.items ≡ counted_consoles consoles.now) }
{
    let mut tallies = Vec::new(alloc);
    for console in consoles {
        tallies.push(Tally {
            console: console.number,
            orders: 0,
        })?;
    }
    Ok(tallies)
}

/// A board of a plant before the first event, which counts the orders of its consoles.
fn opening_board(alloc: Global, plant: &Plant) -> Result<Board, AllocError>
    ensures { IfOk result (λ board. (board.opening.value ≡ picture_of (opening_system plant.now))
        × (board.list ≡ [])) }
{
    let panel = opening_panel(alloc, plant)?;
    let tallies = tallies_of(alloc, plant.consoles())?;
    Ok(Board::new(panel, tallies))
}

/// The writer of a board of a plant before the first event, with a place for a reader for each console of the plant.
pub fn open_board<R: Wait>(rt: &R, alloc: Global, plant: &Plant) -> Result<BoardWriter, AllocError>
    ensures { IfOk result (HasHistory plant.now []) }
{
    let readers = plant.consoles().len() + 1;
    let first = opening_board(alloc, plant)?;
    let second = opening_board(alloc, plant)?;
    BoardWriter::new(rt, alloc, first, second, readers)
}

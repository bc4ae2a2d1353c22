//! The programs of a scan, one after another on the caller's thread.

ghost use Rattle.std.specs.Prelude.{◌≡◌, ◌<◌, length, IfOk, OnOk, IfSome, All};
ghost use Rattle.logic_source.specs.Worlds.{World};
ghost use Rattle.logic_source.specs.Paths.{paths_of};
ghost use Rattle.vm_carry.specs.Stands.{StandFor};
ghost use Rattle.vm_carry.specs.Runs.{Agree, HasCells};
ghost use Rattle.level_scans.specs.Runs.{run_by, ended_by, ProgramsRanInOrder};

use crate::given::{ScanChanged, ScanGiven};
use logic_cells::Cells;
use plant_types::{Place, Trap};
use std::alloc::AllocError;
use vm_carry::{Stack, Walked, run, sound_source_is_small};

/// Runs the program of a number, from 0, unless it is faulted, and returns its fault. What it assigned before a fault is kept.
fn run_program(
    given: &ScanGiven<'_>,
    program: u32,
    stack: &mut Stack,
    cells: &mut Cells,
    is_faulted: bool,
) -> Result<Option<(Place, Trap)>, AllocError>
    requires there { program < length given.now.framed.now.programs }
    requires cells { HasCells given.now.framed.now cells.old }
    ensures cells { HasCells given.now.framed.now cells.new }
    ensures ran { IfOk result (λ fault. (w : World) → StandFor given.now.framed.now cells.old w
        → Agree given.now.framed.now
        (run_by is_faulted given.now.framed.now program given.now.moment w)
        (ended_by given.now.framed.now fault cells.new)) }
    ensures within { IfOk result
        (λ fault. IfSome fault (λ f. f.0.path < length (paths_of given.now.framed.now))) }
{
    if is_faulted {
        return Ok(None);
    }
    match run(given.framed, program, stack, cells, given.moment)? {
        Walked::Done => Ok(None),
        Walked::Trapped(place, trap) => Ok(Some((place, trap))),
    }
}

/// Runs the programs in order, but for those that are faulted, and lists the faults in place of those listed before. A program that traps is
/// faulted from then on.
///
/// Fails if memory is refused.
pub fn run_in_order(given: &ScanGiven<'_>, changed: &mut ScanChanged<'_>) -> Result<(), AllocError>
    requires flags { length changed.old.faulted.now.items ≡ length given.now.framed.now.programs }
    requires cells { HasCells given.now.framed.now changed.old.cells.now }
    ensures ran { OnOk result (ProgramsRanInOrder given.now.framed.now given.now.moment
        changed.old.cells.now changed.old.faulted.now.items changed.new.cells.now
        changed.new.faulted.now.items changed.new.faults.now.items) }
    ensures within { OnOk result
        (All (λ f. f.0.path < length (paths_of given.now.framed.now)) changed.new.faults.now.items) }
    ensures same_cells { changed.new.cells.ghost_name ≡ changed.old.cells.ghost_name }
    ensures same_faulted { changed.new.faulted.ghost_name ≡ changed.old.faulted.ghost_name }
    ensures same_faults { changed.new.faults.ghost_name ≡ changed.old.faults.ghost_name }
    ensures same_space { changed.new.space.ghost_name ≡ changed.old.space.ghost_name }
{
    sound_source_is_small();
    changed.faults.clear();
    for at in 0..given.framed.programs().len() {
        let stack = &mut changed.space.stack;
        let is_faulted = changed.faulted[at];
        let fault = run_program(given, at as u32, stack, changed.cells, is_faulted)?;
        if let Some(fault) = fault {
            changed.faulted[at] = true;
            changed.faults.push(fault)?;
        }
    }
    Ok(())
}

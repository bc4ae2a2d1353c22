//! The programs of a scan, by whatever crew there is.

ghost use Rattle.std.specs.Prelude.{◌≡◌, ◌<◌, length, All, OnOk, IfSome};
ghost use Rattle.crew.specs.Faults.{faults_after};
ghost use Rattle.logic_source.specs.Paths.{paths_of};
ghost use Rattle.vm_carry.specs.Runs.{HasCells};
ghost use Rattle.level_scans.specs.Runs.{ProgramsRanInOrder};
ghost use Rattle.level_scans.specs.Levels.{AreLevelsOf};

use crate::by_crew::run_by_crew;
use crate::given::{LevelsGiven, ScanChanged, ScanGiven};
use crate::in_order::run_in_order;
use crate::levels::Levelled;
use crew::{Crew, CrewFault};
use level_jobs::{Done, Job, Start};
use std::alloc::{AllocError, Global};
use vm_carry::Framed;

/// Makes the levels of a plant's programs, unless they are there or the crew that is to run these is alone.
pub fn plan_levels(
    alloc: Global,
    framed: &Framed,
    is_alone: bool,
    levels: &mut Option<Levelled>,
) -> Result<(), AllocError>
    requires { IfSome levels.old (AreLevelsOf framed.now) }
    ensures { IfSome levels.new (AreLevelsOf framed.now) }
{
    if is_alone || levels.is_some() {
        return Ok(());
    }
    *levels = Some(Levelled::of(alloc, framed)?);
    Ok(())
}

/// Runs the programs and lists the faults in place of those listed before: level by level by the crew, or where this is alone or there are no levels,
/// one after another on the caller's thread. Both leave the same. A program that traps is faulted from then on.
///
/// Fails as the crew does, with `Memory` where memory was refused; then neither the cells nor the flags are of use.
pub fn run_programs<C: Crew<Job, Start, Done, H>, H>(
    rt: &H,
    alloc: Global,
    crew: &mut C,
    given: &ScanGiven<'_>,
    changed: &mut ScanChanged<'_>,
) -> Result<(), CrewFault>
    requires asked { C.asks }
    requires levels { IfSome given.now.levels.now (AreLevelsOf given.now.framed.now) }
    requires flags { length changed.old.faulted.now.items ≡ length given.now.framed.now.programs }
    requires cells { HasCells given.now.framed.now changed.old.cells.now }
    ensures ran { OnOk result (ProgramsRanInOrder given.now.framed.now given.now.moment
        changed.old.cells.now changed.old.faulted.now.items changed.new.cells.now
        changed.new.faulted.now.items changed.new.faults.now.items) }
    ensures within { OnOk result
        (All (λ f. f.0.path < length (paths_of given.now.framed.now)) changed.new.faults.now.items) }
    ensures faults { C.faulted crew.new ≡ faults_after (C.faulted crew.old) result }
    ensures same_cells { changed.new.cells.ghost_name ≡ changed.old.cells.ghost_name }
    ensures same_faulted { changed.new.faulted.ghost_name ≡ changed.old.faulted.ghost_name }
    ensures same_faults { changed.new.faults.ghost_name ≡ changed.old.faults.ghost_name }
    ensures same_space { changed.new.space.ghost_name ≡ changed.old.space.ghost_name }
{
    match given.levels {
        Some(levelled) if !crew.is_alone() => {
            let levels = LevelsGiven {
                framed: given.framed,
                levelled,
                moment: given.moment,
            };
            run_by_crew(rt, alloc, crew, &levels, changed)
        }
        _ => match run_in_order(given, changed) {
            Ok(()) => Ok(()),
            Err(_) => Err(CrewFault::Memory),
        },
    }
}

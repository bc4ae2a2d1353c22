//! The programs of a scan, level by level, run by a crew.

ghost use Rattle.std.specs.Prelude.{◌≡◌, ◌<◌, length, map, IfOk, OnOk, All};
ghost use Rattle.logic_source.specs.Paths.{paths_of};
ghost use Rattle.crew.specs.Faults.{faults_after};
ghost use Rattle.vm_carry.specs.Runs.{HasCells};
ghost use Rattle.level_scans.specs.Runs.{ProgramsRanInOrder};
ghost use Rattle.level_scans.specs.Levels.{AreLevelsOf};
ghost use Rattle.level_scans.specs.Faults.{IsOfProgram, placed_fault};

use crate::given::{LevelsGiven, ScanChanged};
use crate::placing::list_placed;
use crew::{Crew, CrewFault};
use level_jobs::{Done, Job, ProgramFault, Reserve, Start, Store, run_levels};
use logic_cells::Cells;
use std::alloc::Global;
use std::mem::replace;
use vm_carry::{place_is_in_source, programs_share_no_cell, sound_source_is_small};

/// Runs the programs level by level by a crew, and tells the faults by their programs' own paths. Its jobs take the memory of earlier
/// ones, and the store that of the cells and flags.
fn run_in_levels<C: Crew<Job, Start, Done, H>, H>(
    rt: &H,
    alloc: Global,
    crew: &mut C,
    given: &LevelsGiven<'_>,
    changed: &mut ScanChanged<'_>,
) -> Result<Vec<ProgramFault>, CrewFault>
    requires asked { C.asks }
    requires levels { AreLevelsOf given.now.framed.now given.now.levelled.now }
    requires flags { length changed.old.faulted.now.items ≡ length given.now.framed.now.programs }
    requires cells { HasCells given.now.framed.now changed.old.cells.now }
    ensures ran { IfOk result (λ faults. ProgramsRanInOrder given.now.framed.now given.now.moment
        changed.old.cells.now changed.old.faulted.now.items changed.new.cells.now
        changed.new.faulted.now.items (map (placed_fault given.now.framed.now) faults.items)) }
    ensures told { IfOk result
        (λ faults. All (λ fault. IsOfProgram given.now.framed.now fault) faults.items) }
    ensures faults { C.faulted crew.new ≡ faults_after (C.faulted crew.old) result }
    ensures same_cells { changed.new.cells.ghost_name ≡ changed.old.cells.ghost_name }
    ensures same_faulted { changed.new.faulted.ghost_name ≡ changed.old.faulted.ghost_name }
    ensures same_faults { changed.new.faults.ghost_name ≡ changed.old.faults.ghost_name }
    ensures same_space { changed.new.space.ghost_name ≡ changed.old.space.ghost_name }
{
    sound_source_is_small();
    programs_share_no_cell();
    place_is_in_source();
    let _programs = given.framed.programs();
    let all = replace(changed.cells, Cells::new(Vec::new(alloc), Vec::new(alloc)));
    let flags = replace(changed.faulted, Vec::new(alloc));
    let mut store = Store::of(alloc, all, flags, given.moment);
    store.lend(replace(&mut changed.space.jobs, Reserve::new(alloc)));
    let parts = given.levelled.parts();
    match run_levels(rt, alloc, crew, parts, given.levelled.levels(), &mut store) {
        Ok(faults) => {
            changed.space.jobs = store.take_back(alloc);
            let (left, flags) = store.into_parts();
            *changed.cells = left;
            *changed.faulted = flags;
            Ok(faults)
        }
        Err(fault) => {
            changed.space.jobs = store.take_back(alloc);
            Err(fault)
        }
    }
}

/// Runs the programs level by level, the jobs of each level by a crew, and lists the faults in place of those listed before. Cells, flags and faults
/// are those of the programs one after another: one that is faulted doesn't run, and one that traps is faulted from then on. Jobs take the memory
/// of earlier ones, and leave theirs for later ones.
///
/// Fails as the crew does, with `Memory` where memory was refused; then neither the cells nor the flags are of use.
pub fn run_by_crew<C: Crew<Job, Start, Done, H>, H>(
    rt: &H,
    alloc: Global,
    crew: &mut C,
    given: &LevelsGiven<'_>,
    changed: &mut ScanChanged<'_>,
) -> Result<(), CrewFault>
    requires asked { C.asks }
    requires levels { AreLevelsOf given.now.framed.now given.now.levelled.now }
    requires flags { length changed.old.faulted.now.items ≡ length given.now.framed.now.programs }
    requires cells { HasCells given.now.framed.now changed.old.cells.now }
    ensures ran { OnOk result (ProgramsRanInOrder given.now.framed.now given.now.moment
        changed.old.cells.now changed.old.faulted.now.items changed.new.cells.now
        changed.new.faulted.now.items changed.new.faults.now.items) }
    ensures within { OnOk result
        (All (λ f. f.0.path < length (paths_of given.now.framed.now)) changed.new.faults.now.items) }
    ensures faults { C.faulted crew.new ≡ faults_after (C.faulted crew.old) result }
    ensures same_cells { changed.new.cells.ghost_name ≡ changed.old.cells.ghost_name }
    ensures same_faulted { changed.new.faulted.ghost_name ≡ changed.old.faulted.ghost_name }
    ensures same_faults { changed.new.faults.ghost_name ≡ changed.old.faults.ghost_name }
    ensures same_space { changed.new.space.ghost_name ≡ changed.old.space.ghost_name }
{
    place_is_in_source();
    let told = run_in_levels(rt, alloc, crew, given, changed)?;
    match list_placed(given.framed, told.as_slice(), changed.faults) {
        Ok(()) => Ok(()),
        Err(_) => Err(CrewFault::Memory),
    }
}

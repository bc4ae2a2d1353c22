//! Levels one after another, the jobs of each by a crew.

ghost use Rattle.std.specs.Prelude.{◌≡◌, ◌<◌, ℕ, [], All, List, length, Contains, IsPermutation, IfOk, OnOk};
ghost use Rattle.std.specs.List.Sorted.{IsNonDecreasingBy};
ghost use Rattle.std.specs.Arc.{arc_value};
ghost use Rattle.crew.specs.Faults.{faults_after};
ghost use Rattle.crew.specs.Runs.{AreNumbered, IsEachOnce};
ghost use Rattle.plant_types.specs.Values.{Path};
ghost use Rattle.acc_vm.specs.Codes.{PlainCode};
ghost use Rattle.level_runs.specs.Stores.{in_order};
ghost use Rattle.level_plan.specs.Plans.{last_of};
ghost use Rattle.level_runs.specs.Accesses.{HaveOwnCells};
ghost use Rattle.level_runs.specs.Plans.{IsPlanOf};
ghost use Rattle.level_runs.specs.Programs.{programs_at};
ghost use Rattle.slice_store.specs.Starts.{Begun};
ghost use Rattle.slice_store.specs.Splits.{ArePartsOf, CanSplit};
ghost use Rattle.level_jobs.specs.Gathers.{GathersLevel, GathersLevels, GathersAll, EndsInOrder};
ghost use Rattle.level_jobs.specs.Spotted.{Tell, HasItsPath, spotted};

use crate::fault::ProgramFault;
use crew::{Crew, CrewFault};
use level_plan::Levels;
use slice_store::{Done, Job, Parts, Start, Store};
use std::alloc::{AllocError, Global};
use std::sync::Arc;

fn run_jobs<C: Crew<Job, Start, Done, H>, H>(
    rt: &H,
    alloc: Global,
    crew: &mut C,
    jobs: Vec<Job>,
) -> Result<Vec<Done>, CrewFault>
    requires asked { C.asks }
    requires numbered { AreNumbered (λ s. s.number) jobs.items }
    ensures each { IfOk result (λ runs. IsEachOnce jobs.items runs.items) }
    ensures counted { C.faulted crew.new ≡ faults_after (C.faulted crew.old) result }
{
    crew.run(rt, alloc, jobs)
}

/// The faults of runs, as they came.
fn faults_of(alloc: Global, runs: &[Done]) -> Result<Vec<ProgramFault>, AllocError>
    requires { (s : Begun) → Contains runs.now s → 0 < s.number }
    ensures { IfOk result (λ faults. Tell runs.now faults.items) }
{
    let mut faults = Vec::new(alloc);
    for done in runs {
        match done.ran() {
            Ok(()) => {}
            Err(stop) => {
                let program = done.number() - 1;
                faults.push(ProgramFault { program, stop })?;
            }
        }
    }
    Ok(faults)
}

/// Runs a level from the store by a crew, and tells its faults. After an error the store isn't used again.
fn run_level<C: Crew<Job, Start, Done, H>, H>(
    rt: &H,
    alloc: Global,
    crew: &mut C,
    parts: &Arc<Parts>,
    levels: &Levels,
    level: u32,
    store: &mut Store,
) -> Result<Vec<ProgramFault>, CrewFault>
    requires asked { C.asks }
    requires gathered { store.old.out ≡ [] }
    requires programs { CanSplit (arc_value parts.now) levels.now level store.old.cells
        (length store.old.faulted) }
    ensures level { IfOk result (λ faults. (paths : ℕ → List Path)
        → GathersLevel paths (arc_value parts.now) levels.now level store.old store.new
        (spotted paths faults.items)) }
    ensures paths { IfOk result (λ faults. (codes : List PlainCode)
        → ArePartsOf codes (arc_value parts.now) → All (HasItsPath codes) faults.items) }
    ensures gathered { OnOk result (store.new.out ≡ []) }
    ensures counted { C.faulted crew.new ≡ faults_after (C.faulted crew.old) result }
{
    let Ok(jobs) = store.begin(alloc, parts, levels, level) else {
        return Err(CrewFault::Memory);
    };
    let runs = run_jobs(rt, alloc, crew, jobs)?;
    let Ok(faults) = faults_of(alloc, runs.as_slice()) else {
        return Err(CrewFault::Memory);
    };
    store.take_in(runs);
    Ok(faults)
}

/// Runs all levels in turn by a crew, and tells the faults level by level. After an error the store isn't used again.
fn run_in_turn<C: Crew<Job, Start, Done, H>, H>(
    rt: &H,
    alloc: Global,
    crew: &mut C,
    parts: &Arc<Parts>,
    levels: &Levels,
    store: &mut Store,
) -> Result<Vec<ProgramFault>, CrewFault>
    requires asked { C.asks }
    requires gathered { store.old.out ≡ [] }
    requires programs { (level : ℕ)
        → CanSplit (arc_value parts.now) levels.now level store.old.cells (length store.old.faulted) }
    ensures levels { IfOk result (λ faults. (paths : ℕ → List Path)
        → GathersLevels paths (arc_value parts.now) levels.now store.old (last_of levels.now) store.new
        (spotted paths faults.items)) }
    ensures paths { IfOk result (λ faults. (codes : List PlainCode)
        → ArePartsOf codes (arc_value parts.now) → All (HasItsPath codes) faults.items) }
    ensures gathered { OnOk result (store.new.out ≡ []) }
    ensures counted { C.faulted crew.new ≡ faults_after (C.faulted crew.old) result }
{
    let mut faults = Vec::new(alloc);
    for below in 0..levels.last() {
        let mut here = run_level(rt, alloc, crew, parts, levels, below + 1, store)?;
        let Ok(()) = faults.append(&mut here) else {
            return Err(CrewFault::Memory);
        };
    }
    Ok(faults)
}

/// Asks a crew that has no job to do whether it is there: it runs none.
fn ask<C: Crew<Job, Start, Done, H>, H>(
    rt: &H,
    alloc: Global,
    crew: &mut C,
) -> Result<(), CrewFault>
    requires { C.asks }
    ensures { C.faulted crew.new ≡ faults_after (C.faulted crew.old) result }
{
    let _runs = run_jobs(rt, alloc, crew, Vec::new(alloc))?;
    Ok(())
}

/// Sorts faults by the numbers of their programs, in place.
fn sort_faults(faults: &mut Vec<ProgramFault>)
    ensures same { IsPermutation faults.old.items faults.new.items }
    ensures rising { IsNonDecreasingBy (λ (fault : ProgramFault). fault.program) faults.new.items }
{
    faults.sort_unstable_by_key(|fault| fault.program);
}

/// Runs all levels in turn, the jobs of each by a crew, and tells the faults in program order. Refused memory is the fault `Memory`, and any
/// other is the crew's own, after which no later level is run; a crew that is gone says so where there is no level, too. After an error the store
/// isn't used again.
pub fn run_levels<C: Crew<Job, Start, Done, H>, H>(
    rt: &H,
    alloc: Global,
    crew: &mut C,
    parts: &Arc<Parts>,
    levels: &Levels,
    store: &mut Store,
) -> Result<Vec<ProgramFault>, CrewFault>
    requires asked { C.asks }
    requires gathered { store.old.out ≡ [] }
    requires programs { (level : ℕ)
        → CanSplit (arc_value parts.now) levels.now level store.old.cells (length store.old.faulted) }
    ensures levels { IfOk result (λ faults. GathersAll (arc_value parts.now) levels.now store.old
        store.new faults.items) }
    ensures gathered { OnOk result (store.new.out ≡ []) }
    ensures paths { IfOk result (λ faults. (codes : List PlainCode)
        → ArePartsOf codes (arc_value parts.now) → All (HasItsPath codes) faults.items) }
    ensures in_order { IfOk result (λ faults. (paths : ℕ → List Path) (globals : ℕ)
        (codes : List PlainCode) → ArePartsOf codes (arc_value parts.now)
        → IsPlanOf globals codes levels.now → HaveOwnCells globals codes
        → length store.old.faulted ≡ length codes
        → EndsInOrder
        (in_order (programs_at store.old.moment paths codes levels.now).run 0 store.old.faulted
        store.old.cells) store.new (spotted paths faults.items)) }
    ensures faults { C.faulted crew.new ≡ faults_after (C.faulted crew.old) result }
{
    if levels.last() == 0 {
        ask(rt, alloc, crew)?;
    }
    let mut faults = run_in_turn(rt, alloc, crew, parts, levels, store)?;
    sort_faults(&mut faults);
    Ok(faults)
}

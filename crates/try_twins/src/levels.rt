//! Levels that are split from a store, run and gathered.

ghost use Rattle.std.specs.Prelude.{◌≡◌, ℕ, [], length, IfOk, OnOk};
ghost use Rattle.vm_logic.specs.Runs.{HasCells};
ghost use Rattle.slice_store.specs.Splits.{CanSplit};
ghost use Rattle.level_scans.specs.Levels.{AreLevelsOf};

use crate::jobs::{Ended, push_ended, run_shuffled};
use crate::state::State;
use level_scans::Levelled;
use slice_store::{Done, Job, Misfit, Reserve, Store};
use std::alloc::{AllocError, Global};
use std::mem::replace;
use try_random::Dice;
use vm_logic::{Framed, programs_share_no_cell, sound_source_is_small};

/// Why a scan gave up.
#[derive(Clone, Copy, Drop)]
pub enum Fault {
    /// Memory was refused.
    Memory,
    /// The runs of a level don't fit its jobs.
    Misfit(Misfit),
}

/// A store of the cells and flags of the levels, of which each level can be split.
pub fn new_store(
    alloc: Global,
    framed: &Framed,
    levelled: &Levelled,
    state: &State,
    moment: u64,
) -> Result<Store, AllocError>
    requires levels { AreLevelsOf framed.now levelled.now }
    requires cells { HasCells framed.now state.now.cells }
    requires flags { length state.now.faulted.items ≡ length framed.now.programs }
    ensures gathered { IfOk result (λ store. store.out ≡ []) }
    ensures can { IfOk result (λ store. (level : ℕ)
        → CanSplit levelled.now.parts levelled.now.levels level store.cells (length store.faulted)) }
    ensures cells { IfOk result (λ store. store.cells ≡ state.now.cells) }
    ensures flags { IfOk result (λ store. store.faulted ≡ state.now.faulted.items) }
{
    sound_source_is_small();
    programs_share_no_cell();
    let _programs = framed.programs();
    let store = Store::new(alloc, &state.cells, state.faulted.as_slice(), moment)?;
    Ok(store)
}

/// Splits a level of a store.
pub fn split(
    alloc: Global,
    levelled: &Levelled,
    store: &mut Store,
    level: u32,
) -> Result<Vec<Job>, AllocError>
    requires gathered { store.old.out ≡ [] }
    requires can { CanSplit levelled.now.parts levelled.now.levels level store.old.cells
        (length store.old.faulted) }
    ensures cells { store.new.cells ≡ store.old.cells }
    ensures flags { store.new.faulted ≡ store.old.faulted }
{
    let parts = levelled.parts();
    store.split(alloc, parts, levelled.levels(), level)
}

/// Gathers runs, or tells how they don't fit the jobs that are out.
pub fn gather(store: &mut Store, runs: Vec<Done>) -> Result<(), Misfit>
    ensures gathered { OnOk result (store.new.out ≡ []) }
    ensures values { OnOk result (length store.new.cells.values ≡ length store.old.cells.values) }
    ensures clocks { OnOk result (length store.new.cells.clocks ≡ length store.old.cells.clocks) }
    ensures flags { OnOk result (length store.new.faulted ≡ length store.old.faulted) }
{
    store.gather(runs)?;
    Ok(())
}

/// Runs the jobs of a level, and gathers their runs, both in an order drawn from dice. Adds how they ended.
fn run_and_gather(
    alloc: Global,
    dice: &mut Dice,
    store: &mut Store,
    jobs: Vec<Job>,
    ended: &mut Vec<Ended>,
) -> Result<(), Fault>
    ensures gathered { OnOk result (store.new.out ≡ []) }
    ensures values { OnOk result (length store.new.cells.values ≡ length store.old.cells.values) }
    ensures clocks { OnOk result (length store.new.cells.clocks ≡ length store.old.cells.clocks) }
    ensures flags { OnOk result (length store.new.faulted ≡ length store.old.faulted) }
{
    let Ok(runs) = run_shuffled(alloc, dice, jobs) else {
        return Err(Fault::Memory);
    };
    let Ok(()) = push_ended(ended, runs.as_slice()) else {
        return Err(Fault::Memory);
    };
    match gather(store, runs) {
        Ok(()) => Ok(()),
        Err(misfit) => Err(Fault::Misfit(misfit)),
    }
}

/// Splits the levels of a store in turn, and runs and gathers the jobs of each in an order drawn from dice. Tells how they ended. After an error
/// the store isn't used again.
fn run_levels(
    alloc: Global,
    levelled: &Levelled,
    dice: &mut Dice,
    store: &mut Store,
) -> Result<Vec<Ended>, Fault>
    requires gathered { store.old.out ≡ [] }
    requires can { (level : ℕ)
        → CanSplit levelled.now.parts levelled.now.levels level store.old.cells
        (length store.old.faulted) }
    ensures values { OnOk result (length store.new.cells.values ≡ length store.old.cells.values) }
    ensures clocks { OnOk result (length store.new.cells.clocks ≡ length store.old.cells.clocks) }
    ensures flags { OnOk result (length store.new.faulted ≡ length store.old.faulted) }
{
    let mut ended = Vec::new(alloc);
    for below in 0..levelled.levels().last() {
        let Ok(jobs) = split(alloc, levelled, store, below + 1) else {
            return Err(Fault::Memory);
        };
        run_and_gather(alloc, dice, store, jobs, &mut ended)?;
    }
    Ok(ended)
}

/// Runs a scan's programs level by level, the jobs of each level run and gathered in an order drawn from dice, in the memory of earlier jobs.
/// Tells how they ended. After an error cells and flags are as before.
pub fn run_by_levels(
    alloc: Global,
    framed: &Framed,
    levelled: &Levelled,
    state: &mut State,
    dice: &mut Dice,
) -> Result<Vec<Ended>, Fault>
    requires levels { AreLevelsOf framed.now levelled.now }
    requires ran { HasCells framed.now state.old.twin.ran }
    requires cells { HasCells framed.now state.old.cells }
    requires flags { length state.old.faulted.items ≡ length framed.now.programs }
    ensures ran { HasCells framed.now state.new.twin.ran }
    ensures values { length state.new.cells.values ≡ length state.old.cells.values }
    ensures clocks { length state.new.cells.clocks ≡ length state.old.cells.clocks }
    ensures flags { length state.new.faulted.items ≡ length state.old.faulted.items }
{
    let Ok(mut store) = new_store(alloc, framed, levelled, state, state.moment) else {
        return Err(Fault::Memory);
    };
    store.lend(replace(&mut state.jobs, Reserve::new(alloc)));
    let ended = run_levels(alloc, levelled, dice, &mut store)?;
    state.jobs = store.take_back(alloc);
    let (cells, faulted) = store.into_parts();
    state.cells = cells;
    state.faulted = faulted;
    Ok(ended)
}

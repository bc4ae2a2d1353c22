//! Scans of a random source in both ways.

ghost use Rattle.std.specs.Prelude.{◌≡◌, ◌<◌, length};
ghost use Rattle.vm_logic.specs.Runs.{HasCells};
ghost use Rattle.level_scans.specs.Levels.{AreLevelsOf};

use crate::jobs::Ended;
use crate::levels::{Fault, run_by_levels};
use crate::ready::{Ready, Unready, made_ready};
use crate::state::{End, State, is_alike, opened, restart, run_in_order};
use crate::twin::set;
use level_scans::Levelled;
use logic_cells::Stop;
use std::alloc::{AllocError, Global};
use try_random::Dice;
use try_walks::Walker;
use vm_logic::{Framed, Walked};

/// What came of a source.
#[derive(Clone, Copy, PartialEq, Eq, Drop)]
pub enum Outcome {
    /// All its scans ended alike in all ways. Whether programs ran together in a level is told.
    Alike(bool),
    /// Walk and code of a program ended apart, or left something else.
    Differ,
    /// The levels left something else than the programs one after another, or a program ended in another way there.
    Apart,
    /// It is past a limit, and wasn't run.
    Large,
    /// It isn't well formed, and wasn't run.
    Unfit,
}

/// How many scans of a source are made.
const SCANS: u32 = 8;

const DINTS: &[i64] = &[0, 1, -1, 2, 3, 5, -7, 10, 100, 12, 33, 2_147_483_647];

/// How much later than the one before it a scan is, in milliseconds.
const LATER: &[u64] = &[0, 1, 500, 1000, 2000];

const TIMES: &[i64] = &[0, 1, 500, 1000, 3000, -1, -5000];

/// Whether a job's run ended as its program did in program order. The path of a job's trap is one of its program's own.
fn is_end(framed: &Framed, program: usize, ran: Result<(), Stop>, end: Walked) -> bool
    requires { program < length framed.now.programs }
{
    match (ran, end) {
        (Ok(()), Walked::Done) => true,
        (Err(stop), Walked::Trapped(place, trap)) => {
            let path = u64::from(framed.path_base(program)) + u64::from(stop.place.path);
            path == u64::from(place.path)
                && stop.place.statement == place.statement
                && stop.trap == trap
        }
        _ => false,
    }
}

/// Whether a job's run ended as its program did in program order.
fn ended_alike(framed: &Framed, ended: Ended, ends: &[End]) -> bool {
    let program = (ended.number as usize).saturating_sub(1);
    if program >= framed.programs().len() {
        return false;
    }
    match ends.get(program) {
        Some(End::Ended(end)) => is_end(framed, program, ended.ran, *end),
        _ => false,
    }
}

/// Whether the runs of all jobs ended as their programs did in program order.
fn all_ended_alike(framed: &Framed, ended: &[Ended], ends: &[End]) -> bool {
    for run in ended {
        if !ended_alike(framed, *run, ends) {
            return false;
        }
    }
    true
}

/// What came of a scan, by how its programs ended in program order and in the levels. It tells of no programs that ran together.
fn outcome_of(framed: &Framed, state: &State, ends: &[End], ended: &[Ended]) -> Outcome {
    if !state.twin.is_alike() || ends.iter().any(|end| matches!(end, End::Apart)) {
        return Outcome::Differ;
    }
    if is_alike(state) && all_ended_alike(framed, ended, ends) {
        Outcome::Alike(false)
    } else {
        Outcome::Apart
    }
}

fn scan(
    alloc: Global,
    framed: &Framed,
    levelled: &Levelled,
    state: &mut State,
    dice: &mut Dice,
) -> Result<Outcome, AllocError>
    requires levels { AreLevelsOf framed.now levelled.now }
    requires ran { HasCells framed.now state.old.twin.ran }
    requires cells { HasCells framed.now state.old.cells }
    requires flags { length state.old.faulted.items ≡ length framed.now.programs }
    ensures ran { HasCells framed.now state.new.twin.ran }
    ensures values { length state.new.cells.values ≡ length state.old.cells.values }
    ensures clocks { length state.new.cells.clocks ≡ length state.old.cells.clocks }
    ensures flags { length state.new.faulted.items ≡ length state.old.faulted.items }
{
    let stopped = state.stopped.as_mut_slice();
    let ends = run_in_order(alloc, framed, &mut state.twin, stopped, state.moment)?;
    let ran = run_by_levels(alloc, framed, levelled, state, dice);
    match ran {
        Ok(ended) => Ok(outcome_of(framed, state, ends.as_slice(), ended.as_slice())),
        Err(Fault::Memory) => Err(AllocError),
        Err(Fault::Misfit(_)) => Ok(Outcome::Apart),
    }
}

/// The number of the global of a name, two times in three; else a number that no global has.
fn drawn_input(framed: &Framed, dice: &mut Dice, name: &str) -> usize {
    match (dice.is_one_of(3), framed.find_global(name)) {
        (false, Some(global)) => global,
        _ => usize::MAX,
    }
}

/// Gives the global of a name a value in both ways, two times in three.
fn set_input(framed: &Framed, state: &mut State, dice: &mut Dice, name: &str, values: &[i64])
    ensures ran_values { length state.new.twin.ran.values ≡ length state.old.twin.ran.values }
    ensures ran_clocks { length state.new.twin.ran.clocks ≡ length state.old.twin.ran.clocks }
    ensures values { length state.new.cells.values ≡ length state.old.cells.values }
    ensures clocks { length state.new.cells.clocks ≡ length state.old.cells.clocks }
    ensures flags { length state.new.faulted.items ≡ length state.old.faulted.items }
{
    let global = drawn_input(framed, dice, name);
    let value = dice.pick(values, 0);
    state.twin.set(global, value);
    set(&mut state.cells, global, value);
}

/// Makes ready for a scan that is so much later: draws inputs, and which of the faulted programs are restarted.
fn draw(framed: &Framed, state: &mut State, dice: &mut Dice, later: u64)
    ensures ran_values { length state.new.twin.ran.values ≡ length state.old.twin.ran.values }
    ensures ran_clocks { length state.new.twin.ran.clocks ≡ length state.old.twin.ran.clocks }
    ensures values { length state.new.cells.values ≡ length state.old.cells.values }
    ensures clocks { length state.new.cells.clocks ≡ length state.old.cells.clocks }
    ensures flags { length state.new.faulted.items ≡ length state.old.faulted.items }
{
    state.moment = state.moment.saturating_add(later);
    set_input(framed, state, dice, "di", DINTS);
    set_input(framed, state, dice, "bi", &[0, 1]);
    set_input(framed, state, dice, "ti", TIMES);
    restart(&mut state.stopped, &mut state.faulted, dice);
}

/// Makes scans, each from what the one before it left, up to one that isn't alike in all ways.
fn make_scans(
    alloc: Global,
    framed: &Framed,
    levelled: &Levelled,
    state: &mut State,
    dice: &mut Dice,
) -> Result<Outcome, AllocError>
    requires levels { AreLevelsOf framed.now levelled.now }
    requires ran { HasCells framed.now state.old.twin.ran }
    requires cells { HasCells framed.now state.old.cells }
    requires flags { length state.old.faulted.items ≡ length framed.now.programs }
{
    for made in 0..SCANS {
        let later = if made == 0 { 0 } else { dice.pick(LATER, 0) };
        draw(framed, state, dice, later);
        let outcome = scan(alloc, framed, levelled, state, dice)?;
        if outcome != Outcome::Alike(false) {
            return Ok(outcome);
        }
    }
    let is_together = (levelled.levels().last() as usize) < framed.programs().len();
    Ok(Outcome::Alike(is_together))
}

/// Makes scans of a source with its levels.
fn run_levelled(
    alloc: Global,
    framed: &Framed,
    walker: Walker,
    levelled: &Levelled,
    dice: &mut Dice,
) -> Result<Outcome, AllocError>
    requires levels { AreLevelsOf framed.now levelled.now }
{
    let mut state = opened(alloc, framed, walker)?;
    let outcome = make_scans(alloc, framed, levelled, &mut state, dice);
    drop(state);
    outcome
}

/// Makes scans of a source that is ready.
fn run_ready(alloc: Global, ready: Ready, dice: &mut Dice) -> Result<Outcome, AllocError> {
    let Ready { framed, walker } = ready;
    let levelled = Levelled::of(alloc, &framed)?;
    let outcome = run_levelled(alloc, &framed, walker, &levelled, dice);
    drop(levelled);
    drop(framed);
    outcome
}

/// Makes scans of a source, with moments, inputs and restarts from dice: its programs one after another by walk and by code, and level by level, the
/// jobs of each level run and gathered in an order from dice.
pub fn run_source(alloc: Global, source: &[u8], dice: &mut Dice) -> Result<Outcome, AllocError> {
    match made_ready(alloc, source) {
        Ok(ready) => run_ready(alloc, ready, dice),
        Err(Unready::Memory) => Err(AllocError),
        Err(Unready::Large) => Ok(Outcome::Large),
        Err(Unready::Unfit) => Ok(Outcome::Unfit),
    }
}

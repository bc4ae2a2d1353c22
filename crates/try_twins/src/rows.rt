//! Rows that name the runs which each level is handed.

ghost use Rattle.std.specs.Prelude.{◌≡◌, ◌<◌, length};
ghost use Rattle.vm_logic.specs.Runs.{HasCells};
ghost use Rattle.level_scans.specs.Levels.{AreLevelsOf};

use crate::jobs::{run_jobs, run_of};
use crate::levels::{gather, new_store, split};
use crate::ready::{Ready, Unready, made_ready};
use crate::state::{State, is_alike, opened, run_in_order};
use level_scans::Levelled;
use slice_store::{Done, Misfit};
use std::alloc::{AllocError, Global};
use try_text::Page;
use try_walks::Walker;
use vm_logic::{Framed, sound_source_is_small};

/// The runs that a level is handed: the words that name them.
#[derive(Clone, Copy, Drop)]
struct Handed<'a> {
    level: u32,
    words: &'a str,
}

fn level_of(framed: &Framed, levelled: &Levelled, program: usize) -> u32
    requires levels { AreLevelsOf framed.now levelled.now }
    requires there { program < length framed.now.programs }
{
    sound_source_is_small();
    let _programs = framed.programs();
    levelled.levels().of(program as u32)
}

/// Adds the level of each program.
fn push_levels(page: &mut Page, framed: &Framed, levelled: &Levelled)
    requires { AreLevelsOf framed.now levelled.now }
{
    for program in 0..framed.programs().len() {
        let level = level_of(framed, levelled, program);
        page.number(i128::from(level));
    }
    page.add(",");
}

/// The job's number and the moment that a word names: `3` is job 3 at the moment 0, and `3@5` job 3 at the moment 5.
fn named_by(word: &str) -> (u32, u64) {
    let (number, moment) = word.split_once("@").unwrap_or((word, "0"));
    (
        number.parse::<u32>().unwrap_or(0),
        moment.parse::<u64>().unwrap_or(0),
    )
}

/// The run of a level's job that a word names, if there is such a job.
fn run_named(
    alloc: Global,
    framed: &Framed,
    levelled: &Levelled,
    state: &State,
    handed: Handed<'_>,
) -> Result<Option<Done>, AllocError>
    requires levels { AreLevelsOf framed.now levelled.now }
    requires cells { HasCells framed.now state.now.cells }
    requires flags { length state.now.faulted.items ≡ length framed.now.programs }
{
    let (number, moment) = named_by(handed.words);
    let mut store = new_store(alloc, framed, levelled, state, moment)?;
    let jobs = split(alloc, levelled, &mut store, handed.level)?;
    drop(store);
    let runs = run_jobs(alloc, jobs)?;
    Ok(run_of(runs, number))
}

/// The runs of a level's jobs that words name.
fn runs_named(
    alloc: Global,
    framed: &Framed,
    levelled: &Levelled,
    state: &State,
    handed: Handed<'_>,
) -> Result<Vec<Done>, AllocError>
    requires levels { AreLevelsOf framed.now levelled.now }
    requires cells { HasCells framed.now state.now.cells }
    requires flags { length state.now.faulted.items ≡ length framed.now.programs }
{
    let level = handed.level;
    let mut runs = Vec::new(alloc);
    for words in handed.words.split_whitespace() {
        let one = Handed { level, words };
        if let Some(run) = run_named(alloc, framed, levelled, state, one)? {
            runs.push(run)?;
        }
    }
    Ok(runs)
}

/// Splits a level at the moment 0, and gathers the runs that words name. Where they don't fit, cells and flags are as before.
fn gather_level(
    alloc: Global,
    framed: &Framed,
    levelled: &Levelled,
    state: &mut State,
    handed: Handed<'_>,
) -> Result<Option<Misfit>, AllocError>
    requires levels { AreLevelsOf framed.now levelled.now }
    requires ran { HasCells framed.now state.old.twin.ran }
    requires cells { HasCells framed.now state.old.cells }
    requires flags { length state.old.faulted.items ≡ length framed.now.programs }
    ensures ran { HasCells framed.now state.new.twin.ran }
    ensures values { length state.new.cells.values ≡ length state.old.cells.values }
    ensures clocks { length state.new.cells.clocks ≡ length state.old.cells.clocks }
    ensures flags { length state.new.faulted.items ≡ length state.old.faulted.items }
{
    let runs = runs_named(alloc, framed, levelled, state, handed)?;
    let mut store = new_store(alloc, framed, levelled, state, 0)?;
    let jobs = split(alloc, levelled, &mut store, handed.level)?;
    drop(jobs);
    if let Err(misfit) = gather(&mut store, runs) {
        return Ok(Some(misfit));
    }
    let (cells, faulted) = store.into_parts();
    state.cells = cells;
    state.faulted = faulted;
    Ok(None)
}

/// Gathers in each level the runs that words name, those of the next level after a `;`, up to the first level that they don't fit.
fn gather_levels(
    alloc: Global,
    framed: &Framed,
    levelled: &Levelled,
    state: &mut State,
    named: &str,
) -> Result<Option<Misfit>, AllocError>
    requires levels { AreLevelsOf framed.now levelled.now }
    requires ran { HasCells framed.now state.old.twin.ran }
    requires cells { HasCells framed.now state.old.cells }
    requires flags { length state.old.faulted.items ≡ length framed.now.programs }
    ensures { HasCells framed.now state.new.twin.ran }
{
    let mut level: u32 = 0;
    for words in named.split(";") {
        level = level.saturating_add(1);
        let misfit = gather_level(alloc, framed, levelled, state, Handed { level, words })?;
        if misfit.is_some() {
            return Ok(misfit);
        }
    }
    Ok(None)
}

/// Adds the values of the globals, and with `!` the numbers of the faulted programs, from 1.
fn push_values(page: &mut Page, framed: &Framed, state: &State) {
    for value in state.cells.as_slice().iter().take(framed.globals().len()) {
        page.number(i128::from(*value));
    }
    let mut number: i64 = 0;
    for is_faulted in &state.faulted {
        number = number.saturating_add(1);
        if *is_faulted {
            page.number(i128::from(number));
            page.add("!");
        }
    }
}

/// Adds what the levels have left, and whether the programs leave the same that run one after another.
fn push_left(alloc: Global, page: &mut Page, framed: &Framed, state: &mut State)
    requires { HasCells framed.now state.old.twin.ran }
{
    push_values(page, framed, state);
    let stopped = state.stopped.as_mut_slice();
    if run_in_order(alloc, framed, &mut state.twin, stopped, 0).is_err() {
        return page.refuse();
    }
    page.add(if is_alike(state) {
        " as in order"
    } else {
        " not as in order"
    });
}

/// How a misfit is printed.
fn misfit_text(misfit: Misfit) -> &'static str {
    match misfit {
        Misfit::Stranger => " 1 STRANGER",
        Misfit::Double => " 2 DOUBLE",
        Misfit::Missing => " 3 MISSING",
    }
}

/// Hands the levels the runs that words name, and adds what is left, or how these don't fit.
fn push_handed(
    alloc: Global,
    page: &mut Page,
    framed: &Framed,
    levelled: &Levelled,
    state: &mut State,
    named: &str,
)
    requires levels { AreLevelsOf framed.now levelled.now }
    requires ran { HasCells framed.now state.old.twin.ran }
    requires cells { HasCells framed.now state.old.cells }
    requires flags { length state.old.faulted.items ≡ length framed.now.programs }
{
    match gather_levels(alloc, framed, levelled, state, named) {
        Ok(None) => push_left(alloc, page, framed, state),
        Ok(Some(misfit)) => page.add(misfit_text(misfit)),
        Err(_) => page.refuse(),
    }
}

/// Adds the levels, and what is left when each was handed the runs that words name, or how these don't fit.
fn push_gathered(
    alloc: Global,
    page: &mut Page,
    framed: &Framed,
    walker: Walker,
    levelled: &Levelled,
    named: &str,
)
    requires levels { AreLevelsOf framed.now levelled.now }
{
    push_levels(page, framed, levelled);
    match opened(alloc, framed, walker) {
        Ok(mut state) => {
            push_handed(alloc, page, framed, levelled, &mut state, named);
            drop(state);
        }
        Err(_) => page.refuse(),
    }
}

/// Adds what a row says of a source that is ready.
fn push_ready(alloc: Global, page: &mut Page, framed: &Framed, walker: Walker, named: &str) {
    match Levelled::of(alloc, framed) {
        Ok(levelled) => {
            push_gathered(alloc, page, framed, walker, &levelled, named);
            drop(levelled);
        }
        Err(_) => {
            drop(walker);
            page.refuse()
        }
    }
}

/// Adds the levels of a source's programs; then what is left of a scan at the moment 0, in which each level is handed the runs that words name:
/// the globals' values, the faulted programs, and whether the programs in program order leave the same; or how the runs of a level don't fit.
///
/// A word is the number of a job of the level, with `@5` behind it for its run at another moment, 5. The words of the next level stand behind a
/// `;`. Of a source that isn't run `?` is added.
pub fn push_level_row(alloc: Global, page: &mut Page, named: &str, source: &str) {
    match made_ready(alloc, source.as_bytes()) {
        Ok(Ready { framed, walker }) => {
            push_ready(alloc, page, &framed, walker, named);
            drop(framed);
        }
        Err(Unready::Memory) => page.refuse(),
        Err(_) => page.word("?"),
    }
}

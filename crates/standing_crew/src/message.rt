//! What a crew and its workers tell each other, and how a worker runs what it is handed.

ghost use Rattle.std.specs.Prelude.{◌≡◌, ◌++◌, ◌≤◌, IfOk, IsTrue, length, map, take};

use crew::{Gate, Work};
use std::alloc::{AllocError, Global};

/// Jobs that are handed out together, the last one first, and a list for their runs. Both lists come back with the runs, and serve a later
/// message: so none is allocated by one thread and freed by another.
#[derive(Drop)]
pub(crate) struct Lists<J, D> {
    pub(crate) jobs: Vec<J>,
    pub(crate) runs: Vec<D>,
}

/// Jobs that are handed to a worker in one message, and the place of the first among those of the round that are handed out.
#[derive(Drop)]
pub(crate) struct Parcel<J, D> {
    pub(crate) round: u64,
    pub(crate) place: usize,
    pub(crate) lists: Lists<J, D>,
}

/// The runs of one parcel. They are `whole` unless memory for them was refused.
#[derive(Drop)]
pub(crate) struct ReturnedRuns<J, D> {
    pub(crate) round: u64,
    pub(crate) place: usize,
    pub(crate) lists: Lists<J, D>,
    pub(crate) whole: bool,
}

/// The lists of an earlier message, or new ones.
pub(crate) fn lists_of<J: Drop, D: Drop>(
    alloc: Global,
    spare: &mut Vec<Lists<J, D>>,
) -> Lists<J, D> {
    match spare.pop() {
        Some(lists) => lists,
        None => Lists {
            jobs: Vec::new(alloc),
            runs: Vec::new(alloc),
        },
    }
}

/// Keeps the lists of a message, with nothing in them, for a later one. Where memory is refused they are dropped.
pub(crate) fn keep_lists<J: Drop, D: Drop>(spare: &mut Vec<Lists<J, D>>, lists: Lists<J, D>) {
    let mut empty = lists;
    empty.jobs.clear();
    empty.runs.clear();
    let _ = spare.push(empty);
}

/// Moves the jobs from a place on into another list, the last one first.
pub(crate) fn move_last<J: Drop>(
    from: &mut Vec<J>,
    place: usize,
    to: &mut Vec<J>,
) -> Result<(), AllocError>
    ensures { IfOk result (λ _. length from.new.items ≤ place) }
{
    while from.len() > place {
        let Some(job) = from.pop() else {
            break;
        };
        to.push(job)?;
    }
    Ok(())
}

/// Runs jobs from the last on, each once the gate is passed, puts their runs behind others, and tells whether there was memory for all.
pub(crate) fn run_back<J: Work<S, D>, S, D: Drop, G: Gate>(
    gate: &G,
    jobs: &mut Vec<J>,
    runs: &mut Vec<D>,
) -> bool
    ensures { take (length runs.old.items) runs.new.items ≡ runs.old.items }
{
    if runs.reserve(jobs.len()).is_err() {
        return false;
    }
    while let Some(job) = jobs.pop() {
        gate.pass(job.number());
        if runs.push(job.run()).is_err() {
            return false;
        }
    }
    true
}

/// Runs jobs one after another, each once the gate is passed, and tells whether there was memory for all runs.
pub(crate) fn run_all<J: Work<S, D>, S, D: Drop, G: Gate>(
    gate: &G,
    jobs: Vec<J>,
    runs: &mut Vec<D>,
) -> bool
    ensures { IsTrue result
        → map J.ended_from runs.new.items
        ≡ map J.ended_from runs.old.items ++ map J.start_of jobs.items }
{
    if runs.reserve(jobs.len()).is_err() {
        return false;
    }
    for job in jobs {
        gate.pass(job.number());
        if runs.push(job.run()).is_err() {
            return false;
        }
    }
    true
}

//! Runs of jobs.

use crew::Work;
use logic_cells::Stop;
use slice_store::{Done, Job};
use std::alloc::{AllocError, Global};
use try_random::Dice;

/// How the run of a job ended.
#[derive(Clone, Copy, Drop)]
pub struct Ended {
    /// The job's number.
    pub number: u32,
    pub ran: Result<(), Stop>,
}

/// Puts things in an order drawn from dice.
fn shuffle<T>(dice: &mut Dice, things: &mut [T]) {
    for last in 1..things.len() {
        if let Ok(bound) = u32::try_from(last + 1) {
            let other = dice.below(bound) as usize;
            things.swap(last, other);
        }
    }
}

/// Runs jobs one after another.
pub fn run_jobs(alloc: Global, jobs: Vec<Job>) -> Result<Vec<Done>, AllocError> {
    let mut runs = Vec::with_capacity(alloc, jobs.len())?;
    for job in jobs {
        runs.push(job.run())?;
    }
    Ok(runs)
}

/// Runs jobs in an order drawn from dice, and tells their runs in another one.
pub fn run_shuffled(
    alloc: Global,
    dice: &mut Dice,
    jobs: Vec<Job>,
) -> Result<Vec<Done>, AllocError> {
    let mut jobs = jobs;
    shuffle(dice, jobs.as_mut_slice());
    let mut runs = run_jobs(alloc, jobs)?;
    shuffle(dice, runs.as_mut_slice());
    Ok(runs)
}

/// Adds how runs ended.
pub fn push_ended(ended: &mut Vec<Ended>, runs: &[Done]) -> Result<(), AllocError> {
    for run in runs {
        ended.push(Ended {
            number: run.number(),
            ran: run.ran(),
        })?;
    }
    Ok(())
}

/// The run of a number's job, taken out of runs.
pub fn run_of(runs: Vec<Done>, number: u32) -> Option<Done> {
    for run in runs {
        if run.number() == number {
            return Some(run);
        }
    }
    None
}

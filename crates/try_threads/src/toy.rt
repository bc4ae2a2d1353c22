//! Jobs that add up numbers.
ghost use Rattle.std.specs.Prelude.{IfOk, map};
ghost use Rattle.std.specs.Arc.{arc_value};
ghost use Rattle.crew.specs.Runs.{AreNumbered};

use crew::{Work, numbers_rise};
use std::alloc::{AllocError, Global};
use std::sync::Arc;

/// What a job starts from.
#[derive(Drop)]
pub struct Start {
    /// Its number.
    pub number: u32,
    /// The number that it begins to add at.
    pub first: u64,
}

/// A job that adds up some hundred numbers.
#[derive(Drop)]
pub struct Job {
    start: Arc<Start>,
    cost: u64,
}

/// A run of a job.
#[derive(Drop)]
pub struct Done {
    start: Arc<Start>,
    /// What the job added up.
    pub sum: u64,
}

impl Job {
    /// A job of this number and cost.
    pub fn new(alloc: Global, number: u32, first: u64, cost: u64) -> Result<Job, AllocError> {
        match Arc::new(alloc, Start { number, first }) {
            Ok(start) => Ok(Job { start, cost }),
            Err(_) => Err(AllocError),
        }
    }
}

impl Done {
    /// The number of its job.
    pub fn number(&self) -> u32 {
        self.start.number
    }
}

impl Work<Start, Done> for Job {
    ghost start_of = { λ job. arc_value job.start };

    ghost ended_from = { λ done. arc_value done.start };

    ghost number_of = { λ start. start.number };

    fn number(&self) -> u32 {
        self.start.number
    }

    fn cost(&self) -> u64 {
        self.cost
    }

    fn start(&self) -> &Arc<Start> {
        &self.start
    }

    fn run(self) -> Done {
        let Job { start, cost: _ } = self;
        let sum = added(start.first);
        Done { start, sum }
    }

    fn is_run_of(ended: &Done, start: &Start) -> bool {
        ended.start.number == start.number && ended.start.first == start.first
    }

    fn fetch(_ended: &Done) {}
}

/// The sum of a hundred numbers, modulo 2 ^ 64.
fn added(first: u64) -> u64 {
    let mut sum = first;
    for n in 0..100u64 {
        sum = sum.wrapping_add(n);
    }
    sum
}

/// Jobs with the numbers from 1 on, each of another cost.
pub fn jobs_to(alloc: Global, last: u32) -> Result<Vec<Job>, AllocError>
    ensures { IfOk result (λ jobs. AreNumbered (λ start. start.number)
        (map (λ job. arc_value job.start) jobs.items)) }
{
    let mut jobs = Vec::new(alloc);
    for number in 1..=last {
        let nth = u64::from(number);
        jobs.push(Job::new(alloc, number, nth * 1_000, nth * 700)?)?;
    }
    if numbers_rise::<Job, Start, Done>(jobs.as_slice()) {
        Ok(jobs)
    } else {
        Err(AllocError)
    }
}

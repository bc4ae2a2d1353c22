//! The caller runs all jobs itself.
ghost use Rattle.std.specs.Prelude.{◌≡◌, ℕ, IfOk, map};
ghost use Rattle.crew.specs.Faults.{IsMemoryAtMost, faults_after};
ghost use Rattle.crew.specs.Runs.{AreNumbered, IsEachOnce};

use crate::{Crew, CrewFault, Work};
use std::alloc::{AllocError, Global};

/// A crew of nobody but the caller. It answers no fault but `Memory`.
#[derive(Clone, Copy, Default)]
pub struct Alone;

impl<J: Work<S, D>, S, D: Drop, H> Crew<J, S, D, H> for Alone {
    ghost faulted = { λ _. 0 };

    ghost asks = { Unit {0} };

    ghost alone = { λ _. Unit {0} };

    #[tactic(auto, using(crate::proofs::Same::same_once))]
    fn run(&mut self, _rt: &H, alloc: Global, jobs: Vec<J>) -> Result<Vec<D>, CrewFault>
        requires asked { Unit {0} }
        requires numbered { AreNumbered J.number_of (map J.start_of jobs.items) }
        ensures each { IfOk result (λ runs. IsEachOnce (map J.start_of jobs.items)
            (map J.ended_from runs.items)) }
        ensures faults { 0 ≡ faults_after 0 result }
        ensures alone { Unit {0} → IsMemoryAtMost result × Unit {0} }
    {
        match run_in_turn(alloc, jobs) {
            Ok(runs) => Ok(runs),
            Err(_) => Err(CrewFault::Memory),
        }
    }

    fn faults(&self) -> u64
        ensures { result ≡ 0 }
    {
        0
    }

    fn is_alone(&self) -> bool {
        true
    }
}

/// Runs jobs one after another.
fn run_in_turn<J: Work<S, D>, S, D: Drop>(alloc: Global, jobs: Vec<J>) -> Result<Vec<D>, AllocError>
    ensures { IfOk result (λ runs. map J.ended_from runs.items ≡ map J.start_of jobs.items) }
{
    let mut runs = Vec::with_capacity(alloc, jobs.len())?;
    for job in jobs {
        runs.push(job.run())?;
    }
    Ok(runs)
}

//! Who runs the programs of a station.

ghost use Rattle.std.specs.Prelude.{◌≡◌, IfOk, None, map};
ghost use Rattle.crew.specs.Faults.{IsMemoryAtMost, faults_after};
ghost use Rattle.crew.specs.Runs.{AreNumbered, IsEachOnce};

use crate::rows::number;
use crew::{Alone, Crew, CrewFault, Work};
use std::alloc::Global;

/// The caller alone; or workers who are gone after so many more rounds, and until then are the caller too.
#[derive(Clone, Copy, Drop)]
pub struct Workers {
    left: Option<u32>,
    faults: u64,
}

/// The workers of a station's rows: where the first of them is a line `workers 2`, they are gone after so many rounds.
pub fn workers_of(rows: &str) -> Workers {
    let left = match rows.strip_prefix("workers ") {
        Some(words) => Some(number(words.lines().next().unwrap_or(""))),
        None => None,
    };
    Workers { left, faults: 0 }
}

impl<J: Work<S, D>, S, D: Drop, H> Crew<J, S, D, H> for Workers {
    ghost faulted = { λ w. w.faults };

    ghost asks = { Unit {0} };

    ghost alone = { λ w. w.left ≡ None };

    fn run(&mut self, rt: &H, alloc: Global, jobs: Vec<J>) -> Result<Vec<D>, CrewFault>
        requires asked { Unit {0} }
        requires numbered { AreNumbered J.number_of (map J.start_of jobs.items) }
        ensures each { IfOk result (λ runs. IsEachOnce (map J.start_of jobs.items)
            (map J.ended_from runs.items)) }
        ensures faults { self.new.faults ≡ faults_after self.old.faults result }
        ensures alone { self.old.left ≡ None → IsMemoryAtMost result × (self.new.left ≡ None) }
    {
        if self.left == Some(0) {
            self.faults = self.faults.saturating_add(1);
            return Err(CrewFault::Lost);
        }
        match Alone.run(rt, alloc, jobs) {
            Ok(runs) => {
                self.left = self.left.map(|left| left.saturating_sub(1));
                Ok(runs)
            }
            Err(_) => Err(CrewFault::Memory),
        }
    }

    fn faults(&self) -> u64
        ensures { result ≡ self.now.faults }
    {
        self.faults
    }

    fn is_alone(&self) -> bool {
        self.left.is_none()
    }
}

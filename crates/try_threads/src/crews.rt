//! Workers of one call run these jobs.
ghost use Rattle.std.specs.Prelude.{◌≡◌, ℕ, IfOk, map};
ghost use Rattle.std.specs.Arc.{arc_value};
ghost use Rattle.std.specs.Thread.{IsSync};
ghost use Rattle.crew.specs.Faults.{IsMemoryAtMost, faults_after};
ghost use Rattle.crew.specs.Runs.{AreNumbered, IsEachOnce};

use crate::toy::{Done, Job, Start};
use crew::{BoxedGate, Crew, CrewFault, Scoped, Ungated};
use std::alloc::Global;
use std::sync::Wait;
use std::thread::Threads;

impl<H: Threads + Wait + Sync> Crew<Job, Start, Done, H> for Scoped<Ungated> {
    ghost faulted = { λ _. 0 };

    ghost asks = { IsSync H.row };

    ghost alone = { λ _. ⊥ };

    fn run(&mut self, rt: &H, alloc: Global, jobs: Vec<Job>) -> Result<Vec<Done>, CrewFault>
        requires asked { IsSync H.row }
        requires numbered { AreNumbered (λ start. start.number)
            (map (λ job. arc_value job.start) jobs.items) }
        ensures each { IfOk result (λ runs. IsEachOnce (map (λ job. arc_value job.start) jobs.items)
            (map (λ done. arc_value done.start) runs.items)) }
        ensures faults { 0 ≡ faults_after 0 result }
        ensures alone { ⊥ → IsMemoryAtMost result × ⊥ }
    {
        self.run_all(rt, alloc, jobs)
    }

    fn faults(&self) -> u64
        ensures { result ≡ 0 }
    {
        0
    }

    fn is_alone(&self) -> bool {
        false
    }
}

impl<H: Threads + Wait + Sync> Crew<Job, Start, Done, H> for Scoped<BoxedGate> {
    ghost faulted = { λ _. 0 };

    ghost asks = { IsSync H.row };

    ghost alone = { λ _. ⊥ };

    fn run(&mut self, rt: &H, alloc: Global, jobs: Vec<Job>) -> Result<Vec<Done>, CrewFault>
        requires asked { IsSync H.row }
        requires numbered { AreNumbered (λ start. start.number)
            (map (λ job. arc_value job.start) jobs.items) }
        ensures each { IfOk result (λ runs. IsEachOnce (map (λ job. arc_value job.start) jobs.items)
            (map (λ done. arc_value done.start) runs.items)) }
        ensures faults { 0 ≡ faults_after 0 result }
        ensures alone { ⊥ → IsMemoryAtMost result × ⊥ }
    {
        self.run_all(rt, alloc, jobs)
    }

    fn faults(&self) -> u64
        ensures { result ≡ 0 }
    {
        0
    }

    fn is_alone(&self) -> bool {
        false
    }
}

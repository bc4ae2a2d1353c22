//! Workers of one call run programs.

ghost use Rattle.std.specs.Prelude.{◌≡◌, IfOk, map};
ghost use Rattle.std.specs.Thread.{IsSync};
ghost use Rattle.crew.specs.Faults.{IsMemoryAtMost, faults_after};
ghost use Rattle.crew.specs.Runs.{AreNumbered, IsEachOnce};

use crate::done::{Done, Job};
use crate::start::Start;
use crew::{BoxedGate, Crew, CrewFault, Scoped, Ungated};
use std::alloc::Global;
use std::thread::Threads;

impl<H: Threads + Sync> Crew<Job, Start, Done, H> for Scoped<Ungated> {
    ghost faulted = { λ _. 0 };

    ghost asks = { IsSync H.row };

    ghost alone = { λ _. ⊥ };

    fn run(&mut self, rt: &H, alloc: Global, jobs: Vec<Job>) -> Result<Vec<Done>, CrewFault>
        requires asked { IsSync H.row }
        requires numbered { AreNumbered (λ start. start.number) (map (λ job. job) jobs.items) }
        ensures each { IfOk result (λ runs. IsEachOnce (map (λ job. job) jobs.items)
            (map (λ done. done) runs.items)) }
        ensures faults { 0 ≡ faults_after 0 result }
        ensures alone { ⊥ → IsMemoryAtMost result × ⊥ }
    {
        self.run_all(rt, alloc, jobs)
    }

    fn faults(&self) -> u64
        ensures { result ≡ 0 }
    {
        0
    }

    fn is_alone(&self) -> bool {
        false
    }
}

impl<H: Threads + Sync> Crew<Job, Start, Done, H> for Scoped<BoxedGate> {
    ghost faulted = { λ _. 0 };

    ghost asks = { IsSync H.row };

    ghost alone = { λ _. ⊥ };

    fn run(&mut self, rt: &H, alloc: Global, jobs: Vec<Job>) -> Result<Vec<Done>, CrewFault>
        requires asked { IsSync H.row }
        requires numbered { AreNumbered (λ start. start.number) (map (λ job. job) jobs.items) }
        ensures each { IfOk result (λ runs. IsEachOnce (map (λ job. job) jobs.items)
            (map (λ done. done) runs.items)) }
        ensures faults { 0 ≡ faults_after 0 result }
        ensures alone { ⊥ → IsMemoryAtMost result × ⊥ }
    {
        self.run_all(rt, alloc, jobs)
    }

    fn faults(&self) -> u64
        ensures { result ≡ 0 }
    {
        0
    }

    fn is_alone(&self) -> bool {
        false
    }
}

//! Workers that stand ready, of whose runs one is lost.
ghost use Rattle.std.specs.Prelude.{◌≡◌, ℕ, IfOk, IfErr, map};
ghost use Rattle.crew.specs.Faults.{IsMemoryAtMost, faults_after};
ghost use Rattle.crew.specs.Runs.{AreNumbered, IsEachOnce};

use crew::{Crew, CrewFault, Gate, Work};
use standing_crew::{Standing, assemble, starts_of};
use std::alloc::Global;
use std::sync::Wait;
use std::thread::Threads;

/// Workers that stand ready. Of the runs that they give the last one is dropped on the way, and the others are held against the jobs. Once a run was
/// missing, each further run answers `Lost`. It never says that it is alone, since a fault may come of any job.
pub struct Losing<J, S, D, G> {
    workers: Standing<J, S, D, G>,
    lost: bool,
    faults: u64,
}

impl<J: Drop, S: Drop, D: Drop, G: Drop> Losing<J, S, D, G> {
    /// Workers that haven't lost a run yet.
    pub fn new(workers: Standing<J, S, D, G>) -> Losing<J, S, D, G> {
        Losing {
            workers,
            lost: false,
            faults: 0,
        }
    }

    /// Ends the workers, and waits until they have ended.
    pub fn close<H: Threads + Wait>(self, rt: &H) {
        let Losing {
            workers,
            lost: _,
            faults: _,
        } = self;
        workers.close(rt);
    }
}

impl<J: Work<S, D>, S: Drop, D: Drop, G: Gate> Losing<J, S, D, G> {
    /// The runs of the workers but the last one, held against the jobs.
    fn all_but_one<H: Threads + Wait>(
        &mut self,
        rt: &H,
        alloc: Global,
        jobs: Vec<J>,
    ) -> Result<Vec<D>, CrewFault>
        requires { AreNumbered J.number_of (map J.start_of jobs.items) }
        ensures each { IfOk result (λ runs. IsEachOnce (map J.start_of jobs.items)
            (map J.ended_from runs.items)) }
        ensures faults { self.new.faults ≡ self.old.faults }
    {
        if self.lost {
            return Err(CrewFault::Lost);
        }
        let Ok(starts) = starts_of::<J, S, D>(jobs.as_slice(), Vec::new(alloc)) else {
            return Err(CrewFault::Memory);
        };
        match self.workers.run(rt, alloc, jobs) {
            Ok(mut runs) => {
                drop(runs.pop());
                assemble::<J, S, D>(alloc, starts.as_slice(), runs)
            }
            Err(fault) => Err(fault),
        }
    }
}

impl<J: Work<S, D>, S: Drop, D: Drop, G: Gate, H: Threads + Wait> Crew<J, S, D, H>
    for Losing<J, S, D, G> {
    ghost faulted = { λ s. s.faults };

    ghost asks = { Unit {0} };

    ghost alone = { λ _. ⊥ };

    fn run(&mut self, rt: &H, alloc: Global, jobs: Vec<J>) -> Result<Vec<D>, CrewFault>
        requires asked { Unit {0} }
        requires numbered { AreNumbered J.number_of (map J.start_of jobs.items) }
        ensures each { IfOk result (λ runs. IsEachOnce (map J.start_of jobs.items)
            (map J.ended_from runs.items)) }
        ensures faults { self.new.faults ≡ faults_after self.old.faults result }
        ensures alone { ⊥ → IsMemoryAtMost result × ⊥ }
    {
        let answer = self.all_but_one(rt, alloc, jobs);
        if let Err(fault) = &answer {
            match fault {
                CrewFault::Memory => {}
                _ => {
                    self.lost = true;
                    self.faults = self.faults.saturating_add(1);
                }
            }
        }
        answer
    }

    fn faults(&self) -> u64
        ensures { result ≡ self.now.faults }
    {
        self.faults
    }

    fn is_alone(&self) -> bool {
        false
    }
}

//! Crews that run jobs: each job once, by the caller alone or in threads.
//!
//! A crew is generic in what it runs (`Work`), and its answer has one run of each job that was handed in, in any order. Nobody is told
//! which thread ran what, so what follows from the runs is the same for every crew.
//!
//! Runs that are known by their type alone are ticked off against what was handed out: whether each is of a job of that, none comes twice, and
//! none is missing.
//!
//! Layer base_: it must not know sources, alarms or files.
#![tactic(auto)]

ghost use Rattle.std.specs.Prelude.{◌≡◌, ℕ, IfOk, IsTrue, map};
ghost use Rattle.crew.specs.Faults.{IsMemoryAtMost, faults_after};
ghost use Rattle.crew.specs.Runs.{AreNumbered, IsEachOnce};

use std::alloc::Global;

mod alone;
mod fault;
mod gate;
mod scoped;
mod starts;
mod ticks;
mod work;

pub use alone::Alone;
pub use fault::CrewFault;
pub use gate::{BoxedGate, Gate, Ungated};
pub use scoped::Scoped;
pub use starts::{Begun, starts_of};
pub use ticks::{all_known, all_there, begin_ticks, tick_off};
pub use work::{Work, numbers_rise};

/// Who runs jobs. `J` is a job, `S` what it starts from, `D` a run of it that ended, and `H` the handle that a crew is lent.
pub trait Crew<J: Work<S, D>, S, D, H> {
    /// What `faults` tells.
    ghost faulted: { Self → ℕ };

    /// What the crew asks of the handle, as that threads may share it.
    ghost asks: { Type 0 };

    /// Whether the crew is nobody but the caller. Such a crew runs all jobs in the caller's thread, and no fault but `Memory` comes of that.
    ghost alone: { Self → Type 0 };

    /// Runs each job once. The runs come in any order. After an `Err` nothing of this call is to be used, and the jobs are gone.
    fn run(&mut self, rt: &H, alloc: Global, jobs: Vec<J>) -> Result<Vec<D>, CrewFault>
        requires asked { asks }
        requires numbered { AreNumbered J.number_of (map J.start_of jobs.items) }
        ensures each { IfOk result (λ runs. IsEachOnce (map J.start_of jobs.items)
            (map J.ended_from runs.items)) }
        ensures faults { faulted self.new ≡ faults_after (faulted self.old) result }
        ensures alone { alone self.old → IsMemoryAtMost result × alone self.new };

    /// How many runs answered a fault other than `Memory`; at the greatest `u64` it stays.
    fn faults(&self) -> u64
        ensures { result ≡ faulted self.now };

    /// Whether the crew is nobody but the caller, so that a caller loses nothing, and no fault, where it does its work itself, without jobs. It says
    /// so only where that is so.
    fn is_alone(&self) -> bool
        ensures { IsTrue result → alone self.now };
}

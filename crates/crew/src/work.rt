//! Jobs: work that is handed over whole.
ghost use Rattle.std.specs.Prelude.{◌≡◌, ◌↔◌, ℕ, IsTrue, map};
ghost use Rattle.std.specs.Arc.{arc_value};
ghost use Rattle.crew.specs.Runs.{AreNumbered};

use std::sync::Arc;

/// A job, which a worker takes over whole. `S` is what it starts from, and decides its run; `D` is a run of it that ended.
///
/// Contracts see a job, and a run of it, as what it starts from.
pub trait Work<S, D>: Drop {
    /// What a job starts from.
    ghost start_of: { Self → S };

    /// What the job of an ended run started from.
    ghost ended_from: { D → S };

    /// The number of the job that starts so.
    ghost number_of: { S → ℕ };

    /// The job's number, its own among the jobs that are handed in together.
    fn number(&self) -> u32
        ensures { result ≡ number_of (start_of self.now) };

    /// What the run costs at most: steps of some nanoseconds each. Jobs are shared out by it.
    fn cost(&self) -> u64;

    /// What the job starts from.
    fn start(&self) -> &Arc<S>
        ensures { arc_value result.now ≡ start_of self.now };

    /// Runs the job.
    fn run(self) -> D
        ensures { ended_from result ≡ start_of self };

    /// Whether an ended run is one of the job that starts so.
    fn is_run_of(ended: &D, start: &S) -> bool
        ensures { IsTrue result ↔ (ended_from ended.now ≡ start.now) };

    /// Reads what an ended run left, so that whoever takes that in needn't wait for the cache of the thread that ran it. It changes nothing.
    fn fetch(ended: &D);
}

/// Whether the numbers of jobs rise, so that no two jobs have one number.
#[tactic(auto, using(crate::proofs::Rising::none_rise))]
pub fn numbers_rise<J: Work<S, D>, S, D>(jobs: &[J]) -> bool
    ensures { IsTrue result → AreNumbered J.number_of (map J.start_of jobs.now) }
{
    let mut next = 0u64;
    for job in jobs {
        let number = u64::from(job.number());
        if number < next {
            return false;
        }
        next = number + 1;
    }
    true
}

//! The crew that runs the programs of the plant.

ghost use Rattle.std.specs.Prelude.{◌<◌, ◌≤◌};

use crew::Ungated;
use engine::{Done, Job, Start};
use standing_crew::Standing;
use std::alloc::Global;
use std::sync::{Arc, Wait};
use std::thread::Threads;

/// Workers that run the programs of the plant.
pub type Workers = Standing<Job, Start, Done, Ungated>;

/// So many workers, of which the caller is one; `None` where memory is refused, or a thread isn't to be had.
pub fn workers<R: Threads + Wait + Clone + Send + Drop + 'static>(
    rt: &R,
    alloc: Global,
    number: u32,
) -> Option<Workers>
    requires { (0 < number) × (number ≤ 64) }
{
    match Arc::new(alloc, Ungated) {
        Ok(gate) => Standing::new(rt, alloc, number, gate).ok(),
        Err(_) => None,
    }
}

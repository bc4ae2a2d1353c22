//! The crew that runs the programs of a plant: the caller alone, or workers that stand ready.

ghost use Rattle.std.specs.Prelude.{◌<◌, ◌≤◌};

use crew::{CrewFault, Ungated};
use engine::{Done, Job, Start};
use serve_runs::ServeFault;
use standing_crew::Standing;
use std::alloc::Global;
use std::sync::{Arc, Wait};
use std::thread::Threads;

/// Workers that run the programs of a plant.
pub type Workers = Standing<Job, Start, Done, Ungated>;

/// So many workers, of which the caller is one. Fails if memory is refused, or a thread isn't to be had.
pub fn workers<R: Threads + Wait + Clone + Send + Drop + 'static>(
    rt: &R,
    alloc: Global,
    number: u32,
) -> Result<Workers, ServeFault>
    requires { (0 < number) × (number ≤ 64) }
{
    let Ok(gate) = Arc::new(alloc, Ungated) else {
        return Err(ServeFault::Memory);
    };
    match Standing::new(rt, alloc, number, gate) {
        Ok(workers) => Ok(workers),
        Err(CrewFault::Memory) => Err(ServeFault::Memory),
        Err(_) => Err(ServeFault::Crew),
    }
}

//! The crews of rows.

ghost use Rattle.std.specs.Prelude.{◌<◌, ◌≤◌};
ghost use Rattle.std.specs.Thread.{IsSync};

use crate::gated::gates::{Holding, Watch};
use crate::gated::losing::Losing;
use crate::gated::scans::push_scans;
use crew::{Alone, BoxedGate, CrewFault, Scoped};
use engine::{Done, Job, Plant, Start};
use standing_crew::Standing;
use std::alloc::Global;
use std::sync::{Arc, Wait};
use std::thread::Threads;
use try_text::Page;

/// Workers that stand ready, and pass the gate.
type Workers = Standing<Job, Start, Done, Holding>;

/// Takes a plant's scans by the caller alone.
pub fn push_alone<H>(rt: &H, alloc: Global, page: &mut Page, watch: &Watch, plant: Plant) {
    push_scans(rt, alloc, page, &mut Alone, watch, plant, 2);
}

/// Takes a plant's scans by so many workers of one call.
pub fn push_scoped<H: Threads + Sync>(
    rt: &H,
    alloc: Global,
    page: &mut Page,
    watch: &Watch,
    gate: Holding,
    workers: u32,
    plant: Plant,
)
    requires shared { IsSync H.row }
    requires workers { (0 < workers) × (workers ≤ 64) }
{
    match Box::new(alloc, gate) {
        Ok(gate) => {
            let gate: BoxedGate = gate;
            let mut crew = Scoped::new(workers, gate);
            push_scans(rt, alloc, page, &mut crew, watch, plant, 2);
        }
        Err(_) => {
            drop(plant);
            page.refuse();
        }
    }
}

/// So many workers that stand ready, made as the server makes them; or such that share out what costs at least so much.
fn standing<H: Threads + Wait + Clone + Send + Drop + 'static>(
    rt: &H,
    alloc: Global,
    workers: u32,
    gate: Holding,
    least: Option<u64>,
) -> Result<Workers, CrewFault>
    requires { (0 < workers) × (workers ≤ 64) }
{
    let Ok(gate) = Arc::new(alloc, gate) else {
        return Err(CrewFault::Memory);
    };
    match least {
        None => Standing::new(rt, alloc, workers, gate),
        Some(least) => Standing::with_least(rt, alloc, workers, gate, least),
    }
}

/// Takes a plant's scans by workers that stand ready, or that are gone.
pub fn push_standing<H: Threads + Wait + Clone + Send + Drop + 'static>(
    rt: &H,
    alloc: Global,
    page: &mut Page,
    watch: &Watch,
    gate: Holding,
    kind: Kind,
    plant: Plant,
) {
    let workers = if kind.are_two { 2 } else { 1 };
    match standing(rt, alloc, workers, gate, kind.least) {
        Ok(mut crew) => {
            if kind.are_gone {
                crew.retire(rt);
            }
            push_scans(rt, alloc, page, &mut crew, watch, plant, 2);
            crew.close(rt);
        }
        Err(_) => {
            drop(plant);
            page.refuse();
        }
    }
}

/// The plant in whose scan a run is lost, and the plant of the row.
pub struct Plants {
    pub first: Plant,
    pub then: Plant,
}

/// Takes a scan of a plant by workers that stand ready, of whose runs one is lost, and then another plant's scans by the same.
pub fn push_losing<H: Threads + Wait + Clone + Send + Drop + 'static>(
    rt: &H,
    alloc: Global,
    page: &mut Page,
    watch: &Watch,
    gate: Holding,
    kind: Kind,
    plants: Plants,
) {
    let Plants { first, then } = plants;
    let workers = if kind.are_two { 2 } else { 1 };
    match standing(rt, alloc, workers, gate, kind.least) {
        Ok(workers) => {
            let mut crew = Losing::new(workers);
            push_scans(rt, alloc, page, &mut crew, watch, first, 1);
            push_scans(rt, alloc, page, &mut crew, watch, then, 2);
            crew.close(rt);
        }
        Err(_) => {
            drop(first);
            drop(then);
            page.refuse();
        }
    }
}

/// Which workers stand ready: one or two, what they share out at least, where this isn't the server's, and whether they are gone.
#[derive(Clone, Copy, Drop)]
pub struct Kind {
    pub are_two: bool,
    pub least: Option<u64>,
    pub are_gone: bool,
}

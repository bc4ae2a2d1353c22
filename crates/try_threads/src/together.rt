//! Two jobs are under way at the same time: a gate holds one of them until the other has passed.

use crate::gates::{Holding, Watch};
use crate::toy::{Done, Job, Start, jobs_to};
use crew::{BoxedGate, Crew, Scoped};
use standing_crew::Standing;
use std::alloc::{AllocError, Global};
use std::sync::{Arc, Wait};
use std::test::Fail;
use std::thread::Threads;

/// A watch that gates share.
fn new_watch(alloc: Global) -> Result<Arc<Watch>, AllocError> {
    match Arc::new(alloc, Watch::new()) {
        Ok(watch) => Ok(watch),
        Err(_) => Err(AllocError),
    }
}

/// Two workers of one call, the first job held until the second has passed.
#[test]
fn scoped_workers_run_at_once(rt: HostRuntime) -> Result<(), Fail> {
    let alloc = rt.alloc();
    let jobs = jobs_to(alloc, 2)?;
    let watch = new_watch(alloc)?;
    let Ok(gate) = Box::new(alloc, Holding::new(1, 2, watch.clone()?)) else {
        return Err(AllocError)?;
    };
    let gate: BoxedGate = gate;
    let mut crew = Scoped::new(2, gate);
    let came = crew.run(&rt, alloc, jobs);
    assert!(rt; came.is_ok() && !watch.has_missed());
    Ok(())
}

/// Whether a crew runs two jobs in each of three rounds.
fn run_rounds<H, C: Crew<Job, Start, Done, H>>(
    rt: &H,
    alloc: Global,
    crew: &mut C,
    watch: &Watch,
) -> Result<bool, AllocError>
    requires { C.asks }
{
    let mut fine = true;
    for _ in 0..3u32 {
        watch.forget();
        let jobs = jobs_to(alloc, 2)?;
        fine = crew.run(rt, alloc, jobs).is_ok() && fine;
    }
    Ok(fine)
}

/// Whether two standing workers run two jobs at once, of which one is held until the other has passed, round after round.
fn stand_together<H: Threads + Wait + Clone + Send + Drop + 'static>(
    rt: &H,
    alloc: Global,
    held: u32,
    until: u32,
) -> Result<bool, AllocError> {
    let watch = new_watch(alloc)?;
    let Ok(gate) = Arc::new(alloc, Holding::new(held, until, watch.clone()?)) else {
        return Err(AllocError);
    };
    let Ok(mut crew) = Standing::<Job, Start, Done, Holding>::with_least(rt, alloc, 2, gate, 0)
    else {
        return Err(AllocError);
    };
    let fine = run_rounds(rt, alloc, &mut crew, &*watch);
    crew.close(rt);
    Ok(fine? && !watch.has_missed())
}

#[test]
fn standing_workers_run_at_once(rt: HostRuntime) -> Result<(), Fail> {
    assert!(rt; stand_together(&rt, rt.alloc(), 1, 2)?);
    assert!(rt; stand_together(&rt, rt.alloc(), 2, 1)?);
    Ok(())
}

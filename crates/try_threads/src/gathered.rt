//! What comes back: the same runs of each crew, whatever the number of workers; what `assemble` refuses; and what retired workers answer.
ghost use Rattle.std.specs.Prelude.{◌<◌, ◌≤◌};
ghost use Rattle.std.specs.Thread.{IsSync};

use crate::toy::{Done, Job, Start, jobs_to};
use crew::{Alone, Crew, CrewFault, Scoped, Ungated, Work};
use standing_crew::{Standing, assemble, starts_of};
use std::alloc::{AllocError, Global};
use std::sync::{Arc, Wait};
use std::test::Fail;
use std::thread::Threads;

/// The numbers and sums of the runs that a crew gives of jobs, in the order of the numbers.
fn told<H, C: Crew<Job, Start, Done, H>>(
    rt: &H,
    alloc: Global,
    crew: &mut C,
    last: u32,
) -> Result<Vec<(u32, u64)>, AllocError>
    requires { C.asks }
{
    let jobs = jobs_to(alloc, last)?;
    let Ok(runs) = crew.run(rt, alloc, jobs) else {
        return Err(AllocError);
    };
    let mut told = Vec::with_capacity(alloc, runs.len())?;
    for run in runs.as_slice() {
        told.push((run.number(), run.sum))?;
    }
    told.sort()?;
    Ok(told)
}

/// So many workers that stand ready.
fn new_standing<H: Threads + Wait + Clone + Send + Drop + 'static>(
    rt: &H,
    alloc: Global,
    workers: u32,
) -> Result<Standing<Job, Start, Done, Ungated>, AllocError>
    requires { (0 < workers) × (workers ≤ 64) }
{
    let Ok(gate) = Arc::new(alloc, Ungated) else {
        return Err(AllocError);
    };
    match Standing::with_least(rt, alloc, workers, gate, 0) {
        Ok(crew) => Ok(crew),
        Err(_) => Err(AllocError),
    }
}

fn gives<H, C: Crew<Job, Start, Done, H>>(
    rt: &H,
    alloc: Global,
    crew: &mut C,
    last: u32,
    want: &[(u32, u64)],
) -> Result<bool, AllocError>
    requires { C.asks }
{
    Ok(told(rt, alloc, crew, last)?.as_slice() == want)
}

/// Whether so many workers that stand ready give these runs of jobs, and once more.
fn stand_and_give<H: Threads + Wait + Clone + Send + Sync + Drop + 'static>(
    rt: &H,
    alloc: Global,
    workers: u32,
    last: u32,
    want: &[(u32, u64)],
) -> Result<bool, AllocError>
    requires { (0 < workers) × (workers ≤ 64) }
{
    let mut crew = new_standing(rt, alloc, workers)?;
    let first = gives(rt, alloc, &mut crew, last, want);
    let second = gives(rt, alloc, &mut crew, last, want);
    crew.close(rt);
    Ok(first? && second?)
}

/// Whether so many workers, of one call or standing, give what the caller alone gives of so many jobs.
fn give_the_same<H: Threads + Wait + Clone + Send + Sync + Drop + 'static>(
    rt: &H,
    alloc: Global,
    workers: u32,
    last: u32,
) -> Result<bool, AllocError>
    requires workers { (0 < workers) × (workers ≤ 64) }
    requires shared { IsSync H.row }
{
    let want = told(rt, alloc, &mut Alone, last)?;
    let scoped = gives(
        rt,
        alloc,
        &mut Scoped::new(workers, Ungated),
        last,
        want.as_slice(),
    );
    let standing = stand_and_give(rt, alloc, workers, last, want.as_slice());
    let is_whole = want.len() == last as usize;
    drop(want);
    Ok(is_whole && scoped? && standing?)
}

/// No job, one and many, by one, two and eight workers of each kind.
#[test]
fn all_crews_give_the_same(rt: HostRuntime) -> Result<(), Fail> {
    let alloc = rt.alloc();
    for last in [0, 1, 2, 40] {
        assert!(rt; give_the_same(&rt, alloc, 1, last)?);
        assert!(rt; give_the_same(&rt, alloc, 2, last)?);
        assert!(rt; give_the_same(&rt, alloc, 8, last)?);
    }
    Ok(())
}

/// What comes of runs of these jobs, where jobs 1 and 2 were handed out.
fn assembled(alloc: Global, numbers: &[u32]) -> Result<Result<usize, CrewFault>, AllocError> {
    let jobs = jobs_to(alloc, 2)?;
    let mut got = Vec::new(alloc);
    for number in numbers {
        got.push(Job::new(alloc, *number, u64::from(*number) * 1_000, 1)?.run())?;
    }
    let starts = starts_of::<Job, Start, Done>(jobs.as_slice(), Vec::new(alloc))?;
    match assemble::<Job, Start, Done>(alloc, starts.as_slice(), got) {
        Ok(runs) => Ok(Ok(runs.len())),
        Err(CrewFault::Memory) => Err(AllocError),
        Err(fault) => Ok(Err(fault)),
    }
}

#[test]
fn runs_are_held_against_jobs(rt: HostRuntime) -> Result<(), Fail> {
    let alloc = rt.alloc();
    assert!(rt; assembled(alloc, [2, 1].as_slice())? == Ok(2));
    assert!(rt; assembled(alloc, [1].as_slice())? == Err(CrewFault::Lost));
    assert!(rt; assembled(alloc, [1, 1].as_slice())? == Err(CrewFault::Misfit));
    assert!(rt; assembled(alloc, [1, 2, 3].as_slice())? == Err(CrewFault::Misfit));
    Ok(())
}

/// How many faults a crew tells.
fn faults_of<H, C: Crew<Job, Start, Done, H>>(_rt: &H, crew: &C) -> u64 {
    crew.faults()
}

/// Whether a crew gives the runs of two jobs, and counts no fault.
fn is_whole<H, C: Crew<Job, Start, Done, H>>(
    rt: &H,
    alloc: Global,
    crew: &mut C,
) -> Result<bool, AllocError>
    requires { C.asks }
{
    Ok(told(rt, alloc, crew, 2)?.len() == 2 && faults_of(rt, crew) == 0)
}

/// Whether a crew answers jobs by a fault, its first and its second one.
fn is_lost<H, C: Crew<Job, Start, Done, H>>(
    rt: &H,
    alloc: Global,
    crew: &mut C,
) -> Result<bool, AllocError>
    requires { C.asks }
{
    for count in 1..=2u64 {
        let jobs = jobs_to(alloc, 2)?;
        let is_lost = matches!(crew.run(rt, alloc, jobs), Err(CrewFault::Lost));
        if !is_lost || faults_of(rt, crew) != count {
            return Ok(false);
        }
    }
    Ok(true)
}

/// Once its workers are retired a crew answers that it is lost, and counts it.
#[test]
fn retired_workers_are_a_fault(rt: HostRuntime) -> Result<(), Fail> {
    let alloc = rt.alloc();
    let mut crew = new_standing(&rt, alloc, 2)?;
    let before = is_whole(&rt, alloc, &mut crew);
    crew.retire(&rt);
    let after = is_lost(&rt, alloc, &mut crew);
    crew.close(&rt);
    assert!(rt; before?);
    assert!(rt; after?);
    Ok(())
}

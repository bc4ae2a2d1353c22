//! Workers that live for one call.
ghost use Rattle.std.specs.Prelude.{◌≡◌, ◌++◌, ℕ, ◌<◌, ◌≤◌, IfOk, IfErr, vec_len, slice_index_or, map};
ghost use Rattle.crew.specs.Runs.{AreNumbered, IsEachOnce};
ghost use Rattle.crew.specs.declared.fault.CrewFault.TheVariants.{Memory};

use crate::{CrewFault, Gate, Work};
use std::alloc::{AllocError, Global};
use std::thread;
use std::thread::Threads;

/// Workers that live for one call, so many at once.
///
/// The crate of a job says that this is a `Crew` for it, at the gates that it uses: a method of a trait starts no thread whose code is
/// known by a bound alone. Its method is `run_all`.
#[derive(Drop)]
pub struct Scoped<G> {
    workers: usize,
    gate: G,
    ghost some: { (0 < workers) × (workers ≤ 64) },
}

impl<G: Gate + Sync> Scoped<G> {
    /// A crew of 1 to 64 workers, each of which passes the gate before each job.
    pub fn new(workers: u32, gate: G) -> Scoped<G>
        requires { (0 < workers) × (workers ≤ 64) }
    {
        Scoped {
            workers: workers as usize,
            gate,
        }
    }

    /// Runs each job once, each in a thread of its own, so many at once as there are workers. Where no thread is to be had the caller
    /// runs the job. It answers no fault but `Memory`.
    #[tactic(auto, using(crate::proofs::Same::same_once))]
    pub fn run_all<J: Work<S, D> + Send, S, D: Drop + Send, H: Threads + Sync>(
        &self,
        rt: &H,
        alloc: Global,
        jobs: Vec<J>,
    ) -> Result<Vec<D>, CrewFault>
        requires { AreNumbered J.number_of (map J.start_of jobs.items) }
        ensures each { IfOk result (λ runs. IsEachOnce (map J.start_of jobs.items)
            (map J.ended_from runs.items)) }
        ensures fault { IfErr result (λ fault. fault ≡ Memory) }
    {
        match run_in_batches(rt, alloc, self.workers, &self.gate, jobs) {
            Ok(runs) => Ok(runs),
            Err(_) => Err(CrewFault::Memory),
        }
    }
}

/// Runs each job of a batch in a thread of its own.
fn run_each<G: Gate + Sync, J: Work<S, D> + Send, S, D: Drop + Send, H: Threads + Sync>(
    rt: &H,
    gate: &G,
    batch: Vec<J>,
) -> Result<Vec<D>, AllocError>
    ensures len { IfOk result (λ runs. vec_len runs ≡ vec_len batch) }
    ensures each { IfOk result (λ runs. (i : ℕ) (job : J) (ended : D) → i < vec_len batch
        → J.ended_from (slice_index_or runs.items i ended)
        ≡ J.start_of (slice_index_or batch.items i job)) }
{
    thread::map_vec(
        rt,
        batch,
        &|job: J| -> D
            ensures { J.ended_from result ≡ J.start_of job }
        {
            gate.pass(job.number());
            job.run()
        },
    )
}

fn run_batch<G: Gate + Sync, J: Work<S, D> + Send, S, D: Drop + Send, H: Threads + Sync>(
    rt: &H,
    gate: &G,
    batch: Vec<J>,
) -> Result<Vec<D>, AllocError>
    ensures { IfOk result (λ runs. map J.ended_from runs.items ≡ map J.start_of batch.items) }
{
    let runs = run_each(rt, gate, batch)?;
    Ok(runs)
}

/// Runs jobs in batches, one batch after another.
fn run_in_batches<G: Gate + Sync, J: Work<S, D> + Send, S, D: Drop + Send, H: Threads + Sync>(
    rt: &H,
    alloc: Global,
    workers: usize,
    gate: &G,
    jobs: Vec<J>,
) -> Result<Vec<D>, AllocError>
    requires { 0 < workers }
    ensures { IfOk result (λ runs. map J.ended_from runs.items ≡ map J.start_of jobs.items) }
{
    let mut runs = Vec::with_capacity(alloc, jobs.len())?;
    let mut left = jobs;
    while left.len() > workers {
        let rest = left.split_off(workers)?;
        let mut batch = run_batch(rt, gate, left)?;
        runs.append(&mut batch)?;
        left = rest;
    }
    let mut batch = run_batch(rt, gate, left)?;
    runs.append(&mut batch)?;
    Ok(runs)
}

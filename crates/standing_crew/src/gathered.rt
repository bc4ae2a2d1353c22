//! The runs of a round, ticked off as they come back.
ghost use Rattle.std.specs.Prelude.{◌≡◌, ◌≤◌, None, length, map, take, MatchResult};
ghost use Rattle.crew.specs.Runs.{IsDistinct, IsEachOnce};
ghost use Rattle.crew.specs.Ticks.{IsTicked};
ghost use Rattle.standing_crew.specs.Assembled.{IsCollectFault, IsGathered};

use crate::message::{Lists, keep_lists, run_back};
use crew::{Begun, CrewFault, Gate, Work, all_there, begin_ticks, tick_off};
use std::alloc::Global;

/// The runs that came back so far, each ticked off, how many messages are away, the first fault, and lists that serve a later message.
#[derive(Drop)]
pub(crate) struct Gathered<J, D> {
    pub(crate) runs: Vec<D>,
    pub(crate) ticks: Vec<bool>,
    pub(crate) away: u64,
    pub(crate) fault: Option<CrewFault>,
    pub(crate) spare: Vec<Lists<J, D>>,
}

/// The runs that came back, where there is one of each job that was handed out, in any order. `Misfit` where one is of no job that was handed
/// out, or comes twice; else `Lost` where one is missing. A crew does the same with the runs of a round, some of them at a time.
pub fn assemble<J: Work<S, D>, S: Drop, D: Drop>(
    alloc: Global,
    starts: &[Begun<S>],
    got: Vec<D>,
) -> Result<Vec<D>, CrewFault>
    requires { IsDistinct starts.now }
    ensures { MatchResult result
        (λ runs. (runs ≡ got) × IsEachOnce starts.now (map J.ended_from got.items))
        (λ fault. IsCollectFault starts.now (map J.ended_from got.items) fault) }
{
    let mut ticks = Vec::new(alloc);
    let Ok(()) = begin_ticks(starts, &mut ticks) else {
        return Err(CrewFault::Memory);
    };
    let mut gathered = Gathered::<J, D> {
        runs: got,
        ticks,
        away: 0,
        fault: None,
        spare: Vec::new(alloc),
    };
    tick_rest::<J, S, D>(starts, 0, 0, &mut gathered);
    match gathered_all::<J, S, D>(starts, &gathered) {
        Ok(()) => Ok(gathered.runs),
        Err(fault) => Err(fault),
    }
}

/// Ticks off the runs from a place on, where those before it are ticked off. The first is sought near the start of a place.
#[tactic(auto, using(crate::proofs::Gathering::still_gathered))]
fn tick_rest<J: Work<S, D>, S: Drop, D>(
    starts: &[Begun<S>],
    from: usize,
    near: usize,
    gathered: &mut Gathered<J, D>,
)
    requires before { from ≤ length gathered.old.runs.items }
    requires fine { gathered.old.fault ≡ None }
    requires ticked { IsTicked starts.now gathered.old.ticks.items
        (map J.ended_from (take from gathered.old.runs.items)) }
    requires distinct { IsDistinct starts.now }
    ensures gathered { IsGathered starts.now gathered.new.fault gathered.new.ticks.items
        (map J.ended_from gathered.new.runs.items) }
    ensures runs { gathered.new.runs ≡ gathered.old.runs }
{
    let runs = gathered.runs.as_slice();
    let ticks = gathered.ticks.as_mut_slice();
    if !tick_off::<J, S, D>(starts, runs, from, near, ticks) {
        gathered.fault = Some(CrewFault::Misfit);
    }
}

/// Ticks off runs that came back of jobs that were handed out together, the first near the start of a place.
fn add_runs<J: Work<S, D>, S: Drop, D: Drop>(
    starts: &[Begun<S>],
    lists: Lists<J, D>,
    near: usize,
    gathered: &mut Gathered<J, D>,
)
    requires distinct { IsDistinct starts.now }
    requires fine { gathered.old.fault ≡ None }
    requires ticked { IsTicked starts.now gathered.old.ticks.items
        (map J.ended_from gathered.old.runs.items) }
    ensures { IsGathered starts.now gathered.new.fault gathered.new.ticks.items
        (map J.ended_from gathered.new.runs.items) }
{
    let from = gathered.runs.len();
    let mut more = lists;
    if gathered.runs.append(&mut more.runs).is_err() {
        gathered.fault = Some(CrewFault::Memory);
        return;
    }
    keep_lists(&mut gathered.spare, more);
    tick_rest::<J, S, D>(starts, from, near, gathered);
}

/// Runs jobs that were handed out together, the first near the start of a place, and ticks off their runs.
fn run_more<J: Work<S, D>, S: Drop, D: Drop, G: Gate>(
    gate: &G,
    starts: &[Begun<S>],
    lists: Lists<J, D>,
    near: usize,
    gathered: &mut Gathered<J, D>,
)
    requires distinct { IsDistinct starts.now }
    requires fine { gathered.old.fault ≡ None }
    requires ticked { IsTicked starts.now gathered.old.ticks.items
        (map J.ended_from gathered.old.runs.items) }
    ensures { IsGathered starts.now gathered.new.fault gathered.new.ticks.items
        (map J.ended_from gathered.new.runs.items) }
{
    let from = gathered.runs.len();
    let mut more = lists;
    if !run_back::<J, S, D, G>(gate, &mut more.jobs, &mut gathered.runs) {
        gathered.fault = Some(CrewFault::Memory);
        return;
    }
    keep_lists(&mut gathered.spare, more);
    tick_rest::<J, S, D>(starts, from, near, gathered);
}

/// Takes in runs that came back of jobs that were handed out together, the first near the start of a place. After a fault they are dropped.
#[tactic(auto, using(crate::proofs::Gathering::was_ticked))]
pub(crate) fn take_in<J: Work<S, D>, S: Drop, D: Drop>(
    starts: &[Begun<S>],
    lists: Lists<J, D>,
    near: usize,
    gathered: &mut Gathered<J, D>,
)
    requires distinct { IsDistinct starts.now }
    requires ticked { IsGathered starts.now gathered.old.fault gathered.old.ticks.items
        (map J.ended_from gathered.old.runs.items) }
    ensures { IsGathered starts.now gathered.new.fault gathered.new.ticks.items
        (map J.ended_from gathered.new.runs.items) }
{
    match gathered.fault {
        None => add_runs::<J, S, D>(starts, lists, near, gathered),
        Some(_) => {}
    }
}

/// Runs jobs that were handed out together, the first near the start of a place, and takes in their runs. After a fault they are given up.
#[tactic(auto, using(crate::proofs::Gathering::was_ticked))]
pub(crate) fn run_in<J: Work<S, D>, S: Drop, D: Drop, G: Gate>(
    gate: &G,
    starts: &[Begun<S>],
    lists: Lists<J, D>,
    near: usize,
    gathered: &mut Gathered<J, D>,
)
    requires distinct { IsDistinct starts.now }
    requires ticked { IsGathered starts.now gathered.old.fault gathered.old.ticks.items
        (map J.ended_from gathered.old.runs.items) }
    ensures { IsGathered starts.now gathered.new.fault gathered.new.ticks.items
        (map J.ended_from gathered.new.runs.items) }
{
    match gathered.fault {
        None => run_more::<J, S, D, G>(gate, starts, lists, near, gathered),
        Some(_) => {}
    }
}

/// Whether there is a run of each job, where those that came back are ticked off; else `Lost`.
#[tactic(auto, using(crate::proofs::Gathering::lost_told))]
fn none_lost<J: Work<S, D>, S, D>(
    starts: &[Begun<S>],
    got: &[D],
    ticks: &[bool],
) -> Result<(), CrewFault>
    requires { IsTicked starts.now ticks.now (map J.ended_from got.now) }
    ensures { MatchResult result (λ _. IsEachOnce starts.now (map J.ended_from got.now))
        (λ fault. IsCollectFault starts.now (map J.ended_from got.now) fault) }
{
    if !all_there::<J, S, D>(starts, got, ticks) {
        return Err(CrewFault::Lost);
    }
    Ok(())
}

/// Whether there is a run of each job that was handed out; else the first fault, or `Lost`.
#[tactic(auto, using(crate::proofs::Gathering::was_ticked, crate::proofs::Gathering::fault_told))]
pub(crate) fn gathered_all<J: Work<S, D>, S, D>(
    starts: &[Begun<S>],
    gathered: &Gathered<J, D>,
) -> Result<(), CrewFault>
    requires { IsGathered starts.now gathered.now.fault gathered.now.ticks.items
        (map J.ended_from gathered.now.runs.items) }
    ensures { MatchResult result (λ _. IsEachOnce starts.now (map J.ended_from gathered.now.runs.items))
        (λ fault. IsCollectFault starts.now (map J.ended_from gathered.now.runs.items) fault) }
{
    match gathered.fault {
        None => {
            none_lost::<J, S, D>(starts, gathered.runs.as_slice(), gathered.ticks.as_slice())
        }
        Some(fault) => Err(fault),
    }
}

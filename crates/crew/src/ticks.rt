//! Ticks for what was handed out, and runs that came back held against it.
ghost use Rattle.std.specs.Prelude.{◌≡◌, ◌⊎◌, ℕ, ◌<◌, ◌≤◌, [], length, map, take, slice_index_or, true, false, Contains, IfOk, IsTrue, IsFalse, MatchOption};
ghost use Rattle.crew.specs.Runs.{IsDistinct, IsEachOnce};
ghost use Rattle.crew.specs.Ticks.{HasStranger, HasDouble, LacksOne, IsTicked};

use crate::{Begun, Work};
use std::alloc::AllocError;

/// A tick for each job that was handed out, all off, in the room of other ticks.
#[tactic(auto, using(crate::proofs::Ticking::all_off))]
pub fn begin_ticks<S>(starts: &[Begun<S>], ticks: &mut Vec<bool>) -> Result<(), AllocError>
    ensures { IfOk result (λ _. IsTicked starts.now ticks.new.items []) }
{
    ticks.clear();
    ticks.resize(starts.len(), false)?;
    Ok(())
}

/// Ticks off the runs from a place on, where those before it are ticked off, and tells whether all are known and none comes twice. The first
/// is sought near the start of a place. What is ticked off is fetched.
#[tactic(auto, using(crate::proofs::Ticking::tick_next, crate::proofs::Ticking::stranger_next, crate::proofs::Ticking::double_next))]
pub fn tick_off<J: Work<S, D>, S: Drop, D>(
    starts: &[Begun<S>],
    got: &[D],
    from: usize,
    near: usize,
    ticks: &mut [bool],
) -> bool
    requires before { from ≤ length got.now }
    requires ticked { IsTicked starts.now ticks.old (map J.ended_from (take from got.now)) }
    requires distinct { IsDistinct starts.now }
    ensures ticked { IsTrue result → IsTicked starts.now ticks.new (map J.ended_from got.now) }
    ensures misfit { IsFalse result
        → HasStranger starts.now (map J.ended_from got.now) ⊎ HasDouble (map J.ended_from got.now) }
{
    let mut next = near;
    for at in from..got.len() {
        let ended = &got[at];
        let Some(place) = place_near::<J, S, D>(starts, ended, next) else {
            return false;
        };
        if ticks[place] {
            return false;
        }
        ticks[place] = true;
        starts[place].fetch();
        J::fetch(ended);
        next = place.saturating_add(1);
    }
    true
}

/// The place of what a run started from. It is sought near a place first, since the runs of one message stand in their order.
fn place_near<J: Work<S, D>, S, D>(starts: &[Begun<S>], ended: &D, near: usize) -> Option<usize>
    ensures { MatchOption result (Contains starts.now (J.ended_from ended.now) → ⊥)
        (λ place. (place < length starts.now)
        × (slice_index_or starts.now place (J.ended_from ended.now) ≡ J.ended_from ended.now)) }
{
    if near < starts.len() && J::is_run_of(ended, starts[near].start()) {
        return Some(near);
    }
    place_of::<J, S, D>(starts, ended)
}

/// The first place of what a run started from.
fn place_of<J: Work<S, D>, S, D>(starts: &[Begun<S>], ended: &D) -> Option<usize>
    ensures { MatchOption result (Contains starts.now (J.ended_from ended.now) → ⊥)
        (λ place. (place < length starts.now)
        × (slice_index_or starts.now place (J.ended_from ended.now) ≡ J.ended_from ended.now)) }
{
    for (place, start) in starts.iter().enumerate() {
        if J::is_run_of(ended, start.start()) {
            return Some(place);
        }
    }
    None
}

/// Whether each run is of a job that was handed out.
#[tactic(auto, using(crate::proofs::Ticking::known_next, crate::proofs::Ticking::stranger_next))]
pub fn all_known<J: Work<S, D>, S, D>(starts: &[Begun<S>], got: &[D]) -> bool
    ensures known { IsTrue result → HasStranger starts.now (map J.ended_from got.now) → ⊥ }
    ensures stranger { IsFalse result → HasStranger starts.now (map J.ended_from got.now) }
{
    for at in 0..got.len() {
        if place_of::<J, S, D>(starts, &got[at]).is_none() {
            return false;
        }
    }
    true
}

/// Whether there is a run of each job, where those that came back are ticked off.
pub fn all_there<J: Work<S, D>, S, D>(starts: &[Begun<S>], got: &[D], ticks: &[bool]) -> bool
    requires { IsTicked starts.now ticks.now (map J.ended_from got.now) }
    ensures all { IsTrue result → IsEachOnce starts.now (map J.ended_from got.now) }
    ensures one { IsFalse result → LacksOne starts.now (map J.ended_from got.now) }
{
    all_ticked(ticks)
}

fn all_ticked(ticks: &[bool]) -> bool
    ensures all { IsTrue result → (i : ℕ) → i < length ticks.now
        → slice_index_or ticks.now i false ≡ true }
    ensures one { IsFalse result
        → (i : ℕ) × (i < length ticks.now) × (slice_index_or ticks.now i false ≡ false) }
{
    for tick in ticks {
        if !*tick {
            return false;
        }
    }
    true
}

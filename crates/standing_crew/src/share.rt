//! How jobs are shared out: several in one message, by their costs.
ghost use Rattle.std.specs.Prelude.{◌<◌, ◌≤◌, length};

use crew::Work;

/// What a message is to carry at least, in steps of some nanoseconds: several times what it takes to send one and to hear of it, and little
/// enough that nobody waits long for the last one.
const LEAST_SHARE: u64 = 9_000;

/// What jobs cost together at least that are shared out, in the same steps: below, to hand them out and to hear of them takes about as long as
/// to run them.
pub(crate) const LEAST_ROUND: u64 = 20_000;

pub(crate) fn cost_of<J: Work<S, D>, S, D>(jobs: &[J]) -> u64 {
    let mut whole = 0u64;
    for job in jobs {
        whole = whole.saturating_add(job.cost().max(1));
    }
    whole
}

/// The cost that the next message is to carry, where jobs of a cost are left to share out among so many hands: a part of what is left. So the
/// first messages carry much, which takes few of them, and the last ones little, so that nobody waits long. None carries less than `LEAST_SHARE`,
/// but never so much that two jobs would go to one of two hands.
pub(crate) fn share_of(left: u64, hands: u32) -> u64 {
    if hands < 2 {
        return u64::MAX;
    }
    let part = left / (u64::from(hands) + 1) + 1;
    part.max(LEAST_SHARE).min(left / 2)
}

/// What of a cost the caller keeps to itself, where jobs are shared out among so many hands: half of what it will run, since it also hands out,
/// and compares what comes back.
pub(crate) fn own_of(whole: u64, hands: u32) -> u64 {
    whole / (2 * u64::from(hands.max(2)))
}

/// How many of the first jobs cost no more than a share, but for the first one; and what they cost.
pub(crate) fn kept<J: Work<S, D>, S, D>(jobs: &[J], share: u64) -> (usize, u64)
    ensures { result.0 ≤ length jobs.now }
{
    let mut cost = 0u64;
    for (at, job) in jobs.iter().enumerate() {
        let more = cost.saturating_add(job.cost().max(1));
        if at > 0 && more > share {
            return (at, cost);
        }
        cost = more;
    }
    (jobs.len(), cost)
}

/// The place from which the last jobs cost no more than a share, but for the last one; and what they cost.
pub(crate) fn cut<J: Work<S, D>, S, D>(jobs: &[J], share: u64) -> (usize, u64)
    requires { 0 < length jobs.now }
    ensures { result.0 < length jobs.now }
{
    let mut at = jobs.len() - 1;
    let mut cost = jobs[at].cost().max(1);
    while at > 0 {
        let more = cost.saturating_add(jobs[at - 1].cost().max(1));
        if more > share {
            break;
        }
        cost = more;
        at -= 1;
    }
    (at, cost)
}

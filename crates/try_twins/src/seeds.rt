//! Seeds, from which random sources come.

use crate::random_scans::{Outcome, run_source};
use std::alloc::{AllocError, Global};
use try_random::{Dice, source};
use try_text::Page;

/// How many sources of a seed are run.
const COUNT: u32 = 40;

/// How many sources in a row may be past a limit.
const TRIES: u32 = 50;

/// A source that is run, and what came of it. It is past a limit only if so are many before it.
fn next_source(alloc: Global, dice: &mut Dice) -> Result<(Vec<u8>, Outcome), AllocError> {
    for _ in 0..TRIES {
        let text = source(alloc, dice)?;
        let outcome = run_source(alloc, text.as_slice(), dice)?;
        if outcome != Outcome::Large {
            return Ok((text, outcome));
        }
    }
    Ok((Vec::new(alloc), Outcome::Large))
}

/// What is wrong with a source, if anything is.
fn fault_of(outcome: Outcome) -> Option<&'static str> {
    match outcome {
        Outcome::Alike(_) => None,
        Outcome::Large => Some("past a limit"),
        Outcome::Differ => Some("walk and code differ"),
        Outcome::Apart => Some("levels and program order differ"),
        Outcome::Unfit => Some("not well formed"),
    }
}

/// Adds a source of a seed, and what is wrong with it.
fn push_fault(page: &mut Page, seed: u64, fault: &str, source: &[u8]) {
    page.add("seed");
    page.number(i128::from(seed));
    page.add(": ");
    page.line(fault);
    page.add_bytes(source);
}

/// Adds that all sources of a seed ended alike, unless in too few of them two programs had one level.
fn push_count(page: &mut Page, seed: u64, together: u32) {
    if together < COUNT / 2 {
        return push_fault(page, seed, "too few programs had one level", b"");
    }
    page.add_number(i128::from(COUNT));
    page.add(" sources of seed");
    page.number(i128::from(seed));
    page.add(": walk, code and levels ended alike");
}

/// Adds what came of forty random sources of a seed.
///
/// In a few scans of each source the programs run one after another, by the walk of their source and by their compiled code, each over cells of
/// its own; and then level by level, the jobs of a level run in a random order, and their runs gathered in another one. All have to end alike
/// and to leave the same in their cells. Where all forty did so, this is said:
///
/// `40 sources of seed 7: walk, code and levels ended alike`
///
/// and otherwise the first source that didn't, or that isn't well formed; or that in fewer than half of the sources two programs had one level.
/// A source that is past a limit isn't counted, and another is made in its place.
pub fn push_seed(alloc: Global, page: &mut Page, seed: u64) {
    let mut dice = Dice::new(seed);
    let mut together: u32 = 0;
    for _ in 0..COUNT {
        let Ok((source, outcome)) = next_source(alloc, &mut dice) else {
            return page.refuse();
        };
        if let Some(fault) = fault_of(outcome) {
            return push_fault(page, seed, fault, source.as_slice());
        }
        if outcome == Outcome::Alike(true) {
            together = together.saturating_add(1);
        }
    }
    push_count(page, seed, together);
}

//! Rows on who runs the programs of a scan: a gate holds the first of two programs, which share nothing, until the second has passed it.
//!
//! A row is a crew, for how many turns the gate holds the first program at most, and the last statement of the
//! second program; `-` in its place is a plant without programs. The crews:
//!
//! - `alone`: the caller alone;
//! - `scoped`: two workers of one call; `scoped-one`, `scoped-eight`: one such worker, eight of them;
//! - `standing`: two workers that stand ready, as the server makes them; `one`: a single one;
//! - `never`: two workers that stand ready and share nothing out, whatever jobs cost; `always`: such that share out all;
//! - `gone`: two workers that are gone; `one-gone`: a single one that is gone;
//! - `lost`: two workers of whose runs one is lost; `one-lost`: a single one, of whose runs one is lost. Here a scan of two programs is taken
//!   first, in which the run is lost, and printed as the others.
//!
//! Of each are taken two scans, at the moments 1 and 2. Printed are the line, and of each scan its moment, what the gate saw and the two outputs, or
//! why it was refused. `AT ONCE` is that the first program was held until the second had passed, `ONE AFTER ANOTHER` that it was held until the limit
//! of turns, and `NO JOB` that no program passed the gate. What is printed depends on no schedule, as long as a thread that is ready comes to run
//! within the limit.

mod crews;
mod gates;
mod losing;
mod plants;
mod scans;

ghost use Rattle.std.specs.Thread.{IsSync};

use crate::gated::crews::{Kind, Plants, push_alone, push_losing, push_scoped, push_standing};
use crate::gated::gates::{Holding, Watch};
use crate::gated::plants::read_plant;
use engine::Plant;
use std::alloc::{AllocError, Global};
use std::sync::{Arc, Wait};
use std::thread::Threads;
use try_text::Page;

/// A row.
#[derive(Clone, Copy, Drop)]
struct Row<'a> {
    crew: &'a str,
    turns: u32,
    last: &'a str,
}

/// The row of a line; `None` where it has no three words.
fn row_of(line: &str) -> Option<Row<'_>> {
    let (crew, rest) = line.split_once(" ")?;
    let (turns, last) = rest.split_once(" ")?;
    let turns = turns.parse::<u32>().unwrap_or(0);
    Some(Row { crew, turns, last })
}

/// Which workers stand ready, by the word for them.
fn kind_of(crew: &str) -> Kind {
    Kind {
        are_two: !crew.starts_with("one"),
        least: match crew {
            "never" => Some(u64::MAX),
            "always" => Some(0),
            _ => None,
        },
        are_gone: crew.ends_with("gone"),
    }
}

/// Takes the scans of a row.
fn push_row<R: Threads + Wait + Clone + Send + Sync + Drop + 'static>(
    rt: &R,
    alloc: Global,
    page: &mut Page,
    row: Row<'_>,
    watch: Arc<Watch>,
    plant: Plant,
)
    requires { IsSync R.row }
{
    let Ok(shared) = watch.clone() else {
        drop(plant);
        return page.refuse();
    };
    let gate = Holding::new(row.turns, shared);
    match row.crew {
        "alone" => push_alone(rt, alloc, page, &*watch, plant),
        "scoped" => push_scoped(rt, alloc, page, &*watch, gate, 2, plant),
        "scoped-one" => push_scoped(rt, alloc, page, &*watch, gate, 1, plant),
        "scoped-eight" => push_scoped(rt, alloc, page, &*watch, gate, 8, plant),
        "lost" | "one-lost" => {
            push_lost(rt, alloc, page, &*watch, gate, kind_of(row.crew), plant);
        }
        crew => push_standing(rt, alloc, page, &*watch, gate, kind_of(crew), plant),
    }
}

/// Takes the scans of a row by workers of whose runs one is lost, in a scan of two programs before.
fn push_lost<R: Threads + Wait + Clone + Send + Sync + Drop + 'static>(
    rt: &R,
    alloc: Global,
    page: &mut Page,
    watch: &Watch,
    gate: Holding,
    kind: Kind,
    plant: Plant,
) {
    match read_plant(rt, alloc, "b := b;") {
        Ok(Some(first)) => {
            let plants = Plants { first, then: plant };
            push_losing(rt, alloc, page, watch, gate, kind, plants);
        }
        Ok(None) => {
            drop(plant);
            page.line("NO PLANT");
        }
        Err(_) => {
            drop(plant);
            page.refuse();
        }
    }
}

/// A watch that gates share.
fn new_watch(alloc: Global) -> Result<Arc<Watch>, AllocError> {
    match Arc::new(alloc, Watch::new()) {
        Ok(watch) => Ok(watch),
        Err(_) => Err(AllocError),
    }
}

/// Adds a row, and what comes of it.
fn push_line<R: Threads + Wait + Clone + Send + Sync + Drop + 'static>(
    rt: &R,
    alloc: Global,
    page: &mut Page,
    line: &str,
)
    requires { IsSync R.row }
{
    page.line(line);
    let Some(row) = row_of(line) else {
        return page.line("?");
    };
    let Ok(watch) = new_watch(alloc) else {
        return page.refuse();
    };
    match read_plant(rt, alloc, row.last) {
        Ok(Some(plant)) => push_row(rt, alloc, page, row, watch, plant),
        Ok(None) => page.line("NO PLANT"),
        Err(_) => page.refuse(),
    }
}

/// Adds the rows, and what comes of each.
pub fn push_rows<R: Threads + Wait + Clone + Send + Sync + Drop + 'static>(
    rt: &R,
    alloc: Global,
    page: &mut Page,
    rows: &str,
)
    requires { IsSync R.row }
{
    for line in rows.lines() {
        push_line(rt, alloc, page, line);
    }
}

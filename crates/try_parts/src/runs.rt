//! Programs with blocks, made ready and run over cells (`vm_logic`), and each limit that a source may be past.

ghost use Rattle.std.specs.Prelude.{◌≡◌, ◌<◌, List, [], ◌∷◌, length};
ghost use Rattle.st_parser.specs.Units.{PlainUnit};
ghost use Rattle.st_sources.specs.Sources.{HaveUnits};
ghost use Rattle.logic_source.specs.Units.{source_in};

use crate::sources::typed_of;
use logic_cells::Cells;
use logic_limits::LimitFault;
use st_sources::one_answer;
use st_typing::Typed;
use std::alloc::{AllocError, Global};
use try_text::Page;
use try_walks::Walker;
use vm_logic::{Framed, Stack, Walked, run_counted, standing_cells_are_there};

/// Adds how a program ends that runs at a moment: the path, the statement's number as many points, and the trap.
fn push_run(
    alloc: Global,
    page: &mut Page,
    framed: &Framed,
    walker: &Walker,
    cells: &mut Cells,
    moment: u64,
)
    requires same { walker.now ≡ framed.now }
    requires there { 0 < length framed.now.programs }
{
    match walker.walk(0, cells, moment) {
        Walked::Done => page.add(" done"),
        Walked::Trapped(place, trap) => {
            page.add(" ");
            let mut path = String::new(alloc);
            match framed.push_path(place.path, &mut path) {
                Ok(()) => page.add(path.as_str()),
                Err(_) => page.refuse(),
            }
            for _ in 0..place.statement {
                page.add(".");
            }
            page.word(trap.text());
        }
    }
}

/// Adds how the first program ends at the moments 0 and 5 with its global `go` set, and what the second global is then.
fn push_ends(alloc: Global, page: &mut Page, framed: &Framed, walker: &Walker, cells: &mut Cells)
    requires { walker.now ≡ framed.now }
{
    if framed.programs().is_empty() || cells.is_empty() || framed.find_global("GO") != Some(0) {
        return page.word("?");
    }
    cells.set(0, 1);
    push_run(alloc, page, framed, walker, cells, 0);
    push_run(alloc, page, framed, walker, cells, 5);
    let second = cells.as_slice().get(1).copied().unwrap_or(0);
    page.number(i128::from(second));
}

/// Adds the globals by name, and then what its first program does to its cells.
fn push_walked(alloc: Global, page: &mut Page, framed: &Framed, walker: &Walker)
    requires { walker.now ≡ framed.now }
{
    for global in framed.globals() {
        page.word(global.name.as_str());
    }
    match framed.opening(alloc) {
        Ok(mut cells) => push_ends(alloc, page, framed, walker, &mut cells),
        Err(_) => page.refuse(),
    }
}

/// How the run of the first program's code ends, how many instructions it takes, and what the first global is then; nothing where there is no
/// program.
fn counted(alloc: Global, framed: &Framed) -> Result<Option<(bool, u128, i64)>, AllocError> {
    standing_cells_are_there();
    if framed.programs().is_empty() {
        return Ok(None);
    }
    let mut stack = Stack::new(alloc);
    let mut cells = framed.opening(alloc)?;
    let (ended, count) = run_counted(framed, 0, &mut stack, &mut cells, 0)?;
    let first = cells.as_slice().first().copied().unwrap_or(0);
    Ok(Some((matches!(ended, Walked::Done), count, first)))
}

/// Adds how the run of the first program's code ends, whether it takes 10,000 to 280,012 instructions, and what the first global is then.
fn push_counted(alloc: Global, page: &mut Page, framed: &Framed) {
    match counted(alloc, framed) {
        Ok(Some((is_done, count, first))) => {
            page.truth(is_done);
            page.truth(matches!(count, 10_000..=280_012));
            page.number(i128::from(first));
        }
        Ok(None) => page.word("?"),
        Err(_) => page.refuse(),
    }
}

/// Adds the globals of a source by name, and then what a walk of its first program does to their cells.
fn push_walk(alloc: Global, page: &mut Page, source: &str, framed: &Framed)
    requires { (units : List PlainUnit) → HaveUnits (source.now ∷ []) units
        → framed.now ≡ source_in units }
{
    let Some(typed) = typed_of(alloc, source) else {
        return page.refuse();
    };
    match Walker::of(alloc, typed) {
        Ok(walker) => {
            push_walked(alloc, page, framed, &walker);
            drop(walker);
        }
        Err(_) => page.refuse(),
    }
}

/// Adds what the row's word asks of a source that is made ready to run.
fn push_framed(alloc: Global, page: &mut Page, word: &str, source: &str, framed: &Framed)
    requires { (units : List PlainUnit) → HaveUnits (source.now ∷ []) units
        → framed.now ≡ source_in units }
{
    match word {
        "walk" => push_walk(alloc, page, source, framed),
        "count" => push_counted(alloc, page, framed),
        _ => page.add("-"),
    }
}

/// Adds the limit that a source is past, or what the row's word asks of it. What is made ready is let go here alone.
pub fn push_judged(alloc: Global, page: &mut Page, word: &str, source: &str, typed: Typed)
    requires { HaveUnits (source.now ∷ []) typed }
{
    one_answer();
    match Framed::of(alloc, typed) {
        Ok(framed) => {
            push_framed(alloc, page, word, source, &framed);
            drop(framed);
        }
        Err(LimitFault::Memory) => page.refuse(),
        Err(LimitFault::Slots) => page.add("SLOTS"),
        Err(LimitFault::Size) => page.add("SIZE"),
        Err(LimitFault::Cost) => page.add("COST"),
    }
}

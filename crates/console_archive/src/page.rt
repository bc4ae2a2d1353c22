//! A page of a journal.

ghost use Rattle.std.specs.Prelude.{◌≡◌, ◌+◌, ◌-◌, min, map, string_bytes, IfOk};
ghost use Rattle.engine.specs.Journal.{journal_of};
ghost use Rattle.console_archive.specs.Pages.{IsPage};

use engine::Engine;
use std::alloc::{AllocError, Global};

/// How many of the first rows end with those of a page, which has the numbers from one on, so many; there are so many rows.
fn page_end(rows: u64, from: u64, n: u32) -> u64
    ensures { result ≡ min rows (from + n - 1) }
{
    match from.checked_add(u64::from(n)) {
        Some(next) => rows.min(next.saturating_sub(1)),
        None => rows,
    }
}

/// The texts of the journal's rows whose numbers are from one on, so many at most, in order.
pub(crate) fn page_of(
    alloc: Global,
    engine: &Engine,
    from: u64,
    n: u32,
) -> Result<Vec<String>, AllocError>
    ensures { IfOk result (λ lines. IsPage engine.now.plant.epoch
        (journal_of engine.now.plant engine.now.history) from n (map string_bytes lines.items)) }
{
    let rows = engine.journal().len();
    let mut lines = Vec::new(alloc);
    for before in from.saturating_sub(1)..page_end(rows, from, n) {
        lines.push(engine.line(alloc, before + 1)?)?;
    }
    Ok(lines)
}

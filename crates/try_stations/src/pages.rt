//! The lines of the table that read the archive.

use crate::rows::{cut, number};
use engine::Engine;
use station::Archive;
use std::alloc::{AllocError, Global};
use std::sync::Wait;
use std::sync::ledger::Ledger;
use try_text::Page;

/// A page of the archive; where memory is refused it is asked for once more.
fn page_again<L: Ledger, R: Wait>(
    rt: &R,
    alloc: Global,
    archive: &Archive<L>,
    from: u64,
    n: u32,
) -> Result<Vec<String>, AllocError> {
    match archive.page(rt, alloc, from, n) {
        Ok(lines) => Ok(lines),
        Err(_) => archive.page(rt, alloc, from, n),
    }
}

/// Adds the page of the archive that a line asks for.
pub fn push_page<L: Ledger, R: Wait>(
    rt: &R,
    alloc: Global,
    archive: &Archive<L>,
    page: &mut Page,
    words: &str,
) {
    let (from, n) = cut(words);
    let Ok(lines) = page_again(rt, alloc, archive, u64::from(number(from)), number(n)) else {
        return page.refuse();
    };
    for line in &lines {
        page.line(line.as_str());
    }
}

fn journal_of(alloc: Global, engine: &Engine) -> Result<Vec<String>, AllocError> {
    let rows = engine.journal().len();
    let mut lines = Vec::new(alloc);
    for before in 0..rows {
        lines.push(engine.line(alloc, before + 1)?)?;
    }
    Ok(lines)
}

/// Adds whether the lines of the archive are those of the engine's journal, and how many they are.
pub fn push_compared<L: Ledger, R: Wait>(
    rt: &R,
    alloc: Global,
    archive: &Archive<L>,
    engine: &Engine,
    page: &mut Page,
) {
    let kept = page_again(rt, alloc, archive, 1, u32::MAX);
    let own = journal_of(alloc, engine);
    let (Ok(kept), Ok(own)) = (kept, own) else {
        return page.refuse();
    };
    page.add("JOURNAL");
    page.number(own.len() as i128);
    page.line(if kept.as_slice() == own.as_slice() {
        " ALIKE"
    } else {
        " APART"
    });
}

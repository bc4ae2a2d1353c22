//! Cells and their clocks (`logic_cells`).

use logic_cells::{Cells, Clock, Standard};
use std::alloc::{AllocError, Global};
use try_text::Page;

/// Adds the first value of cells and what their first clock shows.
fn push_held(page: &mut Page, cells: &Cells) {
    let value = cells.as_slice().first().copied().unwrap_or(-1);
    page.number(i128::from(value));
    match cells.clock(0) {
        Some(clock) => {
            page.truth(clock.q);
            page.number(i128::from(clock.et));
        }
        None => page.add(" ?"),
    }
}

/// What the cells of a value and a timer hold after calls, and what a copy from before them holds, before and after they are taken over.
fn push_copied(alloc: Global, page: &mut Page) -> Result<(), AllocError> {
    let mut cells = Cells::zeros(alloc, 1, &[Standard::Ton])?;
    let mut copy = cells.copy(alloc)?;
    cells.set(0, 7);
    cells.call(0, true, 10, 3);
    cells.call(0, true, 10, 9);
    push_held(page, &cells);
    push_held(page, &copy);
    copy.copy_from(&cells);
    push_held(page, &copy);
    Ok(())
}

/// The same, on a page.
pub fn push_cells(alloc: Global, page: &mut Page) {
    if push_copied(alloc, page).is_err() {
        page.refuse();
    }
}

/// The cells of two values and a clock.
fn given(alloc: Global) -> Result<Cells, AllocError> {
    let mut clock = Clock::new(Standard::RTrig);
    clock.call(true, 0, 1);
    let clocks = Vec::from_slice(alloc, [clock].as_slice())?;
    Ok(Cells::new(Vec::from_slice(alloc, [3, 5].as_slice())?, clocks))
}

/// Adds how many values and clocks cells have, whether they are empty, and how many items both lists of them have.
fn push_seen(page: &mut Page, cells: &Cells) {
    page.number(cells.len() as i128);
    page.number(cells.clock_count() as i128);
    page.truth(cells.is_empty());
    let seen = cells.as_slice().len().saturating_add(cells.clocks().len());
    page.number(seen as i128);
}

/// The same of given values and a given clock.
pub fn push_counts(alloc: Global, page: &mut Page) {
    match given(alloc) {
        Ok(cells) => push_seen(page, &cells),
        Err(_) => page.refuse(),
    }
}

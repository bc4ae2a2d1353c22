//! What there is to tell of the history.

use crate::day::DayFault;
use crate::events::Events;
use crate::keeper::Kept;
use engine::{Engine, Entry, Log, Verb};
use station::Archive;
use std::alloc::{AllocError, Global};
use std::sync::Wait;
use std::sync::ledger::Ledger;
use try_desks::{Orders, count};
use try_text::Page;

/// How many rows the last page has.
const PAGE: u32 = 12;

/// How many rows are told from that of the reload on.
const AT_RELOAD: u32 = 2;

/// Adds how many programs, alarms and consoles the plant has.
fn push_plant(engine: &Engine, page: &mut Page) {
    let plant = engine.plant();
    page.add("PLANT PROGRAMS");
    page.number(i128::from(plant.programs()));
    page.word("ALARMS");
    page.number(i128::from(plant.alarms()));
    page.word("CONSOLES");
    page.number(plant.consoles().len() as i128);
    page.add("\n");
}

/// Adds what there is to tell of the events: the scans of the script, all orders, and whether these, the turns and the reloads are the whole history.
fn push_events(engine: &Engine, events: &Events, page: &mut Page) {
    page.add("SCRIPT SCANS");
    page.number(i128::from(events.scripted));
    let orders = count(engine.journal(), Orders::All);
    let is_whole = orders == events.orders && engine.events() == events.all();
    page.add("\nHISTORY OF TURNS, RELOADS AND");
    page.number(i128::from(orders));
    page.word("ORDERS");
    page.truth(is_whole);
    page.add("\n");
}

/// Adds how many orders with a verb there were, if there were any.
fn push_verb(engine: &Engine, page: &mut Page, verb: Verb) {
    let orders = count(engine.journal(), Orders::With(verb));
    if orders != 0 {
        page.add("ORDERS");
        page.word(verb.text());
        page.number(i128::from(orders));
        page.add("\n");
    }
}

/// Adds how many orders of each verb there were.
fn push_verbs(engine: &Engine, page: &mut Page) {
    push_verb(engine, page, Verb::Ack);
    push_verb(engine, page, Verb::Reset);
    push_verb(engine, page, Verb::Shelve(0));
    push_verb(engine, page, Verb::Unshelve);
    push_verb(engine, page, Verb::Remove);
    push_verb(engine, page, Verb::PutBack);
    push_verb(engine, page, Verb::Restart);
}

/// Whether these lines are those of the engine's journal, one by one.
fn are_alike(alloc: Global, engine: &Engine, lines: &[String]) -> Result<bool, AllocError> {
    let rows = engine.journal().len() as u64;
    if lines.len() as u64 != rows {
        return Ok(false);
    }
    for before in 0..rows {
        let own = engine.line(alloc, before + 1)?;
        if lines[before as usize].as_str() != own.as_str() {
            return Ok(false);
        }
    }
    Ok(true)
}

/// Adds whether these lines are those of the engine's journal.
fn push_alike(alloc: Global, engine: &Engine, lines: &[String], page: &mut Page) {
    match are_alike(alloc, engine, lines) {
        Ok(are_alike) => page.truth(are_alike),
        Err(_) => page.refuse(),
    }
    page.add("\n");
}

/// Adds how many lines the archive has, and whether they are those of the engine's journal.
fn push_journal<L: Ledger, R: Wait>(
    rt: &R,
    alloc: Global,
    archive: &Archive<L>,
    engine: &Engine,
    page: &mut Page,
) {
    match archive.page(rt, alloc, 1, u32::MAX) {
        Ok(lines) => {
            page.add("JOURNAL");
            page.number(lines.len() as i128);
            page.word("LINES, THE ARCHIVE ALIKE");
            push_alike(alloc, engine, lines.as_slice(), page)
        }
        Err(_) => page.refuse(),
    }
}

/// Adds how many lines the keeper had before the day was over, how many it has, and whether they are those of the engine's journal.
pub fn push_kept(alloc: Global, engine: &Engine, before: u64, kept: Kept, page: &mut Page) {
    match kept {
        Ok(lines) => {
            page.add("KEPT BEFORE THE END");
            page.number(i128::from(before));
            page.word("LINES, IN ALL");
            page.number(lines.len() as i128);
            page.add("\nTHE PAGES ARE THE ENGINE'S JOURNAL");
            push_alike(alloc, engine, lines.as_slice(), page)
        }
        Err(_) => page.refuse(),
    }
}

/// The number of the row of the last reload; 0 where there was none.
fn reload_row(log: &Log) -> u64 {
    let mut found = 0u64;
    let rows = log.len() as u64;
    for before in 0..rows {
        if let Entry::Reload { .. } = log.row(before + 1).entry {
            found = before + 1;
        }
    }
    found
}

/// Adds a page of the archive, so many rows from a number on.
fn push_page<L: Ledger, R: Wait>(
    rt: &R,
    alloc: Global,
    archive: &Archive<L>,
    from: u64,
    rows: u32,
    page: &mut Page,
) {
    let Ok(lines) = archive.page(rt, alloc, from, rows) else {
        return page.refuse();
    };
    for line in &lines {
        page.line(line.as_str());
    }
}

/// Adds what there is to tell of the history.
pub fn push_history<L: Ledger, R: Wait>(
    rt: &R,
    alloc: Global,
    archive: &Archive<L>,
    engine: &Engine,
    events: &Events,
    page: &mut Page,
) {
    push_plant(engine, page);
    push_events(engine, events, page);
    push_verbs(engine, page);
    push_journal(rt, alloc, archive, engine, page);
    let log = engine.journal();
    push_page(rt, alloc, archive, reload_row(log), AT_RELOAD, page);
    let last = (log.len() as u64).saturating_sub(u64::from(PAGE));
    push_page(rt, alloc, archive, last.saturating_add(1), PAGE, page);
}

/// Adds how the day ended.
pub fn push_end(page: &mut Page, day: Result<(), DayFault>) {
    match day {
        Ok(()) => page.line("THE SCRIPT IS OVER"),
        Err(DayFault::Refused(fault)) => {
            page.add("A TURN WAS REFUSED");
            page.word(fault.text());
            page.add("\n");
        }
        Err(DayFault::NotReloaded(fault)) => {
            page.add("THE RELOAD WAS REFUSED");
            page.word(fault.text());
            page.add("\n");
        }
        Err(DayFault::Memory) => page.line("MEMORY WAS REFUSED"),
        Err(DayFault::Stopped) => page.line("AN ORDER WAS REFUSED AS AN EVENT"),
        Err(DayFault::Unsettled) => page.line("SOMETHING STILL WAITS"),
        Err(DayFault::NoScan) => page.line("A LINE OF THE SCRIPT IS NO SCAN"),
    }
}

//! The stamps of moments (`base_stamps`) and the rows of a journal (`journal_core`).

use crate::printing::{moment_of, number_of, parts_of};
use alarm_machine::{Change, Code, OrderFault, Verb};
use base_stamps::Epoch;
use journal_core::{Entry, Row, row_text};
use plant_types::{Place, Trap};
use std::alloc::Global;
use try_text::Page;

/// The stamp of a moment after an epoch; `-` where the text is no epoch.
pub fn push_stamp(alloc: Global, page: &mut Page, words: &str) {
    let (epoch, moment) = parts_of(words, " ");
    match Epoch::read(epoch) {
        Some(epoch) => page.add_made(epoch.stamp(alloc, moment_of(moment))),
        None => page.add("-"),
    }
}

/// The row of a number, from 1: one of each kind, and one of a shelving that was refused.
fn entry_of(number: u64) -> Option<(Entry, &'static str)> {
    let place = Place {
        path: 0,
        statement: 1,
    };
    let restart = Entry::Order {
        console: 1,
        verb: Verb::Restart,
        target: Some(0),
        refused: None,
    };
    let shelve = Entry::Order {
        console: 2,
        verb: Verb::Shelve(5000),
        target: None,
        refused: Some(OrderFault::UnknownTarget),
    };
    match number {
        1 => Some((
            Entry::Alarm(0, Change::between(Code::Norm, Code::Unack)?),
            "T1",
        )),
        2 => Some((Entry::Fault(place, Trap::DivZero), "p")),
        3 => Some((restart, "p")),
        5 => Some((Entry::Reload { kept: 3, fresh: 1 }, "?")),
        _ => Some((shelve, "?")),
    }
}

/// The text of the row of a number, at a moment.
pub fn push_row(alloc: Global, page: &mut Page, words: &str) {
    let (number, moment) = parts_of(words, " ");
    let number = number_of(number);
    let Some((entry, name)) = entry_of(number) else {
        return;
    };
    let Some(epoch) = Epoch::read("2024-01-01T00:00:00Z") else {
        return;
    };
    let row = Row {
        number,
        moment: moment_of(moment),
        entry,
    };
    page.add_made(row_text(alloc, &epoch, &row, name));
}

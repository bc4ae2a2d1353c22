//! The table of an alarm's transitions, cell by cell, and each public call of `alarm_machine`.

use crate::printing::{moment_of, number_of, parts_of, truth_text};
use alarm_machine::{Alarm, Change, Code, LONGEST_SHELVE_MS, OrderFault, Verb};
use try_text::Page;

/// The order that a word spells; a shelving has its time after a mark. A restart for any other word.
pub fn verb_of(word: &str) -> Verb {
    let (name, time) = parts_of(word, "=");
    match name {
        "ack" => Verb::Ack,
        "reset" => Verb::Reset,
        "shelve" => Verb::Shelve(number_of(time)),
        "unshelve" => Verb::Unshelve,
        "remove" => Verb::Remove,
        "return" => Verb::PutBack,
        _ => Verb::Restart,
    }
}

/// Takes a step of a word at moment 2: a scan without a condition, with one, with a suppression, with both, or an order.
fn take(alarm: &mut Alarm, word: &str) {
    let (condition, suppressed) = match word {
        "gone" => (false, false),
        "standing" => (true, false),
        "suppressed" => (false, true),
        "both" => (true, true),
        _ => {
            let _ = alarm.order(verb_of(word), 2);
            return;
        }
    };
    let _ = alarm.scan(condition, suppressed, 2);
}

/// An alarm that latches where the first word says so, after the steps of the other words.
fn alarm_of(words: &str) -> Alarm {
    let (first, steps) = parts_of(words, " ");
    let mut alarm = Alarm::new(first == "latching", 5000);
    for word in steps.split(" ") {
        if !word.is_empty() {
            take(&mut alarm, word);
        }
    }
    alarm
}

/// The text of the code that an alarm has reached, or `?` where a change is reported though the code is as it was, or none though it isn't.
fn reached(before: &Alarm, after: &Alarm, change: Option<Change>) -> &'static str {
    let (from, to) = (before.state().code(), after.state().code());
    let differ = from.rank() != to.rank();
    if change.is_some() == differ {
        to.text()
    } else {
        "?"
    }
}

/// Adds the codes after a scan at moment 10: suppressed without and with a condition, with a condition, with neither.
fn push_scans(page: &mut Page, alarm: &Alarm) {
    for (condition, suppressed) in [(false, true), (true, true), (true, false), (false, false)] {
        let mut copy = *alarm;
        let change = copy.scan(condition, suppressed, 10);
        page.word(reached(alarm, &copy, change));
    }
    page.add(" |");
}

/// What comes of an order at moment 2: the code or the refusal; `!` where a refused order changed the alarm.
fn ordered(alarm: &Alarm, verb: Verb) -> &'static str {
    let mut copy = *alarm;
    match copy.order(verb, 2) {
        Ok(change) => reached(alarm, &copy, change),
        Err(_) if copy != *alarm => "!",
        Err(fault) => fault.text(),
    }
}

/// The orders of a line of the table.
const ORDERS: &str =
    "ack reset unshelve remove return restart shelve=1 shelve=5000 shelve=5001 shelve=0";

/// The line of the table for an alarm: its code, the codes after scans, and what comes of orders.
pub fn push_alarm(page: &mut Page, words: &str) {
    let alarm = alarm_of(words);
    page.add(alarm.state().code().text());
    page.add(":");
    push_scans(page, &alarm);
    for word in ORDERS.split(" ") {
        page.word(ordered(&alarm, verb_of(word)));
    }
}

/// Adds the end of a shelf, or `-`.
fn push_end(page: &mut Page, end: Option<u64>) {
    match end {
        Some(end) => page.number(i128::from(end)),
        None => page.add(" -"),
    }
}

/// The ends of an alarm's shelf, from the alarm and from its state, after each order of the words: at its moment, shelving for so long; for
/// no time the shelf is ended by hand. `!` after an order that is refused.
pub fn push_ends(page: &mut Page, words: &str) {
    let mut alarm = Alarm::new(false, LONGEST_SHELVE_MS);
    for word in words.split(" ") {
        let (last, time) = parts_of(word, "+");
        let verb = if time.is_empty() {
            Verb::Unshelve
        } else {
            Verb::Shelve(number_of(time))
        };
        if alarm.order(verb, moment_of(last)).is_err() {
            page.add(" !");
        }
        push_end(page, alarm.end());
        push_end(page, alarm.state().end());
    }
}

/// What an alarm holds, and whether it rests: as it was last scanned, at moments 5001 and 5002, and at moment 3 with the other condition
/// and with the other suppression.
pub fn push_held(page: &mut Page, words: &str) {
    let alarm = alarm_of(words);
    let (condition, suppressed) = (alarm.condition(), alarm.suppressed());
    page.add(truth_text(alarm.latching()));
    page.number(i128::from(alarm.max_shelve_ms()));
    for truth in [
        condition,
        suppressed,
        alarm.rests(condition, suppressed, 5001),
        alarm.rests(condition, suppressed, 5002),
        alarm.rests(!condition, suppressed, 3),
        alarm.rests(condition, !suppressed, 3),
    ] {
        page.truth(truth);
    }
}

/// The places and texts of all codes in their order, the texts of the orders of the words, and those of refusals.
pub fn push_texts(page: &mut Page, words: &str) {
    for code in Code::all() {
        page.number(i128::from(code.rank()));
        page.word(code.text());
    }
    for word in words.split(" ") {
        page.word(verb_of(word).text());
    }
    for fault in [
        OrderFault::UnknownTarget,
        OrderFault::NotYourArea,
        OrderFault::WrongState,
        OrderFault::ShelveTime,
        OrderFault::NotFaulted,
        OrderFault::OldPlant,
    ] {
        page.word(fault.text());
    }
}

/// Adds the codes of a change.
fn push_change(page: &mut Page, change: Change) {
    page.word(change.from().text());
    page.add(">");
    page.add(change.to().text());
}

/// Adds the change between each two codes: the codes of the change, or `-` where there is none.
pub fn push_changes(page: &mut Page) {
    for from in Code::all() {
        for to in Code::all() {
            match Change::between(from, to) {
                Some(change) => push_change(page, change),
                None => page.add(" -"),
            }
        }
        page.add("\n");
    }
}

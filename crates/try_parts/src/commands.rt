//! Orders and values as they are parsed, and the lines of answers (`serve_lines`).

use crate::printing::{bytes_of, push_byte};
use alarm_machine::{Change, Code, OrderFault};
use plant_types::{Given, Trap, Value};
use serve_lines::{
    Command, Pool, push_alarm, push_done, push_fault, push_out, push_refused, push_reply,
    read_command, reload_size, reload_sizes,
};
use std::alloc::{AllocError, Global};
use try_text::Page;

/// Adds what is given for an input: a truth or a number.
fn push_given(page: &mut Page, given: Given) {
    match given {
        Given::Truth(truth) => page.truth(truth),
        Given::Whole(number) => page.number(number),
    }
}

/// Adds bytes after a space.
fn push_bytes(page: &mut Page, bytes: &[u8]) {
    page.add(" ");
    for byte in bytes {
        push_byte(page, *byte);
    }
}

/// Adds a scan's moment and its pairs, or an order's verb, console and target; `-` for any other command.
fn push_parsed(page: &mut Page, command: Command<'_>) {
    match command {
        Command::Scan(moment, pairs) => {
            page.number(i128::from(moment));
            for pair in pairs {
                page.word(pair.name.as_str());
                push_given(page, pair.given);
            }
        }
        Command::Order(verb, console, word) => {
            page.word(verb.text());
            page.number(i128::from(console));
            push_bytes(page, word);
        }
        _ => page.add(" -"),
    }
}

/// Adds what bytes ask for.
fn push_read(alloc: Global, page: &mut Page, pool: &mut Pool, line: &[u8]) {
    match read_command(alloc, pool, line) {
        Ok(command) => push_parsed(page, command),
        Err(_) => page.refuse(),
    }
}

/// What a line asks for. The pool has had another line before.
pub fn push_command(alloc: Global, page: &mut Page, words: &str) {
    let mut pool = Pool::new(alloc);
    if read_command(alloc, &mut pool, b"scan 1 longer=2 c=3").is_err() {
        page.refuse();
    }
    match bytes_of(alloc, words) {
        Ok(line) => push_read(alloc, page, &mut pool, line.as_slice()),
        Err(_) => page.refuse(),
    }
}

/// Adds how many bytes come after a line, and the sizes that it gives; `-` where it gives none.
fn push_sizes(page: &mut Page, line: &[u8]) {
    page.number(reload_size(line) as i128);
    match reload_sizes(line) {
        Some(sizes) => {
            page.number(i128::from(sizes.plant()));
            page.number(i128::from(sizes.alarms()));
            for size in sizes.sources() {
                page.number(i128::from(*size));
            }
        }
        None => page.word("-"),
    }
}

/// How many bytes come after a line, and the sizes that it gives.
pub fn push_reload(alloc: Global, page: &mut Page, words: &str) {
    match bytes_of(alloc, words) {
        Ok(line) => push_sizes(page, line.as_slice()),
        Err(_) => page.refuse(),
    }
}

/// Adds the line of an alarm to bytes.
fn push_changed(bytes: &mut Vec<u8>) -> Result<(), AllocError> {
    match Change::between(Code::Norm, Code::Unack) {
        Some(change) => push_alarm(bytes, "4000000000000", "T1", change),
        None => Ok(()),
    }
}

/// Adds a line of each kind to bytes, and tells whether there was memory for each.
fn push_each(bytes: &mut Vec<u8>) -> bool {
    let fault = push_fault(bytes, "0", "p.f", 4_294_967_295, Trap::Overflow).is_ok();
    let alarm = push_changed(bytes).is_ok();
    let out = push_out(bytes, "1", "e", Value::Time(-9223372036854775808)).is_ok();
    let done = push_done(bytes, "10", 3).is_ok();
    let reply = push_reply(bytes, Some(OrderFault::NotYourArea)).is_ok();
    let refused = push_refused(bytes, "L1").is_ok();
    fault && alarm && out && done && reply && refused
}

/// A line of each kind.
pub fn push_lines(alloc: Global, page: &mut Page) {
    let mut bytes = Vec::new(alloc);
    if !push_each(&mut bytes) {
        page.refuse();
    }
    page.add_bytes(bytes.as_slice());
}

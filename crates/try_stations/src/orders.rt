//! The orders of the table, and their texts.

use engine::{Engine, Order, Plant, Reply, Verb};
use serve_lines::{Command, Pool, read_command};
use std::alloc::{AllocError, Global};
use try_text::Page;

/// The number of what a word names as an order's target.
fn target_of(plant: &Plant, verb: Verb, word: &[u8]) -> Option<u32> {
    let name = str::from_utf8(word).ok()?;
    match verb {
        Verb::Restart => plant.program_number(name),
        _ => plant.alarm_number(name),
    }
}

/// The order of a line for the plant of an engine, and the number of its console; `None` where the line is no order.
pub fn order_of(
    alloc: Global,
    engine: &Engine,
    line: &str,
) -> Result<Option<(u32, Order)>, AllocError> {
    let mut pool = Pool::new(alloc);
    match read_command(alloc, &mut pool, line.as_bytes())? {
        Command::Order(verb, console, word) => {
            let target = target_of(engine.plant(), verb, word);
            Ok(Some((console, Order::of(verb, target, engine.reloads()))))
        }
        _ => Ok(None),
    }
}

/// The name of an order's target, or `?`: of an order for this plant.
fn target_name(plant: &Plant, order: Order) -> &str {
    match order.target {
        Some(program) if order.verb == Verb::Restart => {
            if program < plant.programs() {
                plant.program(program)
            } else {
                "?"
            }
        }
        Some(alarm) if alarm < plant.alarms() => plant.tag(alarm),
        _ => "?",
    }
}

/// Adds an order, as ` ack T1`; the target of one for a plant before that of the engine is `?`.
pub fn push_order(page: &mut Page, engine: &Engine, order: Order) {
    page.word(order.verb.text());
    if order.plant == engine.reloads() {
        page.word(target_name(engine.plant(), order));
    } else {
        page.word("?");
    }
}

/// Adds a reply: ` DONE`, with the change of an alarm's code if there is one, or ` REFUSED` and why.
pub fn push_reply(page: &mut Page, reply: Reply) {
    match reply {
        Reply::Done(Some(change)) => {
            page.word("DONE");
            page.word(change.from().text());
            page.word(change.to().text());
        }
        Reply::Done(None) => page.word("DONE"),
        Reply::Refused(fault) => {
            page.word("REFUSED");
            page.word(fault.text());
        }
    }
}

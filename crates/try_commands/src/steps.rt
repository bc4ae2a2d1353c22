//! Events by the engine's own calls: made ready and then committed, or both in one.

use crate::answers::push_seen;
use alarm_machine::{Code, Verb};
use engine::{Crew, Done, Engine, EngineFault, Job, Order, Pair, Reply, Report, Start};
use plant_config::Plant;
use serve_lines::{Command, Pool, read_command};
use std::alloc::Global;
use try_text::Page;

/// The order of a verb for the alarm with a tag, or for the program with a name.
fn order_of(plant: &Plant, verb: Verb, word: &[u8]) -> Order {
    let target = match (verb, str::from_utf8(word)) {
        (Verb::Restart, Ok(name)) => plant.program_number(name),
        (_, Ok(tag)) => plant.alarm_number(tag),
        (_, Err(_)) => None,
    };
    Order::of(verb, target, 0)
}

/// Adds a report's moment, and how many programs have stopped.
fn push_report(page: &mut Page, report: &Report) {
    page.add("REPORT");
    page.number(i128::from(report.moment));
    page.number(report.faults.len() as i128);
    page.add("\n");
}

/// Adds why an event was refused, unless memory was.
fn push_refused(page: &mut Page, fault: EngineFault) {
    if let EngineFault::Memory = fault {
        return page.refuse();
    }
    page.add("REFUSED ");
    page.line(fault.text());
}

/// Makes a scan ready, adds what the engine shows then, and commits it.
fn push_ready_scan<H, C: Crew<Job, Start, Done, H>>(
    rt: &H,
    alloc: Global,
    page: &mut Page,
    engine: &mut Engine,
    crew: &mut C,
    pairs: &[Pair],
    moment: u64,
)
    requires { C.asks }
{
    match engine.prepare(rt, alloc, crew, pairs, moment) {
        Ok(prepared) => {
            push_seen(page, engine);
            push_report(page, &prepared.scan.report);
            engine.commit_told(prepared);
        }
        Err(fault) => push_refused(page, fault),
    }
}

/// Makes an order ready, adds what the engine shows then, and commits it.
fn push_ready_order(
    alloc: Global,
    page: &mut Page,
    engine: &mut Engine,
    console: u32,
    order: Order,
) {
    match engine.prepare_order(alloc, console, order) {
        Ok(prepared) => {
            push_seen(page, engine);
            let _ = engine.commit_order(prepared);
        }
        Err(fault) => push_refused(page, fault),
    }
}

/// Makes a command ready, adds what the engine shows then, and commits it.
fn push_ready<H, C: Crew<Job, Start, Done, H>>(
    rt: &H,
    alloc: Global,
    page: &mut Page,
    engine: &mut Engine,
    crew: &mut C,
    command: Command<'_>,
)
    requires { C.asks }
{
    match command {
        Command::Scan(moment, pairs) => push_ready_scan(
            rt, alloc, page, engine, crew, pairs, moment,
        ),
        Command::Order(verb, console, word) => {
            let order = order_of(engine.plant(), verb, word);
            push_ready_order(alloc, page, engine, console, order);
        }
        _ => page.line("?"),
    }
}

/// Gives an order by the engine's call for it.
fn give(
    alloc: Global,
    engine: &mut Engine,
    console: u32,
    order: Order,
) -> Result<Reply, EngineFault> {
    match order.verb {
        Verb::Restart => engine.restart(alloc, console, order.target),
        _ => engine.order(alloc, console, order),
    }
}

/// Gives an order, once more where memory is refused for it, since that leaves the engine as it was; and adds that it was taken.
fn push_ordered(alloc: Global, page: &mut Page, engine: &mut Engine, console: u32, order: Order) {
    let taken = match give(alloc, engine, console, order) {
        Err(EngineFault::Memory) => give(alloc, engine, console, order),
        taken => taken,
    };
    match taken {
        Ok(_) => page.line("TAKEN"),
        Err(fault) => push_refused(page, fault),
    }
}

/// Takes a scan by the engine's call for it, once more where memory is refused for it, since that leaves the engine as it was.
fn scan_again<H, C: Crew<Job, Start, Done, H>>(
    rt: &H,
    alloc: Global,
    engine: &mut Engine,
    crew: &mut C,
    pairs: &[Pair],
    moment: u64,
) -> Result<Report, EngineFault>
    requires { C.asks }
{
    match engine.scan(rt, alloc, crew, pairs, moment) {
        Err(EngineFault::Memory) => engine.scan(rt, alloc, crew, pairs, moment),
        taken => taken,
    }
}

/// Gives a command by the engine's call for it.
fn push_done<H, C: Crew<Job, Start, Done, H>>(
    rt: &H,
    alloc: Global,
    page: &mut Page,
    engine: &mut Engine,
    crew: &mut C,
    command: Command<'_>,
)
    requires { C.asks }
{
    match command {
        Command::Scan(moment, pairs) => {
            match scan_again(rt, alloc, engine, crew, pairs, moment) {
                Ok(report) => push_report(page, &report),
                Err(fault) => push_refused(page, fault),
            }
        }
        Command::Order(verb, console, word) => {
            let order = order_of(engine.plant(), verb, word);
            push_ordered(alloc, page, engine, console, order);
        }
        _ => page.line("-"),
    }
}

/// Adds how many alarms of an area and a priority have each code; codes that none has are left out.
fn push_codes(page: &mut Page, engine: &Engine, area: u32, priority: u32) {
    for code in Code::all() {
        let count = engine.summary().count(area, priority, code);
        if count != 0 {
            page.add("COUNT");
            page.number(i128::from(area));
            page.number(i128::from(priority));
            page.word(code.text());
            page.number(i128::from(count));
            page.add("\n");
        }
    }
}

/// Adds how many alarms of each area and priority have each code.
fn push_counts(page: &mut Page, engine: &Engine) {
    for area in 0..engine.plant().areas() {
        for priority in 1..5 {
            push_codes(page, engine, area, priority);
        }
    }
}

/// Gives an engine the command of a line by its own calls, `ready` it and then commit it, or `step` at once; then adds what it shows.
pub fn push_step<H, C: Crew<Job, Start, Done, H>>(
    rt: &H,
    alloc: Global,
    page: &mut Page,
    engine: &mut Engine,
    crew: &mut C,
    is_ready: bool,
    line: &str,
)
    requires { C.asks }
{
    let mut pool = Pool::new(alloc);
    match read_command(alloc, &mut pool, line.as_bytes()) {
        Ok(command) if is_ready => push_ready(rt, alloc, page, engine, crew, command),
        Ok(command) => push_done(rt, alloc, page, engine, crew, command),
        Err(_) => page.refuse(),
    }
    push_seen(page, engine);
    push_counts(page, engine);
}

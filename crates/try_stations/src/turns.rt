//! The turns of the table.

ghost use Rattle.station.specs.Lanes.{AreConsolesIn};

use crate::counts::{count, is_kept};
use crate::workers::Workers;
use engine::{Engine, EngineFault, Pair, Plant, Report};
use serve_lines::{Command, Pool, push_alarm, push_out, read_command};
use station::{Console, Station, Turn};
use std::alloc::{AllocError, Global};
use std::sync::Wait;
use std::sync::ledger::Ledger;
use try_text::Page;

/// How many events a history takes.
const MOST_EVENTS: u64 = 1_000_000;

/// A scan, and whether its turn is taken once and told as it comes.
#[derive(Clone, Copy, Drop)]
struct Scan<'a> {
    pairs: &'a [Pair],
    moment: u64,
    once: bool,
}

/// What a turn answered, and whether things stand as they have to then.
#[derive(Drop)]
struct Taken {
    answer: Result<Turn, EngineFault>,
    is_kept: bool,
}

/// The lines of the changes of alarms of a report.
fn changes_of(
    alloc: Global,
    plant: &Plant,
    moment: &str,
    report: &Report,
) -> Result<Vec<u8>, AllocError> {
    let mut lines = Vec::new(alloc);
    for (alarm, change) in &report.changes {
        let tag = if *alarm < plant.alarms() {
            plant.tag(*alarm)
        } else {
            "?"
        };
        push_alarm(&mut lines, moment, tag, *change)?;
    }
    Ok(lines)
}

/// The lines of the outputs of a report.
fn outs_of(
    alloc: Global,
    plant: &Plant,
    moment: &str,
    report: &Report,
) -> Result<Vec<u8>, AllocError> {
    let mut lines = Vec::new(alloc);
    for (output, value) in &report.outs {
        let name = match plant.globals().get(*output as usize) {
            Some(global) => global.name.as_str(),
            None => "?",
        };
        push_out(&mut lines, moment, name, *value)?;
    }
    Ok(lines)
}

/// Adds lines, unless memory was refused for them.
fn push_lines(page: &mut Page, lines: Result<Vec<u8>, AllocError>) {
    match lines {
        Ok(lines) => page.add_bytes(lines.as_slice()),
        Err(_) => page.refuse(),
    }
}

/// Adds the changes and outputs of a report.
fn push_report(alloc: Global, page: &mut Page, plant: &Plant, report: &Report) {
    let Ok(moment) = report.moment.to_string(alloc) else {
        return page.refuse();
    };
    push_lines(page, changes_of(alloc, plant, moment.as_str(), report));
    push_lines(page, outs_of(alloc, plant, moment.as_str(), report));
}

/// Adds what a turn did.
fn push_turn(alloc: Global, page: &mut Page, plant: &Plant, turn: &Turn) {
    push_report(alloc, page, plant, &turn.report);
    page.add("TAKEN");
    page.number(i128::from(turn.taken));
    page.word("STOPPED");
    page.truth(turn.stopped);
    page.add("\n");
}

/// Adds why a turn is refused. Where memory is, the page is short of it, but where that is to be told.
fn push_refusal(page: &mut Page, fault: EngineFault, once: bool) {
    match fault {
        EngineFault::Memory if once => page.line("MEMORY"),
        EngineFault::Memory => page.refuse(),
        _ => {
            page.add("REFUSED");
            page.word(fault.text());
            page.add("\n");
        }
    }
}

/// Adds what came of a turn. Where it was stopped for memory the page is short of it, but where that is to be told.
fn push_taken(alloc: Global, page: &mut Page, engine: &Engine, taken: &Taken, once: bool) {
    if !taken.is_kept {
        return page.line("PROMISE BROKEN");
    }
    match &taken.answer {
        Ok(turn) if turn.stopped && !once && engine.events() < MOST_EVENTS => page.refuse(),
        Ok(turn) => push_turn(alloc, page, engine.plant(), turn),
        Err(fault) => push_refusal(page, *fault, once),
    }
}

/// Whether a turn was refused, or stopped.
fn is_cut(answer: &Result<Turn, EngineFault>) -> bool {
    match answer {
        Ok(turn) => turn.stopped,
        Err(_) => true,
    }
}

/// Takes a turn, and where it is refused or stopped looks at how things stand.
#[tactic(auto, using(crate::proofs::Seats::stay, crate::proofs::Seats::keep))]
fn take<L: Ledger, R: Wait>(
    rt: &R,
    alloc: Global,
    station: &mut Station<L, Workers>,
    consoles: &mut [Console],
    scan: Scan<'_>,
) -> Taken
    requires { AreConsolesIn station.old.lanes consoles.old }
    ensures { AreConsolesIn station.new.lanes consoles.new }
{
    let before = count(rt, &*station, consoles);
    let answer = station.turn(rt, alloc, scan.pairs, scan.moment);
    if !is_cut(&answer) {
        return Taken {
            answer,
            is_kept: true,
        };
    }
    let is_kept = is_kept(rt, &*station, consoles, before, &answer);
    Taken { answer, is_kept }
}

/// Takes a turn. Where memory is refused for its scan, and nothing has changed, it is taken once more, unless what comes is to be told.
fn take_again<L: Ledger, R: Wait>(
    rt: &R,
    alloc: Global,
    station: &mut Station<L, Workers>,
    consoles: &mut [Console],
    scan: Scan<'_>,
) -> Taken
    requires { AreConsolesIn station.old.lanes consoles.old }
    ensures { AreConsolesIn station.new.lanes consoles.new }
{
    let first = take(rt, alloc, station, consoles, scan);
    let is_refused = matches!(&first.answer, Err(EngineFault::Memory));
    if scan.once || !first.is_kept || !is_refused {
        return first;
    }
    take(rt, alloc, station, consoles, scan)
}

/// Takes a turn, and adds what it did.
fn push_scan<L: Ledger, R: Wait>(
    rt: &R,
    alloc: Global,
    station: &mut Station<L, Workers>,
    consoles: &mut [Console],
    page: &mut Page,
    scan: Scan<'_>,
)
    requires { AreConsolesIn station.old.lanes consoles.old }
    ensures { AreConsolesIn station.new.lanes consoles.new }
{
    let taken = take_again(rt, alloc, station, consoles, scan);
    push_taken(alloc, page, station.engine(), &taken, scan.once);
}

/// Takes the turn of a line, `scan ..` or `once scan ..`, and adds what it did.
pub fn push_turn_of<L: Ledger, R: Wait>(
    rt: &R,
    alloc: Global,
    station: &mut Station<L, Workers>,
    consoles: &mut [Console],
    page: &mut Page,
    line: &str,
)
    requires { AreConsolesIn station.old.lanes consoles.old }
    ensures { AreConsolesIn station.new.lanes consoles.new }
{
    let mut pool = Pool::new(alloc);
    let once = line.starts_with("once ");
    let line = line.strip_prefix("once ").unwrap_or(line);
    match read_command(alloc, &mut pool, line.as_bytes()) {
        Ok(Command::Scan(moment, pairs)) => {
            let scan = Scan {
                pairs,
                moment,
                once,
            };
            push_scan(rt, alloc, station, consoles, page, scan);
        }
        Ok(_) => page.line("NO ROW"),
        Err(_) => page.refuse(),
    }
}

ghost use Rattle.std.specs.Prelude.{◌≡◌, ◌++◌, ◌∷◌, [], List, ◌⊎◌, ◌<◌, ◌^◌, ◌+◌, ℕ, OnOk, OnErr, IfOk, IfSome, All, length, false, string_bytes, decimal};
ghost use Rattle.engine.specs.Engines.{state_of};
ghost use Rattle.engine.specs.Event.{Event};
ghost use Rattle.engine.specs.Event.TheVariants as event;
ghost use Rattle.alarm_orders.specs.declared.order.Order.{Order as OrderMade};
ghost use Rattle.engine.specs.Plants.{PlainPlant};
ghost use Rattle.engine.specs.Names.{tag_of, globals_of, global_of, body_paths};
ghost use Rattle.logic_source.specs.Paths.{path_text};
ghost use Rattle.engine.specs.VmLogicRuns.{place_spot};
ghost use Rattle.alarm_machine.specs.Orders.{is_restart};
ghost use Rattle.engine.specs.System.{system, scan_event};
ghost use Rattle.serve_answers.specs.Answers.{spots_of, named_by, target_of, tag_for, order_for, order_answer, fault_lines, alarm_lines, out_lines, report_lines, order_text, scan_answer, named_order, HasAdded, MayHaveAdded, history_after, line_answer};
ghost use Rattle.serve_faults.specs.Faults.{is_read, is_write, crew_faults};
ghost use Rattle.serve_answers.specs.Listings.{list_text, journal_text};

use alarm_machine::{Change, Verb};
use engine::{Crew, Done, Engine, EngineFault, Job, Order, Plant, Reply, Report, Start};
use itoa::Buffer;
use plant_types::{Pair, Place, Trap, Value};
use serve_faults::ServeFault;
use serve_lines::{
    AlarmFront, Command, OutFront, Pool, push_alarm, push_done, push_fault, push_out, push_refused,
    push_reply, put_alarm, put_out, read_command,
};
use std::alloc::{AllocError, Global};
use std::str;

/// How many OUT lines of a scan are worth what they begin with being made once for all of them, and room for many.
const MANY_OUTS: usize = 4;

/// How many bytes a path has room for before the text of the paths of FAULT lines grows.
const PATH: usize = 64;

/// Returns the tag of the alarm that an order is for; `""` for a restart, and for an order that names no alarm.
fn tag_for(plant: &Plant, order: Order) -> &str
    requires { is_restart order.verb ≡ false
        → IfSome order.target (λ alarm. alarm < length plant.now.alarms) }
    ensures { result.now ≡ tag_for plant.now order }
{
    match (order.verb, order.target) {
        (Verb::Restart, _) => "",
        (_, Some(alarm)) => plant.tag(alarm),
        (_, None) => "",
    }
}

/// Appends an ALARM line for each change. What they begin with is made once, and they are written one after another into the text's room.
fn put_alarms(
    text: &mut Vec<u8>,
    plant: &Plant,
    moment: u64,
    changes: &[(u32, Change)],
) -> Result<(), AllocError>
    requires { All (λ c. c.0 < length plant.now.alarms) changes.now }
    ensures { OnOk result (text.new.items ≡ text.old.items ++ alarm_lines plant.now moment changes.now) }
{
    let front = AlarmFront::new(moment);
    let mut end = text.len();
    for (alarm, change) in changes {
        end = put_alarm(text, end, &front, plant.tag(*alarm), *change)?;
    }
    text.truncate(end);
    Ok(())
}

/// Appends an ALARM line for each change. The moment is given with its digits, in which a line stands that is alone.
fn push_alarms(
    text: &mut Vec<u8>,
    plant: &Plant,
    moment: u64,
    digits: &str,
    changes: &[(u32, Change)],
) -> Result<(), AllocError>
    requires digits { digits.now ≡ decimal moment }
    requires alarms { All (λ c. c.0 < length plant.now.alarms) changes.now }
    ensures { OnOk result (text.new.items ≡ text.old.items ++ alarm_lines plant.now moment changes.now) }
{
    let Some(((alarm, change), others)) = changes.split_first() else {
        return Ok(());
    };
    if others.is_empty() {
        return push_alarm(text, digits, plant.tag(*alarm), *change);
    }
    put_alarms(text, plant, moment, changes)
}

/// Writes the path of a place over a text: the names that lead to it, with points between them.
#[tactic(auto, using(crate::proofs::AnswerLaws::path_is))]
fn write_path(path: &mut String, plant: &Plant, place: &Place) -> Result<(), AllocError>
    requires { place.now.path < length (body_paths plant.now) }
    ensures { IfOk result (λ _. string_bytes path.new
        ≡ path_text (place_spot plant.now.source place.now).path) }
{
    path.clear();
    plant.push_body_path(place.path, path)
}

/// Appends a FAULT line for each program that stopped. Their paths are written into one text, one after another. The moment is given by its digits.
fn push_faults(
    alloc: Global,
    text: &mut Vec<u8>,
    plant: &Plant,
    moment: &str,
    faults: &[(Place, Trap)],
) -> Result<(), AllocError>
    requires { All (λ f. f.0.path < length (body_paths plant.now)) faults.now }
    ensures { (t : ℕ) → moment.now ≡ decimal t
        → OnOk result
        (text.new.items ≡ text.old.items ++ fault_lines t (spots_of plant.now.source faults.now)) }
{
    if faults.is_empty() {
        return Ok(());
    }
    let mut path = String::with_capacity(alloc, PATH)?;
    for (place, trap) in faults {
        write_path(&mut path, plant, place)?;
        push_fault(text, moment, path.as_str(), place.statement, *trap)?;
    }
    Ok(())
}

/// Appends an OUT line for each output that changed. What they begin with is made once, and they are written one after another into the text's room.
/// The moment is given with its digits.
fn put_outs(
    text: &mut Vec<u8>,
    plant: &Plant,
    moment: u64,
    digits: &str,
    outs: &[(u32, Value)],
) -> Result<(), AllocError>
    requires digits { digits.now ≡ decimal moment }
    requires outs { All (λ o. o.0 < length (globals_of plant.now)) outs.now }
    ensures { OnOk result (text.new.items ≡ text.old.items ++ out_lines plant.now moment outs.now) }
{
    let front = OutFront::new(moment, digits);
    let mut end = text.len();
    for (output, value) in outs {
        end = put_out(text, end, &front, plant.global(*output), *value)?;
    }
    text.truncate(end);
    Ok(())
}

/// Appends an OUT line for each output that changed. The moment is given with its digits, in which a line stands that has few beside it.
fn push_outs(
    text: &mut Vec<u8>,
    plant: &Plant,
    moment: u64,
    digits: &str,
    outs: &[(u32, Value)],
) -> Result<(), AllocError>
    requires digits { digits.now ≡ decimal moment }
    requires outs { All (λ o. o.0 < length (globals_of plant.now)) outs.now }
    ensures { OnOk result (text.new.items ≡ text.old.items ++ out_lines plant.now moment outs.now) }
{
    if MANY_OUTS <= outs.len() {
        return put_outs(text, plant, moment, digits, outs);
    }
    for (output, value) in outs {
        push_out(text, digits, plant.global(*output), *value)?;
    }
    Ok(())
}

/// Appends the answer to a scan that was taken: its faults, its alarms, its outputs, and how many lines these are. The moment's digits are made once
/// for all of them.
#[tactic(auto, using(crate::proofs::AnswerLaws::spots_length), unfolding(crate::specs::Answers::report_text))]
fn push_report(
    alloc: Global,
    text: &mut Vec<u8>,
    plant: &Plant,
    report: &Report,
) -> Result<(), AllocError>
    requires faults { All (λ f. f.0.path < length (body_paths plant.now)) report.now.faults }
    requires changes { All (λ c. c.0 < length plant.now.alarms) report.now.changes }
    requires outs { All (λ o. o.0 < length (globals_of plant.now)) report.now.outs }
    ensures { OnOk result (text.new.items ≡ text.old.items ++ report_lines plant.now report.now) }
{
    let faults = report.faults.as_slice();
    let changes = report.changes.as_slice();
    let outs = report.outs.as_slice();
    let mut digits = Buffer::new();
    let digits = digits.format(report.moment);
    push_faults(alloc, text, plant, digits, faults)?;
    push_alarms(text, plant, report.moment, digits, changes)?;
    push_outs(text, plant, report.moment, digits, outs)?;
    let lines = faults.len() as u64 + changes.len() as u64 + outs.len() as u64;
    push_done(text, digits, lines)
}

/// Does a scan, its programs run by the crew, and appends its answer. It fails where the crew failed, before the scan took effect, and where memory
/// was refused, before that or after it.
fn answer_scan<H, C: Crew<Job, Start, Done, H>>(
    rt: &H,
    alloc: Global,
    engine: &mut Engine,
    crew: &mut C,
    text: &mut Vec<u8>,
    moment: u64,
    pairs: &[Pair],
) -> Result<(), ServeFault>
    requires asked { C.asks }
    ensures plant { engine.new.plant ≡ engine.old.plant }
    ensures history { OnOk result
        (HasAdded engine.old engine.new (scan_event (state_of engine.old) pairs.now moment)) }
    ensures text { OnOk result
        (text.new.items ≡ text.old.items ++ scan_answer (state_of engine.old) pairs.now moment) }
    ensures err { OnErr result
        (MayHaveAdded engine.old engine.new (scan_event (state_of engine.old) pairs.now moment)) }
    ensures read { is_read result ≡ false }
    ensures write { is_write result ≡ false }
    ensures crew { C.faulted crew.new ≡ crew_faults (C.faulted crew.old) result }
{
    match engine.prepare(rt, alloc, crew, pairs, moment) {
        Ok(prepared) => {
            let told = push_report(alloc, text, engine.plant(), &prepared.scan.report);
            engine.commit_told(prepared);
            Ok(told?)
        }
        Err(EngineFault::Memory) => Err(ServeFault::Memory),
        Err(EngineFault::Crew(_)) => Err(ServeFault::Crew),
        Err(fault) => Ok(push_refused(text, fault.text())?),
    }
}

/// Returns the number of the program that a text names for a restart, and of the alarm that it names for every other order.
fn named_by(plant: &Plant, verb: Verb, name: &str) -> Option<u32>
    ensures number { result ≡ named_by plant.now verb name.now }
    ensures within { is_restart verb ≡ false → IfSome result (λ alarm. alarm < length plant.now.alarms) }
{
    match verb {
        Verb::Restart => plant.program_number(name),
        _ => plant.alarm_number(name),
    }
}

/// Returns the number of what a word names as an order's target; `None` where there is no such program or alarm, and where the word
/// isn't UTF-8.
fn target_of(plant: &Plant, verb: Verb, word: &[u8]) -> Option<u32>
    ensures number { result ≡ target_of plant.now verb word.now }
    ensures within { is_restart verb ≡ false → IfSome result (λ alarm. alarm < length plant.now.alarms) }
{
    match str::from_utf8(word) {
        Ok(name) => named_by(plant, verb, name),
        Err(_) => None,
    }
}

/// Appends the REPLY to an order, and the ALARM line of its change if there is one.
#[tactic(auto, unfolding(crate::specs::Answers::order_text))]
fn push_order(text: &mut Vec<u8>, moment: u64, tag: &str, reply: Reply) -> Result<(), AllocError>
    ensures { OnOk result (text.new.items ≡ text.old.items ++ order_text moment tag.now reply) }
{
    match reply {
        Reply::Done(None) => push_reply(text, None),
        Reply::Done(Some(change)) => {
            push_reply(text, None)?;
            let mut digits = Buffer::new();
            push_alarm(text, digits.format(moment), tag, change)
        }
        Reply::Refused(fault) => push_reply(text, Some(fault)),
    }
}

/// A law, which does nothing: an order leaves the plant as it is.
fn order_keeps_plant()
    ensures { (plant : PlainPlant) (history : List Event) (console : ℕ) (order : OrderMade)
        → (system plant (history ++ event.Order console order ∷ [])).plant
        ≡ (system plant history).plant }
{}

/// Does an order for what a word names, and appends its answer. It fails where memory was refused: before the order took effect or after it.
fn answer_order(
    alloc: Global,
    engine: &mut Engine,
    text: &mut Vec<u8>,
    verb: Verb,
    console: u32,
    word: &[u8],
) -> Result<(), AllocError>
    ensures plant { engine.new.plant ≡ engine.old.plant }
    ensures history { OnOk result
        (HasAdded engine.old engine.new (named_order (state_of engine.old) verb console word.now)) }
    ensures text { OnOk result
        (text.new.items
        ≡ text.old.items
        ++ order_answer (state_of engine.old) console (order_for (state_of engine.old) verb word.now)) }
    ensures err { OnErr result
        (MayHaveAdded engine.old engine.new (named_order (state_of engine.old) verb console word.now)) }
{
    order_keeps_plant();
    let last = engine.moment();
    let target = target_of(engine.plant(), verb, word);
    let order = Order::of(verb, target, engine.reloads());
    match engine.order(alloc, console, order) {
        Ok(reply) => push_order(text, last, tag_for(engine.plant(), order), reply),
        // An order asks no crew.
        Err(EngineFault::Memory | EngineFault::Crew(_)) => Err(AllocError),
        Err(fault) => push_refused(text, fault.text()),
    }
}

/// Where the answer to a line is.
#[derive(Clone, Copy, Drop)]
pub enum Said {
    /// All of it stands in the text.
    Text,
    /// It is the list of alarms, and isn't in the text.
    List,
    /// It is the journal, and isn't in the text.
    Journal,
}

/// Does what a line asks for, with the pool as room for its pairs, and appends its answer; the list and the journal are left to the caller, who
/// writes them as they are made. It fails where the crew failed, before the line took effect, and where memory was refused, before that or after it.
#[tactic(auto, unfolding(crate::specs::Answers::after_command, crate::specs::Answers::answer_after))]
pub fn answer_line<H, C: Crew<Job, Start, Done, H>>(
    rt: &H,
    alloc: Global,
    engine: &mut Engine,
    crew: &mut C,
    pool: &mut Pool,
    text: &mut Vec<u8>,
    line: &[u8],
) -> Result<Said, ServeFault>
    requires asked { C.asks }
    ensures plant { engine.new.plant ≡ engine.old.plant }
    ensures history { OnOk result (engine.new.history ≡ history_after engine.old line.now) }
    ensures text { IfOk result (λ said. said ≡ Said.Text
        → text.new.items ≡ text.old.items ++ line_answer engine.old line.now) }
    ensures list { IfOk result (λ said. said ≡ Said.List
        → line_answer engine.old line.now ≡ list_text (state_of engine.old)) }
    ensures list_kept { IfOk result (λ said. said ≡ Said.List
        → engine.new.history ≡ engine.old.history) }
    ensures journal { IfOk result (λ said. said ≡ Said.Journal
        → line_answer engine.old line.now ≡ journal_text engine.old.plant engine.old.history) }
    ensures journal_kept { IfOk result (λ said. said ≡ Said.Journal
        → engine.new.history ≡ engine.old.history) }
    ensures err { OnErr result
        ((engine.new.history ≡ engine.old.history)
        ⊎ (engine.new.history ≡ history_after engine.old line.now)) }
    ensures read { is_read result ≡ false }
    ensures write { is_write result ≡ false }
    ensures crew { C.faulted crew.new ≡ crew_faults (C.faulted crew.old) result }
{
    match read_command(alloc, pool, line)? {
        Command::Nothing => {}
        Command::Unknown => push_refused(text, "L1")?,
        Command::Scan(moment, pairs) => answer_scan(rt, alloc, engine, crew, text, moment, pairs)?,
        Command::Order(verb, console, word) => {
            answer_order(alloc, engine, text, verb, console, word)?;
        }
        Command::List => return Ok(Said::List),
        Command::Journal => return Ok(Said::Journal),
    }
    Ok(Said::Text)
}

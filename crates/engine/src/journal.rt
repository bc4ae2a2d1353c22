//! The rows that an event adds to the journal, and the text of a row.

ghost use Rattle.std.specs.Prelude.{◌≡◌, ◌≤◌, ◌+◌, List, IfOk, OnOk, length, string_bytes};
ghost use Rattle.engine_system.specs.Plants.{PlainPlant};
ghost use Rattle.alarm_machine.specs.declared.limits.TheConstants.{LAST_MOMENT};
ghost use Rattle.journal_core.specs.Bodies.{row_text};
ghost use Rattle.journal_core.specs.declared.row.Entry.TheVariants as entry;
ghost use Rattle.journal_core.specs.Rows.{after_entries, last_moment};
ghost use Rattle.engine_system.specs.Orders.{changed_by};
ghost use Rattle.engine.specs.Journal.{refusal_of, scan_entries, order_entries, IsNamed, HasTarget, target_name, order_target, target_text, name_of};
ghost use Rattle.engine.specs.RowNames.{HaveNames, HaveOtherNames};

use alarm_machine::{Alarm, Change, OrderFault, Verb};
use alarm_orders::Order;
use base_names::NameList;
use base_stamps::Epoch;
use engine_system::{Effect, Plant, Report, State};
use journal_core::{Entry, Log, Row, row_text};
use std::alloc::{AllocError, Global};

/// Why an order is refused, if it is.
fn refusal_of(done: &Result<Effect, OrderFault>) -> Option<OrderFault>
    ensures { result ≡ refusal_of done.now }
{
    match done {
        Ok(_) => None,
        Err(fault) => Some(*fault),
    }
}

/// The alarm whose code an order changes, by its number, with the change.
fn changed_by(done: &Result<Effect, OrderFault>, alarms: &[Alarm]) -> Option<(u32, Change)>
    ensures { result ≡ changed_by done.now alarms.now }
{
    let Ok(Effect::Changed(number, alarm)) = done else {
        return None;
    };
    let old = alarms.get(*number as usize)?;
    let change = Change::between(old.state().code(), alarm.state().code())?;
    Some((*number, change))
}

/// How many rows a scan adds.
pub fn row_count(report: &Report) -> usize
    ensures { result ≡ length report.now.faults + length report.now.changes }
{
    report.faults.len() + report.changes.len()
}

/// Adds the rows of a scan, for which there is room: its faults in program order, then its changes in the order of the database.
pub fn push_scan(log: &mut Log, report: &Report)
    requires room { length report.now.faults + length report.now.changes ≤ log.old.room }
    requires in_order { last_moment log.old.rows ≤ report.now.moment }
    ensures { log.new ≡ after_entries report.now.moment log.old (scan_entries report.now) }
{
    log.push_faults(report.moment, report.faults.as_slice());
    log.push_changes(report.moment, report.changes.as_slice());
}

/// Adds the rows of an order, by what it does in a state: the order with its reply, then the change of an alarm's code. There is room
/// for two.
pub fn push_order(
    log: &mut Log,
    state: &State,
    console: u32,
    order: Order,
    done: &Result<Effect, OrderFault>,
)
    requires room { 2 ≤ log.old.room }
    requires in_order { last_moment log.old.rows ≤ state.now.moment }
    ensures { log.new
        ≡ after_entries state.now.moment log.old
        (order_entries console order done.now state.now.alarms) }
{
    let moment = state.bank.moment();
    let refused = refusal_of(done);
    log.push(
        moment,
        Entry::Order {
            console,
            verb: order.verb,
            target: order.target,
            refused,
        },
    );
    if let Some((number, change)) = changed_by(done, state.bank.alarms()) {
        log.push(moment, Entry::Alarm(number, change));
    }
}

/// The name of an order's target, as declared.
fn target_name(plant: &Plant, verb: Verb, number: u32) -> &str
    requires { HasTarget plant.now verb number }
    ensures { result.now ≡ target_name plant.now verb number }
{
    match verb {
        Verb::Restart => plant.program(number),
        _ => plant.tag(number),
    }
}

/// The target of an order as its row has it: its name, `?` where the order was refused because there is none, or because it was made for an older plant.
fn order_name(
    plant: &Plant,
    console: u32,
    verb: Verb,
    target: Option<u32>,
    refused: Option<OrderFault>,
) -> &str
    requires { IsNamed plant.now (entry.Order console verb target refused) }
    ensures { result.now ≡ target_text (order_target plant.now verb target refused) }
{
    match (refused, target) {
        (Some(OrderFault::UnknownTarget | OrderFault::OldPlant), _) => "?",
        (_, Some(number)) => target_name(plant, verb, number),
        (_, None) => "?",
    }
}

/// The text of a row, after an epoch, with the name that it has in a plant.
pub fn line_text(
    alloc: Global,
    epoch: &Epoch,
    plant: &Plant,
    row: &Row,
) -> Result<String, AllocError>
    requires named { IsNamed plant.now row.now.entry }
    requires range { row.now.moment ≤ LAST_MOMENT }
    ensures { IfOk result (λ text. string_bytes text
        ≡ row_text epoch.now row.now (name_of plant.now row.now.entry)) }
{
    match row.entry {
        Entry::Fault(place, _) => {
            let path = plant.body_path(alloc, place.path)?;
            row_text(alloc, epoch, row, path.as_str())
        }
        Entry::Alarm(alarm, _) => row_text(alloc, epoch, row, plant.tag(alarm)),
        Entry::Order {
            console,
            verb,
            target,
            refused,
        } => row_text(
            alloc,
            epoch,
            row,
            order_name(plant, console, verb, target, refused),
        ),
        Entry::Reload { .. } => row_text(alloc, epoch, row, ""),
    }
}

/// The name with which a row of an entry is printed.
fn row_name(alloc: Global, plant: &Plant, entry: Entry) -> Result<String, AllocError>
    requires { IsNamed plant.now entry }
    ensures { IfOk result (λ name. string_bytes name ≡ name_of plant.now entry) }
{
    match entry {
        Entry::Fault(place, _) => plant.body_path(alloc, place.path),
        Entry::Alarm(alarm, _) => String::from_str(alloc, plant.tag(alarm)),
        Entry::Order {
            console,
            verb,
            target,
            refused,
        } => String::from_str(alloc, order_name(plant, console, verb, target, refused)),
        Entry::Reload { .. } => Ok(String::new(alloc)),
    }
}

/// Keeps the names of the rows behind those whose names are kept, as a plant has them. Fails if memory is refused; some of them may be kept then.
pub fn keep_names(
    alloc: Global,
    plant: &Plant,
    log: &Log,
    names: &mut NameList,
) -> Result<(), AllocError>
    requires few { length names.old ≤ length log.now.rows }
    requires named { HaveOtherNames log.now.rows (length names.old) plant.now }
    ensures names { (plants : List PlainPlant) → HaveNames plants log.now.rows names.old plant.now
        → HaveNames plants log.now.rows names.new plant.now }
    ensures all { OnOk result (length names.new ≡ length log.now.rows) }
    ensures more { length names.old ≤ length names.new }
{
    for place in names.len() as u64..log.len() {
        let row = log.row(place + 1);
        let name = row_name(alloc, plant, row.entry)?;
        names.push(name)?;
    }
    Ok(())
}

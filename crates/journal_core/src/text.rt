ghost use Rattle.std.specs.Prelude.{◌≡◌, ◌++◌, ◌≤◌, string_bytes, OnOk, IfOk};
ghost use Rattle.std.specs.Fmt.{decimal};
ghost use Rattle.alarm_machine.specs.declared.limits.TheConstants.{LAST_MOMENT};
ghost use Rattle.alarm_machine.specs.Orders.{reply_text};
ghost use Rattle.journal_core.specs.Bodies.{fault_body, alarm_body, shelf_text, order_body, reload_body, body_text, row_text};

use crate::row::{Entry, Row};
use alarm_machine::{Change, OrderFault, Verb};
use base_stamps::Epoch;
use plant_types::Trap;
use std::alloc::{AllocError, Global};

/// How many bytes are reserved for a row beside those of its name: few rows have more.
const ROOM: usize = 80;

/// The reply to an order: OK, or the number of its refusal.
fn reply_text(refused: Option<OrderFault>) -> &'static str
    ensures { result.now ≡ reply_text refused }
{
    match refused {
        None => "OK",
        Some(fault) => fault.text(),
    }
}

/// Appends `FAULT PATH STATEMENT KIND`.
fn push_fault(
    alloc: Global,
    text: &mut String,
    path: &str,
    statement: u32,
    kind: Trap,
) -> Result<(), AllocError>
    ensures { OnOk result
        (string_bytes text.new ≡ string_bytes text.old ++ fault_body path.now statement kind) }
{
    text.push_str("FAULT ")?;
    text.push_str(path)?;
    text.push_str(" ")?;
    text.push_str(&statement.to_string(alloc)?)?;
    text.push_str(" ")?;
    text.push_str(kind.text())?;
    Ok(())
}

/// Appends `ALARM TAG FROM TO`.
fn push_alarm(text: &mut String, tag: &str, change: Change) -> Result<(), AllocError>
    ensures { OnOk result (string_bytes text.new ≡ string_bytes text.old ++ alarm_body tag.now change) }
{
    text.push_str("ALARM ")?;
    text.push_str(tag)?;
    text.push_str(" ")?;
    text.push_str(change.from().text())?;
    text.push_str(" ")?;
    text.push_str(change.to().text())?;
    Ok(())
}

/// Appends the time of a shelving and a space; nothing for another order.
fn push_shelf(alloc: Global, text: &mut String, verb: Verb) -> Result<(), AllocError>
    ensures { OnOk result (string_bytes text.new ≡ string_bytes text.old ++ shelf_text verb) }
{
    if let Verb::Shelve(time) = verb {
        text.push_str(&time.to_string(alloc)?)?;
        text.push_str(" ")?;
    }
    Ok(())
}

/// Appends `ORDER CONSOLE COMMAND TARGET REPLY`, for a shelving with its time before REPLY.
fn push_order(
    alloc: Global,
    text: &mut String,
    console: u32,
    verb: Verb,
    target: &str,
    refused: Option<OrderFault>,
) -> Result<(), AllocError>
    ensures { OnOk result
        (string_bytes text.new ≡ string_bytes text.old ++ order_body console verb target.now refused) }
{
    text.push_str("ORDER ")?;
    text.push_str(&console.to_string(alloc)?)?;
    text.push_str(" ")?;
    text.push_str(verb.text())?;
    text.push_str(" ")?;
    text.push_str(target)?;
    text.push_str(" ")?;
    push_shelf(alloc, text, verb)?;
    text.push_str(reply_text(refused))?;
    Ok(())
}

/// Appends a word and a number.
fn push_count(alloc: Global, text: &mut String, word: &str, count: u32) -> Result<(), AllocError>
    ensures { OnOk result
        (string_bytes text.new ≡ string_bytes text.old ++ (word.now ++ decimal count)) }
{
    text.push_str(word)?;
    text.push_str(&count.to_string(alloc)?)?;
    Ok(())
}

/// Appends `RELOAD KEPT k NEW n`.
fn push_reload(alloc: Global, text: &mut String, kept: u32, fresh: u32) -> Result<(), AllocError>
    ensures { OnOk result (string_bytes text.new ≡ string_bytes text.old ++ reload_body kept fresh) }
{
    push_count(alloc, text, "RELOAD KEPT ", kept)?;
    push_count(alloc, text, " NEW ", fresh)?;
    Ok(())
}

/// Appends the body of a row.
fn push_body(alloc: Global, text: &mut String, entry: Entry, name: &str) -> Result<(), AllocError>
    ensures { OnOk result (string_bytes text.new ≡ string_bytes text.old ++ body_text entry name.now) }
{
    match entry {
        Entry::Fault(place, kind) => push_fault(alloc, text, name, place.statement, kind),
        Entry::Alarm(_, change) => push_alarm(text, name, change),
        Entry::Order {
            console,
            verb,
            target: _,
            refused,
        } => push_order(alloc, text, console, verb, name, refused),
        Entry::Reload { kept, fresh } => push_reload(alloc, text, kept, fresh),
    }
}

/// The text of a row, as it stands in a journal: its number, its stamp after the plant's epoch, and its body. The name is that of the faulted
/// program's path, the alarm's tag, or the order's target, `?` where that is unknown; the row of a reload has none, whatever the name.
pub fn row_text(alloc: Global, epoch: &Epoch, row: &Row, name: &str) -> Result<String, AllocError>
    requires { row.now.moment ≤ LAST_MOMENT }
    ensures { IfOk result (λ text. string_bytes text ≡ row_text epoch.now row.now name.now) }
{
    let mut text = row.number.to_string(alloc)?;
    text.reserve(name.len().saturating_add(ROOM))?;
    text.push_str(" ")?;
    text.push_str(&epoch.stamp(alloc, row.moment)?)?;
    text.push_str(" ")?;
    push_body(alloc, &mut text, row.entry, name)?;
    Ok(text)
}

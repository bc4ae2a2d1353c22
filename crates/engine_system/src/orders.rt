//! How an order is made ready: what it does, and its reply.

ghost use Rattle.std.specs.Prelude.{◌≡◌, ◌≤◌, length, Some};
ghost use Rattle.std.specs.List.{list_any};
ghost use Rattle.alarm_machine.specs.Alarms.{after_order};
ghost use Rattle.alarm_machine.specs.declared.limits.TheConstants.{LAST_MOMENT};
ghost use Rattle.engine_system.specs.Orders.{is_console, alarm_order, program_order, order_outcome, reply_by};
ghost use Rattle.alarm_bank.specs.Moves.{change_from};
ghost use Rattle.engine_system.specs.Steps.{IsPreparedOrder};
ghost use Rattle.engine_system.specs.System.{sites_of};

use crate::event::Reply;
use crate::state::{Effect, State};
use alarm_bank::Bank;
use alarm_machine::{Alarm, Change, OrderFault, Verb};
use alarm_orders::Order;
use engine_history::Plant;
use plant_file::ListedConsole;
use std::marker::Model;

/// An order that was made ready to be committed.
#[derive(Drop)]
pub struct PreparedOrder {
    /// The number of the console that gives it.
    pub console: u32,
    /// The order.
    pub order: Order,
    /// What it does to the state, or why it is refused.
    pub done: Result<Effect, OrderFault>,
    /// The reply to it.
    pub reply: Reply,
}

impl Model for PreparedOrder {
    ghost use Rattle.engine_system.specs.States.{PlainPreparedOrder};

    ghost Value = { PlainPreparedOrder };

    ghost view = { λ p. record { console = p.console; order = p.order; done = p.done; reply = p.reply } };
}

fn is_listed(consoles: &[ListedConsole], number: u32) -> bool
    ensures { result ≡ list_any (is_console number) consoles.now }
{
    consoles.iter().any(|console| console.number == number)
}

/// The alarm after an order, or why the order is refused.
#[tactic(auto, using(crate::proofs::OrderLaws::after_order_ok, crate::proofs::OrderLaws::after_order_err))]
fn after_order(alarm: Alarm, verb: Verb, last: u64) -> Result<Alarm, OrderFault>
    requires { last ≤ LAST_MOMENT }
    ensures { result ≡ after_order verb last alarm }
{
    let mut changed = alarm;
    changed.order(verb, last)?;
    Ok(changed)
}

/// What an order to the alarm of a number does, or why it is refused. The alarm's area is asked of the bank: a plant's row is long, and read for it alone.
fn alarm_order(
    plant: &Plant,
    bank: &Bank,
    console: u32,
    verb: Verb,
    number: u32,
) -> Result<Effect, OrderFault>
    requires each { length bank.now.alarms ≡ length plant.now.alarms }
    requires sites { bank.now.sites ≡ sites_of plant.now.alarms }
    ensures { result ≡ alarm_order plant.now bank.now.alarms bank.now.moment console verb number }
{
    let alarms = bank.alarms();
    let at = number as usize;
    if at >= alarms.len() {
        return Err(OrderFault::UnknownTarget);
    }
    if !plant.may_order(console, bank.area(number)) {
        return Err(OrderFault::NotYourArea);
    }
    let alarm = after_order(alarms[at], verb, bank.moment())?;
    Ok(Effect::Changed(number, alarm))
}

/// What a restart of the program of a number does, or why it is refused.
fn program_order(
    plant: &Plant,
    faulted: &[bool],
    console: u32,
    number: u32,
) -> Result<Effect, OrderFault>
    ensures { result ≡ program_order plant.now faulted.now console number }
{
    let at = number as usize;
    if at >= faulted.len() {
        return Err(OrderFault::UnknownTarget);
    }
    if !is_listed(plant.consoles(), console) {
        return Err(OrderFault::NotYourArea);
    }
    if faulted[at] {
        Ok(Effect::Restarted(number))
    } else {
        Err(OrderFault::NotFaulted)
    }
}

/// What an order to the present plant does, or why it is refused.
fn order_outcome(
    plant: &Plant,
    bank: &Bank,
    faulted: &[bool],
    console: u32,
    order: Order,
) -> Result<Effect, OrderFault>
    requires each { length bank.now.alarms ≡ length plant.now.alarms }
    requires sites { bank.now.sites ≡ sites_of plant.now.alarms }
    ensures { result
        ≡ order_outcome plant.now bank.now.alarms faulted.now bank.now.moment console order }
{
    match (order.target, order.verb) {
        (None, _) => Err(OrderFault::UnknownTarget),
        (Some(number), Verb::Restart) => program_order(plant, faulted, console, number),
        (Some(number), verb) => alarm_order(plant, bank, console, verb, number),
    }
}

/// The change of the code from one alarm to another, if there is one.
fn change_from(old: &Alarm, new: &Alarm) -> Option<Change>
    ensures { result ≡ change_from (Some old.now) new.now }
{
    Change::between(old.state().code(), new.state().code())
}

/// The reply to an order, by what it does.
pub fn reply_by(done: &Result<Effect, OrderFault>, alarms: &[Alarm]) -> Reply
    ensures { result ≡ reply_by done.now alarms.now }
{
    match done {
        Err(fault) => Reply::Refused(*fault),
        Ok(Effect::Restarted(_)) => Reply::Done(None),
        Ok(Effect::Changed(number, alarm)) => match alarms.get(*number as usize) {
            Some(old) => Reply::Done(change_from(old, alarm)),
            None => Reply::Done(None),
        },
    }
}

/// Makes an order of the console of a number ready.
pub fn prepared_order(plant: &Plant, state: &State, console: u32, order: Order) -> PreparedOrder
    requires alarms { length state.now.alarms ≡ length plant.now.alarms }
    requires sites { state.now.sites ≡ sites_of plant.now.alarms }
    ensures { IsPreparedOrder plant.now state.now console order result }
{
    let alarms = state.bank.alarms();
    let faulted = state.faulted.as_slice();
    let done = if order.plant == state.reloads {
        order_outcome(plant, &state.bank, faulted, console, order)
    } else {
        Err(OrderFault::OldPlant)
    };
    let reply = reply_by(&done, alarms);
    PreparedOrder {
        console,
        order,
        done,
        reply,
    }
}

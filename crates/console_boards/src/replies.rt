//! What an entry does to the alarms, and whether it may come next.
ghost use Rattle.std.specs.Prelude.{◌≡◌, if◌then◌else◌};
ghost use Rattle.alarm_machine.specs.Orders.{is_restart};
ghost use Rattle.console_boards.specs.Replies.{fault_number, same_change, same_reply, is_outside, is_scan, may_answer, after_answer, panel_after_entry, panel_allows_entry};

use crate::entry::{AnsweredOrder, BoardEntry, OrderOutcome};
use alarm_bank::{Annunciator, BankEvent};
use alarm_machine::{Change, OrderFault, Verb};

fn fault_number(fault: OrderFault) -> u8
    ensures { result ≡ fault_number fault }
{
    match fault {
        OrderFault::UnknownTarget => 1,
        OrderFault::NotYourArea => 2,
        OrderFault::WrongState => 3,
        OrderFault::ShelveTime => 4,
        OrderFault::NotFaulted => 5,
        OrderFault::OldPlant => 6,
    }
}

/// Whether two changes of a code are the same.
fn same_change(one: Option<Change>, other: Option<Change>) -> bool
    ensures { result ≡ same_change one other }
{
    match (one, other) {
        (None, None) => true,
        (Some(one), Some(other)) => {
            one.from().rank() == other.from().rank() && one.to().rank() == other.to().rank()
        }
        _ => false,
    }
}

/// Whether two replies are the same.
fn same_reply(one: OrderOutcome, other: OrderOutcome) -> bool
    ensures { result ≡ same_reply one other }
{
    match (one, other) {
        (Ok(one), Ok(other)) => same_change(one, other),
        (Err(one), Err(other)) => fault_number(one) == fault_number(other),
        _ => false,
    }
}

/// Whether an order is for a program.
fn is_restart(verb: Verb) -> bool
    ensures { result ≡ is_restart verb }
{
    matches!(verb, Verb::Restart)
}

/// Whether a reply refuses the order before any alarm is asked.
fn is_outside(reply: OrderOutcome) -> bool
    ensures { result ≡ is_outside reply }
{
    match reply {
        Err(OrderFault::UnknownTarget | OrderFault::NotYourArea | OrderFault::OldPlant) => true,
        _ => false,
    }
}

fn is_scan(event: &BankEvent) -> bool
    ensures { result ≡ is_scan event.now }
{
    match event {
        BankEvent::Scan { .. } => true,
        BankEvent::Order { .. } | BankEvent::Reload(_) => false,
    }
}

/// Whether an order may have this reply now.
fn may_answer(panel: &Annunciator, answer: AnsweredOrder) -> bool
    ensures { result ≡ may_answer panel.now.bank answer }
{
    if is_restart(answer.order.verb) || is_outside(answer.reply) {
        return true;
    }
    match answer.order.target {
        None => false,
        Some(alarm) => same_reply(answer.reply, panel.reply(alarm, answer.order.verb)),
    }
}

/// Takes an order with its reply.
fn answer(panel: &mut Annunciator, answer: AnsweredOrder)
    ensures { panel.new ≡ record panel.old { bank = after_answer panel.old.bank answer } }
{
    if is_outside(answer.reply) {
        return;
    }
    if let Some(alarm) = answer.order.target {
        panel.advance(&BankEvent::Order {
            alarm,
            verb: answer.order.verb,
        });
    }
}

/// Takes in an entry, if it may come next, and tells whether it may; one that may not changes nothing.
pub(crate) fn take(panel: &mut Annunciator, entry: &BoardEntry) -> bool
    ensures allowed { result ≡ panel_allows_entry panel.old entry.now }
    ensures taken { panel.new
        ≡ (if panel_allows_entry panel.old entry.now then panel_after_entry panel.old entry.now else
        panel.old) }
{
    match entry {
        BoardEntry::Scan(event) => {
            let may = is_scan(event);
            if may {
                panel.advance(event);
            }
            may
        }
        BoardEntry::Order(_, answered) => {
            let may = may_answer(panel, *answered);
            if may {
                answer(panel, *answered);
            }
            may
        }
        BoardEntry::Reload(news) => {
            let news = news.as_slice();
            let may = panel.fits(news);
            if may {
                panel.reload(news);
            }
            may
        }
    }
}

//! How a station ends.

ghost use Rattle.std.specs.Prelude.{List, All};
ghost use Rattle.console_link.specs.declared.lane.Lane.{Lane};
ghost use Rattle.alarm_orders.specs.declared.order.Order.{Order};
ghost use Rattle.engine.specs.Reply.{Reply};
ghost use Rattle.station.specs.Lanes.{IsEndIn};
ghost use Rattle.try_stations.specs.Seated.{EndAll};

use crate::orders::{push_order, push_reply};
use crate::workers::Workers;
use station::{Closing, Console, Finished};
use std::alloc::Global;
use try_text::Page;

/// Keeps an ended console; where memory is refused twice it is let go.
fn keep(finished: &mut Vec<Finished>, end: Finished)
    ensures { (lanes : List (Lane Order Reply)) → All (IsEndIn lanes) finished.old.items
        → IsEndIn lanes end → All (IsEndIn lanes) finished.new.items }
{
    if let Err(refused) = finished.push(end) {
        drop(finished.push(refused.value));
    }
}

/// Ends consoles.
pub fn end_all(alloc: Global, mut consoles: Vec<Console>) -> Vec<Finished>
    ensures { EndAll consoles.items result.items }
{
    let mut finished = Vec::new(alloc);
    while let Some(console) = consoles.pop() {
        if let Some(end) = console.finish() {
            keep(&mut finished, end);
        }
    }
    finished
}

/// Adds whether a console saw no more events than the history has.
fn push_within(closing: &Closing<Workers>, page: &mut Page, console: u32) {
    page.add("WITHIN");
    page.number(i128::from(console));
    page.truth(closing.within(console));
    page.add("\n");
}

/// Adds the orders that were left of a console, which are 64 at most.
fn push_left(closing: &mut Closing<Workers>, page: &mut Page, console: u32) {
    for _ in 0..=64u32 {
        let Some(order) = closing.next_left(console) else {
            page.add("NO MORE LEFT");
            page.number(i128::from(console));
            return page.add("\n");
        };
        page.add("LEFT");
        page.number(i128::from(console));
        push_order(page, closing.engine(), order);
        page.add("\n");
    }
}

/// Adds the answers that were left of a console, which are 64 at most.
fn push_left_answers(closing: &mut Closing<Workers>, page: &mut Page, console: u32) {
    for _ in 0..64u32 {
        let Some(answer) = closing.next_left_answer(console) else {
            return;
        };
        page.add("LEFT ANSWER");
        page.number(i128::from(console));
        push_order(page, closing.engine(), answer.order);
        push_reply(page, answer.reply);
        page.add("\n");
    }
}

/// Adds whether a console saw no more than the history has, and its orders and answers that were left.
fn push_ended(closing: &mut Closing<Workers>, page: &mut Page, console: u32) {
    push_within(&*closing, page, console);
    push_left(closing, page, console);
    push_left_answers(closing, page, console);
}

/// The number of the console that the plant lists there, if there is one.
fn listed(closing: &Closing<Workers>, at: usize) -> Option<u32> {
    let console = closing.engine().plant().consoles().get(at)?;
    Some(console.number)
}

/// Adds what is left once a station was closed: of each console in the plant's order, and of one that the plant doesn't list, whose number is one above
/// the greatest.
pub fn push_end(closing: &mut Closing<Workers>, page: &mut Page) {
    let mut other = 1u32;
    for at in 0..closing.engine().plant().consoles().len() {
        if let Some(console) = listed(&*closing, at) {
            push_ended(closing, page, console);
            other = other.max(console.saturating_add(1));
        }
    }
    push_ended(closing, page, other);
}

//! The answers that an operator took, held against a journal.

ghost use Rattle.std.specs.Prelude.{◌≡◌, ◌↔◌, IsTrue, Some, map, option_map, slice_get};
ghost use Rattle.try_desks.specs.Shifts.{time_of, target_of, refusal_of, telling_of, telling_in, tellings, told};

use crate::counts::rank;
use alarm_machine::{OrderFault, Verb};
use alarm_orders::Order;
use journal_core::{Entry, Log};

/// What an operator keeps of an answer.
#[derive(Clone, Copy, Drop)]
pub struct Note {
    /// The order.
    pub order: Order,
    /// Why it was refused; `None` if it was done.
    pub refused: Option<OrderFault>,
    /// How many events the board showed at the first look after it; 0 before that look.
    pub seen: u64,
}

/// What is compared of an order, by numbers alone.
#[derive(Clone, Copy, Drop)]
pub struct Telling {
    /// The place of its verb among verbs.
    pub verb: u8,
    /// The time of a shelving; else 0.
    pub time: u64,
    /// One more than the number of its target; 0 where there is none.
    pub target: u64,
    /// The number of its refusal, as 3 for O3; 0 if it was done.
    pub refusal: u8,
}

/// The time of a shelving; else 0.
fn time_of(verb: Verb) -> u64
    ensures { result ≡ time_of verb }
{
    match verb {
        Verb::Shelve(time) => time,
        Verb::Ack | Verb::Reset | Verb::Unshelve | Verb::Remove | Verb::PutBack | Verb::Restart =>
            0,
    }
}

/// One more than the number of a target; 0 where there is none.
fn target_of(target: Option<u32>) -> u64
    ensures { result ≡ target_of target }
{
    match target {
        Some(number) => u64::from(number) + 1,
        None => 0,
    }
}

/// The number of a refusal; 0 where there is none.
fn refusal_of(refused: Option<OrderFault>) -> u8
    ensures { result ≡ refusal_of refused }
{
    match refused {
        None => 0,
        Some(OrderFault::UnknownTarget) => 1,
        Some(OrderFault::NotYourArea) => 2,
        Some(OrderFault::WrongState) => 3,
        Some(OrderFault::ShelveTime) => 4,
        Some(OrderFault::NotFaulted) => 5,
        Some(OrderFault::OldPlant) => 6,
    }
}

/// What is told of an order with this verb and target, and this refusal.
fn telling_of(verb: Verb, target: Option<u32>, refused: Option<OrderFault>) -> Telling
    ensures { result ≡ telling_of verb target refused }
{
    Telling {
        verb: rank(verb),
        time: time_of(verb),
        target: target_of(target),
        refusal: refusal_of(refused),
    }
}

/// What an entry tells of an order, if it is one of the console of a number.
fn telling_in(console: u32, entry: &Entry) -> Option<Telling>
    ensures { result ≡ telling_in console entry.now }
{
    match entry {
        Entry::Fault(_, _) | Entry::Alarm(_, _) | Entry::Reload { .. } => None,
        Entry::Order {
            console: number,
            verb,
            target,
            refused,
        } => {
            if *number == console {
                Some(telling_of(*verb, *target, *refused))
            } else {
                None
            }
        }
    }
}

/// What a note tells of its order.
fn told(note: &Note) -> Telling
    ensures { result ≡ told note.now }
{
    telling_of(note.order.verb, note.order.target, note.refused)
}

/// Whether two orders are told alike.
#[tactic(auto, using(crate::proofs::Tellings::same_telling))]
fn is_alike(a: Telling, b: Telling) -> bool
    ensures { IsTrue result ↔ (a ≡ b) }
{
    a.verb == b.verb && a.time == b.time && a.target == b.target && a.refusal == b.refusal
}

/// Whether there is a note at a place, and tells this.
fn tells(notes: &[Note], at: usize, telling: Telling) -> bool
    ensures { IsTrue result ↔ (option_map told (slice_get notes.now at) ≡ Some telling) }
{
    match notes.get(at) {
        Some(note) => is_alike(told(note), telling),
        None => false,
    }
}

/// Whether the notes are of just the orders that a journal has of the console of a number, in the same order, and with the same refusals.
pub fn are_told(log: &Log, console: u32, notes: &[Note]) -> bool
    ensures { IsTrue result ↔ (tellings console log.now.rows ≡ map told notes.now) }
{
    let rows = log.len() as u64;
    let mut before = 0usize;
    for number in 0..rows {
        let Some(telling) = telling_in(console, &log.row(number + 1).entry) else {
            continue;
        };
        if !tells(notes, before, telling) {
            return false;
        }
        before += 1;
    }
    before == notes.len()
}

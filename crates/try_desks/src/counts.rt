//! How many orders a journal has.

ghost use Rattle.std.specs.Prelude.{◌≡◌, count_by};
ghost use Rattle.try_desks.specs.Shifts.{rank_of, is_among, is_counted};

use alarm_machine::{OrderFault, Verb};
use journal_core::{Entry, Log};

/// Which orders are counted.
#[derive(Clone, Copy, Drop)]
pub enum Orders {
    /// All.
    All,
    /// Those with a verb; a shelving of any time.
    With(Verb),
    /// Those of the console of a number.
    By(u32),
    /// Those of them that were refused.
    RefusedBy(u32),
}

/// The place of a verb among verbs, whatever the time of a shelving.
pub(crate) fn rank(verb: Verb) -> u8
    ensures { result ≡ rank_of verb }
{
    match verb {
        Verb::Ack => 0,
        Verb::Reset => 1,
        Verb::Shelve(_) => 2,
        Verb::Unshelve => 3,
        Verb::Remove => 4,
        Verb::PutBack => 5,
        Verb::Restart => 6,
    }
}

fn is_among(orders: Orders, console: u32, verb: Verb, refused: Option<OrderFault>) -> bool
    ensures { result ≡ is_among orders console verb refused }
{
    match orders {
        Orders::All => true,
        Orders::With(counted) => rank(verb) == rank(counted),
        Orders::By(number) => console == number,
        Orders::RefusedBy(number) => console == number && refused.is_some(),
    }
}

fn is_counted(orders: Orders, entry: &Entry) -> bool
    ensures { result ≡ is_counted orders entry.now }
{
    match entry {
        Entry::Fault(_, _) | Entry::Alarm(_, _) | Entry::Reload { .. } => false,
        Entry::Order {
            console,
            verb,
            target: _,
            refused,
        } => is_among(orders, *console, *verb, *refused),
    }
}

/// How many rows of a journal are such orders.
pub fn count(log: &Log, orders: Orders) -> u64
    ensures { result ≡ count_by (λ row. is_counted orders row.entry) log.now.rows }
{
    let rows = log.len() as u64;
    let mut counted = 0u64;
    for before in 0..rows {
        if is_counted(orders, &log.row(before + 1).entry) {
            counted += 1;
        }
    }
    counted
}

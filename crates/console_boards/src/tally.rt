//! How many orders of each console a board has, and how many reloads.
ghost use Rattle.std.specs.Prelude.{◌≡◌, ◌==◌, ◌^◌, ◌+◌, ◌<◌, All, map};
ghost use Rattle.std.specs.List.{find};
ghost use Rattle.console_boards.specs.Counts.{counted, tallied, consoles_in, reloads_as};

use crate::entry::BoardEntry;
use base_trace::Trace;

/// A console, by its number, and how many of its orders there are.
#[derive(Clone, Copy, Drop)]
pub struct Tally {
    pub console: u32,
    pub orders: u64,
}

/// The tally with one more order of the console of a number.
fn one_more(tally: Tally, console: u32) -> Tally
    requires { tally.orders + 1 < 2 ^ 64 }
    ensures { result ≡ counted console tally }
{
    if tally.console == console {
        Tally {
            console,
            orders: tally.orders + 1,
        }
    } else {
        tally
    }
}

/// Counts one more order of the console of a number.
fn count(tallies: &mut [Tally], console: u32)
    requires { All (λ t. t.orders + 1 < 2 ^ 64) tallies.old }
    ensures { tallies.new ≡ map (counted console) tallies.old }
{
    for tally in tallies.iter_mut() {
        *tally = one_more(*tally, console);
    }
}

#[tactic(auto, using(crate::proofs::Takes::none_more, crate::proofs::Takes::none_by_reload))]
pub(crate) fn count_entry(tallies: &mut Vec<Tally>, entry: &BoardEntry)
    requires { All (λ t. t.orders + 1 < 2 ^ 64) tallies.old.items }
    ensures { tallies.new.items ≡ map (tallied entry.now) tallies.old.items }
{
    match entry {
        BoardEntry::Scan(_) | BoardEntry::Reload(_) => {}
        BoardEntry::Order(console, _) => count(tallies.as_mut_slice(), *console),
    }
}

pub(crate) fn reloads_as(entry: &BoardEntry) -> u64
    ensures { result ≡ reloads_as entry.now }
{
    match entry {
        BoardEntry::Reload(_) => 1,
        BoardEntry::Scan(_) | BoardEntry::Order(_, _) => 0,
    }
}

/// The first tally of the console of a number; `None` where there is none.
pub(crate) fn tally_of(tallies: &[Tally], console: u32) -> Option<Tally>
    ensures { result ≡ find (λ t. t.console == console) tallies.now }
{
    tallies
        .iter()
        .copied()
        .find(|tally| tally.console == console)
}

/// The numbers of the consoles that have a tally, for contracts alone.
pub(crate) fn consoles_in(tallies: &[Tally]) -> Trace<u32>
    ensures { result ≡ consoles_in tallies.now }
{
    let mut consoles = Trace::new();
    for tally in tallies {
        consoles = consoles.then(&tally.console);
    }
    consoles
}

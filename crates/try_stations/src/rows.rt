//! The rows of a station.

ghost use Rattle.station.specs.Lanes.{AreConsolesIn};

use crate::looking::push_asked;
use crate::pages::{push_compared, push_page};
use crate::reloads::push_reload;
use crate::turns::push_turn_of;
use crate::workers::Workers;
use station::{Console, Station};
use std::alloc::Global;
use std::sync::Wait;
use std::sync::ledger::Ledger;
use std::thread::Threads;
use try_text::Page;

/// The two parts of words around their first blank.
pub fn cut(words: &str) -> (&str, &str) {
    match words.split_once(" ") {
        Some(parts) => parts,
        None => (words, ""),
    }
}

/// A number; 0 for what is none.
pub fn number(word: &str) -> u32 {
    word.parse::<u32>().unwrap_or(0)
}

/// Does a line, and adds what it gives.
#[tactic(auto, using(crate::proofs::Seats::stay, crate::proofs::Seats::keep))]
fn push_row<L: Ledger, R: Threads + Wait + Sync>(
    rt: &R,
    alloc: Global,
    station: &mut Station<L, Workers>,
    consoles: &mut [Console],
    page: &mut Page,
    files: &str,
    line: &str,
)
    requires { AreConsolesIn station.old.lanes consoles.old }
    ensures { AreConsolesIn station.new.lanes consoles.new }
{
    let (word, words) = cut(line);
    match word {
        "once" if cut(words).0 == "reload" => push_reload(rt, alloc, station, page, files, line),
        "reload" => push_reload(rt, alloc, station, page, files, line),
        "scan" | "once" => push_turn_of(rt, alloc, station, consoles, page, line),
        "workers" => {}
        "page" => push_page(rt, alloc, &**station.archive(), page, words),
        "journal" => push_compared(rt, alloc, &**station.archive(), station.engine(), page),
        _ => push_asked(alloc, station.engine(), consoles, page, line),
    }
}

/// Does the rows of a station, whose plant is that of these files, and adds each of them and what it gives.
pub fn push_rows<L: Ledger, R: Threads + Wait + Sync>(
    rt: &R,
    alloc: Global,
    station: &mut Station<L, Workers>,
    consoles: &mut [Console],
    page: &mut Page,
    files: &str,
    rows: &str,
)
    requires { AreConsolesIn station.old.lanes consoles.old }
    ensures { AreConsolesIn station.new.lanes consoles.new }
{
    for line in rows.lines() {
        if line.is_empty() {
            continue;
        }
        page.add("> ");
        page.line(line);
        push_row(rt, alloc, station, consoles, page, files, line);
    }
}

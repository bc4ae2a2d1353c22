//! The reloads of the table.

ghost use Rattle.std.specs.Prelude.{◌≡◌};

use crate::plants::read_plant;
use crate::rows::cut;
use crate::workers::Workers;
use engine::{EngineFault, ReloadRefused, Reloaded};
use station::Station;
use std::alloc::{AllocError, Global};
use std::sync::Wait;
use std::sync::ledger::Ledger;
use std::thread::Threads;
use try_text::Page;

/// Files of a plant with a text in the place of another one, where that stands in them first: by the words `OLD => NEW`.
fn changed(alloc: Global, files: &str, words: &str) -> Result<String, AllocError> {
    let (old, new) = words.split_once(" => ").unwrap_or((words, ""));
    match files.split_once(old) {
        Some((before, after)) => format!(in alloc; "{before}{new}{after}"),
        None => String::from_str(alloc, files),
    }
}

/// Adds that memory was refused for a reload: the page is short of it, but where that is to be told.
fn push_short(page: &mut Page, once: bool) {
    if once {
        page.line("MEMORY");
    } else {
        page.refuse();
    }
}

/// Adds what came of a reload. Where memory was refused for it the page is short of it, but where that is to be told.
fn push_reloaded(page: &mut Page, reloaded: &Result<Reloaded, ReloadRefused>, once: bool) {
    match reloaded {
        Ok(reloaded) => {
            page.add("RELOADED KEPT");
            page.number(i128::from(reloaded.kept));
            page.word("NEW");
            page.number(i128::from(reloaded.fresh));
            page.add("\n");
        }
        Err(refused) => match refused.fault {
            EngineFault::Memory => push_short(page, once),
            fault => {
                page.add("REFUSED ");
                page.line(fault.text());
            }
        },
    }
}

/// Reloads the plant of a station's files, with a text in the place of another one, by a line `reload ..` or `once reload ..`, and adds what came of it.
pub fn push_reload<L: Ledger, R: Threads + Wait + Sync>(
    rt: &R,
    alloc: Global,
    station: &mut Station<L, Workers>,
    page: &mut Page,
    files: &str,
    line: &str,
)
    ensures { station.new.lanes ≡ station.old.lanes }
{
    let once = line.starts_with("once ");
    let (_, words) = cut(line.strip_prefix("once ").unwrap_or(line));
    let Ok(files) = changed(alloc, files, words) else {
        return push_short(page, once);
    };
    match read_plant(rt, alloc, files.as_str()) {
        Ok(Some(plant)) => {
            let reloaded = station.reload(rt, alloc, plant);
            push_reloaded(page, &reloaded, once);
        }
        Ok(None) => page.line("NO PLANT"),
        Err(_) => push_short(page, once),
    }
}

//! Station rows: stations with consoles in one thread, and what they do.
//!
//! try_plants reads the table, which stands in its file `stdin` behind a line `== stations`, and writes what the stations do. Rows are bytes, so more of them
//! cost no proof. Nothing here is part of the server.
//!
//! A line `station NAME` begins a station. Its plant is the one that is built in (in `src/plants.rt`), which has two consoles; or, where the lines after
//! the name are `file plant.toml` and its text, then `file alarms.csv`, then `file` and the name of each source as the plant file lists them, and
//! `begin`, the plant of these files. The lines after that are done in turn, and of each the line and what it gives are printed; empty lines are passed
//! over. The station ends before the next one begins: its consoles end, it is closed, and of each console is printed whether it saw no more than the
//! history has, the orders that were left, and the answers that it didn't take; and likewise of a console that isn't there. What stands before the first
//! station is passed over. A line is one of these:
//!
//! - `scan 0 a=5` takes a turn with this scan: the alarms and outputs that changed, and the orders that were taken;
//! - `once scan 0 a=5` likewise, and says `MEMORY` where memory is refused for the scan;
//! - `ack 1 T1`, or any other order as the server reads it, is submitted by its console, for the plant as it is then; `repeat 64 ack 1 T1` submits it so many times;
//! - `answer 1` takes the next answer at a console, `answers 1 64` so many;
//! - `board 1 T1` looks at the board of a console: how many events it shows, and the state of an alarm;
//! - `reload > 10 => > 30` reloads the station's plant with the second text in the place of the first, where that stands first in the files by which the
//!   station began, and `reload` alone that plant itself: how many alarms were kept and how many are new, or why it is refused; `NO PLANT` where these files make none;
//! - `once reload > 10 => > 30` likewise, and says `MEMORY` where memory is refused for it; the station goes on with the plant that it has;
//! - `reloads 1` looks at the board of a console, and says how many reloads it shows;
//! - `room 1` says how many places for orders a console knows to be free;
//! - `page 1 3` prints the archive's lines from one number on, so many;
//! - `journal` says whether the archive's lines are those of the engine's journal, and how many they are;
//! - `workers 2`, as a station's first line only, has its programs run by workers who are gone after so many rounds.
//!
//! Where memory is refused for a turn's scan, or for a page, it is asked for once more. Where it is refused for an order, so that the turn is stopped, or
//! anywhere else in a station's life, the whole station is lived once more, from the reading of its plant; a turn or a reload of `once` says so instead, and
//! the station goes on. Where a turn is refused or stopped it is held against what came before: how many events the engine, the archive and the boards have,
//! and how many orders wait. `PROMISE BROKEN` is printed where these aren't as they have to be; the file `stdout` has no such line. So what is printed is the
//! same whichever allocation fails after the reading of the table, unless the output's own growth does: then nothing is printed.
//!
//! Layer try_: nothing of the product stands on it.
#![tactic(auto)]

mod asking;
mod counts;
mod ending;
mod living;
mod looking;
mod orders;
mod pages;
mod plants;
mod reloads;
mod rows;
mod turns;
mod workers;

use living::run;
use plants::{parted, read_plant};
use std::alloc::Global;
use std::marker::Brand;
use std::sync::Wait;
use std::sync::ledger::Blank;
use std::thread::Threads;
use try_text::Page;

/// How often a station is lived at most, where memory is refused.
const MOST_LIVES: u32 = 100;

/// Adds what a station does by its part of the table.
fn push_station<R: Threads + Wait + Sync>(rt: &R, alloc: Global, page: &mut Page, part: &str) {
    let (name, lines) = part.split_once("\n").unwrap_or((part, ""));
    page.add("station ");
    page.line(name);
    let (files, rows) = parted(lines);
    let (Ok(given), Ok(rows)) = (
        String::from_str(alloc, files),
        String::from_str(alloc, rows),
    ) else {
        return page.refuse();
    };
    match read_plant(rt, alloc, files) {
        Ok(Some(plant)) => run::<Brand, R>(rt, alloc, plant, page, &given, &rows, Blank::new(1)),
        Ok(None) => page.line("NO PLANT"),
        Err(_) => page.refuse(),
    }
}

/// Adds what a station does by its part of the table. Where memory is refused it is lived once more.
fn push_station_again<R: Threads + Wait + Sync>(
    rt: &R,
    alloc: Global,
    text: &mut Page,
    part: &str,
) {
    for _ in 0..MOST_LIVES {
        let mut page = Page::new(alloc);
        push_station(rt, alloc, &mut page, part);
        if !page.is_short() {
            text.add_bytes(page.as_slice());
            return text.add("\n");
        }
    }
    text.refuse();
}

/// Adds what the stations of a table do.
pub fn push_stations<R: Threads + Wait + Sync>(
    rt: &R,
    alloc: Global,
    text: &mut Page,
    table: &str,
) {
    for part in table.split("\nstation ").skip(1) {
        push_station_again(rt, alloc, text, part);
    }
}

//! Worked rows: tables, and what the server and its parts answer to them.
//!
//! The tables are read from standard input (the file `stdin`), and the answers are written to standard output (the file `stdout`). Rows are bytes, so more of
//! them cost no proof. Nothing here is part of the server.
//!
//! First stand rows on plants and their commands (try_commands), with a copy of the folder `examples` in `data`, without its pages and answers.
//!
//! Behind a line `== parts` the file has rows on what the parts below the server answer (try_parts), and behind a line `== language` those on texts and their
//! trees, on the sources of plants, and on what a person is told of plants (try_language). Behind `== room` stands the script of a control room (try_room), whose
//! consoles are in threads of their own; behind `== stations` are rows on stations with consoles in one thread (try_stations), and behind `== crews` those on who
//! runs the programs of a scan (try_room). Each table is answered behind such a line.
//!
//! Layer try_: nothing of the product stands on it.
#![tactic(auto)]

ghost use Rattle.std.specs.Thread.{IsSync};

use std::alloc::{AllocError, Global};
use std::io;
use std::io::Write;
use std::rt::Runtime;
use std::sync::Wait;
use std::thread::Threads;
use try_commands::push_plants;
use try_room::push_rows;
use try_stations::push_stations;
use try_text::Page;

/// Adds the answers to the rows of another crate, behind a line that says so.
fn push_made(page: &mut Page, title: &str, made: Result<Vec<u8>, AllocError>) {
    page.line(title);
    match made {
        Ok(text) => page.add_bytes(text.as_slice()),
        Err(_) => page.refuse(),
    }
}

/// The tables of an input: the rows on plants, and behind them, where there are any, the others, each behind a line with its name.
#[derive(Clone, Copy, Drop)]
struct Tables<'a> {
    plants: &'a str,
    parts: &'a str,
    language: &'a str,
    room: &'a str,
    stations: &'a str,
    crews: &'a str,
}

/// What stands before a line and behind it; all of it, and nothing, where there is no such line.
fn parted<'a>(table: &'a str, line: &str) -> (&'a str, &'a str) {
    table.split_once(line).unwrap_or((table, ""))
}

/// The tables of an input.
fn tables_of(input: &str) -> Tables<'_> {
    let (rest, crews) = parted(input, "\n== crews\n");
    let (rest, stations) = parted(rest, "\n== stations\n");
    let (rest, room) = parted(rest, "\n== room\n");
    let (rest, language) = parted(rest, "\n== language\n");
    let (plants, parts) = parted(rest, "\n== parts\n");
    Tables {
        plants,
        parts,
        language,
        room,
        stations,
        crews,
    }
}

/// Adds the answers to the rows on parts and on the language, as far as there are any.
fn push_others<R: Threads + Sync>(rt: &R, alloc: Global, page: &mut Page, tables: Tables<'_>) {
    if !tables.parts.is_empty() {
        let made = try_parts::answers_to(rt, alloc, tables.parts);
        push_made(page, "== parts", made);
    }
    if !tables.language.is_empty() {
        let made = try_language::answers_to(rt, alloc, tables.language);
        push_made(page, "== language", made);
    }
}

/// Adds what there is to tell of a control room, of stations and of crews, as far as there are any.
fn push_stations_and_crews<R: Runtime + Threads + Wait + AllocGlobal + Send + Sync + 'static>(
    rt: &R,
    alloc: Global,
    page: &mut Page,
    tables: Tables<'_>,
)
    requires { IsSync R.row }
{
    if !tables.room.is_empty() {
        push_made(
            page,
            "== room",
            try_room::answers_to(rt, alloc, tables.room),
        );
    }
    if !tables.stations.is_empty() {
        page.line("== stations");
        push_stations(rt, alloc, page, tables.stations);
    }
    if !tables.crews.is_empty() {
        page.line("== crews");
        push_rows(rt, alloc, page, tables.crews);
    }
}

fn main(rt: HostRuntime) -> io::Result<()> {
    let input = io::read_to_string(rt.alloc(), rt.reader())?;
    let tables = tables_of(input.as_str());
    let mut page = Page::new(rt.alloc());
    if !tables.plants.is_empty() {
        push_plants(&rt, rt.alloc(), &mut page, tables.plants);
    }
    push_others(&rt, rt.alloc(), &mut page, tables);
    push_stations_and_crews(&rt, rt.alloc(), &mut page, tables);
    let text = page.end()?;
    io::writer(&rt).write_all(text.as_slice())?;
    Ok(())
}

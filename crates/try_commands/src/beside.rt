//! The programs of a plant beside the server: they run in both ways, by their codes and as the source is read.

use alarm_machine::Verb;
use engine::Engine;
use plant_config::Plant;
use serve_lines::{Command, Pool, TextSizes, read_command, reload_sizes};
use std::alloc::{AllocError, Global};
use try_text::Page;
use try_twins::{Scanned, TwinScans, Walker, walker_of_sources};

/// The runs beside a server, and room for the pairs of a scan.
#[derive(Drop)]
pub struct Beside {
    scans: TwinScans,
    pool: Pool,
    /// How many reloads were taken.
    reloads: u32,
}

/// A line without its end: a line feed, and at most one carriage return before it.
fn without_end(line: &[u8]) -> &[u8] {
    match line.strip_suffix(b"\n".as_slice()) {
        Some(line) => line.strip_suffix(b"\r".as_slice()).unwrap_or(line),
        None => line,
    }
}

/// The program that an order restarts, if it is there and runs no more.
fn restarted(plant: &Plant, verb: Verb, console: u32, word: &[u8]) -> Option<u32> {
    let Verb::Restart = verb else {
        return None;
    };
    if !plant
        .consoles()
        .iter()
        .any(|listed| listed.number == console)
    {
        return None;
    }
    match str::from_utf8(word) {
        Ok(name) => plant.program_number(name),
        Err(_) => None,
    }
}

/// Adds a line where both ways of a scan differ.
fn push_scanned(page: &mut Page, moment: u64, scanned: Result<Scanned, AllocError>) {
    match scanned {
        Ok(Scanned::Apart) => {
            page.add("WALK AND CODE DIFFER");
            page.number(i128::from(moment));
            page.add("\n");
        }
        Ok(Scanned::Alike | Scanned::Refused) => {}
        Err(_) => page.refuse(),
    }
}

/// The sources in the bytes behind a `reload` line of these sizes.
fn sources_in<'a>(
    alloc: Global,
    sizes: &TextSizes,
    body: &'a [u8],
) -> Result<Vec<(&'static str, &'a [u8])>, AllocError> {
    let mut sources = Vec::new(alloc);
    let mut at = (sizes.plant() as usize).saturating_add(sizes.alarms() as usize);
    for size in sizes.sources() {
        let end = at.saturating_add(*size as usize);
        sources.push(("p.st", body.get(at..end).unwrap_or(b"")))?;
        at = end;
    }
    Ok(sources)
}

/// A walker of the sources behind a `reload` line of these sizes; none where memory was refused.
fn walker_in(alloc: Global, sizes: &TextSizes, body: &[u8]) -> Option<Walker> {
    let sources = sources_in(alloc, sizes, body).ok()?;
    walker_of_sources(alloc, sources.as_slice()).ok()
}

impl Beside {
    /// The programs of a plant before the first scan. The walker is to be of the plant's sources.
    pub fn new(alloc: Global, plant: &Plant, walker: Walker) -> Result<Beside, AllocError> {
        let scans = TwinScans::new(alloc, plant.logic().copy(alloc)?, walker)?;
        let pool = Pool::new(alloc);
        Ok(Beside {
            scans,
            pool,
            reloads: 0,
        })
    }

    /// Takes a line of the server's input. Where both ways of a scan differ, a line that says so is added.
    fn take_line(&mut self, alloc: Global, page: &mut Page, plant: &Plant, line: &[u8]) {
        match read_command(alloc, &mut self.pool, without_end(line)) {
            Ok(Command::Scan(moment, pairs)) => {
                push_scanned(page, moment, self.scans.scan(alloc, pairs, moment));
            }
            Ok(Command::Order(verb, console, word)) => {
                self.scans.order(restarted(plant, verb, console, word));
            }
            Ok(_) => {}
            Err(_) => page.refuse(),
        }
    }

    /// Goes on with the plant of an engine that has taken a `reload` line of these sizes, with the bytes behind it.
    fn reload(
        &mut self,
        alloc: Global,
        page: &mut Page,
        engine: &Engine,
        sizes: &TextSizes,
        body: &[u8],
    ) {
        self.reloads = engine.reloads();
        let Some(walker) = walker_in(alloc, sizes, body) else {
            return page.refuse();
        };
        let Ok(logic) = engine.plant().logic().copy(alloc) else {
            return page.refuse();
        };
        if self.scans.reload(alloc, logic, walker).is_err() {
            page.refuse();
        }
    }

    /// Takes the lines of what an engine was served. The bytes behind a `reload` line end with a line.
    fn take_lines(&mut self, alloc: Global, page: &mut Page, engine: &Engine, input: &[u8]) {
        let mut at = 0usize;
        let mut behind = 0usize;
        for line in input.split_inclusive(|byte| *byte == b'\n') {
            at = at.saturating_add(line.len());
            if at <= behind {
                continue;
            }
            match reload_sizes(without_end(line)) {
                Some(sizes) => {
                    behind = at.saturating_add(sizes.total());
                    if self.reloads != engine.reloads() {
                        self.reload(alloc, page, engine, &sizes, input.get(at..).unwrap_or(b""));
                    }
                }
                None => self.take_line(alloc, page, engine.plant(), line),
            }
        }
    }

    /// Takes what an engine was served, where a reload that it took is the first `reload` of the input. Where both ways of a scan differ, or the engine shows
    /// something else, a line that says so is added.
    pub fn take(&mut self, alloc: Global, page: &mut Page, engine: &Engine, input: &[u8]) {
        self.take_lines(alloc, page, engine, input);
        let (events, moment) = (engine.events(), engine.moment());
        if !self.scans.shows(events, moment, engine.outputs()) {
            page.line("WALK AND SERVER DIFFER");
        }
    }
}

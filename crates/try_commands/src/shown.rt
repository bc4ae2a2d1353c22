//! What a plant and its copy show by each of their calls (`plant_config`), and the texts of refusals.

use engine::{CrewFault, EngineFault};
use plant_config::{AlarmRow, ConfigFault, Limit, Plant};
use plant_types::{Kind, Region};
use serve_runs::ServeFault;
use std::alloc::{AllocError, Global};
use try_text::Page;
use vm_logic::{Framed, Stack, Walked, run, standing_cells_are_there};

fn kind_text(kind: Kind) -> &'static str {
    match kind {
        Kind::Bool => " BOOL,",
        Kind::Dint => " DINT,",
        Kind::Time => " TIME,",
    }
}

fn region_text(region: Option<Region>) -> &'static str {
    match region {
        None => "",
        Some(Region::Input) => " %I",
        Some(Region::Output) => " %Q",
        Some(Region::Plain) => " %M",
    }
}

/// Adds the globals, and each program's name after its own variables.
fn push_variables(page: &mut Page, logic: &Framed) {
    for global in logic.globals() {
        page.word(global.name.as_str());
        page.add(region_text(global.region));
        page.add(kind_text(global.kind));
    }
    for program in logic.programs() {
        for local in &program.locals {
            page.word(local.name.as_str());
            page.add(kind_text(local.kind));
        }
        page.word(program.name.as_str());
    }
    page.add("\n");
}

/// Adds the names that a plant gives for numbers: the alarms' tags with their priorities, the areas, the alarms' texts and the programs.
fn push_names(page: &mut Page, plant: &Plant) {
    for alarm in 0..plant.alarms() {
        page.word(plant.tag(alarm));
        page.number(i128::from(plant.priority(alarm)));
    }
    for area in 0..plant.areas() {
        page.word(plant.area(area));
    }
    for row in plant.alarm_rows() {
        page.word(row.text.as_str());
    }
    for program in 0..plant.programs() {
        page.word(plant.program(program));
    }
    page.add("\n");
}

/// Adds a number that there may be, or `-`.
fn push_found(page: &mut Page, number: Option<u32>) {
    match number {
        Some(number) => page.number(i128::from(number)),
        None => page.word("-"),
    }
}

/// Adds the numbers that a plant gives for each of some words: of a global, an alarm and a program; and how many programs and alarms it has.
fn push_numbers(page: &mut Page, plant: &Plant, words: &str) {
    for word in words.split(" ") {
        page.word(word);
        push_found(page, plant.global_number(word));
        push_found(page, plant.alarm_number(word));
        push_found(page, plant.program_number(word));
        page.add(",");
    }
    page.number(i128::from(plant.programs()));
    page.number(i128::from(plant.alarms()));
    page.add("\n");
}

/// Adds an alarm's area, priority, condition, longest shelving, whether it latches, and what suppresses it.
fn push_alarm(page: &mut Page, row: &AlarmRow) {
    page.number(i128::from(row.area));
    page.number(i128::from(row.priority));
    page.number(i128::from(row.condition));
    page.number(i128::from(row.max_shelve_ms));
    page.truth(row.latching);
    push_found(page, row.suppress);
}

/// Adds the second of a plant's epoch, the number and first area of each console, and its alarms.
fn push_rows(page: &mut Page, plant: &Plant) {
    page.number(i128::from(plant.epoch().seconds()));
    for console in plant.consoles() {
        page.add(",");
        page.number(i128::from(console.number));
        match console.areas.as_slice().first() {
            Some(area) => page.number(*area as i128),
            None => page.word("-"),
        }
    }
    for row in plant.alarm_rows() {
        page.add(",");
        push_alarm(page, row);
    }
    page.add("\n");
}

/// The path at which the first program stops in its first scan; nothing where it doesn't stop.
fn stop_of(alloc: Global, plant: &Plant) -> Result<Option<String>, AllocError> {
    standing_cells_are_there();
    let mut cells = plant.logic().opening(alloc)?;
    if plant.logic().programs().is_empty() {
        return Ok(None);
    }
    let mut stack = Stack::new(alloc);
    match run(plant.logic(), 0, &mut stack, &mut cells, 0)? {
        Walked::Trapped(place, _) => Ok(Some(plant.body_path(alloc, place.path)?)),
        Walked::Done => Ok(None),
    }
}

/// Adds the path at which the first program stops in its first scan; `-` where it doesn't stop.
fn push_path(alloc: Global, page: &mut Page, plant: &Plant) {
    match stop_of(alloc, plant) {
        Ok(Some(path)) => page.word(path.as_str()),
        Ok(None) => page.word("-"),
        Err(_) => page.refuse(),
    }
    page.add("\n");
}

/// Adds what a plant shows.
fn push_plant(alloc: Global, page: &mut Page, plant: &Plant, words: &str) {
    push_variables(page, plant.logic());
    push_names(page, plant);
    push_numbers(page, plant, words);
    push_rows(page, plant);
    push_path(alloc, page, plant);
}

/// Adds what a plant shows, and then what its copy shows. The copy is let go here alone.
pub fn push_shown(alloc: Global, page: &mut Page, plant: &Plant, words: &str) {
    push_plant(alloc, page, plant, words);
    match plant.copy(alloc) {
        Ok(copy) => {
            push_plant(alloc, page, &copy, words);
            drop(copy);
        }
        Err(_) => page.refuse(),
    }
}

/// Adds the texts of the server's and the engine's refusals, and the lines of the limits that no small plant passes.
pub fn push_texts(alloc: Global, page: &mut Page) {
    for fault in [
        ServeFault::Memory,
        ServeFault::Read,
        ServeFault::Write,
        ServeFault::Crew,
    ] {
        page.line(fault.text());
    }
    for fault in [
        EngineFault::MomentBack,
        EngineFault::MomentRange,
        EngineFault::ImageName,
        EngineFault::ImageKind,
        EngineFault::Crew(CrewFault::Lost),
        EngineFault::HistoryFull,
    ] {
        page.line(fault.text());
    }
    for limit in [Limit::Text, Limit::Alarms] {
        page.add_made(ConfigFault::Limit(limit).line(alloc));
        page.add("\n");
    }
}

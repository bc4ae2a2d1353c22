//! The tables of a plant.

ghost use Rattle.std.specs.Prelude.{◌<◌, ◌≤◌, length, All};
ghost use Rattle.plant_config.specs.Names.{programs_of};
ghost use Rattle.level_scans.specs.Levels.{AreLevelsOf};

use crate::columns::{push_left, push_number, push_right};
use crate::widths::first_width;
use level_scans::Levelled;
use plant_config::Plant;
use std::alloc::{AllocError, Global};

/// How wide a column of costs or of alarms is.
const COSTS: usize = 7;

/// How wide the column of levels is.
const LEVELS: usize = 5;

/// How wide the column of the longest delays is.
const DELAYS: usize = 10;

fn level_of(plant: &Plant, levelled: &Levelled, program: u32) -> u32
    requires levels { AreLevelsOf plant.now.source levelled.now }
    requires there { program < length (programs_of plant.now) }
{
    levelled.levels().of(program)
}

/// Adds the programs in the order in which they run, each with its cost and its level.
fn push_programs(
    alloc: Global,
    text: &mut String,
    plant: &Plant,
    levelled: &Levelled,
    width: usize,
) -> Result<(), AllocError>
    requires { AreLevelsOf plant.now.source levelled.now }
{
    push_left(text, "program", width)?;
    push_right(text, "cost", COSTS)?;
    push_right(text, "level", LEVELS)?;
    text.push_str("\n")?;
    for program in 0..plant.programs() {
        let level = level_of(plant, levelled, program);
        push_left(text, plant.program(program), width)?;
        push_number(alloc, text, plant.cost(program), COSTS)?;
        push_number(alloc, text, u64::from(level), LEVELS)?;
        text.push_str("\n")?;
    }
    Ok(())
}

/// How many alarms an area has.
fn alarms_in(plant: &Plant, area: u32) -> u64 {
    plant
        .alarm_rows()
        .iter()
        .filter(|row| row.area == area)
        .count() as u64
}

/// Whether an alarm of the plant has an on-delay.
fn has_delays(plant: &Plant) -> bool {
    plant.alarm_rows().iter().any(|row| row.on_delay_ms > 0)
}

/// How many alarms of an area have an on-delay.
fn delayed_in(plant: &Plant, area: u32) -> u64 {
    plant
        .alarm_rows()
        .iter()
        .filter(|row| row.area == area && row.on_delay_ms > 0)
        .count() as u64
}

/// The longest on-delay of an area's alarms in milliseconds; 0 where none has one.
fn longest_in(plant: &Plant, area: u32) -> u64 {
    let mut longest = 0;
    for row in plant.alarm_rows() {
        if row.area == area {
            longest = row.on_delay_ms.max(longest);
        }
    }
    u64::from(longest)
}

/// Adds how many alarms of an area have an on-delay, and the longest of these.
fn push_delays(
    alloc: Global,
    text: &mut String,
    plant: &Plant,
    area: u32,
) -> Result<(), AllocError> {
    push_number(alloc, text, delayed_in(plant, area), COSTS)?;
    push_number(alloc, text, longest_in(plant, area), DELAYS)
}

/// Adds the areas in the order of the plant file, each with how many alarms it has; where an alarm of the plant has an on-delay, also with how many
/// of them have one, and the longest.
fn push_areas(
    alloc: Global,
    text: &mut String,
    plant: &Plant,
    width: usize,
) -> Result<(), AllocError> {
    push_left(text, "area", width)?;
    push_right(text, "alarms", COSTS)?;
    let has_delays = has_delays(plant);
    if has_delays {
        push_right(text, "delayed", COSTS)?;
        push_right(text, "longest_ms", DELAYS)?;
    }
    text.push_str("\n")?;
    for area in 0..plant.areas() {
        push_left(text, plant.area(area), width)?;
        push_number(alloc, text, alarms_in(plant, area), COSTS)?;
        if has_delays {
            push_delays(alloc, text, plant, area)?;
        }
        text.push_str("\n")?;
    }
    Ok(())
}

/// Adds the names of areas, each after a blank; `(none)` where there are none.
fn push_names(text: &mut String, plant: &Plant, areas: &[usize]) -> Result<(), AllocError>
    requires few { length plant.now.areas ≤ 64 }
    requires there { All (λ area. area < length plant.now.areas) areas.now }
{
    if areas.is_empty() {
        return text.push_str(" (none)");
    }
    for area in areas {
        text.push_str(" ")?;
        text.push_str(plant.area(*area as u32))?;
    }
    Ok(())
}

/// Adds the consoles in the order of the plant file, each with the areas of whose alarms it gives orders.
fn push_consoles(
    alloc: Global,
    text: &mut String,
    plant: &Plant,
    width: usize,
) -> Result<(), AllocError> {
    push_left(text, "console", width)?;
    text.push_str("  areas\n")?;
    for console in plant.consoles() {
        let number = console.number.to_string(alloc)?;
        push_left(text, number.as_str(), width)?;
        text.push_str(" ")?;
        push_names(text, plant, console.areas.as_slice())?;
        text.push_str("\n")?;
    }
    Ok(())
}

/// The tables of a plant with these levels.
fn tables(alloc: Global, plant: &Plant, levelled: &Levelled) -> Result<String, AllocError>
    requires { AreLevelsOf plant.now.source levelled.now }
{
    let width = first_width(plant);
    let mut text = String::new(alloc);
    push_programs(alloc, &mut text, plant, levelled, width)?;
    text.push_str("\n")?;
    push_areas(alloc, &mut text, plant, width)?;
    text.push_str("\n")?;
    push_consoles(alloc, &mut text, plant, width)?;
    Ok(text)
}

/// What there is in a plant, in three tables: each program with its cost and its level, in the order in which they run; each area with how many
/// alarms it has, and with their on-delays where the plant has one, and each console with its areas, in the order of the plant file. It takes time in
/// proportion to the plant.
pub fn listing(alloc: Global, plant: &Plant) -> Result<String, AllocError> {
    let levelled = Levelled::of(alloc, plant.logic())?;
    let told = tables(alloc, plant, &levelled);
    drop(levelled);
    told
}

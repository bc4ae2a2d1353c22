//! What is likely to be wrong in a plant that is accepted.

use crate::telling::alarms_name;
use alarm_db::{Column, Version};
use base_words::Names;
use explain_places::shown;
use explain_rows::Rows;
use explain_tokens::{FileOf, Spot};
use explain_uses::{Found, Warning, look};
use plant_config::{AlarmRow, Observer, Plant, Unit};
use plant_folder::PlantTexts;
use std::alloc::{AllocError, Global};

/// An observer who keeps what the sources of a plant do with their variables, for what is told of the plant where it is accepted.
#[derive(Default, Drop)]
pub struct Warner {
    /// None where memory was refused, or no plant was seen.
    found: Option<Found>,
}

impl Observer for Warner {
    fn typed(&mut self, alloc: Global, sources: &[(&str, &[u8])], units: &[Unit]) {
        self.found = look(alloc, sources, units).ok();
    }
}

/// Whether no console of a plant has an area.
fn is_lone(plant: &Plant, area: u32) -> bool {
    let mut consoles = plant.consoles().iter();
    !consoles.any(|console| plant.may_order(console.number, area))
}

/// The table of alarms, and what was found in it and in the sources.
#[derive(Drop)]
struct Alarms<'t> {
    rows: Rows<'t>,
    found: Found,
}

impl<'t> Alarms<'t> {
    /// Warns of the field of a column of an alarm, by its number from 0: in a text with a name in the place of its `@`.
    fn warn(&mut self, alarm: usize, column: Column, said: (&str, &str)) -> Result<(), AllocError> {
        let number = Version::First.place(column).unwrap_or(0);
        let mark = self.rows.field(alarm.saturating_add(1), number)?;
        self.found.warn_in(None, mark, said.0, (said.1, &[]));
        Ok(())
    }

    /// Warns of a tag that differs from an earlier one by letter case alone.
    fn in_tag(
        &mut self,
        alloc: Global,
        tags: &mut Names,
        (alarm, tag): (usize, &str),
    ) -> Result<(), AllocError> {
        if tags.add(alloc, tag)? {
            return Ok(());
        }
        let other = tags.find(tag).and_then(|number| tags.get(number));
        let text = "this tag differs from @ by letter case alone, and they are two alarms";
        self.warn(alarm, Column::Tag, (text, other.unwrap_or("")))
    }

    /// Warns of an area that no console has, once.
    fn in_area(
        &mut self,
        lone: &mut [bool],
        (alarm, area): (usize, u32),
    ) -> Result<(), AllocError> {
        let Some(is_lone) = lone.get_mut(area as usize) else {
            return Ok(());
        };
        let is_told = *is_lone;
        *is_lone = false;
        if !is_told {
            return Ok(());
        }
        let text = "no console has this area, so nobody may acknowledge its alarms";
        self.warn(alarm, Column::Area, (text, ""))
    }

    /// Warns of a condition that nothing assigns, and of one that suppresses its own alarm.
    fn in_conditions(
        &mut self,
        plant: &Plant,
        (alarm, row): (usize, &AlarmRow),
    ) -> Result<(), AllocError> {
        if self.found.is_idle_condition(row.condition) {
            let global = plant.globals().get(row.condition as usize);
            let name = global.map_or("", |global| global.name.as_str());
            let text = "nothing assigns @, the condition of this alarm, and it is no input";
            self.warn(alarm, Column::Condition, (text, name))?;
        }
        if let Some(number) = row.suppress {
            self.found.note_read(number);
        }
        if row.suppress != Some(row.condition) {
            return Ok(());
        }
        let text = "this alarm is suppressed by its own condition, so nobody ever hears of it";
        self.warn(alarm, Column::Suppress, (text, ""))
    }

    /// Goes through the alarms of a plant, until as many warnings are found as are told: a tag may differ from an earlier one by letter case alone, no console may
    /// have an area (which is told once), nothing may assign a condition, or a condition may suppress its own alarm. The tags are none at first, and an area is
    /// lone where no console has it.
    fn go_through(
        &mut self,
        alloc: Global,
        plant: &Plant,
        (tags, lone): (&mut Names, &mut [bool]),
    ) -> Result<(), AllocError> {
        for (alarm, row) in plant.alarm_rows().iter().enumerate() {
            if self.found.is_full() {
                return Ok(());
            }
            self.in_tag(alloc, tags, (alarm, plant.tag(alarm as u32)))?;
            self.in_area(lone, (alarm, row.area))?;
            self.in_conditions(plant, (alarm, row))?;
        }
        Ok(())
    }
}

/// What was found in a plant's sources, and what is found in its table of alarms.
fn found_in(
    alloc: Global,
    texts: &PlantTexts<'_>,
    plant: &Plant,
    found: Found,
) -> Result<Found, AllocError> {
    let areas = (0..plant.areas()).map(|area| is_lone(plant, area));
    let mut lone: Vec<bool> = areas.collect(alloc)?;
    let mut tags = Names::new(alloc);
    let rows = Rows::new(alloc, texts.alarms)?;
    let mut alarms = Alarms { rows, found };
    alarms.go_through(alloc, plant, (&mut tags, lone.as_mut_slice()))?;
    Ok(alarms.found)
}

/// What is said of warnings, each with its place in these texts.
fn all_warned(
    alloc: Global,
    texts: &PlantTexts<'_>,
    warnings: Vec<Warning>,
) -> Result<String, AllocError> {
    let name = alarms_name(alloc, texts.plant)?;
    let mut told = String::new(alloc);
    for (source, cause) in warnings {
        let file = source.map_or(FileOf::Alarms, FileOf::Source);
        told.push_str(shown(alloc, texts, name.as_str(), &Spot { file, cause })?.as_str())?;
    }
    Ok(told)
}

/// What a person is told of a plant that is accepted from these texts: what is likely to be wrong in it, twenty at most, each with its place and the line there;
/// nothing where nothing is. A warner saw the plant's sources while it was read. Fails if memory was refused, or he saw none.
pub fn warn(
    alloc: Global,
    texts: &PlantTexts<'_>,
    plant: &Plant,
    warner: Warner,
) -> Result<String, AllocError> {
    let found = warner.found.ok_or(AllocError)?;
    let found = found_in(alloc, texts, plant, found)?;
    all_warned(alloc, texts, found.end(texts.sources)?)
}

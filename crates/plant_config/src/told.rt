//! All that is wrong in the rows of an alarm database, for a person.

use crate::alarms::{area_number, bool_number};
use crate::files::Handed;
use alarm_db::{Column, DatabaseRow, Examined, RowFault, RowMistake, Version, examine};
use plant_file::{PlantFile, TextSet};
use std::alloc::{AllocError, Global};
use std::marker::Model;
use vm_logic::Framed;

/// The most mistakes that are told.
const MOST_MISTAKES: usize = 20;

/// What is wrong in the rows of an alarm database, in the order of the text: 20 mistakes at most, and one a row. Each is wrong whatever becomes of the others.
/// Contracts see nothing of them.
#[derive(Drop)]
pub struct RowMistakes {
    list: Vec<RowMistake>,
}

impl Model for RowMistakes {
    ghost use Rattle.std.specs.Prelude.{⊤};

    ghost Value = { ⊤ };

    ghost view = { λ _. tt };
}

impl RowMistakes {
    /// No mistakes.
    pub fn none(alloc: Global) -> RowMistakes {
        RowMistakes {
            list: Vec::new(alloc),
        }
    }

    /// The mistakes.
    pub fn as_slice(&self) -> &[RowMistake] {
        self.list.as_slice()
    }

    fn add(&mut self, mistake: RowMistake) -> Result<(), AllocError> {
        if self.list.len() < MOST_MISTAKES {
            self.list.push(mistake)?;
        }
        Ok(())
    }
}

/// The first column of a row in which a name stands for nothing in the plant.
fn unknown_in(areas: &TextSet, logic: &Framed, row: &DatabaseRow) -> Option<Column> {
    if area_number(areas, row.area.as_str()).is_none() {
        return Some(Column::Area);
    }
    if bool_number(logic, row.condition.as_str()).is_none() {
        return Some(Column::Condition);
    }
    match &row.suppress {
        Some(name) if bool_number(logic, name.as_str()).is_none() => Some(Column::Suppress),
        _ => None,
    }
}

/// Where a kind of mistakes stands in the order of the refusals.
fn stage_of(fault: RowFault) -> u32 {
    match fault {
        RowFault::NoHeader | RowFault::Uneven { .. } => 0,
        RowFault::Form(_) => 1,
        RowFault::Again { .. } => 2,
        RowFault::Unknown(_) => 3,
    }
}

fn add_stage(
    found: &mut RowMistakes,
    mistakes: &[RowMistake],
    stage: u32,
) -> Result<(), AllocError> {
    for mistake in mistakes {
        if stage_of(mistake.fault) == stage {
            found.add(*mistake)?;
        }
    }
    Ok(())
}

/// Adds the rows with a name that stands for nothing.
fn add_unknown(
    found: &mut RowMistakes,
    rows: &[(usize, DatabaseRow)],
    version: Version,
    areas: &TextSet,
    logic: &Framed,
) -> Result<(), AllocError> {
    for row in rows {
        if let Some(column) = unknown_in(areas, logic, &row.1) {
            found.add(RowMistake {
                at: row.0,
                field: version.place(column),
                fault: RowFault::Unknown(column),
            })?;
        }
    }
    Ok(())
}

/// The mistakes of what was found in an alarm database, and of the names in its rows: where there are more than 20, those whose refusals come first.
fn gathered(
    alloc: Global,
    examined: &Examined,
    areas: &TextSet,
    logic: &Framed,
) -> Result<RowMistakes, AllocError> {
    let mut found = RowMistakes::none(alloc);
    for stage in 0..3 {
        add_stage(&mut found, examined.mistakes.as_slice(), stage)?;
    }
    if let Some(version) = examined.version {
        add_unknown(&mut found, examined.rows.as_slice(), version, areas, logic)?;
    }
    found.list.sort_unstable_by_key(|mistake| mistake.at);
    Ok(found)
}

/// All that is wrong in the rows of an alarm database, in a plant.
fn mistakes_in(
    alloc: Global,
    handed: &Handed<'_>,
    file: &PlantFile,
    logic: &Framed,
) -> Result<RowMistakes, AllocError> {
    let areas = file.area_set(alloc)?;
    let examined = examine(alloc, handed.alarms)?;
    gathered(alloc, &examined, &areas, logic)
}

/// All that is wrong in the rows of an alarm database, in a plant; nothing where memory was refused.
pub fn told(alloc: Global, handed: &Handed<'_>, file: &PlantFile, logic: &Framed) -> RowMistakes {
    match mistakes_in(alloc, handed, file, logic) {
        Ok(mistakes) => mistakes,
        Err(_) => RowMistakes::none(alloc),
    }
}

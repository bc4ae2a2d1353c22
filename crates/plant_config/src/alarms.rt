//! The alarms of a database in a plant: their areas and variables by number.

ghost use Rattle.std.specs.Prelude.{◌≡◌, ◌<◌, ◌≤◌, IfNone, IfSome, IfErr, IfOk, MatchResult, None, Some, false, length, option_map, option_and_then, true};
ghost use Rattle.plant_config.specs.Alarms.{area_number, is_bool, is_bool_at, bool_number, is_unknown, unknown_column, first_unknown, alarm_of, alarms_of, IsAlarmFault};

use crate::rows::AlarmRow;
use alarm_db::{Column, DatabaseRow};
use base_trace::Shown;
use plant_file::TextSet;
use plant_types::{Kind, Text};
use std::alloc::{AllocError, AllocFailed, Global};
use vm_logic::{Framed, Variable};

/// Why there are no alarms of rows. Rows count from 1.
#[derive(Clone, Copy, Drop)]
pub enum AlarmFault {
    /// Allocation failed.
    Memory,
    /// A name stands for nothing; the first row with one, and in it the first column.
    Unknown { row: u32, column: Column },
}

impl From<AllocError> for AlarmFault {
    ghost use Rattle.std.specs.Prelude.{◌≡◌};
    ghost use Rattle.plant_config.specs.declared.alarms.AlarmFault.TheVariants.{Memory};

    ghost from_gives = { λ _ fault. fault ≡ Memory };

    fn from(_refused: AllocError) -> AlarmFault {
        AlarmFault::Memory
    }
}

impl<T: Drop> From<AllocFailed<T>> for AlarmFault {
    ghost use Rattle.std.specs.Prelude.{◌≡◌};
    ghost use Rattle.plant_config.specs.declared.alarms.AlarmFault.TheVariants.{Memory};

    ghost from_gives = { λ _ fault. fault ≡ Memory };

    fn from(_refused: AllocFailed<T>) -> AlarmFault {
        AlarmFault::Memory
    }
}

/// The number of an area; `None` if the plant hasn't it.
pub fn area_number(areas: &TextSet, name: &str) -> Option<usize>
    ensures number { result ≡ area_number areas.now name.now }
    ensures within { IfSome result (λ number. number < length areas.now) }
{
    areas.number(name)
}

fn is_bool(kind: Kind) -> bool
    ensures { result ≡ is_bool kind }
{
    matches!(kind, Kind::Bool)
}

fn is_bool_at(globals: &[Variable], number: usize) -> bool
    ensures { result ≡ is_bool_at globals.now number }
{
    match globals.get(number) {
        Some(global) => is_bool(global.kind),
        None => false,
    }
}

/// The number of the BOOL global of a name, letter case ignored; `None` if there is none.
pub fn bool_number(logic: &Framed, name: &str) -> Option<usize>
    ensures number { result ≡ bool_number logic.now.globals name.now }
    ensures within { IfSome result (λ number. number < length logic.now.globals) }
{
    match logic.find_global(name) {
        Some(number) if is_bool_at(logic.globals(), number) => Some(number),
        _ => None,
    }
}

/// The number of the BOOL global of a name, `Some(None)` where there is no name; `None` where the name is no BOOL global's.
fn suppress_number(logic: &Framed, name: Option<&Text>) -> Option<Option<u32>>
    requires { length logic.now.globals ≤ 65536 }
    ensures known { IfSome result (λ number. (is_unknown logic.now.globals
        (option_map (λ text. text.now) name.entry) ≡ false)
        × (number
        ≡ option_and_then (bool_number logic.now.globals) (option_map (λ text. text.now) name.entry))) }
    ensures unknown { IfNone result
        (is_unknown logic.now.globals (option_map (λ text. text.now) name.entry) ≡ true) }
{
    match name {
        Some(name) => {
            let number = bool_number(logic, name.as_str())?;
            Some(Some(number as u32))
        }
        None => Some(None),
    }
}

/// The numbers of a row's area, of its condition and of its suppression, or the first column in which a name stands for nothing.
fn numbers_of(
    areas: &TextSet,
    logic: &Framed,
    row: &DatabaseRow,
) -> Result<(u32, u32, Option<u32>), Column>
    requires areas { length areas.now ≤ 64 }
    requires globals { length logic.now.globals ≤ 65536 }
    ensures known { IfOk result (λ _. unknown_column areas.now logic.now.globals row.now ≡ None) }
    ensures area { IfOk result (λ numbers. numbers.0
        ≡ (alarm_of areas.now logic.now.globals row.now).area) }
    ensures condition { IfOk result (λ numbers. numbers.1
        ≡ (alarm_of areas.now logic.now.globals row.now).condition) }
    ensures suppress { IfOk result (λ numbers. numbers.2
        ≡ (alarm_of areas.now logic.now.globals row.now).suppress) }
    ensures unknown { IfErr result (λ column. unknown_column areas.now logic.now.globals row.now
        ≡ Some column) }
{
    let Some(area) = area_number(areas, row.area.as_str()) else {
        return Err(Column::Area);
    };
    let Some(condition) = bool_number(logic, row.condition.as_str()) else {
        return Err(Column::Condition);
    };
    let Some(suppress) = suppress_number(logic, row.suppress.as_ref()) else {
        return Err(Column::Suppress);
    };
    Ok((area as u32, condition as u32, suppress))
}

/// The alarm of a row, or the first column in which a name stands for nothing.
fn alarm_of(areas: &TextSet, logic: &Framed, row: DatabaseRow) -> Result<AlarmRow, Column>
    requires areas { length areas.now ≤ 64 }
    requires globals { length logic.now.globals ≤ 65536 }
    ensures { MatchResult result
        (λ alarm. (unknown_column areas.now logic.now.globals row ≡ None)
        × (alarm ≡ alarm_of areas.now logic.now.globals row))
        (λ column. unknown_column areas.now logic.now.globals row ≡ Some column) }
{
    match numbers_of(areas, logic, &row) {
        Ok((area, condition, suppress)) => Ok(AlarmRow {
            tag: Shown::of(&row.tag),
            area,
            priority: row.priority,
            condition,
            suppress,
            latching: row.latching,
            max_shelve_ms: row.max_shelve_ms,
            on_delay_ms: row.on_delay_ms,
            text: row.text,
        }),
        Err(column) => {
            drop(row);
            Err(column)
        }
    }
}

/// The alarms of rows, or the first row in which a name stands for nothing, numbered from 1, and in it the first column.
pub fn alarms_of(
    alloc: Global,
    areas: &TextSet,
    logic: &Framed,
    rows: Vec<DatabaseRow>,
) -> Result<Vec<AlarmRow>, AlarmFault>
    requires areas { length areas.now ≤ 64 }
    requires globals { length logic.now.globals ≤ 65536 }
    requires rows { length rows.items ≤ 20000 }
    ensures { MatchResult result
        (λ alarms. (first_unknown areas.now logic.now.globals 1 rows.items ≡ None)
        × (alarms.items ≡ alarms_of areas.now logic.now.globals rows.items))
        (IsAlarmFault areas.now logic.now.globals rows.items) }
{
    let mut alarms = Vec::with_capacity(alloc, rows.len())?;
    for row in rows {
        match alarm_of(areas, logic, row) {
            Ok(alarm) => alarms.push(alarm)?,
            Err(column) => {
                return Err(AlarmFault::Unknown {
                    row: alarms.len() as u32 + 1,
                    column,
                });
            }
        }
    }
    Ok(alarms)
}

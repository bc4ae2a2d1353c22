//! The rows of an alarm database.

ghost use Rattle.std.specs.Prelude.{◌≡◌, ◌||◌, IfOk, None, not, true};
ghost use Rattle.std.specs.List.{find};
ghost use Rattle.std.specs.Str.{IsUtf8};
ghost use Rattle.std.specs.Str.Parse.{digits_value};
ghost use Rattle.csv.specs.Records.{fields_of};
ghost use Rattle.alarm_db.specs.Columns.{field_of};
ghost use Rattle.alarm_db.specs.Forms.{has_digits, has_form, is_delay, is_empty};
ghost use Rattle.alarm_db.specs.Rows.{row_of, word_of, wrong_column};

use crate::column::{Column, Version, field};
use crate::forms::{has_form, latches, number};
use csv::ByteRecord;
use plant_types::Text;
use std::alloc::{AllocError, Global};
use std::str;

/// A row of an alarm database: an alarm, with its area and its variables by their names.
#[derive(Drop)]
pub struct DatabaseRow {
    /// The alarm's name, in which letter case counts.
    pub tag: Text,
    /// The name of the part of the plant to which it belongs. Whether the plant has such an area, the database doesn't say.
    pub area: Text,
    /// 1 to 4, 1 the highest (ISA-18.2 leaves their number to the site).
    pub priority: u32,
    /// The name of the variable that is TRUE while the alarm's condition holds.
    pub condition: Text,
    /// The name of the variable that suppresses the alarm while it is TRUE (ISA-18.2, suppression by design); `None`: never.
    pub suppress: Option<Text>,
    /// Whether the alarm has to be reset once its condition has gone (ISA-18.2, latching).
    pub latching: bool,
    /// For how many milliseconds it can be shelved at most, up to 2,592,000,000 (30 days); 0 where it can't be (ISA-18.2, shelving).
    pub max_shelve_ms: u64,
    /// For how many milliseconds its condition has to hold before it counts, up to 86,400,000 (a day); 0: at once (ISA-18.2, on-delay).
    pub on_delay_ms: u32,
    /// What it says to an operator.
    pub text: Text,
}

/// The first of the columns whose field doesn't have its form; `None` if all have.
fn wrong_among(columns: &[Column], row: &ByteRecord, version: Version) -> Option<Column>
    ensures { result
        ≡ find (λ c. not (has_form c (field_of version (fields_of row.now) c))) columns.now }
{
    columns
        .iter()
        .copied()
        .find(|column| !has_form(*column, field(row, version, *column)))
}

/// The first column of a version whose field doesn't have its form; `None` if all have.
#[tactic(auto, unfolding(crate::specs::Rows::wrong_column))]
pub(crate) fn wrong_column(row: &ByteRecord, version: Version) -> Option<Column>
    ensures { result ≡ wrong_column version (fields_of row.now) }
{
    wrong_among(version.columns(), row, version)
}

/// Copies a field as a text.
fn text(alloc: Global, field: &[u8]) -> Result<Text, AllocError>
    requires { IsUtf8 field.now }
    ensures { IfOk result (λ text. text ≡ field.now) }
{
    match str::from_utf8(field) {
        Ok(field) => Text::from_str(alloc, field),
        Err(_) => unreachable!(),
    }
}

/// Copies the word in a field; `None` for an empty field.
fn word(alloc: Global, field: &[u8]) -> Result<Option<Text>, AllocError>
    requires { IsUtf8 field.now }
    ensures { IfOk result (λ word. word ≡ word_of field.now) }
{
    if field.is_empty() {
        return Ok(None);
    }
    Ok(Some(text(alloc, field)?))
}

fn digits(field: &[u8]) -> u64
    requires { has_digits 10 field.now ≡ true }
    ensures { result ≡ digits_value 10 field.now }
{
    match number(field, 10) {
        Some(n) => n,
        None => unreachable!(),
    }
}

fn delay(field: &[u8]) -> u32
    requires { (is_empty field.now || is_delay field.now) ≡ true }
    ensures { result ≡ digits_value 10 field.now }
{
    match number(field, 10) {
        Some(n) => n as u32,
        None => 0,
    }
}

/// The alarm of a row whose fields have their forms.
pub(crate) fn row_of(
    alloc: Global,
    row: &ByteRecord,
    version: Version,
) -> Result<DatabaseRow, AllocError>
    requires { wrong_column version (fields_of row.now) ≡ None }
    ensures { IfOk result (λ alarm. alarm ≡ row_of version (fields_of row.now)) }
{
    Ok(DatabaseRow {
        tag: text(alloc, field(row, version, Column::Tag))?,
        area: text(alloc, field(row, version, Column::Area))?,
        priority: digits(field(row, version, Column::Priority)) as u32,
        condition: text(alloc, field(row, version, Column::Condition))?,
        suppress: word(alloc, field(row, version, Column::Suppress))?,
        latching: latches(field(row, version, Column::Latch)),
        max_shelve_ms: digits(field(row, version, Column::MaxShelveMs)),
        on_delay_ms: delay(field(row, version, Column::OnDelayMs)),
        text: text(alloc, field(row, version, Column::Text))?,
    })
}

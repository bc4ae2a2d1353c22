//! The columns of an alarm database, by the versions of its table.

ghost use Rattle.std.specs.Prelude.{◌≡◌, [], unwrap_or};
ghost use Rattle.csv.specs.Records.{field_at, fields_of};
ghost use Rattle.alarm_db.specs.Columns.{columns, column_name, column_place, field_of, versions};

use csv::ByteRecord;

/// A column of an alarm database.
#[derive(Clone, Copy, Drop)]
pub enum Column {
    Tag,
    Area,
    Priority,
    Condition,
    Suppress,
    Latch,
    MaxShelveMs,
    OnDelayMs,
    Text,
}

/// A version of the table: the second has the column of on-delays. The header tells which it is.
#[derive(Clone, Copy, Drop)]
pub enum Version {
    First,
    Second,
}

impl Version {
    pub(crate) fn all() -> [Version; 2]
        ensures { result ≡ versions }
    {
        [Version::First, Version::Second]
    }

    /// Its columns, in their order.
    pub fn columns(self) -> &'static [Column]
        ensures { result.now ≡ columns self }
    {
        match self {
            Version::First => &[
                Column::Tag,
                Column::Area,
                Column::Priority,
                Column::Condition,
                Column::Suppress,
                Column::Latch,
                Column::MaxShelveMs,
                Column::Text,
            ],
            Version::Second => &[
                Column::Tag,
                Column::Area,
                Column::Priority,
                Column::Condition,
                Column::Suppress,
                Column::Latch,
                Column::MaxShelveMs,
                Column::OnDelayMs,
                Column::Text,
            ],
        }
    }

    /// The place of a column's field in a row, from 0; `None` where this version doesn't have the column.
    pub fn place(self, column: Column) -> Option<usize>
        ensures { result ≡ column_place self column }
    {
        match (self, column) {
            (_, Column::Tag) => Some(0),
            (_, Column::Area) => Some(1),
            (_, Column::Priority) => Some(2),
            (_, Column::Condition) => Some(3),
            (_, Column::Suppress) => Some(4),
            (_, Column::Latch) => Some(5),
            (_, Column::MaxShelveMs) => Some(6),
            (Version::First, Column::OnDelayMs) => None,
            (Version::First, Column::Text) => Some(7),
            (Version::Second, Column::OnDelayMs) => Some(7),
            (Version::Second, Column::Text) => Some(8),
        }
    }
}

impl Column {
    /// Its name, as it stands in the header.
    pub fn name(self) -> &'static str
        ensures { result.now ≡ column_name self }
    {
        match self {
            Column::Tag => "tag",
            Column::Area => "area",
            Column::Priority => "priority",
            Column::Condition => "condition",
            Column::Suppress => "suppress",
            Column::Latch => "latch",
            Column::MaxShelveMs => "max_shelve_ms",
            Column::OnDelayMs => "on_delay_ms",
            Column::Text => "text",
        }
    }
}

/// The field of a column; empty where the version doesn't have the column.
pub(crate) fn field(row: &ByteRecord, version: Version, column: Column) -> &[u8]
    ensures { result.now ≡ field_of version (fields_of row.now) column }
{
    match version.place(column) {
        Some(place) => field_at(row, place),
        None => b"",
    }
}

/// The field at a place, from 0; empty where the row is too short for it.
fn field_at(row: &ByteRecord, place: usize) -> &[u8]
    ensures { result.now ≡ unwrap_or (field_at (fields_of row.now) place) [] }
{
    match row.get(place) {
        Some(field) => field,
        None => b"",
    }
}

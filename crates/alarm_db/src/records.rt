//! The records of an alarm database's text.

ghost use Rattle.std.specs.Prelude.{◌≡◌, ◌++◌, ◌∷◌, [], ℕ, List, IfErr, IfOk, MatchBool};
ghost use Rattle.csv.specs.Records.{fields_of};
ghost use Rattle.std.specs.List.{list_all};
ghost use Rattle.std.specs.Str.{bytes_eq};
ghost use Rattle.alarm_db.specs.Columns.{columns, column_name, field_of};
ghost use Rattle.alarm_db.specs.Databases.{is_even, is_header, records_of, version_of};
ghost use Rattle.alarm_db.specs.Gathering.{HasRead};

use crate::column::{Version, field};
use crate::fault::DbFault;
use csv::{ByteRecord, Reader, ReaderBuilder};
use std::alloc::Global;

/// Whether a record has a field for each column of a version, and no other.
pub(crate) fn is_even(row: &ByteRecord, version: Version) -> bool
    ensures { result ≡ is_even version (fields_of row.now) }
{
    row.len() == version.columns().len()
}

/// Whether a record has the names of the columns of a version.
fn are_names(row: &ByteRecord, version: Version) -> bool
    ensures { result
        ≡ list_all (λ c. bytes_eq (field_of version (fields_of row.now) c) (column_name c))
        (columns version) }
{
    version.columns().iter().all(|column| field(row, version, *column) == column.name().as_bytes())
}

/// Whether a record is the header of a version: it has the names of the columns, and no other field.
fn is_header(row: &ByteRecord, version: Version) -> bool
    ensures { result ≡ is_header (fields_of row.now) version }
{
    is_even(row, version) && are_names(row, version)
}

/// The version that a header tells; `None` if it has not the columns of any.
pub(crate) fn version_of(header: &ByteRecord) -> Option<Version>
    ensures { result ≡ version_of (fields_of header.now) }
{
    Version::all()
        .iter()
        .copied()
        .find(|version| is_header(header, *version))
}

pub(crate) fn reader_of(alloc: Global, text: &[u8]) -> Reader<&[u8]>
    ensures { HasRead text.now [] result }
{
    ReaderBuilder::new()
        .has_headers(false)
        .flexible(true)
        .from_reader(alloc, text)
}

/// Reads the next record into `row`, and returns true; false at the text's end.
pub(crate) fn next_record(reader: &mut Reader<&[u8]>, row: &mut ByteRecord) -> Result<bool, DbFault>
    ensures read { IfOk result (λ found. (text : List ℕ) (records : List (List (List ℕ)))
        → HasRead text records reader.old
        → MatchBool found (HasRead text (records ++ fields_of row.new ∷ []) reader.new)
        (records ≡ records_of text)) }
    ensures refused { IfErr result (λ fault. fault ≡ DbFault.Memory) }
{
    let Ok(found) = reader.read_byte_record(row) else {
        return Err(DbFault::Memory);
    };
    Ok(found)
}

//! The rows of an alarm database, gathered record by record, so that no record is kept.

ghost use Rattle.std.specs.Prelude.{◌≡◌, ◌++◌, ◌∷◌, [], ℕ, List, None, Some, MatchResult, OnOk, map};
ghost use Rattle.csv.specs.Records.{fields_of};
ghost use Rattle.alarm_db.specs.declared.column.Version.{Version};
ghost use Rattle.alarm_db.specs.Rows.{row_of};
ghost use Rattle.alarm_db.specs.Databases.{records_of, rows_in, Refuses};
ghost use Rattle.alarm_db.specs.Gathering.{early_fault, forms_fault, HasGathered, HasGatheredAll};

use crate::column::Version;
use crate::fault::DbFault;
use crate::records::{is_even, next_record, reader_of, version_of};
use crate::row::{DatabaseRow, row_of, wrong_column};
use csv::ByteRecord;
use std::alloc::{AllocError, Global};

/// The greatest number of rows.
const MOST_ROWS: usize = 20_000;

/// What the records after the header give, as far as they were read.
#[derive(Drop)]
pub(crate) struct Gathered {
    /// How many they are, up to the greatest number of rows.
    count: usize,
    /// Their first fault, but for their tags.
    fault: Option<DbFault>,
    /// Their rows, where they have no fault.
    rows: Vec<DatabaseRow>,
}

/// Adds the row of a record, of which so many come before it, or notes its fault.
fn add_row(
    alloc: Global,
    version: Version,
    gathered: &mut Gathered,
    row: &ByteRecord,
) -> Result<(), AllocError>
    ensures { OnOk result
        ((rows : List (List (List ℕ))) → HasGathered version rows gathered.old
        → HasGathered version (rows ++ fields_of row.now ∷ []) gathered.new) }
{
    if gathered.count >= MOST_ROWS {
        gathered.fault = Some(DbFault::TooMany);
        return Ok(());
    }
    gathered.count += 1;
    if gathered.fault.is_some() {
        return Ok(());
    }
    match wrong_column(row, version) {
        Some(column) => {
            gathered.fault = Some(DbFault::Field {
                row: gathered.count as u32,
                column,
            });
        }
        None => {
            let alarm = row_of(alloc, row, version)?;
            gathered.rows.push(alarm)?;
        }
    }
    Ok(())
}

fn finished(gathered: Gathered) -> Result<Vec<DatabaseRow>, DbFault>
    ensures { (v : Version) (rows : List (List (List ℕ))) → HasGathered v rows gathered
        → MatchResult result (λ found. (forms_fault v rows ≡ None) × (found.items ≡ map (row_of v) rows))
        (λ fault. forms_fault v rows ≡ Some fault) }
{
    match gathered.fault {
        Some(fault) => Err(fault),
        None => Ok(gathered.rows),
    }
}

/// Gathers what the records of a text give, of which the first is the header, or tells their first fault, but for tags. Nothing is gathered before.
fn gather(
    alloc: Global,
    text: &[u8],
    row: &mut ByteRecord,
    gathered: &mut Gathered,
) -> Result<(), DbFault>
    requires count { gathered.old.count ≡ 0 }
    requires fault { gathered.old.fault ≡ None }
    requires rows { gathered.old.rows.items ≡ [] }
    ensures { MatchResult result (λ _. HasGatheredAll text.now gathered.new)
        (Refuses (early_fault (records_of text.now))) }
{
    let mut reader = reader_of(alloc, text);
    let found = next_record(&mut reader, row)?;
    if !found {
        return Err(DbFault::Header);
    }
    let version = match version_of(row) {
        Some(version) => version,
        None => return Err(DbFault::Header),
    };
    // No text has so many records.
    'records: for _ in 0..usize::MAX {
        let more = next_record(&mut reader, row)?;
        if !more {
            return Ok(());
        }
        if !is_even(row, version) {
            return Err(DbFault::Header);
        }
        add_row(alloc, version, gathered, row)?;
    }
    Err(DbFault::Memory)
}

/// The rows of the records of a text, or their first fault, but for tags. The first record is the header.
pub(crate) fn rows_in(alloc: Global, text: &[u8]) -> Result<Vec<DatabaseRow>, DbFault>
    ensures { MatchResult result
        (λ rows. (early_fault (records_of text.now) ≡ None)
        × (rows.items ≡ rows_in (records_of text.now))) (Refuses (early_fault (records_of text.now))) }
{
    let mut row = ByteRecord::new(alloc);
    let mut gathered = Gathered {
        count: 0,
        fault: None,
        rows: Vec::new(alloc),
    };
    let read = gather(alloc, text, &mut row, &mut gathered);
    drop(row);
    match read {
        Ok(()) => finished(gathered),
        Err(fault) => Err(fault),
    }
}

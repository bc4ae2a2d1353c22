//! All that is wrong in the rows of an alarm database, for a person. It is asked for where the database is refused.

use crate::column::{Column, Version};
use crate::records::{is_even, next_record, reader_of, version_of};
use crate::row::{DatabaseRow, row_of, wrong_column};
use crate::tags::Tags;
use csv::{ByteRecord, Reader};
use std::alloc::{AllocError, Global};

/// The most mistakes of one kind that are gathered.
const MOST_MISTAKES: usize = 20;

/// A text has at most so many rows.
const MOST_ROWS: usize = 20_000;

/// What is wrong with a row.
#[derive(Clone, Copy, Drop)]
pub enum RowFault {
    /// C11: the first record isn't the header of any version; or there is none.
    NoHeader,
    /// C11: it has so many fields, and the header has another number.
    Uneven { fields: usize, wanted: usize },
    /// C12: the field of this column, the first that is wrong, hasn't its column's form.
    Form(Column),
    /// C13: the row that begins at this byte has its tag.
    Again { first: usize },
    /// C14: the plant hasn't what is named in this column, the first that is wrong. An alarm database by itself doesn't know.
    Unknown(Column),
}

/// Something that is wrong in an alarm database.
#[derive(Clone, Copy, Drop)]
pub struct RowMistake {
    /// The byte of the text at which its row begins; there may be a byte order mark or line ends before the row.
    pub at: usize,
    /// The field of the row that is wrong, from 0, where one is.
    pub field: Option<usize>,
    pub fault: RowFault,
}

/// What is found in an alarm database.
#[derive(Drop)]
pub struct Examined {
    /// The version that the header tells; `None` where it tells none, and then the rows aren't looked at.
    pub version: Option<Version>,
    /// What is wrong, in the order of the text: one mistake a row, and at most 20 of each kind.
    pub mistakes: Vec<RowMistake>,
    /// The rows in which nothing is wrong by itself, each with the byte at which it begins.
    pub rows: Vec<(usize, DatabaseRow)>,
}

/// How many mistakes there are of each kind.
#[derive(Drop)]
struct Counts {
    uneven: usize,
    form: usize,
    again: usize,
}

fn start_of(row: &ByteRecord) -> usize {
    match row.position() {
        Some(position) => position.byte() as usize,
        None => 0,
    }
}

/// Reads the next record; false at the text's end.
fn has_next(reader: &mut Reader<&[u8]>, row: &mut ByteRecord) -> Result<bool, AllocError> {
    match next_record(reader, row) {
        Ok(more) => Ok(more),
        Err(_) => Err(AllocError),
    }
}

impl Examined {
    /// Notes a mistake, unless 20 of its kind are noted.
    fn note(&mut self, count: &mut usize, mistake: RowMistake) -> Result<(), AllocError> {
        if *count < MOST_MISTAKES {
            *count = count.saturating_add(1);
            self.mistakes.push(mistake)?;
        }
        Ok(())
    }

    /// Looks at a row whose fields have their forms.
    fn add(
        &mut self,
        alloc: Global,
        (at, row): (usize, DatabaseRow),
        tags: &mut Tags,
        counts: &mut Counts,
    ) -> Result<(), AllocError> {
        if tags.add(alloc, row.tag.as_str())? {
            self.rows.push((at, row))?;
            return Ok(());
        }
        let first = match tags.number(row.tag.as_str()) {
            Some(number) => self.rows.get(number).map(|row| row.0).unwrap_or(at),
            None => at,
        };
        drop(row);
        let mistake = RowMistake {
            at,
            field: Some(0),
            fault: RowFault::Again { first },
        };
        self.note(&mut counts.again, mistake)
    }

    /// Looks at a record after the header.
    fn look(
        &mut self,
        alloc: Global,
        (row, version): (&ByteRecord, Version),
        tags: &mut Tags,
        counts: &mut Counts,
    ) -> Result<(), AllocError> {
        let at = start_of(row);
        if !is_even(row, version) {
            let fault = RowFault::Uneven {
                fields: row.len(),
                wanted: version.columns().len(),
            };
            let mistake = RowMistake {
                at,
                field: None,
                fault,
            };
            return self.note(&mut counts.uneven, mistake);
        }
        match wrong_column(row, version) {
            Some(column) => {
                let mistake = RowMistake {
                    at,
                    field: version.place(column),
                    fault: RowFault::Form(column),
                };
                self.note(&mut counts.form, mistake)
            }
            None => {
                let alarm = row_of(alloc, row, version)?;
                self.add(alloc, (at, alarm), tags, counts)
            }
        }
    }
}

/// Nothing found, for a version that the header tells.
fn nothing(alloc: Global, version: Option<Version>) -> Examined {
    Examined {
        version,
        mistakes: Vec::new(alloc),
        rows: Vec::new(alloc),
    }
}

/// What is found where the header is none: this, at the first record.
fn headless(alloc: Global, at: usize) -> Result<Examined, AllocError> {
    let mut found = nothing(alloc, None);
    found.mistakes.push(RowMistake {
        at,
        field: None,
        fault: RowFault::NoHeader,
    })?;
    Ok(found)
}

/// Looks at the records that a reader has behind the header, as far as a text may have rows.
fn look_at_all(
    alloc: Global,
    reader: &mut Reader<&[u8]>,
    (row, version): (&mut ByteRecord, Version),
    (found, tags): (&mut Examined, &mut Tags),
) -> Result<(), AllocError> {
    let mut counts = Counts {
        uneven: 0,
        form: 0,
        again: 0,
    };
    'records: for _ in 0..MOST_ROWS {
        if !has_next(reader, row)? {
            return Ok(());
        }
        found.look(alloc, (row, version), tags, &mut counts)?;
    }
    Ok(())
}

/// Looks at the rows of a text that was read up to its header, which is of a version. The record is the reader's to read into.
fn rows_from(
    alloc: Global,
    reader: &mut Reader<&[u8]>,
    (row, version): (&mut ByteRecord, Version),
) -> Result<Examined, AllocError> {
    let mut found = nothing(alloc, Some(version));
    let mut tags = Tags::new(alloc);
    let all = look_at_all(alloc, reader, (row, version), (&mut found, &mut tags));
    drop(tags);
    all?;
    Ok(found)
}

/// Looks at the rows of a text of so many bytes, from its header on, which is read into a record.
fn examine_from(
    alloc: Global,
    reader: &mut Reader<&[u8]>,
    row: &mut ByteRecord,
    len: usize,
) -> Result<Examined, AllocError> {
    if !has_next(reader, row)? {
        return headless(alloc, len);
    }
    match version_of(row) {
        Some(version) => rows_from(alloc, reader, (row, version)),
        None => headless(alloc, start_of(row)),
    }
}

/// Looks at each row of an alarm database's text by itself, and at its tag among those of the others.
pub fn examine(alloc: Global, text: &[u8]) -> Result<Examined, AllocError> {
    let mut reader = reader_of(alloc, text);
    let mut row = ByteRecord::new(alloc);
    let examined = examine_from(alloc, &mut reader, &mut row, text.len());
    drop(row);
    drop(reader);
    examined
}

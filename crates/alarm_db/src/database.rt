//! An alarm database.

ghost use Rattle.std.specs.Prelude.{◌≡◌, ◌≤◌, [], None, length, MatchResult, IfOk, IfErr, position};
ghost use Rattle.std.specs.Str.{bytes_eq};
ghost use Rattle.alarm_db.specs.Databases.{first_fault, first_twice, rows_of, tags_of, Refuses, IsDatabase};

use crate::fault::DbFault;
use crate::gathering::rows_in;
use crate::row::DatabaseRow;
use crate::tags::Tags;
use std::alloc::Global;
use std::marker::Model;

/// An alarm database: a row for each alarm, in order, and an index of their tags. Contracts see the rows. They are at most 20,000, each is as
/// its columns ask, and no two have one tag.
pub struct AlarmDatabase {
    rows: Vec<DatabaseRow>,
    tags: Tags,
}

impl Drop for AlarmDatabase {
    fn drop(self) {
        let AlarmDatabase { rows: _, tags: _ } = self;
    }
}

impl Model for AlarmDatabase {
    ghost use Rattle.std.specs.Prelude.{◌≡◌, List};
    ghost use Rattle.alarm_db.specs.declared.row.DatabaseRow.{DatabaseRow};
    ghost use Rattle.alarm_db.specs.Databases.{IsDatabase, tags_of};

    ghost Value = { List DatabaseRow };

    ghost view = { λ d. d.rows.items };

    ghost invariant = { λ d. IsDatabase d.rows.items × (d.tags ≡ tags_of d.rows.items) };
}

impl AlarmDatabase {
    /// The rows, in the order of the text.
    pub fn rows(&self) -> &[DatabaseRow]
        ensures rows { result.now ≡ self.now }
        ensures database { IsDatabase self.now }
    {
        self.rows.as_slice()
    }

    /// The number of the row with a tag, from 0; `None` if there is none. Letter case counts.
    pub fn number(&self, tag: &str) -> Option<u32>
        ensures { result ≡ position (bytes_eq tag.now) (tags_of self.now) }
    {
        let number = self.tags.number(tag)?;
        Some(number as u32)
    }

    /// The rows and the index of their tags, as two values.
    pub fn into_parts(self) -> (Vec<DatabaseRow>, Tags)
        ensures rows { result.0.items ≡ self }
        ensures tags { result.1 ≡ tags_of self }
        ensures database { IsDatabase self }
    {
        let AlarmDatabase { rows, tags } = self;
        (rows, tags)
    }
}

/// The tags of rows, or the fault of the first row whose tag an earlier row has. Rows are numbered from 1.
fn tags_of(alloc: Global, rows: &[DatabaseRow]) -> Result<Tags, DbFault>
    requires { length rows.now ≤ 20000 }
    ensures { MatchResult result
        (λ tags. (first_twice [] (tags_of rows.now) ≡ None) × (tags ≡ tags_of rows.now))
        (Refuses (first_twice [] (tags_of rows.now))) }
{
    let mut tags = Tags::new(alloc);
    for row in rows {
        let added = tags.add(alloc, row.tag.as_str())?;
        if !added {
            return Err(DbFault::Twice {
                row: tags.len() as u32 + 1,
            });
        }
    }
    Ok(tags)
}

/// Reads the alarm database of a text of comma-separated values: a header with the names of the columns, then a row for each alarm. A byte order mark at the
/// text's start is skipped, and so are records of no bytes.
///
/// Every fault but `Memory` is the first that the text has, in the order of `DbFault`. `Memory` comes if memory is refused.
pub fn read(alloc: Global, text: &[u8]) -> Result<AlarmDatabase, DbFault>
    ensures rows { IfOk result (λ rows. (first_fault text.now ≡ None) × (rows ≡ rows_of text.now)) }
    ensures refused { IfErr result (Refuses (first_fault text.now)) }
{
    let rows = match rows_in(alloc, text) {
        Ok(rows) => rows,
        Err(fault) => return Err(fault),
    };
    match tags_of(alloc, rows.as_slice()) {
        Ok(tags) => Ok(AlarmDatabase { rows, tags }),
        Err(fault) => Err(fault),
    }
}

//! What is wrong in the rows of the alarm database beside what is found first: further fields of a row, and rows of a plant whose sources are at fault.

use crate::alarms::{are_reordered, columns_near, first_line, has_commas_alone, names};
use crate::fields::{field_of, fields_of_row, last_of, row_start};
use crate::table::Table;
use alarm_db::{Column, DatabaseRow, Examined, RowFault, RowMistake, Version, examine};
use base_words::Names;
use explain_document::areas_of;
use explain_files::Mark;
use explain_tokens::{Cause, part};
use explain_trees::entries_of;
use plant_file::TextSet;
use plant_types::Kind;
use st_parser::{Sort, Unit};
use std::alloc::{AllocError, Global};

/// So many faults are told at most.
const MOST_FAULTS: usize = 20;

/// A table has at most so many columns.
const MOST_COLUMNS: usize = 9;

/// What the rows of a plant may name.
#[derive(Drop)]
struct Known {
    /// The areas; none where they aren't known.
    areas: Option<TextSet>,
    /// The BOOL globals; none where they aren't known.
    bools: Option<Names>,
}

/// The names of the globals that are BOOLs, and of those that may be, where the sources aren't right.
fn bools_of(alloc: Global, units: &[Unit], are_right: bool) -> Result<Names, AllocError> {
    let mut names = Names::new(alloc);
    for entry in &entries_of(alloc, units)? {
        let is_open = !are_right && matches!(entry.sort(), Some(Sort::Block(_)));
        if entry.is_global(Some(Kind::Bool)) || is_open && entry.owner.is_empty() {
            names.add(alloc, entry.name.as_str())?;
        }
    }
    Ok(names)
}

impl Known {
    /// The columns in which a row names something, and whether there is no such thing.
    fn unknown_in(&self, row: &DatabaseRow) -> [(Column, bool); 3] {
        let is_bool = |name: &str| {
            let mut bools = self.bools.iter();
            bools.all(|bools| bools.find(name).is_some())
        };
        let suppress = row.suppress.as_ref();
        let mut areas = self.areas.iter();
        let is_area = areas.all(|areas| areas.number(row.area.as_str()).is_some());
        [
            (Column::Area, !is_area),
            (Column::Condition, !is_bool(row.condition.as_str())),
            (
                Column::Suppress,
                suppress.is_some_and(|name| !is_bool(name.as_str())),
            ),
        ]
    }
}

/// A field that has the form of its column.
fn right_field(column: Column) -> &'static str {
    match column {
        Column::Tag | Column::Area | Column::Condition => "a",
        Column::Priority => "1",
        Column::Latch => "TRUE",
        Column::MaxShelveMs | Column::OnDelayMs => "0",
        Column::Suppress | Column::Text => "",
    }
}

/// Where a kind of mistakes stands in the order of the refusals.
fn stage_of(mistake: &RowMistake) -> usize {
    match mistake.fault {
        RowFault::NoHeader => 0,
        RowFault::Uneven { .. } => 1,
        RowFault::Form(_) => 2,
        RowFault::Again { .. } => 3,
        RowFault::Unknown(_) => 4,
    }
}

/// A row with a wrong field.
#[derive(Clone, Copy, Drop)]
struct WrongRow<'a> {
    known: &'a Known,
    version: Version,
    fields: &'a [Mark],
    /// The byte at which it begins.
    at: usize,
}

impl WrongRow<'_> {
    /// Adds which fields have names that aren't known, but for those that were put in.
    fn add_unknown(
        &self,
        put: &[bool; MOST_COLUMNS],
        row: &DatabaseRow,
        found: &mut Vec<RowMistake>,
    ) -> Result<(), AllocError> {
        let at = self.at;
        for (column, is_unknown) in self.known.unknown_in(row) {
            let field = self.version.place(column);
            let is_told = field.is_some_and(|number| put.get(number) == Some(&true));
            if is_unknown && !is_told {
                let fault = RowFault::Unknown(column);
                found.push(RowMistake { at, field, fault })?;
            }
        }
        Ok(())
    }

    /// Adds what is found in it with right fields put in; returns the number of the field that is wrong next, if one is.
    fn add(
        &self,
        put: &[bool; MOST_COLUMNS],
        examined: &Examined,
        found: &mut Vec<RowMistake>,
    ) -> Result<Option<usize>, AllocError> {
        if let Some((_, row)) = examined.rows.first() {
            self.add_unknown(put, row, found)?;
            return Ok(None);
        }
        let Some(next) = examined.mistakes.first() else {
            return Ok(None);
        };
        if next.field.is_some() {
            found.push(RowMistake {
                at: self.at,
                ..*next
            })?;
        }
        Ok(next.field)
    }
}

/// Moves what was found behind a header of so many bytes to where it stands behind one that ends at another.
fn move_all(found: &mut Examined, (len, until): (usize, usize)) {
    let moved = |at: usize| at.saturating_add(until).saturating_sub(len);
    for wrong in found.mistakes.as_mut_slice() {
        wrong.at = moved(wrong.at);
        if let RowFault::Again { first } = wrong.fault {
            let first = moved(first);
            wrong.fault = RowFault::Again { first };
        }
    }
    for row in found.rows.as_mut_slice() {
        row.0 = moved(row.0);
    }
}

/// Whether a row of fields may be no row at all: it has commas alone, or goes on in the next line.
fn is_apart(text: &[u8], fields: &[Mark]) -> bool {
    let mut lines = fields.iter().filter_map(|field| first_line(text, *field));
    lines.next().is_some() || has_commas_alone(text, field_of(fields, 0).0)
}

/// The first of several rows that have another number of fields than is wanted, where all of these have the same number.
fn first_uneven(mistakes: &[RowMistake]) -> Option<(RowMistake, usize)> {
    let mut uneven = mistakes.iter().filter_map(|wrong| match wrong.fault {
        RowFault::Uneven { fields, .. } => Some((*wrong, fields)),
        _ => None,
    });
    let first = uneven.next()?;
    let second = uneven.next()?;
    let are_same = second.1 == first.1 && uneven.all(|other| other.1 == first.1);
    are_same.then_some(first)
}

/// Whether all rows below the header have a number of fields.
pub fn all_have(alloc: Global, text: &[u8], count: usize) -> Result<bool, AllocError> {
    let mut end = last_of(fields_of_row(alloc, text, 0)?.as_slice()).1;
    for _ in 0..text.len() {
        if row_start(text, end) >= text.len() {
            break;
        }
        let fields = fields_of_row(alloc, text, end)?;
        if fields.len() != count {
            return Ok(false);
        }
        end = last_of(fields.as_slice()).1;
    }
    Ok(true)
}

impl<'t> Table<'t> {
    /// Tells of the header, where it is wrong, and of the first row, where all rows have the same number of fields and another one is wanted; returns whether
    /// that is so.
    fn all_uneven(&mut self, units: &[Unit], mistakes: &[RowMistake]) -> Result<bool, AllocError> {
        let Some((first, count)) = first_uneven(mistakes) else {
            return Ok(false);
        };
        let fields = fields_of_row(self.alloc, self.alarms, first.at)?;
        if is_apart(self.alarms, fields.as_slice()) || !all_have(self.alloc, self.alarms, count)? {
            return Ok(false);
        }
        for wrong in mistakes {
            if matches!(wrong.fault, RowFault::NoHeader) {
                self.in_row(units, wrong)?;
            }
        }
        self.in_row(units, &first)?;
        let last = self.told.len().saturating_sub(1);
        if let Some(cause) = self.told.get_mut(last) {
            cause.said.push_str("; all rows have as many fields")?;
        }
        Ok(true)
    }

    /// A table of the row of these fields alone, with right fields in the place of some.
    fn row_with(
        &self,
        version: Version,
        fields: &[Mark],
        put: &[bool; MOST_COLUMNS],
    ) -> Result<Vec<u8>, AllocError> {
        let (mut head, mut row) = (Vec::new(self.alloc), Vec::new(self.alloc));
        for (number, column) in version.columns().iter().enumerate() {
            let field = fields.get(number).copied().unwrap_or((0, 0));
            let field = match put.get(number) {
                Some(true) => right_field(*column).as_bytes(),
                _ => part(self.alarms, field.0, field.1),
            };
            let comma = if number == 0 { "" } else { "," };
            head.extend_from_slice(comma.as_bytes())?;
            head.extend_from_slice(column.name().as_bytes())?;
            row.extend_from_slice(comma.as_bytes())?;
            row.extend_from_slice(field)?;
        }
        head.push(b'\n')?;
        head.extend_from_slice(row.as_slice())?;
        Ok(head)
    }

    /// What is found in a row of these fields, with right ones in the place of some.
    fn examined_with(
        &self,
        version: Version,
        fields: &[Mark],
        put: &[bool; MOST_COLUMNS],
    ) -> Result<Examined, AllocError> {
        let text = self.row_with(version, fields, put)?;
        let examined = examine(self.alloc, text.as_slice());
        drop(text);
        examined
    }

    /// Adds what is wrong next in a row with right fields in the place of some; returns the number of its field, if one is.
    fn add_next(
        &self,
        row: WrongRow<'_>,
        put: &[bool; MOST_COLUMNS],
        found: &mut Vec<RowMistake>,
    ) -> Result<Option<usize>, AllocError> {
        let examined = self.examined_with(row.version, row.fields, put)?;
        let next = row.add(put, &examined, found);
        drop(examined);
        next
    }

    /// Adds what else is wrong in a row whose field of a number is: it is read on with a right field in the place of each that is wrong.
    fn add_all(
        &self,
        row: WrongRow<'_>,
        field: Option<usize>,
        found: &mut Vec<RowMistake>,
    ) -> Result<(), AllocError> {
        let (mut put, mut last) = ([false; MOST_COLUMNS], field);
        for _ in 0..MOST_COLUMNS {
            let Some(is_put) = last.and_then(|number| put.get_mut(number)) else {
                return Ok(());
            };
            *is_put = true;
            last = self.add_next(row, &put, found)?;
        }
        Ok(())
    }

    /// Adds what else is wrong in the row of a mistake.
    fn add_further(
        &self,
        known: &Known,
        version: Version,
        wrong: &RowMistake,
        found: &mut Vec<RowMistake>,
    ) -> Result<(), AllocError> {
        let fields = fields_of_row(self.alloc, self.alarms, wrong.at)?;
        let (at, slice) = (wrong.at, fields.as_slice());
        let row = WrongRow {
            known,
            version,
            fields: slice,
            at,
        };
        let added = if is_apart(self.alarms, slice) {
            Ok(())
        } else {
            self.add_all(row, wrong.field, found)
        };
        drop(fields);
        added
    }

    /// Adds what else is wrong in the rows of mistakes, as far as these are told.
    fn add_all_further(
        &self,
        known: &Known,
        mistakes: &[RowMistake],
        all: &mut Vec<RowMistake>,
    ) -> Result<(), AllocError> {
        let version = self.version()?;
        for wrong in mistakes.iter().take(MOST_FAULTS) {
            self.add_further(known, version, wrong, all)?;
        }
        Ok(())
    }

    /// The version that the header has by its length.
    fn version(&self) -> Result<Version, AllocError> {
        let header = fields_of_row(self.alloc, self.alarms, 0)?;
        Ok(match header.len() {
            MOST_COLUMNS => Version::Second,
            _ => Version::First,
        })
    }

    /// Tells of mistakes in rows, where these are more than 20 of those whose refusals come first, in order of text.
    fn tell_first(&mut self, units: &[Unit], all: &mut Vec<RowMistake>) -> Result<(), AllocError> {
        all.sort_by_key(stage_of)?;
        all.truncate(MOST_FAULTS);
        all.sort_unstable_by_key(|wrong| {
            let field = wrong.field.unwrap_or(0);
            wrong.at.saturating_mul(MOST_COLUMNS).saturating_add(field)
        });
        for wrong in all.as_slice() {
            self.in_row(units, wrong)?;
        }
        Ok(())
    }

    /// Tells of mistakes in rows, and of what else is wrong in these: where there are more than 20, of those whose refusals come first.
    fn tell_rows(
        &mut self,
        units: &[Unit],
        known: &Known,
        mistakes: &[RowMistake],
    ) -> Result<(), AllocError> {
        if self.all_uneven(units, mistakes)? {
            return Ok(());
        }
        let mut all = Vec::from_slice(self.alloc, mistakes)?;
        self.add_all_further(known, mistakes, &mut all)?;
        let told = self.tell_first(units, &mut all);
        drop(all);
        told
    }

    /// The table with the right names in its header, where some alone are wrong, or their order; and the byte at which the header ends there, and in the table itself.
    fn with_right_header(&self) -> Result<Option<(Vec<u8>, usize, usize)>, AllocError> {
        let fields = fields_of_row(self.alloc, self.alarms, 0)?;
        let columns = columns_near(self.alarms, fields.as_slice());
        let pairs = columns.iter().zip(&fields);
        let right = pairs.filter(|(column, field)| names(self.alarms, Some(*field), Some(*column)));
        let are_known = fields.len() == columns.len() && right.count() > 2;
        if !are_known {
            return Ok(None);
        }
        let mut text = Vec::new(self.alloc);
        for column in columns {
            text.extend_from_slice(column.name().as_bytes())?;
            text.push(b',')?;
        }
        text.pop();
        let (len, until) = (text.len(), last_of(fields.as_slice()).1);
        text.extend_from_slice(part(self.alarms, until, self.alarms.len()))?;
        Ok(Some((text, len, until)))
    }

    /// Whether the header has the columns in another order.
    fn is_reordered(&self) -> Result<bool, AllocError> {
        let fields = fields_of_row(self.alloc, self.alarms, 0)?;
        let columns = columns_near(self.alarms, fields.as_slice());
        Ok(are_reordered(self.alarms, fields.as_slice(), columns))
    }

    /// What is found in the rows below a header that is wrong, and was made right, behind what is wrong in it; none where that can't be, or the order of its
    /// columns is wrong and few rows are right by theirs.
    fn examined_below(&self, header: &[RowMistake]) -> Result<Option<Examined>, AllocError> {
        let Some((text, len, until)) = self.with_right_header()? else {
            return Ok(None);
        };
        let below = examine(self.alloc, text.as_slice());
        drop(text);
        let mut below = below?;
        if below.mistakes.len() > below.rows.len() && self.is_reordered()? {
            return Ok(None);
        }
        move_all(&mut below, (len, until));
        below.mistakes.extend_from_slice(header)?;
        Ok(Some(below))
    }

    /// What is found in the rows. Where names of the header alone are wrong, the rows below it are read with the right ones; where their order is, only if most of
    /// the rows are right by theirs.
    fn examined(&self) -> Result<Examined, AllocError> {
        let examined = examine(self.alloc, self.alarms)?;
        if examined.version.is_some() {
            return Ok(examined);
        }
        match self.examined_below(examined.mistakes.as_slice())? {
            Some(below) => Ok(below),
            None => Ok(examined),
        }
    }

    /// Tells what is wrong in the rows of a plant of units; of what they name only the areas where there are no units.
    fn in_all_rows(&mut self, units: &[Unit], known: &Known) -> Result<(), AllocError> {
        let examined = self.examined()?;
        let mut mistakes = Vec::from_slice(self.alloc, examined.mistakes.as_slice())?;
        for (at, row) in &examined.rows {
            let unknown = known.unknown_in(row);
            if let Some((column, _)) = unknown.into_iter().find(|column| column.1) {
                let field = examined.version.and_then(|version| version.place(column));
                let (at, fault) = (*at, RowFault::Unknown(column));
                mistakes.push(RowMistake { at, field, fault })?;
            }
        }
        self.tell_rows(units, known, mistakes.as_slice())
    }

    /// What the rows of the plant may name, whose units are right, or spelled rightly.
    fn known(&self, units: &[Unit], are_right: bool) -> Result<Known, AllocError> {
        let bools = match units {
            [] => None,
            _ => Some(bools_of(self.alloc, units, are_right)?),
        };
        let areas = areas_of(self.alloc, self.plant)?;
        Ok(Known { areas, bools })
    }
}

/// What is told of rows for which a plant of units is refused, which are right: of these mistakes, and of what else is wrong in their rows; where the header is
/// wrong, also of those below it. The texts are those of the plant file and of the alarm database.
pub fn wrong_rows(
    alloc: Global,
    (plant, alarms): (&[u8], &[u8]),
    units: &[Unit],
    mistakes: &[RowMistake],
) -> Result<Vec<Cause>, AllocError> {
    let mut table = Table::untold(alloc, plant, alarms);
    let known = table.known(units, true)?;
    match mistakes.first().map(|first| first.fault) {
        Some(RowFault::NoHeader) => table.in_all_rows(units, &known)?,
        _ => table.tell_rows(units, &known, mistakes)?,
    }
    Ok(table.told)
}

/// What is told of the rows of a plant that is refused for something else, of units that are spelled rightly, but may be at fault; of what the rows name only the
/// areas where there are no units. The texts are those of the plant file and of the alarm database.
pub fn rows_beside(
    alloc: Global,
    (plant, alarms): (&[u8], &[u8]),
    units: &[Unit],
) -> Result<Vec<Cause>, AllocError> {
    let mut table = Table::untold(alloc, plant, alarms);
    let known = table.known(units, false)?;
    table.in_all_rows(units, &known)?;
    Ok(table.told)
}

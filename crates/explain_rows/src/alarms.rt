//! What is wrong in the rows of the alarm database (C11 to C14), as its reader found it.

use crate::fields::{field_of, fields_of_row, last_of, row_start, unquoted};
use crate::forms::{
    form_of, has_quote_behind_digits, in_place_of_name, in_place_of_number, is_spreadsheet_error,
    strange_sign,
};
use crate::rows::all_have;
use crate::table::Table;
use crate::uneven::{are_one_row, is_latch, joined, sign_for_comma, why_fewer, why_more, why_none};
use alarm_db::{Column, RowFault, RowMistake, Version};
use explain_document::{WIDE, is_wide, strange_area};
use explain_files::{Mark, line_number};
use explain_names::no_bool_global;
use explain_tokens::part;
use st_parser::Unit;
use std::alloc::AllocError;
use std::str;

/// What is said of a field that goes on in the next line.
const GOES_ON: &str =
    "here double quotes open a field that isn't closed in its line, and so the lines behind it belong to it";

/// What a header is.
const HEADER: &str =
    "the header is tag,area,priority,condition,suppress,latch,max_shelve_ms,text, or the same with on_delay_ms before text";

/// What is said of a row of too few fields, which has the others in the next line.
const PARTED: &str = "it seems to go on in the next line, and a row is one line";

/// Whether a word says that there is nothing.
fn is_nothing(word: &str) -> bool {
    let mut nothings = ["none", "no", "null", "nothing", "never", "off", "n/a"].iter();
    nothings.any(|nothing| word.eq_ignore_ascii_case(*nothing))
}

/// Whether bytes are the name of a column, in any letter case and with blanks beside it.
fn is_column(bytes: &[u8]) -> bool {
    let name = bytes.trim_ascii();
    let mut columns = Version::Second.columns().iter();
    columns.any(|column| name.eq_ignore_ascii_case(column.name().as_bytes()))
}

/// Whether one of these fields is the name of a column.
fn names_columns(text: &[u8], fields: &[Mark]) -> bool {
    let mut names = fields.iter().map(|field| part(text, field.0, field.1));
    names.any(is_column)
}

/// Whether these fields are the names of columns and no others, as those of a header.
fn are_header(text: &[u8], fields: &[Mark]) -> bool {
    let mut names = fields.iter().map(|field| part(text, field.0, field.1));
    fields.len() > 1 && names.all(is_column)
}

/// Why the first row of a table isn't its header, which names no column; these are its fields, and those of the next row.
fn why_no_header(text: &[u8], fields: &[Mark], next: &[Mark]) -> &'static str {
    let first = field_of(fields, 0);
    let bytes = part(text, first.0, first.1);
    let is_whole = fields.len() == 1 && bytes.starts_with(b"\"") && bytes.contains(&b',');
    if are_header(text, next) {
        "the first line is the header, and this one stands before it: leave it out"
    } else if is_whole && !bytes.contains(&b'\n') {
        "double quotes stand around the whole line, and so it is one field"
    } else {
        "the first line is the header, and the table has none: tag,area,priority,.."
    }
}

/// Whether a field of a header is the name of a column; not where there is no such field or column.
pub fn names(text: &[u8], field: Option<&Mark>, column: Option<&Column>) -> bool {
    match (field, column) {
        (Some(field), Some(column)) => part(text, field.0, field.1) == column.name().as_bytes(),
        _ => false,
    }
}

/// Whether a field of a header names a column, in any letter case and with blanks beside it.
fn nearly_names(text: &[u8], field: Mark, column: &Column) -> bool {
    let name = unquoted(text, field).trim_ascii();
    name.eq_ignore_ascii_case(column.name().as_bytes())
}

/// Whether a header of fields has all of these columns and no other, but in another order.
pub fn are_reordered(text: &[u8], fields: &[Mark], columns: &[Column]) -> bool {
    let mut all = columns.iter();
    let are_there = all.all(|column| {
        let mut fields = fields.iter();
        fields.any(|field| nearly_names(text, *field, column))
    });
    let is_moved = moved_from(text, fields, columns, 0).is_some();
    are_there && is_moved && fields.len() == columns.len()
}

/// The number of the first column from one on that a header of fields doesn't have in its place.
fn moved_from(text: &[u8], fields: &[Mark], columns: &[Column], from: usize) -> Option<usize> {
    let mut numbers = from..columns.len();
    numbers.find(|number| {
        let column = columns.get(*number);
        column.is_some_and(|column| !nearly_names(text, field_of(fields, *number), column))
    })
}

/// Whether a header of fields has all of these columns in their order, and several other fields beside them.
fn has_others(text: &[u8], fields: &[Mark], columns: &[Column]) -> bool {
    let known = fields
        .iter()
        .filter(|field| is_column(unquoted(text, **field)));
    let mut pairs = columns.iter().zip(known);
    let are_there = pairs.all(|(column, field)| nearly_names(text, *field, column));
    let others = fields
        .iter()
        .filter(|field| !is_column(unquoted(text, **field)));
    let count = others.count();
    are_there && count > 1 && columns.len().saturating_add(count) == fields.len()
}

/// Whether a text begins with the header of an alarm database, or nearly so, perhaps with other signs between its names.
pub fn is_table(text: &[u8]) -> bool {
    let mut lines = text.split(|byte| matches!(*byte, b'\n' | b'\r'));
    let first = lines.next().unwrap_or(b"");
    let words = first.split(|byte| matches!(*byte, b',' | b';' | b'\t'));
    words.filter(|word| is_column(*word)).count() > 3
}

/// The field of a header that has the names of two columns, with another sign between them than a comma, or none, where the others are right; and these names.
fn joined_names(
    text: &[u8],
    fields: &[Mark],
    columns: &[Column],
) -> Option<(Mark, &'static str, &'static str)> {
    let mut numbered = columns.iter().enumerate();
    let (number, column) = numbered.find(|(number, column)| {
        !names(text, fields.get(*number), Some(*column))
    })?;
    let next = number.saturating_add(1);
    let (one, other) = (column.name(), columns.get(next)?.name());
    let field = field_of(fields, number);
    let bytes = part(text, field.0, field.1);
    let sign = bytes
        .len()
        .saturating_sub(one.len().saturating_add(other.len()));
    let last = bytes.len().saturating_sub(other.len());
    let is_last = part(bytes, last, bytes.len()) == other.as_bytes();
    let is_both = is_last && bytes.starts_with(one.as_bytes());
    let rest = columns.iter().skip(next.saturating_add(1));
    let mut pairs = rest.zip(fields.iter().skip(next));
    let are_right = pairs.all(|(column, field)| names(text, Some(field), Some(column)));
    let is_one_less = fields.len().saturating_add(1) == columns.len();
    (sign < 2 && is_both && are_right && is_one_less).then_some((field, one, other))
}

/// The columns of the version of which a header of fields nearly is: of the second where one of them tells of delays.
pub fn columns_near(text: &[u8], fields: &[Mark]) -> &'static [Column] {
    let tells_of_delays = |field: &Mark| {
        let mut parts = part(text, field.0, field.1).windows(5);
        parts.any(|part| part.eq_ignore_ascii_case(b"delay"))
    };
    if fields.iter().any(tells_of_delays) {
        Version::Second.columns()
    } else {
        Version::First.columns()
    }
}

/// The first line of a field that has several, by its bytes; `None` where the field has one line.
pub fn first_line(text: &[u8], field: Mark) -> Option<Mark> {
    let mut bytes = part(text, field.0, field.1).iter();
    let end = bytes.position(|byte| matches!(*byte, b'\n' | b'\r'))?;
    Some((field.0, field.0.saturating_add(end)))
}

/// Whether the line that begins at a byte has commas alone.
pub fn has_commas_alone(text: &[u8], from: usize) -> bool {
    let mut rest = part(text, from, text.len()).iter();
    let other = rest.find(|byte| **byte != b',');
    matches!(other, None | Some(b'\n' | b'\r'))
}

impl<'t> Table<'t> {
    /// Tells what is wrong at bytes of the alarm database, as `say` does.
    fn say_at(&mut self, mark: Mark, text: &str, words: &[&str]) -> Result<(), AllocError> {
        self.say(Some(mark), text, words)
    }

    /// Tells of a field of the header that isn't the name of a column: it is one more, before it, or the column itself is missing, or neither.
    fn misnamed_field(
        &mut self,
        field: Mark,
        column: &Column,
        (is_more, is_less): (bool, bool),
    ) -> Result<(), AllocError> {
        let name = str::from_utf8(unquoted(self.alarms, field))
            .unwrap_or("")
            .trim();
        let is_more = is_more && !is_column(name.as_bytes());
        let text = if is_less {
            "the column '%' is missing before this, which each row has too"
        } else if !is_more {
            "the header has '%' in this place, as each row has it, in small letters, and commas without blanks between its names"
        } else if name.is_empty() {
            "a column without a name stands before '%': leave it out, here and in each row"
        } else {
            "the table has no column '%': leave it out, here and in each row"
        };
        let is_named = is_more && !name.is_empty();
        let word = if is_named { name } else { column.name() };
        self.say_at(field, text, &[word])
    }

    /// Tells of a field of the header that is no column's, or stands behind all of these.
    fn one_more(&mut self, field: Mark, is_last: bool) -> Result<(), AllocError> {
        let name = str::from_utf8(unquoted(self.alarms, field))
            .unwrap_or("")
            .trim();
        if is_column(name.as_bytes()) {
            return self.say_at(field, "%, and nothing more or less", &[HEADER]);
        }
        let text = if !name.is_empty() {
            "the table has no column '%': leave it out, here and in each row"
        } else if is_last {
            "the header ends with a comma too many: leave it out, and the one that each row may have at its end"
        } else {
            "a column without a name stands here: leave it out, here and in each row"
        };
        self.say_at(field, text, &[name])
    }

    /// Tells of each field of a header that has all columns and several other fields.
    fn others(&mut self, fields: &[Mark]) -> Result<(), AllocError> {
        let (all, last) = (self.alarms, last_of(fields));
        for field in fields {
            if !is_column(unquoted(all, *field)) {
                self.one_more(*field, field.0 == last.0)?;
            }
        }
        Ok(())
    }

    /// Tells of a header that has the columns in another order: of the first that stands in another's place.
    fn reordered(&mut self, fields: &[Mark], columns: &[Column]) -> Result<(), AllocError> {
        let all = self.alarms;
        let number = moved_from(all, fields, columns, 0).unwrap_or(columns.len());
        let next = moved_from(all, fields, columns, number.saturating_add(1));
        let next = next.unwrap_or(columns.len());
        let (Some(one), Some(other)) = (columns.get(number), columns.get(next)) else {
            return Ok(());
        };
        let field = field_of(fields, number);
        if moved_from(all, fields, columns, next.saturating_add(1)).is_some() {
            let text =
                "the columns stand in another order: %; the fields of each row stand in this order too";
            return self.say_at(field, text, &[HEADER]);
        }
        let text =
            "'%' and '%' are changed about: the header has '%' first, and each row too (change its fields about where they stand as these names do)";
        let words = [other.name(), one.name(), one.name()];
        self.say_at(field, text, &words)
    }

    /// Tells of each field of the header that isn't the name of the column in its place. Where they aren't as many as the columns, or more than two are wrong, one
    /// that is too many and one that is left out move those behind them.
    fn misnamed(&mut self, fields: &[Mark]) -> Result<(), AllocError> {
        let (all, columns) = (self.alarms, columns_near(self.alarms, fields));
        let pairs = columns.iter().zip(fields);
        let wrong = pairs.filter(|(column, field)| !names(all, Some(*field), Some(*column)));
        let are_moved = fields.len() != columns.len() || wrong.count() > 2;
        let (mut number, mut place) = (0usize, 0usize);
        for _ in 0..fields.len().saturating_add(columns.len()) {
            let (Some(field), Some(column)) = (fields.get(number), columns.get(place)) else {
                break;
            };
            let is_right = names(all, Some(field), Some(column));
            let next = number.saturating_add(1);
            let is_extra = are_moved && names(all, fields.get(next), Some(column));
            let next = place.saturating_add(1);
            let lacks = !is_extra && are_moved && names(all, Some(field), columns.get(next));
            if !is_right {
                let is_more = is_extra && fields.len() > columns.len();
                let is_less = lacks && fields.len() < columns.len();
                self.misnamed_field(*field, column, (is_more, is_less))?;
            }
            number = number.saturating_add(usize::from(is_right || !lacks));
            place = place.saturating_add(usize::from(is_right || !is_extra));
        }
        if number >= fields.len() && place >= columns.len() {
            return Ok(());
        }
        let is_last = number.saturating_add(1) == fields.len();
        match columns.get(place) {
            Some(column) if number >= fields.len() => {
                let text = "behind this '%' is missing: %";
                self.say_at(last_of(fields), text, &[column.name(), HEADER])
            }
            _ => self.one_more(field_of(fields, number), is_last),
        }
    }

    /// Tells why the first record isn't the header.
    fn misheaded(&mut self, fields: &[Mark]) -> Result<(), AllocError> {
        let (all, first) = (self.alarms, field_of(fields, 0));
        if is_wide(all) {
            return self.say(None, WIDE, &[]);
        }
        if all.starts_with(b"PK\x03\x04") {
            let text =
                "this file is a spreadsheet's own, and no text: save it there as CSV in UTF-8, with commas";
            return self.say(None, text, &[]);
        }
        let columns = columns_near(all, fields);
        if let Some((field, one, other)) = joined_names(all, fields, columns) {
            return self.say_at(
                field,
                "a comma is missing between '%' and '%'",
                &[one, other],
            );
        }
        let header = part(all, first.0, first.1);
        let signs = [(b';', "semicolons"), (b'\t', "tabs")];
        if let Some((_, signs)) = signs.iter().find(|sign| header.contains(&sign.0)) {
            let text =
                "the header has % between its names, and commas are wanted: a spreadsheet may write either";
            return self.say_at(first, text, &[*signs]);
        }
        if !names_columns(all, fields) {
            let next = fields_of_row(self.alloc, all, last_of(fields).1)?;
            return self.say_at(first, why_no_header(all, fields, next.as_slice()), &[]);
        }
        if are_reordered(all, fields, columns) {
            return self.reordered(fields, columns);
        }
        if has_others(all, fields, columns) {
            return self.others(fields);
        }
        self.misnamed(fields)
    }

    /// Whether a row of too few fields seems to go on in the next line: then nothing is told of that one.
    fn is_parted(&mut self, fields: &[Mark], wanted: usize) -> Result<bool, AllocError> {
        let next = fields_of_row(self.alloc, self.alarms, last_of(fields).1)?;
        let both = joined(self.alloc, fields, next.as_slice())?;
        let are_short = fields.len() < wanted && next.len() < wanted;
        let is_parted = are_short && are_one_row(self.alarms, both.as_slice(), wanted);
        if is_parted {
            self.goes_on = field_of(next.as_slice(), 0).0;
        }
        Ok(is_parted)
    }

    /// What is said of a row of too few fields, of which it isn't certain what is left out; of one field, where not all rows have one.
    fn said_of_few(&self, fields: &[Mark], are_all: bool) -> &'static str {
        let (all, field) = (self.alarms, field_of(fields, 0));
        let bytes = part(all, field.0, field.1);
        let has_sign = bytes
            .iter()
            .any(|byte| matches!(*byte, b';' | b'\t' | b'|'));
        let (mut fours, mut fives) = (bytes.windows(4), bytes.windows(5));
        let has_latch = fours.any(|word| word.eq_ignore_ascii_case(b"TRUE"))
            || fives.any(|word| word.eq_ignore_ascii_case(b"FALSE"));
        let is_none = fields.len() == 1 && !has_sign && !has_latch && !are_all;
        let is_whole = fields
            .iter()
            .any(|field| is_latch(part(all, field.0, field.1)));
        let is_cut = fields.len() > 1 && last_of(fields).1 >= all.len() && !is_whole;
        if is_cut {
            "the file ends within this row: it has % fields, and % are wanted"
        } else if is_none && row_start(all, field.1) >= all.len() {
            "this line is no row of the table: leave it out"
        } else if is_none {
            "this line is no row of the table: leave it out (or is it the rest of the line before it?)"
        } else {
            "fields of this row: %, and % are wanted (a field or a comma left out, or a tab or a ';' in its place?)"
        }
    }

    /// Tells of a row that hasn't as many fields as are wanted.
    fn uneven(&mut self, fields: &[Mark], wanted: usize) -> Result<(), AllocError> {
        let (all, last, count) = (self.alarms, last_of(fields), fields.len());
        if let Some(first) = fields.iter().find_map(|field| first_line(all, *field)) {
            return self.say_at(first, GOES_ON, &[]);
        }
        if let Some(text) = why_none(all, fields, wanted) {
            return self.say_at(field_of(fields, 0), text, &[]);
        }
        if field_of(fields, 0).0 == self.goes_on {
            return Ok(());
        }
        let found = if self.is_parted(fields, wanted)? {
            Some((last, PARTED))
        } else if let Some(sign) = sign_for_comma(self.alloc, all, fields, wanted)? {
            Some((sign, "a comma is wanted in the place of this sign"))
        } else if count <= wanted {
            why_fewer(all, fields, wanted)
        } else {
            why_more(all, fields, wanted)
        };
        if let Some((mark, why)) = found {
            let text = "this row has % fields, and % are wanted: %";
            return self.say_counts(mark, text, (count, wanted), why);
        }
        if count <= wanted {
            let are_all = count == 1 && all_have(self.alloc, all, 1)?;
            let text = self.said_of_few(fields, are_all);
            return self.say_counts(last, text, (count, wanted), "");
        }
        let text = if last.0 == last.1 {
            "this row has % fields, and % are wanted: its line ends with a comma too many"
        } else {
            "this row has % fields, and % are wanted: a comma is too many, or a field with a comma isn't in double quotes"
        };
        self.say_counts(last, text, (count, wanted), "")
    }

    /// Tells of a row with so many fields, where so many are wanted, at a field, and why.
    fn say_counts(
        &mut self,
        field: Mark,
        text: &str,
        (count, wanted): (usize, usize),
        why: &'static str,
    ) -> Result<(), AllocError> {
        let (count, wanted) = (count.to_string(self.alloc)?, wanted.to_string(self.alloc)?);
        self.say_at(field, text, &[count.as_str(), wanted.as_str(), why])
    }

    fn malformed(&mut self, field: Mark, column: Column) -> Result<(), AllocError> {
        let all = self.alarms;
        if let Some(first) = first_line(all, field) {
            return self.say_at(first, GOES_ON, &[]);
        }
        if let Err(error) = str::from_utf8(part(all, field.0, field.1)) {
            let byte = field.0.saturating_add(error.valid_up_to());
            let mark = (byte, byte.saturating_add(1));
            return self.say_at(mark, "here the table isn't UTF-8: save it as UTF-8", &[]);
        }
        if matches!(column, Column::Tag) && has_commas_alone(all, field.0) {
            let text = "this line has commas alone, and so it is a row: leave it out";
            return self.say_at(field, text, &[]);
        }
        self.formless(field, column)
    }

    /// Tells of a field in one line, which hasn't the form of its column.
    fn formless(&mut self, field: Mark, column: Column) -> Result<(), AllocError> {
        let all = self.alarms;
        let bytes = unquoted(all, field);
        let len = bytes.len().to_string(self.alloc)?;
        let is_number = matches!(column, Column::MaxShelveMs | Column::OnDelayMs);
        let most = match column {
            Column::Text => 200,
            Column::Tag | Column::Area => 32,
            _ => usize::MAX,
        };
        let text = if bytes.len() > most {
            "% %, and this one has %"
        } else if bytes.is_empty() {
            "% %, and this field is empty"
        } else if bytes.trim_ascii().len() < bytes.len() {
            "% %, and no blanks stand beside it"
        } else if is_spreadsheet_error(bytes) {
            "% %, and this is what a spreadsheet writes where it finds no value"
        } else if is_number && has_quote_behind_digits(bytes) {
            "% %: a comma is missing before the double quote"
        } else if is_number {
            in_place_of_number(bytes)
        } else if matches!(column, Column::Condition | Column::Suppress) {
            in_place_of_name(bytes)
        } else {
            "% %"
        };
        if text == "% %" {
            if let Some((sign, called)) = strange_sign(all, field, column) {
                let words = [column.name(), form_of(column), called];
                return self.say_at(sign, "% %, and here stands %", &words);
            }
        }
        self.say_at(field, text, &[column.name(), form_of(column), len.as_str()])
    }

    /// Tells of a field with the name of an area that the plant hasn't, or of what is no BOOL global of its units.
    fn unknown(&mut self, units: &[Unit], field: Mark, column: Column) -> Result<(), AllocError> {
        let name = str::from_utf8(unquoted(self.alarms, field)).unwrap_or("");
        let said = match column {
            Column::Area => strange_area(self.alloc, self.plant, name)?,
            _ => no_bool_global(self.alloc, units, name)?,
        };
        let is_free = matches!(column, Column::Suppress) && is_nothing(name);
        if is_free && said.as_str().starts_with("no BOOL global is called") {
            let text =
                "no BOOL global is called '%'; where nothing suppresses the alarm the field is empty";
            return self.say_at(field, text, &[name]);
        }
        self.say_at(field, "%", &[said.as_str()])
    }

    /// Tells of a mistake in a row of a plant of units.
    pub fn in_row(&mut self, units: &[Unit], wrong: &RowMistake) -> Result<(), AllocError> {
        let (alloc, all) = (self.alloc, self.alarms);
        let fields = fields_of_row(alloc, all, wrong.at)?;
        let field = field_of(fields.as_slice(), wrong.field.unwrap_or(0));
        let name = str::from_utf8(unquoted(all, field)).unwrap_or("");
        let is_second = are_header(all, fields.as_slice());
        match wrong.fault {
            RowFault::NoHeader => self.misheaded(fields.as_slice()),
            RowFault::Uneven { wanted, .. } => self.uneven(fields.as_slice(), wanted),
            RowFault::Form(Column::Priority) if is_second => {
                let first = field_of(fields.as_slice(), 0);
                self.say_at(first, "the header stands here a second time", &[])
            }
            _ if is_second => Ok(()),
            RowFault::Form(column) => self.malformed(field, column),
            RowFault::Again { first } => {
                let line = line_number(all, row_start(all, first)).to_string(alloc)?;
                let text = "the tag '%' stands in line % already";
                self.say_at(field, text, &[name, line.as_str()])
            }
            RowFault::Unknown(column) => self.unknown(units, field, column),
        }
    }
}

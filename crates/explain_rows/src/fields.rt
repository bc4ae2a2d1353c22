//! The fields of a table of comma-separated values, by their bytes.

use explain_files::Mark;
use explain_tokens::part;
use std::alloc::{AllocError, Global};

/// Where the field that begins at a byte ends: at a comma or a line end that doesn't stand in quotes, or at the text's end.
fn field_end(text: &[u8], from: usize) -> usize {
    let mut in_quotes = false;
    let mut may_open = true;
    for (i, byte) in part(text, from, text.len()).iter().enumerate() {
        match *byte {
            b'"' if in_quotes => {
                in_quotes = false;
                may_open = true;
            }
            b'"' if may_open => in_quotes = true,
            b',' | b'\n' | b'\r' if !in_quotes => return from.saturating_add(i),
            _ => may_open = false,
        }
    }
    text.len()
}

/// Where the row begins that stands at a byte, or behind the line ends there; a byte order mark at the text's start is none of it.
pub fn row_start(text: &[u8], at: usize) -> usize {
    let from = match text {
        [0xEF, 0xBB, 0xBF, ..] => at.max(3),
        _ => at,
    };
    let mut rest = part(text, from, text.len()).iter();
    let more = rest.position(|byte| !matches!(*byte, b'\n' | b'\r'));
    more.map_or(text.len(), |more| from.saturating_add(more))
}

/// The fields of the row that stands at a byte, or behind the line ends there: one at least.
pub fn fields_of_row(alloc: Global, text: &[u8], at: usize) -> Result<Vec<Mark>, AllocError> {
    let mut fields = Vec::new(alloc);
    let mut from = row_start(text, at);
    for _ in 0..text.len().saturating_add(1) {
        let until = field_end(text, from);
        fields.push((from, until))?;
        if text.get(until) != Some(&b',') {
            break;
        }
        from = until.saturating_add(1);
    }
    Ok(fields)
}

/// The field of a number, or else the first.
pub fn field_of(fields: &[Mark], number: usize) -> Mark {
    let field = fields.get(number).or(fields.first());
    field.copied().unwrap_or((0, 0))
}

pub fn last_of(fields: &[Mark]) -> Mark {
    field_of(fields, fields.len().saturating_sub(1))
}

/// The bytes of a field, without the quotes around them.
pub fn unquoted(text: &[u8], field: Mark) -> &[u8] {
    let bytes = part(text, field.0, field.1);
    match bytes {
        [b'"', inner @ .., b'"'] => inner,
        _ => bytes,
    }
}

/// The rows of a table, which are gone through once.
#[derive(Drop)]
pub struct Rows<'t> {
    alloc: Global,
    text: &'t [u8],
    /// The number of the row that was reached, from 0 for the header, and its fields.
    row: usize,
    fields: Vec<Mark>,
}

impl<'t> Rows<'t> {
    pub fn new(alloc: Global, text: &'t [u8]) -> Result<Rows<'t>, AllocError> {
        Ok(Rows {
            alloc,
            text,
            row: 0,
            fields: fields_of_row(alloc, text, 0)?,
        })
    }

    /// The field of a number of the row of a number, which isn't before the one that was reached.
    pub fn field(&mut self, row: usize, number: usize) -> Result<Mark, AllocError> {
        for _ in self.row..row {
            let end = last_of(self.fields.as_slice()).1;
            self.fields = fields_of_row(self.alloc, self.text, end)?;
        }
        self.row = row;
        Ok(field_of(self.fields.as_slice(), number))
    }
}

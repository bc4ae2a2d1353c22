//! The forms of fields.

ghost use Rattle.std.specs.Prelude.{◌≡◌, ◌≤◌, if◌then◌else◌, Some, None, true};
ghost use Rattle.std.specs.Str.{is_utf8};
ghost use Rattle.std.specs.Str.Parse.{digits_value};
ghost use Rattle.std.specs.List.{list_all};
ghost use Rattle.plant_types.specs.Words.{is_name, is_tag};
ghost use Rattle.alarm_db.specs.Forms.{has_digits, has_form, is_text, is_text_byte, latches, latches_not};

use crate::column::Column;
use alarm_machine::LONGEST_SHELVE_MS;
use plant_types::{is_name, is_tag, same_word};
use std::str;

/// The longest on-delay: a day.
pub const LONGEST_DELAY_MS: u64 = 86_400_000;

/// Parses a number of 1 to `most` decimal digits; `None` for any other field.
pub(crate) fn number(field: &[u8], most: usize) -> Option<u64>
    requires { most ≤ 19 }
    ensures { result ≡ (if has_digits most field.now then Some (digits_value 10 field.now) else None) }
{
    if field.is_empty() || field.len() > most {
        return None;
    }
    let mut n: u64 = 0;
    for byte in field {
        if !byte.is_ascii_digit() {
            return None;
        }
        n = n * 10 + u64::from(*byte - b'0');
    }
    Some(n)
}

/// Whether a field says that an alarm latches: TRUE in any letter case, or 1.
pub(crate) fn latches(field: &[u8]) -> bool
    ensures { result ≡ latches field.now }
{
    same_word(field, b"true") || field == b"1".as_slice()
}

/// Whether a field says that an alarm doesn't latch: FALSE in any letter case, or 0.
fn latches_not(field: &[u8]) -> bool
    ensures { result ≡ latches_not field.now }
{
    same_word(field, b"false") || field == b"0".as_slice()
}

/// Whether a text for operators may have this byte: no control character of ASCII.
fn is_text_byte(byte: u8) -> bool
    ensures { result ≡ is_text_byte byte }
{
    byte >= 32 && byte != 127
}

/// Whether a text for operators may have each of these bytes. It looks at all of them, so that many can be looked at at once.
fn are_text_bytes(field: &[u8]) -> bool
    ensures { result ≡ list_all is_text_byte field.now }
{
    let mut all = true;
    for byte in field {
        all &= is_text_byte(*byte);
    }
    all
}

fn is_utf8(field: &[u8]) -> bool
    ensures { result ≡ is_utf8 field.now }
{
    str::from_utf8(field).is_ok()
}

/// Whether a field is a text for operators: at most 200 bytes of UTF-8, without control characters of ASCII.
fn is_text(field: &[u8]) -> bool
    ensures { result ≡ is_text field.now }
{
    field.len() <= 200 && are_text_bytes(field) && is_utf8(field)
}

pub(crate) fn has_form(column: Column, field: &[u8]) -> bool
    ensures { result ≡ has_form column field.now }
{
    match column {
        Column::Tag | Column::Area => is_tag(field),
        Column::Priority => matches!(number(field, 1), Some(1..=4)),
        Column::Condition => is_name(field),
        Column::Suppress => field.is_empty() || is_name(field),
        Column::Latch => latches(field) || latches_not(field),
        Column::MaxShelveMs => matches!(number(field, 10), Some(0..=LONGEST_SHELVE_MS)),
        Column::OnDelayMs => matches!(number(field, 10), Some(0..=LONGEST_DELAY_MS)),
        Column::Text => is_text(field),
    }
}

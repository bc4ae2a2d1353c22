//! Which form a field has, and what stands in it that isn't of this form.

use alarm_db::Column;
use explain_files::Mark;
use explain_tokens::{fits, part};
use std::str;

/// The form of a column's fields, as it is told behind the column's name.
pub fn form_of(column: Column) -> &'static str {
    match column {
        Column::Tag | Column::Area => "has 1 to 32 letters of ASCII, digits, '_', '-' and '.'",
        Column::Priority => "is 1, 2, 3 or 4, of which 1 is the highest",
        Column::Condition =>
            "is the name of a global: a letter or '_', then letters, digits and '_'",
        Column::Suppress => "is empty, or the name of a global",
        Column::Latch => "is TRUE or FALSE",
        Column::MaxShelveMs =>
            "is a number of milliseconds in digits alone, at most 2592000000, without a unit",
        Column::OnDelayMs =>
            "is a number of milliseconds in digits alone, at most 86400000, without a unit",
        Column::Text => "has at most 200 bytes of UTF-8, without tabs and other signs of control",
    }
}

/// What a sign that isn't of ASCII is called, where it can't be seen or looks like another one.
fn called(sign: &[u8]) -> &'static str {
    match sign {
        [0xC2, 0xA0] => "a no-break space, which isn't of ASCII",
        [0xC2, 0xAD] => "a soft hyphen, which isn't of ASCII",
        [0xE2, 0x80, 0x80..=0x8A | 0xAF] => "a blank of another width, which isn't of ASCII",
        [0xE2, 0x80, 0x8B..=0x8F] | [0xEF, 0xBB, 0xBF] =>
            "a sign without width, which isn't of ASCII",
        [0xE2, 0x80, 0x90 | 0x91] => "another hyphen, which isn't of ASCII",
        [0xE2, 0x80, 0x92..=0x95] | [0xE2, 0x88, 0x92] => "a dash, which isn't of ASCII",
        [0xE2, 0x80, 0x98..=0x9F] => "a typographic quote, which isn't of ASCII",
        [b' '] => "a blank",
        [b'\t'] => "a tab",
        [b'#'] => "'#' (the table has no remarks)",
        [b'/'] => "'/'",
        [b'.'] => "'.'",
        [b','] => "','",
        [b'-'] => "'-'",
        [b'+'] => "'+'",
        [b';'] => "';', and one alone is named",
        [b'='] => "'='",
        [b':'] => "':'",
        [b'&'] => "'&'",
        [b'('] => "'('",
        [b')'] => "')'",
        [b'_'] => "'_'",
        [b'\''] => "a quote",
        [byte] if byte.is_ascii() => "a sign that is none of these",
        _ => "a sign that isn't of ASCII",
    }
}

/// Whether a byte stands in no right field of a column.
fn is_strange(column: Column, byte: u8) -> bool {
    match column {
        Column::Tag | Column::Area => {
            !byte.is_ascii_alphanumeric() && !matches!(byte, b'_' | b'-' | b'.')
        }
        Column::MaxShelveMs | Column::OnDelayMs => {
            matches!(byte, b'.' | b',' | b'-' | b'+' | b'_' | b'\'' | b' ') || !byte.is_ascii()
        }
        Column::Condition | Column::Suppress => byte == b'-' || !byte.is_ascii(),
        Column::Priority | Column::Latch => !byte.is_ascii(),
        Column::Text => false,
    }
}

/// The first sign of a field that stands in no right one of its column, by its bytes, and what it is called; `None` where none is certain.
pub fn strange_sign(text: &[u8], field: Mark, column: Column) -> Option<(Mark, &'static str)> {
    let bytes = part(text, field.0, field.1);
    let quotes = usize::from(bytes.starts_with(b"\""));
    let inside = part(bytes, quotes, bytes.len().saturating_sub(quotes));
    let at = inside.iter().position(|byte| is_strange(column, *byte))?;
    let first = inside.get(at).copied().unwrap_or(0);
    let mut rest = part(inside, at.saturating_add(1), inside.len()).iter();
    let more = match first {
        0x80..=0xFF => rest.position(|byte| !matches!(*byte, 0x80..=0xBF)),
        _ => Some(0),
    };
    let behind = at.saturating_add(1);
    let until = more.map_or(inside.len(), |more| behind.saturating_add(more));
    let from = field.0.saturating_add(quotes);
    let mark = (from.saturating_add(at), from.saturating_add(until));
    Some((mark, called(part(inside, at, until))))
}

/// Whether a field has digits, and a double quote right behind them.
pub fn has_quote_behind_digits(bytes: &[u8]) -> bool {
    let digits = bytes
        .iter()
        .take_while(|byte| byte.is_ascii_digit())
        .count();
    digits > 0 && bytes.get(digits) == Some(&b'"')
}

/// Whether a field is what a spreadsheet writes in the place of a value that it hasn't.
pub fn is_spreadsheet_error(bytes: &[u8]) -> bool {
    let errors = "#REF!|#N/A|#NAME?|#VALUE!|#DIV/0!|#NULL!|#NUM!";
    fits(errors, str::from_utf8(bytes).unwrap_or(""))
}

/// Whether a field is a number with an exponent, as 6E+05.
fn has_exponent(bytes: &[u8]) -> bool {
    let is_number = |part: &[u8]| {
        let mut signs = part.iter();
        !part.is_empty() && signs.all(|sign| sign.is_ascii_digit() || b".,+-".contains(sign))
    };
    let mut parts = bytes.split(|byte| matches!(*byte, b'E' | b'e'));
    let before = parts.next().unwrap_or(b"");
    let behind = parts.next().unwrap_or(b"");
    is_number(before) && is_number(behind) && parts.next().is_none()
}

/// What is said of a field in the place of a number of milliseconds; `% %` where nothing more than its form.
pub fn in_place_of_number(bytes: &[u8]) -> &'static str {
    let mut letters = bytes.iter();
    let is_parted = letters.all(|byte| byte.is_ascii_digit() || matches!(*byte, b'.' | b','));
    if matches!(bytes, [b'1'..=b'9', ..]) && bytes.iter().all(|byte| byte.is_ascii_digit()) {
        "% %, and this one is larger"
    } else if has_exponent(bytes) {
        "% %, and without an exponent, which a spreadsheet may write"
    } else if is_parted && !bytes.is_empty() {
        "% %, with neither a fraction nor a sign between its thousands"
    } else {
        "% %"
    }
}

/// What a field has that isn't the name of a global, in the place of one.
pub fn in_place_of_name(name: &[u8]) -> &'static str {
    let is_sign = |byte: &u8| b"=<>!&|+*/()".contains(byte);
    let is_operator = |word: &[u8]| fits("NOT|AND|OR|XOR", str::from_utf8(word).unwrap_or(""));
    let mut words = name.split(|byte| *byte == b' ');
    let has_operator = words.any(|word| is_operator(word));
    match name.trim_ascii() {
        [b'%', ..] => "% %: an address stands in a source, beside the name of its global",
        name if name.iter().any(|byte| is_sign(byte)) || has_operator =>
            "% %: a program assigns an expression to a BOOL global, and that one is named here",
        name if name.contains(&b' ') => "% %, and a name has no blank in it",
        name if name.iter().any(|byte| matches!(*byte, b';' | b',')) =>
            "% %, and one alone is named",
        name if name.contains(&b'.') => "% %, and no other name with '.' before it",
        [b'0'..=b'9', ..] => "% %, and none begins with a digit",
        _ => "% %",
    }
}

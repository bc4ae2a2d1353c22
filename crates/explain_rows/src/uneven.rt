//! Why a row hasn't as many fields as are wanted.

use crate::fields::{field_of, last_of};
use explain_files::Mark;
use explain_tokens::{fits, part};
use std::alloc::{AllocError, Global};
use std::str;

/// Fields of a row, and what is said of it at one of them.
pub type Why = (Mark, &'static str);

/// The bytes of a field of a number; none where there is no such field.
fn bytes_of<'t>(text: &'t [u8], fields: &[Mark], number: usize) -> &'t [u8] {
    let field = fields.get(number).copied().unwrap_or((0, 0));
    part(text, field.0, field.1)
}

fn are_digits(bytes: &[u8]) -> bool {
    !bytes.is_empty() && bytes.iter().all(|byte| byte.is_ascii_digit())
}

/// How often a byte stands in others.
fn count_of(bytes: &[u8], byte: u8) -> usize {
    bytes.iter().filter(|other| **other == byte).count()
}

/// Whether the fields from one on, that is left out, have the forms of a priority, a condition, a latch and a number of milliseconds in their places.
fn are_row(text: &[u8], fields: &[Mark], first: usize, left_out: usize) -> bool {
    let bytes = |column: usize| {
        let number = first.saturating_add(column);
        let behind = usize::from(number >= left_out);
        bytes_of(text, fields, number.saturating_add(behind))
    };
    let is_named = !bytes(1).is_empty() && !bytes(3).is_empty();
    is_latch(bytes(5)) && is_named && matches!(bytes(2), [b'1'..=b'4']) && are_digits(bytes(6))
}

/// Whether the fields of a row but for one that is left out stand in their places before the text.
fn are_right_before_text(text: &[u8], fields: &[Mark], wanted: usize, left_out: usize) -> bool {
    let delay = 7usize.saturating_add(usize::from(left_out <= 7));
    let has_delay = wanted < 9 || are_digits(bytes_of(text, fields, delay));
    has_delay && are_row(text, fields, 0, left_out)
}

/// Whether a field seems to be a delay: a number, perhaps with a unit, or a duration of the language.
fn seems_delay(bytes: &[u8]) -> bool {
    let digits = bytes
        .iter()
        .take_while(|byte| byte.is_ascii_digit())
        .count();
    let unit = part(bytes, digits, bytes.len());
    let is_unit = fits("ms|s|m|min|h", str::from_utf8(unit).unwrap_or(""));
    let has_unit = unit.is_empty() || is_unit;
    digits > 0 && has_unit || matches!(bytes, [b'T' | b't', b'#', ..])
}

/// Whether a field has a double quote behind blanks at its beginning, which isn't closed in the field.
fn has_late_quote(bytes: &[u8]) -> bool {
    let trimmed = bytes.trim_ascii_start();
    trimmed.len() < bytes.len() && trimmed.starts_with(b"\"") && count_of(bytes, b'"') % 2 == 1
}

/// Whether a field in double quotes has one behind a '\'.
fn has_backslash(bytes: &[u8]) -> bool {
    let mut pairs = bytes.windows(2);
    bytes.starts_with(b"\"") && pairs.any(|pair| pair == b"\\\"".as_slice())
}

/// Whether a field begins in double quotes, and goes on behind the second of these, which isn't doubled.
fn has_early_quote(bytes: &[u8]) -> bool {
    let mut is_odd = false;
    for byte in part(bytes, 1, bytes.len()) {
        if is_odd && *byte != b'"' {
            return bytes.starts_with(b"\"");
        }
        is_odd = *byte == b'"' && !is_odd;
    }
    false
}

/// What is said of a field of a row that has too many, by how it is written; `None` where nothing is certain.
fn said_of_quotes(bytes: &[u8]) -> Option<&'static str> {
    if has_late_quote(bytes) {
        Some(
            "a text with a comma stands in double quotes, and no blank stands before the first of these",
        )
    } else if has_backslash(bytes) {
        Some("a double quote in a text is written twice, \"\", and not with '\\'")
    } else if has_early_quote(bytes) {
        Some("a double quote in a text is written twice, \"\", and so this text ends too early")
    } else if matches!(
        bytes,
        [0xE2, 0x80, 0x98..=0x9F, ..] | [0xC2, 0xAB | 0xBB, ..]
    ) {
        Some(
            "a text with a comma stands in double quotes, straight ones, and not in typographic ones",
        )
    } else {
        None
    }
}

/// Why the fields of a row are too many, by how one of these is written, up to the text's.
fn by_quotes(text: &[u8], fields: &[Mark], wanted: usize) -> Option<Why> {
    let mut whys = fields.iter().take(wanted).filter_map(|field| {
        let said = said_of_quotes(part(text, field.0, field.1));
        said.map(|said| (*field, said))
    });
    whys.next()
}

/// The empty field of a row without which its fields stand in their places.
fn empty_one(text: &[u8], fields: &[Mark], wanted: usize) -> Option<Mark> {
    let mut numbered = fields
        .iter()
        .enumerate()
        .take(fields.len().saturating_sub(1));
    let found = numbered.find(|(number, field)| {
        let is_empty = field.0 == field.1;
        is_empty && are_right_before_text(text, fields, wanted, *number)
    });
    found.map(|(_, field)| (field.0, field.0.saturating_add(1)))
}

/// How many fields, from one on, have three digits each.
fn thousands(text: &[u8], fields: &[Mark], first: usize) -> usize {
    let behind = fields.iter().skip(first);
    let threes = behind.take_while(|field| {
        let bytes = part(text, field.0, field.1);
        bytes.len() == 3 && are_digits(bytes)
    });
    threes.count()
}

/// The bytes of a number that commas part, which begins in a field and is so much too many fields.
fn parted_number(text: &[u8], fields: &[Mark], first: usize, extra: usize) -> Option<Mark> {
    let begun = bytes_of(text, fields, first);
    let is_begun = !matches!(begun, [] | [b'0', ..] | [_, _, _, _, ..]) && are_digits(begun);
    let next = first.saturating_add(1);
    let is_parted = is_begun && thousands(text, fields, next) == extra;
    let last = first.saturating_add(extra);
    is_parted.then_some((field_of(fields, first).0, field_of(fields, last).1))
}

/// Where a second row begins in the line of a row: behind the text of the first, or in it.
fn second_row(text: &[u8], fields: &[Mark], wanted: usize) -> Option<Mark> {
    let last = fields.len();
    let begun = wanted.saturating_sub(1);
    if last < begun.saturating_add(wanted) || !are_row(text, fields, 0, last) {
        return None;
    }
    if are_row(text, fields, begun, last) {
        Some(field_of(fields, begun))
    } else {
        are_row(text, fields, wanted, last).then_some(field_of(fields, wanted))
    }
}

/// The bytes of a row from the field of its text on, where all before it stands in its places.
fn text_of(text: &[u8], fields: &[Mark], wanted: usize) -> Option<Mark> {
    let from = field_of(fields, wanted.saturating_sub(1)).0;
    let last = last_of(fields);
    let is_text = last.0 < last.1 && are_right_before_text(text, fields, wanted, fields.len());
    is_text.then_some((from, last.1))
}

/// Whether bytes may be the name of a global.
fn is_name(bytes: &[u8]) -> bool {
    let mut letters = bytes.iter();
    let are_letters = letters.all(|byte| byte.is_ascii_alphanumeric() || *byte == b'_');
    are_letters && !matches!(bytes, [] | [b'0'..=b'9', ..]) && !is_latch(bytes)
}

/// Whether a row has one field too many, and three names between its priority and its latch.
fn are_three_names(text: &[u8], fields: &[Mark], wanted: usize) -> bool {
    let names = fields.iter().skip(3).take(3);
    let mut names = names.map(|field| part(text, field.0, field.1));
    let is_one_more = fields.len() == wanted.saturating_add(1);
    is_one_more && names.all(is_name) && are_right_before_text(text, fields, wanted, 5)
}

/// Why a row of fields has more of them than are wanted, as far as that is certain.
pub fn why_more(text: &[u8], fields: &[Mark], wanted: usize) -> Option<Why> {
    let extra = fields.len().saturating_sub(wanted);
    let delay = bytes_of(text, fields, 7);
    let is_delay = extra == 1 && wanted == 8 && delay.len() > 2 && seems_delay(delay);
    let empty = match extra {
        1 => empty_one(text, fields, wanted),
        _ => None,
    };
    let delayed = match wanted {
        9 => parted_number(text, fields, 7, extra),
        _ => None,
    };
    let parted = parted_number(text, fields, 6, extra).or(delayed);
    if let Some(mark) = second_row(text, fields, wanted) {
        let said = "a second row begins in this line, and a line break is missing before it";
        Some((mark, said))
    } else if let Some(why) = by_quotes(text, fields, wanted) {
        Some(why)
    } else if let Some(mark) = parted {
        Some((mark, "a number of milliseconds has no commas"))
    } else if is_delay && are_row(text, fields, 0, fields.len()) {
        let said = "it seems to have a delay, and the header has no 'on_delay_ms' before 'text'";
        Some((field_of(fields, 7), said))
    } else if let Some(mark) = empty {
        Some((mark, "here is a comma too many"))
    } else if are_three_names(text, fields, wanted) {
        let said = "condition and suppress are one name each, and these are three";
        Some(((field_of(fields, 3).0, field_of(fields, 5).1), said))
    } else {
        let mark = text_of(text, fields, wanted)?;
        Some((mark, "a text with a comma stands in double quotes"))
    }
}

pub fn is_latch(bytes: &[u8]) -> bool {
    bytes == b"TRUE".as_slice() || bytes == b"FALSE".as_slice()
}

/// Which field of a row is left out, where one is, at the number of another; `None` where it isn't certain.
fn one_left_out(text: &[u8], fields: &[Mark], wanted: usize) -> Option<(usize, &'static str)> {
    let bytes = |number: usize| bytes_of(text, fields, number);
    let is_begun = matches!(bytes(2), [b'1'..=b'4']) && !bytes(1).is_empty();
    if !is_begun || fields.len().saturating_add(1) != wanted {
        return None;
    }
    let mut behind = fields.iter().skip(6);
    let are_numbers = behind.all(|field| are_digits(part(text, field.0, field.1)));
    let has_latch = is_latch(bytes(5));
    match bytes(6) {
        _ if is_latch(bytes(4)) && are_digits(bytes(5)) => Some((
            3,
            "between priority and latch stand condition and suppress, with a comma behind each, also behind an empty one",
        )),
        _ if is_latch(bytes(4)) => None,
        _ if are_digits(bytes(5)) && !bytes(3).is_empty() && bytes(4).is_empty() => Some((
            5,
            "before its number of milliseconds its latch is missing, TRUE or FALSE",
        )),
        _ if !has_latch => None,
        _ if are_numbers => Some((
            fields.len().saturating_sub(1),
            "its text is missing; before an empty one stands a comma too",
        )),
        [b'A'..=b'Z' | b'a'..=b'z' | b'"', rest @ ..] if wanted == 8 && rest.contains(&b' ') =>
            Some((6, "its max_shelve_ms is missing, before its text")),
        _ => None,
    }
}

/// The fields of two rows as those of one, which is parted in a field, or beside one.
pub fn joined(alloc: Global, fields: &[Mark], next: &[Mark]) -> Result<Vec<Mark>, AllocError> {
    let (mut all, mut rest) = (Vec::from_slice(alloc, fields)?, next.iter());
    let first = rest.next().copied().unwrap_or((0, 0));
    if first.0 < first.1 {
        all.pop();
        all.push(first)?;
    }
    for field in rest {
        all.push(*field)?;
    }
    Ok(all)
}

/// Whether fields are those of a whole row.
pub fn are_one_row(text: &[u8], fields: &[Mark], wanted: usize) -> bool {
    fields.len() == wanted && are_right_before_text(text, fields, wanted, wanted)
}

/// The fields of a row, of which one is parted at a byte, as by a comma.
fn parted_at(alloc: Global, fields: &[Mark], at: usize) -> Result<Vec<Mark>, AllocError> {
    let mut all = Vec::new(alloc);
    for field in fields {
        if field.0 <= at && at < field.1 {
            all.push((field.0, at))?;
            all.push((at.saturating_add(1), field.1))?;
        } else {
            all.push(*field)?;
        }
    }
    Ok(all)
}

/// The first blank, tab or ';' of a row that would be right with a comma in its place; `None` where there is none.
pub fn sign_for_comma(
    alloc: Global,
    text: &[u8],
    fields: &[Mark],
    wanted: usize,
) -> Result<Option<Mark>, AllocError> {
    let (from, mut found) = (field_of(fields, 0).0, None);
    for (number, byte) in part(text, from, last_of(fields).1).iter().enumerate() {
        if found.is_none() && matches!(*byte, b' ' | b'\t' | b';') {
            let at = from.saturating_add(number);
            let parted = parted_at(alloc, fields, at)?;
            if are_one_row(text, parted.as_slice(), wanted) {
                found = Some((at, at.saturating_add(1)));
            }
        }
    }
    Ok(found)
}

/// Why a row of fields has fewer of them than are wanted, as far as that is certain.
pub fn why_fewer(text: &[u8], fields: &[Mark], wanted: usize) -> Option<Why> {
    let is_first = wanted == 9 && fields.len() == 8 && are_row(text, fields, 0, 8);
    if is_first && !are_digits(bytes_of(text, fields, 7)) {
        let said =
            "it has no delay, which stands before the text where the header has 'on_delay_ms'";
        return Some((field_of(fields, 7), said));
    }
    let (number, said) = one_left_out(text, fields, wanted)?;
    Some((field_of(fields, number), said))
}

/// What is said of a row that is no row at all, or one field; `None` where nothing certain is.
pub fn why_none(text: &[u8], fields: &[Mark], wanted: usize) -> Option<&'static str> {
    let bytes = bytes_of(text, fields, 0);
    let is_version = bytes.starts_with(b"<<<<<<<") || bytes.starts_with(b">>>>>>>");
    let is_whole = bytes.starts_with(b"\"") && bytes.last() == Some(&b'"');
    let has = |byte: u8| count_of(bytes, byte).saturating_add(1) >= wanted;
    match bytes.trim_ascii_start() {
        [b'#', ..] => Some("the table has no remarks: each line is a row"),
        _ if is_version || bytes == b"=======".as_slice() => Some(
            "marks as <<<<<<< and >>>>>>> stand around two versions of a text: keep one, and delete these lines",
        ),
        _ if fields.len() > 1 => None,
        [] => Some(
            "this line has blanks alone, and so it is a row: leave it empty, or leave it out",
        ),
        _ if is_whole && has(b',') => Some(
            "double quotes stand around the whole row, and so it is one field",
        ),
        _ if has(b';') => Some("commas part the fields of a row, and this one has semicolons"),
        _ if has(b'\t') => Some("commas part the fields of a row, and this one has tabs"),
        [b';', ..] | [b'/', b'/' | b'*', ..] | [b'(', b'*', ..] | [b'-', b'-', ..] => Some(
            "the table has no remarks and no lines between rows: each line is a row",
        ),
        _ => None,
    }
}

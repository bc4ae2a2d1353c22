//! Tables of what is said. They are texts, and each of their lines is a rule; the first that fits tells.

use crate::cause::part;
use crate::tokens::opens_section;
use plant_types::same_word;
use std::str;

/// The keyword that closes what a keyword opens; empty for what opens nothing.
pub fn closing_of(sign: &str) -> &'static str {
    match sign {
        "IF" => "END_IF",
        "CASE" => "END_CASE",
        "FOR" => "END_FOR",
        "PROGRAM" => "END_PROGRAM",
        "FUNCTION_BLOCK" => "END_FUNCTION_BLOCK",
        _ if opens_section(sign) => "END_VAR",
        _ => "",
    }
}

/// Whether a sign is that of a keyword which closes something.
pub fn is_closing(sign: &str) -> bool {
    sign.starts_with("END_")
}

/// Whether a sign is that of a keyword.
fn is_keyword(sign: &str) -> bool {
    matches!(sign.as_bytes(), [b'A'..=b'Z', ..])
}

/// Whether a sign is that of a keyword which may stand inside of a declaration or an expression.
fn is_inner(sign: &str) -> bool {
    matches!(
        sign,
        "BOOL" | "DINT" | "TIME" | "TRUE" | "FALSE" | "NOT" | "AND" | "OR" | "XOR"
    ) || matches!(sign, "MOD" | "AT" | "ARRAY" | "OF")
}

/// Whether a word of a pattern that is none of the signs stands for one.
fn stands_for(one: &[u8], sign: &str) -> bool {
    let is = |name: &str| one == name.as_bytes();
    match one.len() {
        1 => is("_"),
        4 if is("none") => sign.is_empty(),
        4 if is("UNIT") => matches!(sign, "PROGRAM" | "FUNCTION_BLOCK"),
        4 if is("KIND") => matches!(sign, "BOOL" | "DINT" | "TIME"),
        4 if is("PART") => {
            is_closing(sign) || matches!(sign, "IF" | "CASE" | "FOR" | "ELSIF" | "ELSE")
        }
        5 if is("OUTER") => is_keyword(sign) && !is_inner(sign),
        7 if is("KEYWORD") => is_keyword(sign),
        7 if is("CLOSING") => is_closing(sign),
        7 if is("SECTION") => opens_section(sign),
        _ => false,
    }
}

/// Whether one of the words of a pattern, which stand between `|`, is a sign or stands for it.
fn fits_one(pattern: &[u8], sign: &str) -> bool {
    let mut words = pattern.split(|byte| *byte == b'|');
    words.any(|one| same_word(one, sign.as_bytes()) || stands_for(one, sign))
}

/// Whether one of the words of a pattern, which stand between `|`, is a sign or stands for it: `none` where there is no token, `_` for any sign, KEYWORD for
/// those of keywords; of these CLOSING for those that close something, SECTION and UNIT for those that open one, PART for those with which a statement begins
/// or goes on or which close something, KIND for those of kinds, and OUTER for those with which anything but a part of an expression or a declaration begins or
/// goes on.
pub fn fits(pattern: &str, sign: &str) -> bool {
    fits_one(pattern.as_bytes(), sign)
}

/// What a line of a table says of signs; `None` where one of its patterns doesn't fit.
fn said_in<'a>(line: &'a [u8], signs: &[&str]) -> Option<&'a [u8]> {
    let mut rest = line;
    for sign in signs {
        match rest.iter().position(|byte| *byte == b' ') {
            Some(len) if fits_one(part(rest, 0, len), sign) => {
                rest = part(rest, len.saturating_add(1), rest.len());
            }
            _ => return None,
        }
    }
    Some(rest)
}

/// What a table says of signs; empty where it says nothing. Each line has a pattern for each of them, and then what is said.
pub fn said_of(table: &'static str, signs: &[&str]) -> &'static str {
    let mut lines = table.as_bytes().split(|byte| *byte == b'\n');
    let said = lines.find_map(|line| said_in(line, signs));
    str::from_utf8(said.unwrap_or(b"")).unwrap_or("")
}

//! What begins no token (C4).

use explain_tokens::{Cause, cause_at, fits, part};
use plant_types::{is_name_byte, same_word};
use std::alloc::{AllocError, Global};
use std::str;

/// Where the rules of spelling stand.
const SPELLING: &str = "docs/LANGUAGE.md, \"Spelling\"";

/// What is said of marks that begin no token, and of characters that aren't of ASCII: the first line that has the mark tells, or that lists the character.
const MARKS: &str = "\
(* a comment begins here, and no *) ends it
/* a comment begins here, and no */ ends it
\" texts in quotes aren't part of the language
' texts in quotes aren't part of the language
{ braces aren't part of the language: there are no pragmas, words as THEN and END_IF enclose statements, and a remark is written // .. or (* .. *)
} braces aren't part of the language: there are no pragmas, and words as THEN and END_IF enclose statements
% this is no address: one is written as %IX0.0, %QD4 or %M*; a remainder is n MOD 2
!-- a remark is written // .. or (* .. *)
!= unequal is written <>
~= unequal is written <>
! not is written NOT, as in NOT a
~ not is written NOT, as in NOT a
| or is written OR, as in a OR b
^ either, and not both, is written XOR; pointers and powers aren't part of the language
?= an assignment is written :=
? this isn't part of the language: an IF chooses between two values
\\ a statement goes on in the next line without a mark, up to its ;
# a remark is written // .. or (* .. *)
\u{a0} this is a no-break space, which only looks like a blank: put a blank in its place
\u{feff} this is a byte order mark, which can't be seen: it may stand at the start of a file alone, so delete it
\u{2000}\u{2001}\u{2002}\u{2003}\u{2004}\u{2005}\u{2006}\u{2007}\u{2008}\u{2009}\u{200a}\u{202f}\u{3000} this only looks like a blank: put a blank in its place
\u{200b}\u{200c}\u{200d}\u{200e}\u{200f}\u{2060}\u{ad} this character can't be seen: delete it
‐‑‒–—―− this is a dash, which only looks like a minus: put a - in its place
‘’‚‛“”„‟«» texts in quotes aren't part of the language
→⇒ an output is taken with =>, as in t(Q => b)
← an assignment is written :=
≠ unequal is written <>
≤ at most is written <=
≥ at least is written >=
×· a product is written with *, as in n * 2
÷ a quotient is written with /, as in n / 2
！＂＃＄％＆＇（）＊＋，－．／０１２３４５６７８９：；＜＝＞？＠ＡＢＣＤＥＦＧＨＩＪＫＬＭＮＯＰＱＲＳＴＵＶＷＸＹＺ［＼］＾＿｀ａｂｃｄｅｆｇｈｉｊｋｌｍｎｏｐｑｒｓｔｕｖｗｘｙｚ｛｜｝～\u{37e} this only looks like a character of ASCII: type that in its place
";

/// With how many letters, digits, underscores, `#` and points bytes begin.
pub fn run_len(bytes: &[u8]) -> usize {
    bytes
        .iter()
        .take_while(|byte| is_name_byte(**byte) || matches!(**byte, b'#' | b'.'))
        .count()
}

/// How many bytes stand behind the first one in its line and before the next mark there.
pub fn quoted_len(bytes: &[u8], mark: u8) -> usize {
    let inside = part(bytes, 1, bytes.len());
    let is_inside = |byte: &u8| *byte != mark && *byte != b'\n';
    inside.iter().take_while(|byte| is_inside(*byte)).count()
}

/// Whether a quote that bytes begin with is closed in its line.
fn is_quoted(bytes: &[u8], mark: u8) -> bool {
    bytes.get(quoted_len(bytes, mark).saturating_add(1)) == Some(&mark)
}

/// The character that bytes begin with; empty where they begin with none.
pub fn first_character(bytes: &[u8]) -> &str {
    let mut lengths = 1..5;
    let found = lengths.find_map(|len| str::from_utf8(part(bytes, 0, len)).ok());
    found.unwrap_or("")
}

/// Whether letters are those of a unit of time.
fn is_unit(letters: &[u8]) -> bool {
    fits("d|h|m|s|ms", str::from_utf8(letters).unwrap_or(""))
}

/// Whether a number of a duration has a point, and another number follows it.
fn has_early_point(parts: &[u8]) -> bool {
    let mut behind = parts
        .iter()
        .skip_while(|byte| **byte != b'.')
        .skip_while(|byte| !byte.is_ascii_alphabetic());
    behind.any(|byte| byte.is_ascii_digit())
}

/// Whether bytes begin with a blank and a unit of time.
fn has_unit_apart(bytes: &[u8]) -> bool {
    let word = part(bytes, 1, bytes.len());
    let len = word.iter().take_while(|byte| is_name_byte(**byte)).count();
    bytes.starts_with(b" ") && is_unit(part(word, 0, len))
}

/// Whether letters are a unit of time behind one that looks like a digit.
fn looks_like_digit(letters: &[u8]) -> bool {
    match letters {
        [b'o' | b'O' | b'l' | b'I', unit @ ..] => is_unit(unit),
        _ => false,
    }
}

/// Why a duration isn't allowed, by what stands behind its `#` and the bytes behind all that.
fn duration_fault(parts: &[u8], behind: &[u8]) -> &'static str {
    let mut words = parts.split(|byte| !byte.is_ascii_alphabetic());
    let mut units = parts.split(|byte| !byte.is_ascii_alphabetic());
    match parts {
        [] => "' is no duration: right behind the # stand numbers and their units, as in T#1m30s",
        _ if words.any(looks_like_digit) =>
            "' is no duration: a letter stands in it that only looks like a digit",
        _ if units.any(|word| !word.is_empty() && !is_unit(word)) =>
            "' is no duration: its units are d, h, m, s and ms, as in T#1m30s",
        [.., b'0'..=b'9'] if matches!(behind, [b',', b'0'..=b'9', ..]) =>
            "' is no duration: its decimals stand behind a point, as in T#1.5s",
        [.., b'0'..=b'9'] if has_unit_apart(behind) =>
            "' is no duration: no blank stands before a unit, as in T#1m30s",
        [.., b'0'..=b'9'] =>
            "' is no duration: behind each of its numbers stands a unit, d, h, m, s or ms, as in T#1m30s",
        _ if has_early_point(parts) =>
            "' is no duration: only the last of its numbers may have a point, as in T#1m30.5s",
        _ =>
            "' is no duration: its parts come in the order d, h, m, s, ms, each once, and it is a whole number of milliseconds",
    }
}

/// Why a word with a `#` isn't allowed, by the bytes behind it.
fn literal_fault(word: &str, behind: &[u8]) -> &'static str {
    match word.split_once("#") {
        None => "' is no word: it has letters, digits and underscores",
        Some((prefix, parts)) if fits("T|TIME", prefix) => duration_fault(parts.as_bytes(), behind),
        Some((prefix, _)) if fits("DINT", prefix) =>
            "' is no DINT: it is a whole number from -2147483648 to 2147483647",
        Some((prefix, _)) if fits("BOOL", prefix) =>
            "' is no BOOL: TRUE, FALSE, 1 or 0 stands behind the #",
        _ => "' is no literal here: before a # stand T, TIME, DINT, BOOL, 2, 8 or 16",
    }
}

/// With how many digits a number begins, and single underscores that part them.
fn digits_len(word: &[u8]) -> usize {
    let next = |number: usize| word.get(number.saturating_add(1));
    word.iter()
        .enumerate()
        .take_while(|(number, byte)| {
            let parts = **byte == b'_' && next(*number).is_some_and(|next| next.is_ascii_digit());
            byte.is_ascii_digit() || parts
        })
        .count()
}

/// Whether a power of ten stands behind the digits of a number, as in 1e3.
fn is_power(behind: &[u8]) -> bool {
    let power = part(behind, 1, behind.len());
    matches!(behind, [b'e' | b'E', _, ..]) && power.iter().all(|digit| digit.is_ascii_digit())
}

/// Whether letters stand behind the digits of a number, as in a name.
fn goes_on_as_name(behind: &[u8]) -> bool {
    match behind {
        [first, next, ..] => {
            first.is_ascii_alphabetic() && !next.is_ascii_digit() && is_name_byte(*next)
        }
        _ => false,
    }
}

/// Why a number isn't allowed, by what stands behind a point in it.
fn point_fault(behind: &[u8]) -> &'static str {
    let len = behind
        .iter()
        .take_while(|byte| byte.is_ascii_digit())
        .count();
    match len {
        0 => "' is too large: an integer is at most 2147483648",
        3 if behind.len() == 3 =>
            "' is no number: no point stands in one, and underscores may part its digits, as in 1_000; there are no REALs",
        _ =>
            "' is no number: there are no REALs, and an integer is at most 2147483648; 12.5 is written as 125, in tenths",
    }
}

/// Why a number isn't allowed, by what stands behind its digits.
fn digits_fault(behind: &[u8]) -> &'static str {
    match behind {
        [] => "' is too large: an integer is at most 2147483648",
        [b'.', decimals @ ..] => point_fault(decimals),
        [b'#', ..] =>
            "' is no number: before a # stand 2, 8 or 16, and behind it digits to that base",
        _ if is_power(behind) => "' is no number: its digits are written out, as 1000 for 1e3",
        _ if is_unit(behind) =>
            "' is no number; a duration has T# before it, as in T#5s, and no blanks in it",
        _ if goes_on_as_name(behind) =>
            "' is no number, since letters stand in it, and no name, since that begins with a letter",
        _ => "' is no number: single underscores may part its digits, and no letter may follow it",
    }
}

/// Why a literal that begins with a digit isn't allowed.
fn number_fault(word: &[u8]) -> &'static str {
    match word {
        [b'0', b'x' | b'X', ..] => "' is no number: one to the base 16 is written 16#FF",
        [b'0', b'b' | b'B', b'0' | b'1', ..] =>
            "' is no number: one to the base 2 is written 2#101",
        _ => digits_fault(part(word, digits_len(word), word.len())),
    }
}

/// Whether bytes end with PROGRAM or FUNCTION_BLOCK.
fn follows_unit(before: &[u8]) -> bool {
    let before = before.trim_ascii_end();
    let word = before.iter().rev().take_while(|byte| is_name_byte(**byte));
    let word = part(
        before,
        before.len().saturating_sub(word.count()),
        before.len(),
    );
    same_word(word, b"PROGRAM") || same_word(word, b"FUNCTION_BLOCK")
}

/// Whether a quote that bytes begin with opens a name: nothing else stands in it, and behind it stands what may stand behind one, or before it PROGRAM or
/// FUNCTION_BLOCK.
fn quotes_name(before: &[u8], bytes: &[u8]) -> bool {
    let inside = part(bytes, 1, bytes.len());
    let is_of_name = |byte: &u8| is_name_byte(*byte) || *byte == b' ';
    let len = inside.iter().take_while(|byte| is_of_name(*byte)).count();
    let behind = part(inside, len.saturating_add(1), inside.len()).trim_ascii_start();
    let goes_on = matches!(behind, [b'.' | b'(', ..] | [b':', b'=', ..]);
    len > 0 && inside.get(len) == Some(&b'"') && (goes_on || follows_unit(before))
}

/// What is said of bytes that begin with a mark or with a character that isn't of ASCII.
fn mark_fault(bytes: &[u8]) -> &'static str {
    let character = first_character(bytes);
    let mut rows = MARKS.lines().filter_map(|line| line.split_once(" "));
    let row = rows.find(|row| {
        bytes.starts_with(row.0.as_bytes()) || character.len() > 1 && row.0.contains(character)
    });
    match (row, bytes) {
        (Some((_, said)), _) => said,
        (None, [0x80..=0xFF, ..]) =>
            "this character may stand in comments alone: words have letters of ASCII",
        _ => "no word, number or symbol begins with this character",
    }
}

/// Whether a line has more than blanks from bytes on.
fn goes_on(bytes: &[u8]) -> bool {
    let mut blanks = bytes
        .iter()
        .skip_while(|byte| matches!(**byte, b' ' | b'\t' | b'\r'));
    blanks.next().is_some_and(|byte| *byte != b'\n')
}

/// Whether bytes end with a digit.
fn follows_digit(before: &[u8]) -> bool {
    before.last().is_some_and(|byte| byte.is_ascii_digit())
}

/// Whether bytes at the start of a file, or behind its first one, are those of UTF-16.
fn is_wide(before: &[u8], bytes: &[u8]) -> bool {
    let may_be = matches!(
        bytes,
        [0xFF, 0xFE, ..] | [0xFE, 0xFF, ..] | [_, 0, ..] | [0, ..]
    );
    before.len() < 2 && may_be
}

/// What is said of a quote; empty where its row of the marks tells.
fn quote_fault(before: &[u8], bytes: &[u8], mark: u8) -> &'static str {
    let is_in_number = follows_digit(before) && matches!(bytes, [b'\'', b'0'..=b'9', ..]);
    if is_in_number {
        "no ' stands in a number: underscores may part its digits, as in 1_000"
    } else if mark == b'"' && quotes_name(before, bytes) {
        "a name stands without quotes here"
    } else if is_quoted(bytes, mark) {
        ""
    } else {
        "texts in quotes aren't part of the language, and this quote isn't closed in its line; a remark is written // .. or (* .. *)"
    }
}

/// What is said of a `%`, by what stands before and behind it; empty where its row of the marks tells.
fn percent_fault(before: &[u8], behind: &[u8]) -> &'static str {
    if before.last() == Some(&b'.') {
        "a bit of a number has no name"
    } else if follows_digit(before) {
        "no % stands behind a number: a share is a number alone"
    } else if behind.first().is_some_and(|next| *next != b' ') {
        "this is no address: one is written as %IX0.0, %QD4 or %M*"
    } else {
        ""
    }
}

/// What is said of a `#`, by what stands behind it; empty where its row of the marks tells.
fn hash_fault(behind: &[u8]) -> &'static str {
    if behind.starts_with(b"include") {
        return "there is no #include: 'sources' in plant.toml lists the sources";
    }
    match behind.first() {
        Some(b'0'..=b'9') =>
            "a # stands inside of literals, without blanks, as in T#5s or 16#FF; a remark is written // .. or (* .. *)",
        Some(next) if is_name_byte(*next) =>
            "no # stands before a name or a word; a remark is written // .. or (* .. *)",
        _ => "",
    }
}

/// What is said of a backslash, by what stands behind it; empty where its row of the marks tells.
fn backslash_fault(behind: &[u8]) -> &'static str {
    if behind.first() == Some(&b'\\') {
        "a remark is written // .. or (* .. *)"
    } else if goes_on(behind) {
        "a quotient is written with /, as in n / 2, and a remark // .. or (* .. *)"
    } else {
        ""
    }
}

/// What is said of a mark behind other bytes; empty where its row of the marks tells.
fn fault_around(before: &[u8], bytes: &[u8]) -> &'static str {
    let behind = part(bytes, 1, bytes.len());
    match bytes.first() {
        Some(0..=0x1F | 0x7F) => "this is a control character, which can't be seen: delete it",
        Some(mark @ (b'\'' | b'"')) => quote_fault(before, bytes, *mark),
        Some(b'%') => percent_fault(before, behind),
        Some(b'#') => hash_fault(behind),
        Some(b'\\') => backslash_fault(behind),
        Some(b'$') if behind.first().is_some_and(|next| next.is_ascii_hexdigit()) =>
            "a number to the base 16 is written 16#FF",
        _ => "",
    }
}

/// What is said of bytes that begin with another one than a letter or a digit, behind others.
fn other_fault(before: &[u8], bytes: &[u8]) -> &'static str {
    if is_wide(before, bytes) {
        return "this file is no UTF-8, but looks like UTF-16: save it as UTF-8";
    }
    match fault_around(before, bytes) {
        "" => mark_fault(bytes),
        said => said,
    }
}

/// How many of some bytes are a mark.
fn count_of(bytes: &[u8], mark: u8) -> usize {
    bytes.iter().filter(|byte| **byte == mark).count()
}

/// The statement around a byte of a source: what stands between two `;`.
fn statement_around(text: &[u8], at: usize) -> &[u8] {
    let before = part(text, 0, at).iter().rev();
    let before = before.take_while(|byte| **byte != b';').count();
    let behind = part(text, at, text.len()).iter();
    let behind = behind.take_while(|byte| **byte != b';').count();
    part(text, at.saturating_sub(before), at.saturating_add(behind))
}

/// Whether the statement around a byte has more `)` than `(`.
fn lacks_parenthesis(text: &[u8], at: usize) -> bool {
    let statement = statement_around(text, at);
    count_of(statement, b'(') < count_of(statement, b')')
}

/// Whether bytes end with the word AT.
fn follows_at(before: &[u8]) -> bool {
    match before.trim_ascii_end() {
        [.., blank, b'a' | b'A', b't' | b'T'] => blank.is_ascii_whitespace(),
        _ => false,
    }
}

/// Why the word that begins at a byte of a source, a letter or a digit, and ends at another isn't allowed.
fn word_fault(text: &[u8], at: usize, until: usize) -> &'static str {
    let word = part(text, at, until);
    let may_be_name = matches!(word, [b'8' | b'9', b'a'..=b'z' | b'A'..=b'Z' | b'_', ..]);
    if !word.first().is_some_and(|byte| byte.is_ascii_digit()) {
        literal_fault(
            str::from_utf8(word).unwrap_or(""),
            part(text, until, text.len()),
        )
    } else if follows_at(part(text, 0, at)) {
        "' is no address: one begins with %, as in %IX0.3"
    } else if may_be_name && lacks_parenthesis(text, at) {
        "' is no number and no name: a '(' stands before the name, as the ')' behind it shows"
    } else {
        number_fault(word)
    }
}

/// The cause of a fault of spelling at a byte of a source.
pub fn misspelled_at(alloc: Global, text: &[u8], at: usize) -> Result<Cause, AllocError> {
    let bytes = part(text, at, text.len());
    if !bytes.first().is_some_and(|byte| is_name_byte(*byte)) {
        let said = String::from_str(alloc, other_fault(part(text, 0, at), bytes))?;
        let until = at.saturating_add(bytes.len().min(1));
        return Ok(cause_at((at, until), said, SPELLING));
    }
    let until = at.saturating_add(run_len(bytes));
    let word = str::from_utf8(part(text, at, until)).unwrap_or("");
    let said = format!(in alloc; "'{word}{}", word_fault(text, at, until))?;
    Ok(cause_at((at, until), said, SPELLING))
}

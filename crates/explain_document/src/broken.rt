//! What is told of a place at which a plant file is no document any more, beside what its reader says; and how far the file is certain then.

use explain_files::{KeyLine, Keys, Mark, key_of, keys_of, line_number, line_of};
use explain_tokens::{part, within_one};
use explain_trees::filled;
use std::alloc::{AllocError, Global};
use toml_parser::bytes::is_bare;

const NO_COMMA: &str = "missing comma between array elements, expected `,` or `]`";

const NO_SIGN: &str = "key with no value, expected `=`";

const NO_VALUE: &str =
    "invalid value, expected a string, number, boolean, date-time, array or inline table";

const NO_END: &str = "unexpected key or value, expected newline, `#`";

const NO_KEY: &str = "invalid key, expected letters, numbers, `-`, `_` or a quoted key";

const NO_TEXT: &str = "invalid string";

const REMARK: &str = "a remark begins with '#', and not with another sign";

const HEADER: &str = "a console begins with the line [[console]]";

const BRACKETS: &str =
    "a console begins with the line [[console]]: two brackets side by side, and two behind its name";

const NAMED: &str =
    "a console begins with the line [[console]], and nothing else stands in it: the number stands below, as in number = 1";

const BEHIND_HEADER: &str = "behind a header its line ends: a remark begins with '#'";

const CLOSED: &str = "the list is closed already, by the ']' before this";

const CLOSED_ABOVE: &str = "the list above is closed already, by its ']'";

const AGAIN: &str =
    "this stands here a second time: a line [[console]] seems to be missing above it";

const LACKING: &str = "a line [[console]] seems to be missing above this";

const VERSIONS: &str =
    "marks as <<<<<<< and >>>>>>> stand around two versions of a text: keep one, and delete these lines";

const ONE_LINE: &str = "a key and its value stand in one line, with '=' between them";

const LINE: &str = "a line is a key, '=' and a value, a header in brackets, or a remark behind '#'";

/// What is told of a place at which a plant file is no document any more.
#[derive(Drop)]
pub struct Broken {
    /// The bytes that are wrong.
    pub mark: Mark,
    /// What is wrong with them; empty where the reader says it.
    pub said: String,
    /// Where what is certain ends; `None` where it goes on behind the line.
    pub until: Option<usize>,
}

/// A line without the remark at its end, and without blanks around it.
fn without_remark(line: &[u8]) -> &[u8] {
    let end = line.iter().position(|byte| *byte == b'#');
    part(line, 0, end.unwrap_or(line.len())).trim_ascii()
}

/// The bytes of the first word of letters in a line.
fn first_word(line: &[u8]) -> Mark {
    let first = line.iter().position(|byte| byte.is_ascii_alphabetic());
    let from = first.unwrap_or(line.len());
    let rest = part(line, from, line.len()).iter();
    let len = rest.take_while(|byte| byte.is_ascii_alphabetic()).count();
    (from, from.saturating_add(len))
}

/// The key with which a line begins that has a '=', and what stands behind that.
fn pair_of(line: &[u8]) -> Option<(&[u8], &[u8])> {
    let (key, behind) = key_of(line)?;
    let has_sign = part(line, 0, behind).last() == Some(&b'=');
    has_sign.then_some((key, part(line, behind, line.len()).trim_ascii()))
}

/// Whether a line without remarks may be meant as the header of a console: its first word nearly is that one's, and it is no key of a list or of tables.
fn names_console(line: &[u8]) -> bool {
    let word = first_word(line);
    let is_near = within_one(part(line, word.0, word.1), b"console");
    let is_key = pair_of(line).is_some_and(|(key, value)| {
        !within_one(key, b"console") || matches!(value, [b'[' | b'{', ..])
    });
    is_near && !is_key && !line.contains(&b'"')
}

/// Whether the first of these lines that isn't empty or a remark has a key of a console's.
fn are_of_console(lines: &[u8]) -> bool {
    let mut lines = lines
        .split(|byte| *byte == b'\n')
        .map(|line| without_remark(line));
    let first = lines.find(|line| !line.is_empty()).unwrap_or(b"");
    pair_of(first).is_some_and(|(key, _)| within_one(key, b"number") || within_one(key, b"areas"))
}

/// Whether the last of these lines that isn't empty or a remark is a header.
fn end_in_header(lines: &[u8]) -> bool {
    let mut is_header = false;
    for line in lines.split(|byte| *byte == b'\n') {
        let line = without_remark(line);
        is_header = line.starts_with(b"[") || is_header && line.is_empty();
    }
    is_header
}

/// What is said of a line that is meant as the header of a console; `None` where it is none, or its reader says it.
fn said_of_header(text: &[u8], line: Mark) -> Option<&'static str> {
    let bytes = without_remark(part(text, line.0, line.1));
    if !names_console(bytes) {
        return None;
    }
    let word = first_word(bytes);
    if !bytes.starts_with(b"[") {
        let (above, below) = (
            part(text, 0, line.0),
            part(text, line.1.saturating_add(1), text.len()),
        );
        return (are_of_console(below) && !end_in_header(above)).then_some(HEADER);
    }
    let before = part(bytes, 0, word.0).trim_ascii_end();
    match part(bytes, word.1, bytes.len()).trim_ascii_start() {
        _ if before != b"[[".as_slice() => Some(BRACKETS),
        [b']', b']', b']', ..] => Some(BRACKETS),
        [b']', b']', _, ..] => Some(BEHIND_HEADER),
        [] | [b']' | b'.', ..] => None,
        [byte, ..] if !is_bare(*byte) => Some(BRACKETS),
        _ => Some(NAMED),
    }
}

/// The bytes of a line without the blanks around it and the remark at its end.
fn mark_of_line(text: &[u8], line: Mark) -> Mark {
    let bytes = part(text, line.0, line.1);
    let blanks = bytes.len().saturating_sub(bytes.trim_ascii_start().len());
    let from = line.0.saturating_add(blanks);
    (from, from.saturating_add(without_remark(bytes).len()))
}

/// Whether a value opens a list that it doesn't close, but for what stands in quotes, and in remarks, which a line end closes.
fn is_open(value: &[u8]) -> bool {
    let (mut depth, mut quote) = (0usize, b' ');
    for byte in value {
        match *byte {
            b'\n' => quote = b' ',
            byte if quote != b' ' => quote = if byte == quote { b' ' } else { quote },
            b'"' | b'\'' => quote = *byte,
            b'#' => quote = b'\n',
            b'[' => depth = depth.saturating_add(1),
            b']' => depth = depth.saturating_sub(1),
            _ => {}
        }
    }
    depth > 0
}

/// The last key before a byte that has a value behind it, which begins there at the latest.
fn key_before<'k>(keys: &'k Keys<'_>, at: usize) -> Option<&'k KeyLine> {
    let mut entries = keys.entries.iter().rev();
    entries.find(|entry| entry.key.0 < entry.value.0 && entry.key.0 < at && entry.value.0 <= at)
}

/// The key 'console' with a value, before a byte in the same console, whose line may be meant as a header.
fn console_before(keys: &Keys<'_>, text: &[u8], at: usize) -> Option<Mark> {
    let mut headers = keys.consoles.iter().rev();
    let header = headers.find(|header| header.0 < at)?.0;
    let mut entries = keys.entries.iter().rev();
    let entry = entries.find(|entry| {
        let is_there = header < entry.key.0 && entry.key.0 < at;
        is_there && within_one(part(text, entry.key.0, entry.key.1), b"console")
    })?;
    let line = line_of(text, entry.key.0);
    names_console(without_remark(part(text, line.0, line.1))).then_some(line)
}

/// Whether a line begins with a list in brackets, below the list of a key.
fn goes_on_below(text: &[u8], entry: &KeyLine, line: Mark) -> bool {
    let bytes = part(text, line.0, line.1).trim_ascii_start();
    let is_list = text.get(entry.value.0) == Some(&b'[');
    is_list && matches!(bytes, [b'[', b'"' | b'\'', ..])
}

/// The line of the number of the first console, which stands right above the line of its areas, where the areas of the plant stand above both.
fn number_above(keys: &Keys<'_>, text: &[u8], line: Mark) -> Option<Mark> {
    let number = keys.find(0, "number")?.key.0;
    let (above, areas) = (line_of(text, number), keys.find(0, "areas")?.key.0);
    let is_next = above.1.saturating_add(1) == line.0;
    let here = pair_of(part(text, line.0, line.1))?.0;
    let are_both = here == b"areas".as_slice() && areas < above.0;
    (is_next && are_both).then_some(above)
}

/// Whether a console seems to begin with a line: it has the number or the areas, the next line has the other, and both stand above it already, or the areas of
/// the plant alone.
fn begins_console(keys: &Keys<'_>, text: &[u8], line: Mark) -> bool {
    let headers = keys.consoles.iter();
    let console = headers.take_while(|header| header.0 < line.0).count();
    let is_above = |key: &str| {
        let entry = keys.find(console, key);
        entry.is_some_and(|entry| entry.key.0 < line.0)
    };
    let next = line_of(text, line.1.saturating_add(1));
    let (here, below) = (
        pair_of(part(text, line.0, line.1)),
        pair_of(part(text, next.0, next.1)),
    );
    let are_both = match (here, below) {
        (Some((here, _)), Some((below, _))) => {
            here == b"number".as_slice() && below == b"areas".as_slice()
                || here == b"areas".as_slice() && below == b"number".as_slice()
        }
        _ => false,
    };
    are_both && is_above("areas") && (console == 0 || is_above("number"))
}

/// What is said of the bytes in the place of a value; `None` where the reader says it.
fn said_of_value(text: &[u8], mark: Mark) -> Option<&'static str> {
    let is_number = part(text, mark.0, mark.1)
        .iter()
        .all(|byte| byte.is_ascii_digit());
    match part(text, mark.0, text.len()) {
        [b'0', b'0'..=b'9', ..] if is_number => Some("a number has no 0 before its other digits"),
        [b'=', ..] => Some("one '=' stands between a key and its value, and this is a second one"),
        [b'`', ..] => Some("a text stands in straight quotes, \"..\", and this is another sign"),
        [0xE2, 0x80, 0x98..=0x9F, ..] | [0xC2, 0xAB | 0xBB, ..] => Some(
            "a text stands in straight quotes, \"..\", and this is a typographic one",
        ),
        _ => None,
    }
}

/// What is said of the place of a value behind a key; `None` where the reader says it.
fn said_behind_key(text: &[u8], entry: Option<&KeyLine>, mark: Mark) -> Option<&'static str> {
    let line = line_of(text, mark.0);
    let rest = without_remark(part(text, mark.0, line.1));
    let key = entry.map_or(b"".as_slice(), |entry| part(text, entry.key.0, entry.key.1));
    let is_there = entry.is_some_and(|entry| entry.value.0 == mark.0);
    match said_of_value(text, mark) {
        Some(said) => Some(said),
        None if rest.is_empty() => Some(
            "a value is missing: it stands behind the '=', in the same line, and before a remark",
        ),
        None if is_there && key == b"number".as_slice() => Some(
            "the number of a console is a whole number, 1 to 999999999, without quotes",
        ),
        None => None,
    }
}

/// Whether a value that is missing at the end of its line seems to stand in the next one.
fn is_in_next(text: &[u8], mark: Mark) -> bool {
    let line = line_of(text, mark.0);
    let next = line_of(text, line.1.saturating_add(1));
    let value = part(text, next.0, next.1).trim_ascii_start();
    without_remark(part(text, mark.0, line.1)).is_empty()
        && matches!(value, [b'"' | b'\'', ..] | [b'[', b'"' | b'\'', ..])
}

/// Whether a line begins with a word that nearly is a key of a plant file, perhaps in quotes.
fn begins_with_key(line: &[u8]) -> bool {
    let from = line
        .iter()
        .take_while(|byte| matches!(**byte, b' ' | b'\t' | b'"' | b'\''));
    let from = from.count();
    let rest = part(line, from, line.len());
    let len = rest.iter().take_while(|byte| is_bare(**byte)).count();
    let keys = ["name", "epoch", "areas", "sources", "alarms", "number"];
    let mut keys = keys.iter();
    keys.any(|key| within_one(part(rest, 0, len), key.as_bytes()))
}

/// What is said of a place at which a '=' is missing, below the line of a key, and how far all is certain; `None` where the reader says it.
fn without_sign(
    text: &[u8],
    entry: Option<&KeyLine>,
    mark: Mark,
) -> Option<(&'static str, Option<usize>)> {
    let line = line_of(text, mark.0);
    let bytes = without_remark(part(text, line.0, line.1));
    let rest = without_remark(part(text, mark.0, line.1));
    let is_item = matches!(bytes, [b'"' | b'\'', ..]) && matches!(rest, [b']' | b',', ..]);
    let next = line_of(text, line.1.saturating_add(1));
    let is_below = part(text, next.0, next.1)
        .trim_ascii_start()
        .starts_with(b"=");
    let is_below_list = entry.is_some_and(|entry| text.get(entry.value.0) == Some(&b'['));
    match rest {
        [b':'] => Some((ONE_LINE, Some(line.0))),
        [] if is_below => Some((ONE_LINE, Some(line.0))),
        [b':', b'=', ..] => Some((
            "a key and its value have '=' between them, and not ':='",
            None,
        )),
        [b':', ..] => Some((
            "a key and its value have '=' between them, and not ':'",
            None,
        )),
        _ if is_item && is_below_list => Some((CLOSED_ABOVE, None)),
        _ if begins_with_key(bytes) => None,
        _ => Some((LINE, None)),
    }
}

/// What is said of bytes that stand behind a value in a line, by how they begin; `None` where the reader says it.
fn said_of_more(line: &[u8], rest: &[u8]) -> Option<&'static str> {
    let more = match rest {
        [b',' | b';', more @ ..] => more.trim_ascii_start(),
        _ => rest,
    };
    let is_listed = pair_of(line).is_some_and(|(key, _)| {
        within_one(key, b"areas") || within_one(key, b"sources")
    });
    match more {
        _ if pair_of(more).is_some_and(|(key, _)| !key.is_empty()) => Some(
            "each key stands with its value in a line of its own",
        ),
        [] if rest == b";".as_slice() => Some("a line of the plant file ends without a ';'"),
        _ if is_listed && !line.contains(&b'[') && without_remark(more).last() == Some(&b']') =>
            Some("the list is closed by a ']', and its '[' is missing behind the '='"),
        [] => Some("no comma stands behind a value, but between the items of a list"),
        [b'"' | b'\'', ..] if is_listed && rest.len() > more.len() => Some(
            "several texts are a list, which stands in brackets, [..]",
        ),
        _ => None,
    }
}

/// Whether a line is one of those that stand around two versions of a text.
fn is_mark_of_versions(line: &[u8]) -> bool {
    line.starts_with(b"<<<<<<<")
        || line.starts_with(b">>>>>>>")
        || line.trim_ascii() == b"=======".as_slice()
}

/// Whether a remark seems to begin at these bytes as in another language: also with ';', where a line begins.
fn is_remark(text: &[u8], mark: Mark) -> bool {
    let line = line_of(text, mark.0);
    let is_first = part(text, line.0, mark.0).trim_ascii().is_empty();
    match part(text, mark.0, line.1) {
        [b'/', b'/' | b'*', ..] | [b'(', b'*', ..] => true,
        rest => is_first && rest.starts_with(b";"),
    }
}

/// What is said of what stands behind a value, or behind a header, in its line; `None` where the reader says it.
fn said_of_rest(text: &[u8], mark: Mark) -> Option<&'static str> {
    let line = line_of(text, mark.0);
    let rest = without_remark(part(text, mark.0, line.1));
    let is_text = !matches!(rest, [b',' | b';', ..]) && pair_of(rest).is_none();
    match part(text, 0, mark.0).last() {
        _
            if part(text, line.0, line.1)
                .trim_ascii_start()
                .starts_with(b"[") => Some(BEHIND_HEADER),
        Some(b'"') if is_text && rest.contains(&b'"') => Some(
            "the text ends at the double quote before this: one inside a text is written \\\"",
        ),
        Some(b'\'') if is_text && rest.contains(&b'\'') => Some(
            "the text ends at the quote before this: a text with a ' stands in double quotes",
        ),
        _ => said_of_more(part(text, line.0, line.1), rest),
    }
}

/// What is said of a place in a line of a list that isn't closed before it, behind the line in which this is opened, for which a `%` stands.
fn said_below(text: &[u8], at: usize, message: &str) -> Option<&'static str> {
    let line = line_of(text, at);
    let bytes = without_remark(part(text, line.0, line.1));
    let mut before = part(text, line.0, at).iter();
    let is_first = before.all(|byte| matches!(*byte, b' ' | b'\t' | b'['));
    let is_header = bytes.starts_with(b"[") && names_console(bytes);
    let is_next = is_first && (is_header || pair_of(bytes).is_some());
    if (message == NO_VALUE || message == NO_COMMA) && is_next {
        return Some("the list that line % opens isn't closed with ']' before this");
    }
    let text = "in the list that line % opens a comma is missing before this, or the list's ']'";
    (message == NO_COMMA && is_first).then_some(text)
}

/// The byte before the quote that ends before a byte, but for blanks.
fn before_quote(text: &[u8], at: usize) -> Option<&u8> {
    match part(text, 0, at).trim_ascii_end() {
        [.., byte, b'"' | b'\''] => Some(byte),
        _ => None,
    }
}

/// What is said of a place in a list; `None` where the reader says it.
fn said_in_list(text: &[u8], mark: Mark, message: &str) -> Option<&'static str> {
    let before = part(text, 0, mark.0).last();
    match part(text, mark.0, text.len()) {
        [first, ..]
            if message == NO_COMMA
                && first.is_ascii_alphanumeric()
                && matches!(before, Some(b'"' | b'\'')) => Some(
            "in this list one of the quotes before this is missing, or a comma",
        ),
        [b'"' | b'\'', ..] if message == NO_COMMA && before_quote(text, mark.0) == Some(&b',') =>
            Some(
                "in this list a comma is missing before this: the one in the quotes is part of the text",
            ),
        [b'}' | b')' | b'>', ..] if message == NO_COMMA => Some("a list is closed with ']'"),
        [b';' | b'.', ..] if message == NO_COMMA => Some(
            "between two items of a list stands a comma",
        ),
        [b',', ..] if message == NO_VALUE => Some(
            "in this list an item is missing before this comma, or it is one comma too many",
        ),
        _ if is_remark(text, mark) => Some(REMARK),
        _ if message == NO_VALUE => said_of_value(text, mark),
        _ => None,
    }
}

/// Whether these bytes are what is left of a list: its end, or a comma and items, in the next line where the comma ends its own.
fn goes_on(rest: &[u8]) -> bool {
    let mut lines = rest.split(|byte| *byte == b'\n');
    let line = lines
        .next()
        .map_or(b"".as_slice(), |line| without_remark(line));
    let next = lines.next().unwrap_or(b"").trim_ascii_start();
    let items = match line {
        [b','] => next,
        [b',', rest @ ..] => rest.trim_ascii_start(),
        _ => line,
    };
    match items {
        [b'[', items @ ..] => matches!(items.trim_ascii_start(), [b'"' | b'\'', ..]),
        _ => matches!(items, [b'"' | b'\'' | b']', ..]),
    }
}

/// What is found at a place.
#[derive(Drop)]
struct Found {
    mark: Mark,
    /// What is said of it, in which a `%` stands for the line of the key; `None` where the reader says it.
    said: Option<&'static str>,
    until: Option<usize>,
}

/// What is said of the bytes of the line at a byte that may be meant as the header of a console, up to which all is certain.
fn found_header(text: &[u8], at: usize, said: &'static str) -> Found {
    let line = line_of(text, at);
    Found {
        mark: mark_of_line(text, line),
        said: Some(said),
        until: Some(line.0),
    }
}

/// What is found at a place in a list of a key that isn't closed before it.
fn found_in_list(text: &[u8], entry: &KeyLine, mark: Mark, message: &str) -> Found {
    let opened = line_of(text, entry.key.0).0;
    let is_below = opened < line_of(text, mark.0).0;
    let line = line_of(text, mark.0);
    if is_mark_of_versions(part(text, line.0, line.1)) {
        return Found {
            mark: mark_of_line(text, line),
            said: Some(VERSIONS),
            until: Some(opened),
        };
    }
    let is_end = part(text, mark.0, text.len()).trim_ascii().is_empty();
    if is_end && message != NO_TEXT && text.get(entry.value.0) == Some(&b'[') {
        return Found {
            mark: (entry.value.0, entry.value.0.saturating_add(1)),
            said: Some("the list that this opens isn't closed with ']'"),
            until: Some(opened),
        };
    }
    let below = if is_below {
        said_below(text, mark.0, message)
    } else {
        None
    };
    Found {
        mark,
        said: below.or(said_in_list(text, mark, message)),
        until: is_below.then_some(opened),
    }
}

/// What is found at a place in another value of a key, or behind a value; `None` where the reader says it.
fn found_at_value(text: &[u8], entry: &KeyLine, mark: Mark, message: &str) -> Option<Found> {
    let (from, opened) = (entry.value.0, line_of(text, entry.key.0).0);
    let value = part(text, from, text.len());
    let is_long = value.starts_with(b"\"\"\"") || value.starts_with(b"'''");
    let is_list = part(text, 0, mark.0).trim_ascii_end().last() == Some(&b']');
    let (mark, said, until) = if message == NO_TEXT && is_long && mark.0 >= text.len() {
        let said =
            "these three quotes open a text that isn't closed: a text of one line stands in \"..\"";
        ((from, from.saturating_add(3)), said, Some(opened))
    } else if message == NO_SIGN && value.starts_with(b"{") && entry.value.1 >= mark.0 {
        let said =
            "a '=' is missing behind the key: keys and their values stand in braces, and a list in brackets, [..]";
        (mark, said, None)
    } else if message == NO_END && is_list && goes_on(part(text, mark.0, text.len())) {
        (mark, CLOSED, Some(opened))
    } else {
        return None;
    };
    let said = Some(said);
    Some(Found { mark, said, until })
}

/// What is found at a place at which a plant file of keys is no document any more, where its reader says this; but of texts that aren't closed.
fn found_at(text: &[u8], keys: &Keys<'_>, mark: Mark, message: &str) -> Found {
    let (entry, line) = (key_before(keys, mark.0), line_of(text, mark.0));
    let is_listed = |entry: &KeyLine| is_open(part(text, entry.value.0, entry.value.1));
    if let Some(entry) = entry {
        if is_listed(entry) {
            return found_in_list(text, entry, mark, message);
        }
    }
    if is_mark_of_versions(part(text, line.0, line.1)) {
        return found_header(text, mark.0, VERSIONS);
    }
    if let Some(said) = said_of_header(text, line) {
        return found_header(text, mark.0, said);
    }
    if let Some(entry) = entry {
        if goes_on_below(text, entry, line) {
            return found_header(text, mark.0, CLOSED_ABOVE);
        }
        if let Some(found) = found_at_value(text, entry, mark, message) {
            return found;
        }
    }
    let (mut said, mut until) = (None, None);
    if message == "duplicate key" {
        if let Some(above) = console_before(keys, text, mark.0) {
            return found_header(text, above.0, HEADER);
        }
        if let Some(above) = number_above(keys, text, line) {
            return found_header(text, above.0, LACKING);
        }
        if begins_console(keys, text, line) {
            said = Some(AGAIN);
            until = Some(line.0);
        }
    } else if message == NO_VALUE {
        said = said_behind_key(text, entry, mark);
        until = is_in_next(text, mark).then_some(line.0);
    } else if (message == NO_KEY || message == NO_END) && is_remark(text, mark) {
        said = Some(REMARK);
    } else if message == NO_END {
        said = said_of_rest(text, mark);
    } else if message == NO_SIGN {
        if let Some((sign, end)) = without_sign(text, key_before(keys, line.0), mark) {
            said = Some(sign);
            until = end;
        }
    }
    Found { mark, said, until }
}

/// What is told of a place at which a plant file is no document any more, where its reader says this.
pub fn broken_at(
    alloc: Global,
    text: &[u8],
    mark: Mark,
    message: &str,
) -> Result<Broken, AllocError> {
    let keys = keys_of(alloc, text)?;
    let Found {
        mark: place,
        said,
        until,
    } = found_at(text, &keys, mark, message);
    let line = line_of(text, mark.0);
    let rest = part(text, mark.0, line.1).trim_ascii();
    let is_cut = message == NO_TEXT && rest.is_empty();
    let key = key_before(&keys, mark.0).map_or(0, |entry| entry.key.0);
    let number = line_number(text, key).to_string(alloc)?;
    let said = filled(alloc, &[said.unwrap_or("")], "", &[number.as_str()])?;
    Ok(Broken {
        mark: place,
        said,
        until: until.or(is_cut.then_some(line.0)),
    })
}

//! What is wrong in the plant file (C1 to C3), as its reader found it.

use crate::areas::strange_area;
use crate::broken::{Broken, broken_at};
use crate::epochs::said_of_epoch;
use base_stamps::Epoch;
use explain_files::{Keys, Mark, NOBODY, key_of, keys_of, line_of};
use explain_tokens::{Cause, part, within_one};
use explain_trees::filled;
use plant_file::{Mistake, PlantFileFault, Unread, Why, read};
use std::alloc::{AllocError, Global};
use std::str;
use toml_parser::bytes::is_bare;

/// Where it stands what a plant file is.
const PAGE: &str = "docs/PLANT.md, \"plant.toml\"";

/// A plant file has so many lines at most that are read on behind.
const MOST_LINES: usize = 20;

/// What is said of a text that looks like UTF-16.
pub const WIDE: &str = "this file is no UTF-8, but looks like UTF-16: save it as UTF-8";

/// What is said where consoles stand under one header.
const ONE_CONSOLE: &str =
    "consoles stand below lines [[console]] alone: there is no line [console], and no key 'console' beside them";

/// What is said of a list in the place of one text.
const ONE_TEXT: &str = "'%' is one text in quotes, and no list in brackets";

/// What is said of areas that stand in quotes together.
const EACH_AREA: &str = "each area stands in quotes of its own, with commas behind these";

/// What is said of a text that is no TOML document: each line has what the reader of documents says, and behind `| ` how that is told.
const REASONS: &str = "\
invalid string| a text isn't closed in its line, or has a character that may not stand in one
invalid escape sequence| a '\\' in double quotes begins a sign of its own: in the path of a file write '/'
duplicate key| this stands here a second time
missing comma between array elements, expected `,` or `]`| in this list a comma is missing before this, or the list's ']'
missing comma between key-value pairs, expected `,` or `}`| a comma is missing before this, or a '}'
key with no value, expected `=`| a '=' is missing behind the key
unexpected key or value, expected newline, `#`| behind a value its line ends: what is this? (a text stands in quotes, items of a list in brackets, a remark behind '#')
invalid value, expected a string, number, boolean, date-time, array or inline table| no value begins so: a text stands in quotes, a list in brackets
invalid key, expected letters, numbers, `-`, `_` or a quoted key| no key begins so: a line is a key, '=' and a value, a header in brackets, or a remark behind '#'
unclosed table, expected `]`| this header isn't closed with ']'
unclosed array table, expected `]]`| this header isn't closed with ']]'
invalid date-time| this is no date or time: the epoch stands in quotes, \"YYYY-MM-DDTHH:MM:SSZ\"
number out of range| this number is out of range
cannot extend a value with a dotted key| this key has a value already, to which nothing can be added
";

/// Whether a text looks like UTF-16: it begins with a mark of that, or has a byte 0 among its first two.
pub fn is_wide(text: &[u8]) -> bool {
    matches!(
        text,
        [0xFF, 0xFE, ..] | [0xFE, 0xFF, ..] | [_, 0, ..] | [0, ..]
    )
}

/// The key that there is and that an unknown one nearly is; empty where none is.
fn near_key(unknown: &Mistake) -> &str {
    let known: &[&'static str] = match unknown.console {
        0 => &["name", "epoch", "areas", "sources", "alarms", "console"],
        _ => &["number", "areas"],
    };
    let key = unknown.key.as_str().as_bytes();
    let near = known.iter().find(|other| within_one(key, other.as_bytes()));
    near.copied().unwrap_or("")
}

/// Whether a missing key is told already by one that stands in its place: nearly the same one, the same one below a console, or the header of a table that
/// there isn't.
fn is_told(keys: &Keys<'_>, mistakes: &[Mistake], missing: &Mistake) -> bool {
    let key = missing.key.as_str();
    let is_of_plant = missing.console == 0;
    let is_elsewhere = is_of_plant && keys.find(NOBODY, key).is_some();
    let stands_for = |other: &Mistake| {
        if other.console == missing.console {
            is_elsewhere || near_key(other) == key
        } else {
            is_of_plant && other.key.as_str() == key
        }
    };
    let mut others = mistakes.iter();
    missing.why == Why::MissingKey
        && others.any(|other| other.why == Why::UnknownKey && stands_for(other))
}

/// What is said of a key that there isn't, where a `%` stands for it, and a second one for the key that it nearly is.
fn said_of_unknown(keys: &Keys<'_>, mistakes: &[Mistake], wrong: &Mistake) -> &'static str {
    let (key, is_near) = (wrong.key.as_str(), !near_key(wrong).is_empty());
    let mut others = mistakes.iter();
    let is_missing = others.any(|other| {
        other.why == Why::MissingKey && other.console == 0 && other.key.as_str() == key
    });
    let is_header = keys
        .find(wrong.console, key)
        .is_some_and(|entry| entry.value.0 < entry.key.0);
    match wrong.console {
        0 if is_near => "the plant has no key '%': did you mean '%'?",
        0 if is_header && key.starts_with("console") =>
            "there is no table '%': a console begins with the line [[console]], and its number stands below",
        0 if is_header =>
            "there is no table '%': the plant's own keys stand at the top, without a header",
        0 => "the plant has no key '%'",
        _ if is_header =>
            "a console begins with the line [[console]], and its number and areas stand below",
        _ if is_missing =>
            "'%' stands below a [[console]], and so it is that console's: the plant's own keys stand above the first",
        _ if is_near => "a console has no key '%': did you mean '%'?",
        _ => "a console has no key '%'",
    }
}

/// What is said of a mistake that its key tells, for which a `%` stands.
fn said_of(wrong: &Mistake) -> &'static str {
    match wrong.why {
        Why::MissingKey if wrong.console > 0 =>
            "each console has 'number' and 'areas', and this one has no '%'",
        Why::MissingKey => "the key '%' is missing",
        Why::NoText if wrong.item.is_some() =>
            "each item of this list is a text, and stands in quotes",
        Why::NoText => "'%' is a text, and stands in quotes",
        Why::NoList if wrong.key.as_str() == "console" => ONE_CONSOLE,
        Why::NoList =>
            "'%' is a list in brackets, [..], and each of its items stands in quotes of its own",
        Why::NoNumber | Why::OutOfRange =>
            "the number of a console is a whole number, 1 to 999999999, without quotes",
        Why::NoConsole =>
            "a console is a table with 'number' and 'areas', below a line [[console]]",
        Why::NoAreaName =>
            "an area has 1 to 32 letters of ASCII, digits, '_', '-' and '.', and no blanks",
        Why::NumberAgain => "an earlier console has this number",
        _ => "this stands in the list already",
    }
}

/// The bytes of a mistake: of a key, of what stands under it, of an item of its list, or of a console; `None` for a key of the plant's that isn't there.
fn mark_of(keys: &Keys<'_>, wrong: &Mistake) -> Result<Option<Mark>, AllocError> {
    let console = wrong.console.checked_sub(1);
    match (keys.find(wrong.console, wrong.key.as_str()), console) {
        (Some(entry), _) if wrong.why == Why::UnknownKey => Ok(Some(entry.key)),
        (Some(entry), _) => keys.under(entry, wrong.item),
        (None, Some(number)) => keys.console(number),
        (None, None) => Ok(None),
    }
}

/// The header of a console that isn't written as one of a list; `None` where there is none.
fn lone_header(keys: &Keys<'_>, text: &[u8]) -> Option<Mark> {
    let mut entries = keys.entries.iter();
    let named = entries.find(|entry| {
        let value = part(text, entry.value.0, entry.value.1);
        value.starts_with(b"[console.") || value.starts_with(b"[[console.")
    });
    keys.header("[console]").or(named.map(|entry| entry.value))
}

/// Whether a list in brackets stands at these bytes.
fn is_list(plant: &[u8], mark: Option<Mark>) -> bool {
    let (from, until) = mark.unwrap_or((0, 0));
    part(plant, from, until).starts_with(b"[")
}

/// Whether a comma stands at these bytes.
fn has_comma(plant: &[u8], mark: Option<Mark>) -> bool {
    let (from, until) = mark.unwrap_or((0, 0));
    part(plant, from, until).contains(&b',')
}

/// Whether a line of a text begins as a key of the plant's with its `=`: else it is another file, in the place of a plant file.
fn has_keys(text: &[u8]) -> bool {
    let mut lines = text.split(|byte| *byte == b'\n');
    lines.any(|line| {
        let end = line.iter().position(|byte| *byte == b'=');
        let key = part(line, 0, end.unwrap_or(0)).trim_ascii();
        let known = ["name", "epoch", "areas", "sources", "alarms"];
        let mut known = known.iter();
        known.any(|known| known.as_bytes() == key)
    })
}

/// Why a text is no document; `None` where it is one.
fn unread_in(alloc: Global, text: &[u8]) -> Result<Option<Unread>, AllocError> {
    match read(alloc, text) {
        Ok(file) => {
            drop(file);
            Ok(None)
        }
        Err(PlantFileFault::Wrong(mistakes)) => {
            drop(mistakes);
            Ok(None)
        }
        Err(PlantFileFault::Memory) => Err(AllocError),
        Err(PlantFileFault::NotToml(unread)) => Ok(Some(unread)),
    }
}

/// Whether a text is no document any more at a byte, for a reason.
fn is_unread_at(unread: &Unread, reason: &str, at: usize) -> bool {
    match unread.message() {
        Some(message) => message == reason && unread.bytes().0 == at,
        None => false,
    }
}

/// Whether a line opens a list that it doesn't close.
fn opens_list(line: &[u8]) -> bool {
    let opened = line.iter().filter(|byte| **byte == b'[').count();
    let closed = line.iter().filter(|byte| **byte == b']').count();
    closed < opened
}

/// A plant file with a remark in the place of the line in which it is no document any more, for a reason; `None` where the line by itself isn't wrong for this
/// reason, nor a whole key that is there already, or is that of a header, or opens a list that goes on, and so it isn't certain how the file goes on.
fn without_line(
    alloc: Global,
    text: &[u8],
    at: usize,
    reason: &str,
) -> Result<Option<Vec<u8>>, AllocError> {
    let line = line_of(text, at);
    let bytes = part(text, line.0, line.1);
    let unread = unread_in(alloc, bytes)?;
    let is_alone = match &unread {
        Some(unread) => is_unread_at(unread, reason, at.saturating_sub(line.0)),
        None => reason == "duplicate key",
    };
    if !is_alone || opens_list(bytes) || bytes.trim_ascii_start().starts_with(b"[") {
        return Ok(None);
    }
    let mut rest = Vec::from_slice(alloc, part(text, 0, line.0))?;
    for _ in bytes {
        rest.push(b'#')?;
    }
    rest.extend_from_slice(part(text, line.1, text.len()))?;
    Ok(Some(rest))
}

/// Whether a line of a plant file has a word that nearly is a key; or, where the key is missing, may be its own in another way, since it begins neither as
/// another key does, nor as a header or a remark.
fn may_hold(line: &[u8], key: &[u8], is_missing: bool) -> bool {
    let mut words = line.split(|byte| !is_bare(*byte));
    let is_begun = matches!(
        line.trim_ascii_start(),
        [] | [b'#' | b'/' | b';' | b'[', ..]
    );
    let is_other = is_begun || key_of(line).is_some_and(|other| !other.0.is_empty());
    words.any(|word| within_one(word, key)) || is_missing && !is_other
}

/// A line of a plant file that a text of it hasn't, and whether remarks stand in its place, or nothing.
type LostLine<'t> = (&'t [u8], bool);

/// The lines of a plant file that a text of it hasn't.
fn lost_lines<'t>(
    alloc: Global,
    plant: &'t [u8],
    text: &[u8],
) -> Result<Vec<LostLine<'t>>, AllocError> {
    let mut lost = Vec::new(alloc);
    let mut from = 0usize;
    for line in plant.split(|byte| *byte == b'\n') {
        let until = from.saturating_add(line.len());
        let left = part(text, from, until);
        let is_remark = left.starts_with(b"#") && !line.starts_with(b"#");
        if is_remark || left.len() < line.len() {
            lost.push((line, is_remark))?;
        }
        from = until.saturating_add(1);
    }
    Ok(lost)
}

/// Whether one of these lines may be that of a key, which is missing without them, or not.
fn may_have(lost: &[LostLine<'_>], key: &[u8], is_missing: bool) -> bool {
    let mut lost = lost.iter();
    lost.any(|(line, is_remark)| (*is_remark || is_missing) && may_hold(*line, key, is_missing))
}

/// A text with a `?` in the place of each byte that isn't of ASCII.
fn ascii_of(alloc: Global, text: &[u8]) -> Result<Vec<u8>, AllocError> {
    let bytes = text.iter();
    bytes
        .map(|byte| if byte.is_ascii() { *byte } else { b'?' })
        .collect(alloc)
}

/// Whether the epoch of a plant file is a text, and none that an epoch may be.
fn has_no_epoch(keys: &Keys<'_>, plant: &[u8]) -> bool {
    let value = keys.find(0, "epoch").map_or((0, 0), |entry| entry.value);
    match part(plant, value.0, value.1) {
        [b'"', inner @ .., b'"'] if !inner.contains(&b'\\') => {
            Epoch::read(str::from_utf8(inner).unwrap_or("")).is_none()
        }
        _ => false,
    }
}

/// Whether the header of a console begins at bytes, with nothing before it in its line.
fn begins_header(text: &[u8], mark: Mark) -> bool {
    let rest = part(text, mark.0, text.len());
    let before = part(text, line_of(text, mark.0).0, mark.0);
    let is_header = rest.starts_with(b"[console]") || rest.starts_with(b"[[console]]");
    is_header && before.trim_ascii().is_empty()
}

/// What is told in the place of what the reader says; that itself where nothing is.
fn reason_of(message: &str) -> &str {
    let mut reasons = REASONS.lines().filter_map(|line| line.split_once("| "));
    let reason = reasons.find(|reason| reason.0 == message);
    reason.map_or(message, |reason| reason.1)
}

/// A plant file that is refused, and what is told of it.
#[derive(Drop)]
struct Document<'t> {
    alloc: Global,
    plant: &'t [u8],
    told: Vec<Cause>,
}

impl<'t> Document<'t> {
    /// Tells what is wrong at bytes of the plant file: a text in which each `%` stands for the next of words.
    fn say(&mut self, mark: Option<Mark>, text: &str, words: &[&str]) -> Result<(), AllocError> {
        let said = filled(self.alloc, &[text], "", words)?;
        self.told.push(Cause {
            mark,
            said,
            page: PAGE,
        })?;
        Ok(())
    }

    /// Tells of bytes that are no TOML document: where they aren't any more, and why, as the reader says.
    fn not_toml(&mut self, unread: &Unread) -> Result<(), AllocError> {
        let (plant, mark) = (self.plant, unread.bytes());
        if is_wide(plant) {
            return self.say(None, WIDE, &[]);
        }
        let Some(message) = unread.message() else {
            let text = "here the plant file isn't UTF-8: an editor can save it so";
            self.say(Some(mark), text, &[])?;
            return self.in_text_of(ascii_of(self.alloc, plant)?);
        };
        match self.unread_at(plant, mark, message)? {
            Some(rest) if has_keys(plant) => self.in_text_of(rest),
            _ => Ok(()),
        }
    }

    /// Tells that consoles stand below lines `[[console]]` alone, at a header that is another one. Returns the text above it.
    fn in_header(&mut self, text: &[u8], mark: Mark) -> Result<Vec<u8>, AllocError> {
        let keys = keys_of(self.alloc, text)?;
        let header = lone_header(&keys, text).unwrap_or(mark);
        self.say(Some(header), ONE_CONSOLE, &[])?;
        Vec::from_slice(self.alloc, part(text, 0, header.0))
    }

    /// Tells where a text of the plant file is no TOML document any more, and why, which the reader said.
    fn in_broken(&mut self, broken: &Broken, message: &str) -> Result<(), AllocError> {
        let why = match broken.said.as_str() {
            "" => reason_of(message),
            said => said,
        };
        let said = "here the plant file is no TOML document any more: %";
        self.say(Some(broken.mark), said, &[why])
    }

    /// Tells where a text of the plant file is no TOML document any more, and why. Returns the text with which it is read on: up to where it is certain, behind
    /// the header of a console or a text or a list that isn't closed, and else without the line there, as far as that is certain.
    fn unread_at(
        &mut self,
        text: &[u8],
        mark: Mark,
        message: &str,
    ) -> Result<Option<Vec<u8>>, AllocError> {
        if begins_header(text, mark) && !message.starts_with("missing comma") {
            return Ok(Some(self.in_header(text, mark)?));
        }
        let broken = broken_at(self.alloc, text, mark, message)?;
        self.in_broken(&broken, message)?;
        match broken.until {
            Some(until) => Ok(Some(Vec::from_slice(self.alloc, part(text, 0, until))?)),
            None => without_line(self.alloc, text, mark.0, message),
        }
    }

    /// Tells what is wrong in a text of the plant file. Returns the text with which it is read on, where it is no document.
    fn text_behind(&mut self, text: &[u8]) -> Result<Option<Vec<u8>>, AllocError> {
        match read(self.alloc, text) {
            Ok(file) => {
                drop(file);
                self.in_keys_of(text, &[])?;
                Ok(None)
            }
            Err(PlantFileFault::Memory) => Err(AllocError),
            Err(PlantFileFault::Wrong(mistakes)) => {
                self.in_keys_of(text, mistakes.as_slice())?;
                Ok(None)
            }
            Err(PlantFileFault::NotToml(unread)) => {
                self.unread_at(text, unread.bytes(), unread.message().unwrap_or(""))
            }
        }
    }

    /// Tells what is wrong in the text of the plant file, in which what was told stands no more.
    fn in_text_of(&mut self, mut text: Vec<u8>) -> Result<(), AllocError> {
        for _ in 0..MOST_LINES {
            match self.text_behind(text.as_slice())? {
                Some(rest) => text = rest,
                None => return Ok(()),
            }
        }
        Ok(())
    }

    /// Tells of an area of a console that the plant hasn't.
    fn in_strange_area(
        &mut self,
        mark: Option<Mark>,
        plant: &[u8],
        wrong: &Mistake,
    ) -> Result<(), AllocError> {
        let said = strange_area(self.alloc, plant, wrong.text.as_str())?;
        self.say(mark, "%", &[said.as_str()])
    }

    /// How long a text may be.
    fn said_of_length(&self, wrong: &Mistake, most: usize) -> Result<String, AllocError> {
        let key = wrong.key.as_str();
        match wrong.item {
            None => format!(in self.alloc; "'{key}' is a text of 1 to {most} bytes"),
            Some(_) => format!(in self.alloc; "the name of a file has 1 to {most} bytes"),
        }
    }

    /// Tells of a text that is empty or too long.
    fn in_length(
        &mut self,
        mark: Option<Mark>,
        wrong: &Mistake,
        (bytes, most): (usize, usize),
    ) -> Result<(), AllocError> {
        let said = self.said_of_length(wrong, most)?;
        let bytes = bytes.to_string(self.alloc)?;
        let words = [said.as_str(), bytes.as_str()];
        self.say(mark, "%, and this one has %", &words)
    }

    /// Tells of a mistake in the text of a plant file, in which these are found, and which isn't told by another one.
    fn in_wrong_key(
        &mut self,
        plant: &[u8],
        keys: &Keys<'_>,
        mistakes: &[Mistake],
        wrong: &Mistake,
    ) -> Result<(), AllocError> {
        let (mark, key) = (mark_of(keys, wrong)?, wrong.key.as_str());
        match wrong.why {
            Why::UnknownKey => {
                let text = said_of_unknown(keys, mistakes, wrong);
                self.say(mark, text, &[key, near_key(wrong)])
            }
            Why::NoText if wrong.item.is_none() && is_list(plant, mark) => {
                self.say(mark, ONE_TEXT, &[key])
            }
            Why::NoAreaName if has_comma(plant, mark) => self.say(mark, EACH_AREA, &[]),
            Why::StrangeArea => self.in_strange_area(mark, plant, wrong),
            Why::Length { bytes, most } => self.in_length(mark, wrong, (bytes, most)),
            _ => self.say(mark, said_of(wrong), &[key]),
        }
    }

    /// Tells of a mistake in the text of a plant file, in which these are found.
    fn in_key(
        &mut self,
        plant: &[u8],
        keys: &Keys<'_>,
        mistakes: &[Mistake],
        wrong: &Mistake,
    ) -> Result<(), AllocError> {
        if is_told(keys, mistakes, wrong) {
            return Ok(());
        }
        self.in_wrong_key(plant, keys, mistakes, wrong)
    }

    /// Tells of these mistakes in the text of the plant file, but for those at a key that one of the lines that it hasn't may be; and of the epoch.
    fn in_each_key(
        &mut self,
        plant: &[u8],
        (keys, lost): (&Keys<'_>, &[LostLine<'_>]),
        mistakes: &[Mistake],
    ) -> Result<(), AllocError> {
        for wrong in mistakes {
            let key = wrong.key.as_str().as_bytes();
            if !may_have(lost, key, wrong.why == Why::MissingKey) {
                self.in_key(plant, keys, mistakes, wrong)?;
            }
        }
        if has_no_epoch(keys, plant) && !may_have(lost, b"epoch", false) {
            self.no_epoch(plant, keys)?;
        }
        Ok(())
    }

    /// Tells of the mistakes in the text of the plant file, as they are found.
    fn in_found_keys(&mut self, plant: &[u8], mistakes: &[Mistake]) -> Result<(), AllocError> {
        let keys = keys_of(self.alloc, plant)?;
        let lost = lost_lines(self.alloc, self.plant, plant)?;
        self.in_each_key(plant, (&keys, lost.as_slice()), mistakes)
    }

    /// Tells of the mistakes in the text of the plant file, which is whole, or has lines left out: then nothing is told of a key that one of these may be. What
    /// has no place comes first, but behind what was told already.
    fn in_keys_of(&mut self, plant: &[u8], mistakes: &[Mistake]) -> Result<(), AllocError> {
        let placeless = if self.told.is_empty() { 0 } else { usize::MAX };
        self.in_found_keys(plant, mistakes)?;
        if self.told.is_empty() {
            let text = "the sources that were handed in aren't those that 'sources' lists";
            self.say(None, text, &[])?;
        }
        self.told.sort_unstable_by_key(|cause: &Cause| {
            cause
                .mark
                .map_or(placeless, |mark| mark.0.saturating_add(1))
        });
        Ok(())
    }

    /// Tells of the epoch in the text of the plant file, which is none.
    fn no_epoch(&mut self, plant: &[u8], keys: &Keys<'_>) -> Result<(), AllocError> {
        let mark = keys.find(0, "epoch").map(|entry| entry.value);
        let value = mark.map_or(b"".as_slice(), |mark| part(plant, mark.0, mark.1));
        let why = match value {
            [b'"', inner @ .., b'"'] if !inner.contains(&b'\\') => said_of_epoch(inner),
            [b'\'', inner @ .., b'\''] => said_of_epoch(inner),
            _ => "",
        };
        let colon = if why.is_empty() { "" } else { ": " };
        let text =
            "the epoch is no second of the years 1970 to 2399 in the form YYYY-MM-DDTHH:MM:SSZ%%";
        self.say(mark, text, &[colon, why])
    }
}

/// A plant file of which nothing is told yet.
fn untold(alloc: Global, plant: &[u8]) -> Document<'_> {
    Document {
        alloc,
        plant,
        told: Vec::new(alloc),
    }
}

/// What is told of a plant file that is no TOML document (C1): where it isn't one any more, and why, as its reader says; and what is wrong behind that.
pub fn no_document(alloc: Global, plant: &[u8], unread: &Unread) -> Result<Vec<Cause>, AllocError> {
    let mut document = untold(alloc, plant);
    document.not_toml(unread)?;
    Ok(document.told)
}

/// What is told of a document that isn't that of a plant file (C2), in the order of the text; what has no place comes first.
pub fn wrong_keys(
    alloc: Global,
    plant: &[u8],
    mistakes: &[Mistake],
) -> Result<Vec<Cause>, AllocError> {
    let mut document = untold(alloc, plant);
    document.in_keys_of(plant, mistakes)?;
    Ok(document.told)
}

/// What is told of a plant file whose epoch isn't one (C3).
pub fn wrong_epoch(alloc: Global, plant: &[u8]) -> Result<Vec<Cause>, AllocError> {
    let mut document = untold(alloc, plant);
    document.no_epoch(plant, &keys_of(alloc, plant)?)?;
    Ok(document.told)
}

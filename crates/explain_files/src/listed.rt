//! Which files a plant file lists, as far as it can be read where it is refused.

use crate::keys::Mark;
use explain_tokens::{part, within_one};
use plant_file::{PlantFileFault, read};
use std::alloc::{AllocError, Global};
use std::str;
use toml::Value;
use toml_parser::bytes::is_bare;

/// A plant has so many sources at most.
const MOST_SOURCES: usize = 64;

/// The name of a file has so many bytes at most.
const MOST_BYTES: usize = 255;

/// A file that a plant file lists: its name, and the bytes at which this stands, with its quotes.
#[derive(Drop)]
pub struct ListedFile {
    pub name: String,
    pub mark: Mark,
}

/// The files that a plant file lists.
#[derive(Drop)]
pub struct Listed {
    /// Whether the plant file is a document, so that the names are certain.
    pub is_document: bool,
    /// The sources, each once.
    pub sources: Vec<ListedFile>,
    /// Whether these are all.
    pub are_all: bool,
    /// Whether they stand in a list.
    pub is_list: bool,
    /// The alarm database; `None` where it isn't certain which that is.
    pub alarms: Option<ListedFile>,
}

/// How many bytes a text begins with that part the items of a list: blanks, line ends, commas and remarks.
fn parted(text: &[u8]) -> usize {
    let mut is_remark = false;
    for (number, byte) in text.iter().enumerate() {
        is_remark = *byte != b'\n' && (is_remark || *byte == b'#');
        if !is_remark && !matches!(*byte, b' ' | b'\t' | b'\r' | b'\n' | b',') {
            return number;
        }
    }
    text.len()
}

/// How many blanks bytes begin with.
fn blanks(bytes: &[u8]) -> usize {
    let bytes = bytes.iter();
    bytes
        .take_while(|byte| matches!(**byte, b' ' | b'\t'))
        .count()
}

/// The key with which a line begins, and the number of the byte behind its sign.
pub fn key_of(line: &[u8]) -> Option<(&[u8], usize)> {
    let from = blanks(line);
    let word = part(line, from, line.len());
    let len = word.iter().take_while(|byte| is_bare(**byte)).count();
    let key = part(word, 0, len);
    let sign = len.saturating_add(blanks(part(word, len, word.len())));
    match word.get(sign) {
        Some(b'=' | b':') => Some((key, from.saturating_add(sign).saturating_add(1))),
        _ => None,
    }
}

/// The number of the byte behind the sign of a key, which one line alone begins with; else where one line alone begins with a word that nearly is the key.
fn value_of(text: &[u8], key: &[u8]) -> Option<usize> {
    let (mut same, mut near) = ((0usize, 0usize), (0usize, 0usize));
    let mut from = 0usize;
    for line in text.split(|byte| *byte == b'\n') {
        if let Some((word, behind)) = key_of(line) {
            let at = from.saturating_add(behind);
            if word == key {
                same = (same.0.saturating_add(1), at);
            } else if within_one(word, key) {
                near = (near.0.saturating_add(1), at);
            }
        }
        from = from.saturating_add(line.len()).saturating_add(1);
    }
    match (same, near) {
        ((1, at), _) | ((0, _), (1, at)) => Some(at),
        _ => None,
    }
}

/// The bytes of the text in quotes that begins at a byte, with these; `None` where none is closed in its line.
fn quoted_at(text: &[u8], at: usize) -> Option<Mark> {
    let quote = text
        .get(at)
        .copied()
        .filter(|byte| matches!(*byte, b'"' | b'\''))?;
    let inside = at.saturating_add(1);
    let mut rest = part(text, inside, text.len()).iter();
    let len = rest.position(|byte| *byte == quote || *byte == b'\n')?;
    let end = inside.saturating_add(len);
    (text.get(end) == Some(&quote)).then_some((at, end.saturating_add(1)))
}

/// Whether a list that is closed before a byte may go on all the same: something stands behind it in its line, or the next line begins with a text.
fn goes_on(text: &[u8], at: usize) -> bool {
    let mut lines = part(text, at, text.len()).split(|byte| *byte == b'\n');
    let rest = lines.next().unwrap_or(b"").trim_ascii_start();
    let next = lines.next().unwrap_or(b"").trim_ascii_start();
    let is_item = matches!(next, [b'"' | b'\'', ..] | [b'[', b'"' | b'\'', ..]);
    !matches!(rest, [] | [b'#', ..]) || is_item
}

/// The name in quotes at these bytes; `None` where it is none of a file.
fn name_at(alloc: Global, text: &[u8], mark: Mark) -> Result<Option<String>, AllocError> {
    let quoted = str::from_utf8(part(text, mark.0, mark.1)).unwrap_or("");
    let value = match Value::from_str(alloc, quoted).map_err(|error| error.span()) {
        Ok(value) => value,
        Err(Some(_)) => return Ok(None),
        Err(None) => return Err(AllocError),
    };
    match value.as_str() {
        Some(name) if !name.is_empty() && name.len() <= MOST_BYTES => Ok(Some(String::from_str(
            alloc, name,
        )?)),
        _ => Ok(None),
    }
}

impl Listed {
    /// Adds a source, unless it is there.
    fn add(&mut self, name: String, mark: Mark) -> Result<(), AllocError> {
        let mut sources = self.sources.iter();
        if sources.any(|source| source.name.as_str() == name.as_str()) {
            return Ok(());
        }
        self.sources.push(ListedFile { name, mark })?;
        Ok(())
    }

    /// Adds the sources of the list at a byte, up to where it can't be read.
    fn add_sources(&mut self, alloc: Global, text: &[u8], at: usize) -> Result<(), AllocError> {
        let blanks = blanks(part(text, at, text.len()));
        let mut next = at.saturating_add(blanks);
        let mut is_whole = text.get(next) == Some(&b'[');
        self.is_list = is_whole;
        next = next.saturating_add(usize::from(is_whole));
        for _ in 0..MOST_SOURCES.saturating_add(1) {
            next = next.saturating_add(parted(part(text, next, text.len())));
            let Some(mark) = quoted_at(text, next) else {
                break;
            };
            match name_at(alloc, text, mark)? {
                Some(name) => self.add(name, mark)?,
                None => is_whole = false,
            }
            next = mark.1;
        }
        let is_closed = is_whole && text.get(next) == Some(&b']');
        self.are_all = is_closed && !goes_on(text, next.saturating_add(1));
        Ok(())
    }
}

/// Whether a plant file is a document.
fn is_document(alloc: Global, plant: &[u8]) -> Result<bool, AllocError> {
    match read(alloc, plant) {
        Ok(file) => {
            drop(file);
            Ok(true)
        }
        Err(PlantFileFault::Memory) => Err(AllocError),
        Err(PlantFileFault::NotToml(unread)) => {
            drop(unread);
            Ok(false)
        }
        Err(PlantFileFault::Wrong(mistakes)) => {
            drop(mistakes);
            Ok(true)
        }
    }
}

/// The files that a plant file lists, whether or not it is right: those that stand in a line of their key, or in the lines below it.
pub fn files_listed(alloc: Global, plant: &[u8]) -> Result<Listed, AllocError> {
    let mut listed = Listed {
        is_document: is_document(alloc, plant)?,
        sources: Vec::new(alloc),
        are_all: false,
        is_list: false,
        alarms: None,
    };
    if let Some(at) = value_of(plant, b"sources") {
        listed.add_sources(alloc, plant, at)?;
    }
    if let Some(at) = value_of(plant, b"alarms") {
        let blanks = blanks(part(plant, at, plant.len()));
        if let Some(mark) = quoted_at(plant, at.saturating_add(blanks)) {
            let name = name_at(alloc, plant, mark)?;
            listed.alarms = name.map(|name| ListedFile { name, mark });
        }
    }
    Ok(listed)
}

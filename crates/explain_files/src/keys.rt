//! Where the keys of a plant file stand, and what stands under them. What a document says, and what is wrong in it, its reader tells; this only finds the bytes
//! of it.

use explain_tokens::part;
use std::alloc::{AllocError, Global};
use std::str;
use toml::Value;
use toml_parser::bytes::is_bare;
use toml_parser::text::{skip_blank, skip_ws};
use toml_parser::{ParseError, dotted_key};

/// Bytes of a text, from one number to before another.
pub type Mark = (usize, usize);

/// Whose keys stand below the header of a table that there isn't.
pub const NOBODY: usize = usize::MAX;

/// Whose keys stand below the header of a console that isn't in a list.
const LONE_CONSOLE: usize = usize::MAX - 1;

/// A key, and what stands under it.
#[derive(Drop)]
pub struct KeyLine {
    /// 0 for a key of the plant, the number of the console, from 1, or `NOBODY`.
    pub owner: usize,
    /// The bytes of the key, or of its first word where it has dots, without quotes.
    pub key: Mark,
    /// The bytes of what stands under it: a value, or the header of a table.
    pub value: Mark,
}

/// The keys of a plant file, in the order of the text.
#[derive(Drop)]
pub struct Keys<'t> {
    alloc: Global,
    text: &'t str,
    pub entries: Vec<KeyLine>,
    /// The headers of the consoles.
    pub consoles: Vec<Mark>,
    /// Whose keys come next.
    current: usize,
}

/// What stands behind the value with which a text begins, where its reader doesn't go on.
fn behind_value(alloc: Global, text: &str) -> Result<&str, AllocError> {
    match Value::from_str(alloc, text).map_err(|error| error.span()) {
        Ok(_) => Ok(""),
        Err(Some(rest)) => Ok(text.get(rest.start..).unwrap_or("")),
        Err(None) => Err(AllocError),
    }
}

/// What stands behind the dotted key with which a text begins.
fn behind_key(alloc: Global, text: &str) -> Result<&str, ParseError> {
    Ok(dotted_key(alloc, text)?.1)
}

/// What stands behind the item of a list with which a text begins, and the comma behind it.
fn behind_item(alloc: Global, text: &str) -> Result<&str, AllocError> {
    let behind = skip_blank(behind_value(alloc, skip_blank(text, true))?, true);
    Ok(behind.strip_prefix(",").unwrap_or(behind))
}

impl<'t> Keys<'t> {
    /// The bytes from the beginning of one rest of the text to that of another.
    fn between(&self, from: &str, until: &str) -> Mark {
        let at = |rest: &str| self.text.len().saturating_sub(rest.len());
        (at(from), at(until))
    }

    /// The bytes of the word of a key with which a text begins, without quotes, and what stands behind it.
    fn word(&self, text: &'t str) -> Result<(Mark, &'t str), AllocError> {
        if text.starts_with("\"") || text.starts_with("'") {
            let behind = behind_value(self.alloc, text)?;
            let (from, until) = self.between(text, behind);
            return Ok(((from.saturating_add(1), until.saturating_sub(1)), behind));
        }
        let len = text.bytes().take_while(|byte| is_bare(*byte)).count();
        let behind = text.get(len..).unwrap_or("");
        Ok((self.between(text, behind), behind))
    }

    fn add(&mut self, owner: usize, key: Mark, value: Mark) -> Result<(), AllocError> {
        self.entries.push(KeyLine { owner, key, value })?;
        Ok(())
    }

    /// Adds a key with which a text begins, and its value, which stands between the beginnings of two others.
    fn add_pair(&mut self, text: &'t str, (value, behind): (&str, &str)) -> Result<(), AllocError> {
        let (owner, key) = (self.current, self.word(text)?.0);
        let value = self.between(value, behind);
        self.add(owner, key, value)
    }

    /// Takes a key with its value, and returns what stands behind them.
    fn take_pair(&mut self, text: &'t str) -> Result<&'t str, ParseError> {
        let sign = behind_key(self.alloc, text)?;
        let value = skip_ws(sign.get(1..).unwrap_or(""));
        let behind = behind_value(self.alloc, value)?;
        self.add_pair(text, (value, behind))?;
        Ok(behind)
    }

    /// Takes a header, and returns what stands behind it.
    fn take_header(&mut self, text: &'t str) -> Result<&'t str, ParseError> {
        let words = skip_ws(text.trim_start_matches('['));
        let behind = behind_key(self.alloc, words)?.trim_start_matches(']');
        let header = self.between(text, behind);
        let (first, rest) = self.word(words)?;
        let second = skip_ws(rest).strip_prefix(".");
        let is_console = self.has(first, "console");
        if is_console && second.is_none() && text.starts_with("[[") {
            self.consoles.push(header)?;
            self.current = self.consoles.len();
            return Ok(behind);
        }
        self.current = if is_console { LONE_CONSOLE } else { NOBODY };
        let (owner, key) = match second {
            Some(second) if is_console => (self.consoles.len(), self.word(skip_ws(second))?.0),
            _ => (0, first),
        };
        self.add(owner, key, header)?;
        Ok(behind)
    }

    pub fn has(&self, mark: Mark, word: &str) -> bool {
        part(self.text.as_bytes(), mark.0, mark.1) == word.as_bytes()
    }

    /// The first key of an owner of a name.
    pub fn find(&self, owner: usize, key: &str) -> Option<&KeyLine> {
        let mut entries = self.entries.iter();
        entries.find(|entry| entry.owner == owner && self.has(entry.key, key))
    }

    /// The bytes of the first header that is written so, of tables that are in no list.
    pub fn header(&self, header: &str) -> Option<Mark> {
        let mut entries = self.entries.iter();
        let entry = entries.find(|entry| self.has(entry.value, header));
        entry.map(|entry| entry.value)
    }

    /// The bytes of what stands under a key, or of an item where it is a list.
    pub fn under(&self, entry: &KeyLine, item: Option<usize>) -> Result<Option<Mark>, AllocError> {
        let Some(number) = item else {
            return Ok(Some(entry.value));
        };
        let first = entry.value.0.saturating_add(1);
        let mut rest = self.text.get(first..).unwrap_or("");
        for _ in 0..number {
            rest = behind_item(self.alloc, rest)?;
        }
        let item = skip_blank(rest, true);
        Ok(Some(self.between(item, behind_value(self.alloc, item)?)))
    }

    /// The bytes of a console, by its number from 0: of its header, or of its table in a list.
    pub fn console(&self, number: usize) -> Result<Option<Mark>, AllocError> {
        match (self.consoles.get(number), self.find(0, "console")) {
            (Some(header), _) => Ok(Some(*header)),
            (None, Some(entry)) => self.under(entry, Some(number)),
            (None, None) => Ok(None),
        }
    }
}

/// Where the keys of a document stand, as far as it is one.
pub fn keys_of(alloc: Global, bytes: &[u8]) -> Result<Keys<'_>, AllocError> {
    let text = str::from_utf8(bytes).unwrap_or("");
    let mut keys = Keys {
        alloc,
        text,
        entries: Vec::new(alloc),
        consoles: Vec::new(alloc),
        current: 0,
    };
    let mut rest = text.strip_prefix("\u{FEFF}").unwrap_or(text);
    for _ in 0..text.len() {
        rest = skip_blank(rest, true);
        let taken = match rest.starts_with("[") {
            true => keys.take_header(rest),
            false => keys.take_pair(rest),
        };
        match taken {
            Ok(behind) => rest = behind,
            Err(ParseError::OutOfMemory) => return Err(AllocError),
            Err(ParseError::At(_, _, _)) => break,
        }
    }
    Ok(keys)
}

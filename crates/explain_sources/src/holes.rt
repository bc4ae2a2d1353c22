//! A text in which bytes begin no token: what stands in their place.

use explain_spelling::{first_character, quoted_len, run_len};
use explain_tokens::{byte_at, part, tokens_of};
use st_lexer::{LexFault, Token, lex};
use std::alloc::{AllocError, Global};

/// The most places of a text that are passed over.
const MOST_HOLES: usize = 20;

/// A text, its tokens, and what stands between them.
#[derive(Drop)]
pub struct Lexed<'a> {
    pub text: &'a [u8],
    pub tokens: Vec<Token>,
    /// What begins no token, each time from one byte to before another.
    pub holes: Vec<(usize, usize)>,
    /// Whether the text has more tokens, which aren't known.
    pub is_cut: bool,
}

/// How many bytes stand up to a mark that closes what the first byte opens, with both; 1 where the line hasn't it.
fn closed_len(bytes: &[u8], mark: u8) -> usize {
    let len = quoted_len(bytes, mark);
    let is_closed = bytes.get(len.saturating_add(1)) == Some(&mark);
    if is_closed { len.saturating_add(2) } else { 1 }
}

/// How many bytes there are up to the end of the line.
fn line_len(bytes: &[u8]) -> usize {
    bytes.iter().take_while(|byte| **byte != b'\n').count()
}

/// How many bytes of a time belong together that has a comma or a blank in it, and what may stand in their place; `None` of another one.
fn time_hole(bytes: &[u8], len: usize) -> Option<(usize, &'static str)> {
    if matches!(part(bytes, len, bytes.len()), [b',', b'0'..=b'9', ..]) {
        let decimals = run_len(part(bytes, len.saturating_add(1), bytes.len()));
        return Some((len.saturating_add(1).saturating_add(decimals), "0"));
    }
    if bytes.get(2) != Some(&b' ') {
        return None;
    }
    let behind = part(bytes, 2, bytes.len());
    let blanks = behind.iter().take_while(|byte| **byte == b' ').count();
    let parts = run_len(part(behind, blanks, behind.len()));
    Some((blanks.saturating_add(parts).saturating_add(2), "0"))
}

/// The same of a word or a number that is no token.
fn word_hole(bytes: &[u8]) -> (usize, &'static str) {
    let len = run_len(bytes);
    if matches!(bytes, [b't' | b'T', b'#', ..]) {
        return time_hole(bytes, len).unwrap_or((len, "0"));
    }
    (len, "0")
}

/// The same of an address that is none.
fn address_hole(bytes: &[u8]) -> (usize, &'static str) {
    let len = run_len(part(bytes, 1, bytes.len())).saturating_add(1);
    (len, if len > 2 { "%M0" } else { "" })
}

/// The same of a text in quotes.
fn text_hole(bytes: &[u8], mark: u8) -> (usize, &'static str) {
    match closed_len(bytes, mark) {
        1 => (quoted_len(bytes, mark).saturating_add(1), ""),
        len => (len, if len > 2 { " 0" } else { "" }),
    }
}

/// The same of another sign.
fn sign_hole(bytes: &[u8], first: u8, second: u8) -> (usize, &'static str) {
    let is_name = matches!(second, b'a'..=b'z' | b'A'..=b'Z' | b'_');
    if first == b'#' && is_name && !bytes.starts_with(b"#include") {
        return (1, "");
    }
    if first == b'#' || first == b'\\' && second == b'\\' {
        return (line_len(bytes), "");
    }
    if first == b'|' && second == b'|' {
        return (2, "&");
    }
    if matches!(first, b'!' | b'~') && second == b'=' {
        return (2, "<>");
    }
    (first_character(bytes).len().max(1), "")
}

/// Whether a text that begins with these bytes looks like UTF-16.
fn is_wide(first: u8, second: u8) -> bool {
    first == 0 || first == 0xFF && second == 0xFE || first == 0xFE && second == 0xFF
}

/// How many bytes belong together from the one of a number on that begin no token, and what may stand in their place; `None` where what follows can't be told: a
/// comment isn't closed, or the text looks like UTF-16.
fn hole_of(at: usize, bytes: &[u8]) -> Option<(usize, &'static str)> {
    let first = *bytes.first()?;
    let second = bytes.get(1).copied().unwrap_or(0);
    if matches!(first, b'(' | b'/') && second == b'*' || at < 2 && is_wide(first, second) {
        return None;
    }
    Some(match first {
        b'0'..=b'9' | b'a'..=b'z' | b'A'..=b'Z' | b'_' => word_hole(bytes),
        b'%' if matches!(second, b'a'..=b'z' | b'A'..=b'Z') => address_hole(bytes),
        b'\'' | b'"' => text_hole(bytes, first),
        b'{' => (closed_len(bytes, b'}'), ""),
        _ => sign_hole(bytes, first, second),
    })
}

/// Where bytes of a text first begin no token, by line and column.
fn misspelling(alloc: Global, text: &[u8]) -> Result<Option<(usize, usize)>, AllocError> {
    match lex(alloc, text) {
        Ok(_) => Ok(None),
        Err(LexFault::Memory) => Err(AllocError),
        Err(LexFault::Bad { line, column }) => Ok(Some((line, column))),
    }
}

/// A text that is read, with others in the place of bytes that begin no token.
#[derive(Drop)]
struct Patched<'a> {
    text: &'a [u8],
    /// As far as it is read.
    read: Vec<u8>,
    holes: Vec<(usize, usize)>,
    is_cut: bool,
}

impl Patched<'_> {
    /// Passes over bytes that begin no token; whether it is certain how.
    fn pass(&mut self) -> Result<bool, AllocError> {
        let (at, end) = (self.read.len(), self.text.len());
        let Some((len, put)) = hole_of(at, part(self.text, at, end)) else {
            self.holes.push((at, end))?;
            return Ok(false);
        };
        let until = at.saturating_add(len).min(end);
        self.read.extend_from_slice(put.as_bytes())?;
        for _ in self.read.len()..until {
            self.read.push(b' ')?;
        }
        self.holes.push((at, until))?;
        Ok(true)
    }

    /// Reads the tokens up to the next bytes that begin none, and passes over these; whether there is more to read.
    fn read_on(&mut self, alloc: Global) -> Result<bool, AllocError> {
        let rest = part(self.text, self.read.len(), self.text.len());
        let Some((line, column)) = misspelling(alloc, rest)? else {
            self.is_cut = false;
            self.read.extend_from_slice(rest)?;
            return Ok(false);
        };
        let right = part(rest, 0, byte_at(rest, line, column));
        self.read.extend_from_slice(right)?;
        self.pass()
    }

    /// Reads the text, as far as it is certain how.
    fn read_all(&mut self, alloc: Global) -> Result<Vec<Token>, AllocError> {
        for _ in 0..MOST_HOLES {
            if !self.read_on(alloc)? {
                break;
            }
        }
        tokens_of(alloc, self.read.as_slice())
    }
}

/// The tokens of a text, and what stands between them.
pub fn tokens_with_holes(alloc: Global, text: &[u8]) -> Result<Lexed<'_>, AllocError> {
    let mut patched = Patched {
        text,
        read: Vec::new(alloc),
        holes: Vec::new(alloc),
        is_cut: true,
    };
    let tokens = patched.read_all(alloc)?;
    let is_cut = patched.is_cut || tokens.is_empty() && !patched.holes.is_empty();
    let Patched { holes, .. } = patched;
    Ok(Lexed {
        text,
        tokens,
        holes,
        is_cut,
    })
}

impl<'a> Lexed<'a> {
    /// Whether bytes stand in the line and the statement of some that begin no token, behind these: what is said of them may come of these.
    pub fn is_behind_hole(&self, mark: Option<(usize, usize)>) -> bool {
        let Some((at, _)) = mark else {
            return false;
        };
        let mut holes = self.holes.as_slice().iter();
        let ends = |byte: &u8| matches!(*byte, b'\n' | b';');
        holes.any(|hole| hole.0 < at && !part(self.text, hole.0, at).iter().any(|byte| ends(byte)))
    }

    /// Whether bytes that begin no token stand in a part of the text.
    pub fn has_hole(&self, from: usize, until: usize) -> bool {
        let mut holes = self.holes.as_slice().iter();
        holes.any(|hole| hole.0 <= until && from <= hole.1)
    }
}

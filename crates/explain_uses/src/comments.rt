//! Comments that go on to the end of the next one.

use explain_tokens::{Cause, cause_at, part};
use explain_trees::Cursor;
use plant_types::{is_name_byte, same_word};
use std::alloc::{AllocError, Global};

/// Where it stands how comments are written.
const SPELLING: &str = "docs/LANGUAGE.md, \"Spelling\"";

/// How a comment begins, and how it ends.
const BRACKETS: [(&[u8], &[u8]); 3] = [(b"(*", b"*)"), (b"/*", b"*/"), (b"//", b"\n")];

/// A comment: where it begins, and the byte behind it.
#[derive(Clone, Copy, Drop)]
pub struct Comment {
    pub from: usize,
    pub until: usize,
    /// Where another begins in it, behind statements.
    pub inner: Option<usize>,
}

/// The number of the first byte, from one on, at which bytes stand; `None` where they don't.
fn find_from(text: &[u8], from: usize, sought: &[u8]) -> Option<usize> {
    let first = *sought.first()?;
    let mut at = from;
    for _ in from..text.len() {
        let rest = text.get(at..)?;
        at = at.saturating_add(rest.iter().position(|byte| *byte == first)?);
        if text.get(at..)?.starts_with(sought) {
            return Some(at);
        }
        at = at.saturating_add(1);
    }
    None
}

/// The comment that begins at a byte; `None` where none does. One in a line has no other in it.
pub fn comment_at(text: &[u8], from: usize) -> Option<Comment> {
    let rest = text.get(from..)?;
    let (opens, closes) = *BRACKETS.iter().find(|pair| rest.starts_with(pair.0))?;
    let inside = from.saturating_add(2);
    let end = find_from(text, inside, closes).unwrap_or(text.len());
    let mut bytes = text.get(inside..end).unwrap_or(b"").iter();
    let first_end = bytes.position(|byte| *byte == b';');
    let inner = first_end.and_then(|len| {
        find_from(text.get(..end)?, inside.saturating_add(len), opens)
    });
    let is_of_line = closes.len() == 1;
    Some(Comment {
        from,
        until: end.saturating_add(closes.len()),
        inner: inner.filter(|_| !is_of_line),
    })
}

/// The first comment of a text from a byte on; `None` where there is none.
fn next_comment(text: &[u8], from: usize) -> Option<Comment> {
    let mut at = from;
    for _ in from..text.len() {
        let rest = text.get(at..)?;
        let more = rest.iter().position(|byte| matches!(byte, b'(' | b'/'))?;
        at = at.saturating_add(more);
        if let Some(comment) = comment_at(text, at) {
            return Some(comment);
        }
        at = at.saturating_add(1);
    }
    None
}

/// The first comment of a text that goes on over statements to the end of another, and where that begins; `None` where none does.
fn swallowing(text: &[u8]) -> Option<(Comment, usize)> {
    let mut at = 0;
    for _ in 0..text.len() {
        let comment = next_comment(text, at)?;
        if let Some(inner) = comment.inner {
            return Some((comment, inner));
        }
        at = comment.until;
    }
    None
}

/// The number of the byte behind the next end of a unit in a text, or behind the text.
fn unit_end(text: &[u8]) -> usize {
    let ends = [b"END_PR".as_slice(), b"END_FU".as_slice()];
    let mut parts = text.windows(6);
    let end = parts.position(|part| ends.iter().any(|end| part.eq_ignore_ascii_case(end)));
    end.map_or(text.len(), |end| end.saturating_add(6))
}

/// Whether a word stands in a text, in any letter case.
pub fn has_word(text: &[u8], word: &[u8]) -> bool {
    let mut words = text.split(|byte| !is_name_byte(*byte));
    words.any(|other| !word.is_empty() && same_word(word, other))
}

/// A comment that goes on over statements to the end of another.
#[derive(Drop)]
pub struct OpenComment<'t> {
    /// What is told of it.
    pub cause: Cause,
    /// What it swallows.
    pub swallowed: &'t [u8],
    /// The bytes of which it isn't known to which unit they belong, from one number to before another: its own, and what follows up to the end of a unit where
    /// it swallows one.
    around: (usize, usize),
}

impl OpenComment<'_> {
    /// Whether something may be wrong by the comment alone that is told of a word at a byte of the comment's source, or of another one (`None`).
    pub fn hides(&self, at: Option<usize>, word: &[u8]) -> bool {
        let is_around = at.is_some_and(|at| self.around.0 <= at && at < self.around.1);
        is_around || has_word(self.swallowed, word)
    }
}

/// The first comment of a source, whose bytes all belong to tokens, blanks and comments, that goes on over statements to the end of another; `None` where none
/// does.
pub fn swallower(alloc: Global, text: &[u8]) -> Result<Option<OpenComment<'_>>, AllocError> {
    let Some((comment, inner)) = swallowing(text) else {
        return Ok(None);
    };
    let (at, line) = (comment.from, Cursor::line_of(text, inner));
    let said = format!(in alloc;
        "this comment goes on to the end of the one that begins in line {line}: its own end seems to be missing"
    )?;
    let swallowed = part(text, at, inner);
    let until = if unit_end(swallowed) < swallowed.len() {
        let behind = part(text, comment.until, text.len());
        comment.until.saturating_add(unit_end(behind))
    } else {
        comment.until
    };
    Ok(Some(OpenComment {
        cause: cause_at((at, at.saturating_add(2)), said, SPELLING),
        swallowed,
        around: (at, until),
    }))
}

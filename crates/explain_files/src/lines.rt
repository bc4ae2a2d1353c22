//! The lines of a text.

use crate::keys::Mark;
use explain_tokens::part;

/// The bytes of the line in which a byte stands.
pub fn line_of(text: &[u8], at: usize) -> Mark {
    let is_end = |byte: &u8| *byte == b'\n';
    let before = part(text, 0, at).iter().rev().position(is_end);
    let from = at.saturating_sub(before.unwrap_or(at));
    let len = part(text, from, text.len()).iter().position(is_end);
    (from, len.map_or(text.len(), |len| from.saturating_add(len)))
}

/// The number of the line in which a byte stands, from 1.
pub fn line_number(text: &[u8], at: usize) -> usize {
    let ends = part(text, 0, at).iter().filter(|byte| **byte == b'\n');
    ends.count().saturating_add(1)
}

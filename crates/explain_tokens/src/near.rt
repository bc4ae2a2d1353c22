//! Words that are near one another.

use crate::cause::part;
use plant_types::same_word;

/// What is left of two words behind the letters that both begin with.
fn rests<'a, 'b>(a: &'a [u8], b: &'b [u8]) -> (&'a [u8], &'b [u8]) {
    let same = a
        .iter()
        .zip(b)
        .take_while(|(x, y)| x.eq_ignore_ascii_case(*y))
        .count();
    (part(a, same, a.len()), part(b, same, b.len()))
}

/// A word without its first letter.
fn tail(word: &[u8]) -> &[u8] {
    part(word, 1, word.len())
}

/// Whether a letter put in, left out or changed, or two changed about, makes one word of another, or none.
pub fn within_one(a: &[u8], b: &[u8]) -> bool {
    let (a, b) = rests(a, b);
    let is_swapped = match (a, b) {
        ([p, q, a @ ..], [r, s, b @ ..]) => same_word(&[*p, *q], &[*s, *r]) && same_word(a, b),
        _ => false,
    };
    is_swapped || same_word(tail(a), tail(b)) || same_word(tail(a), b) || same_word(a, tail(b))
}

/// Whether the same with two letters makes one word of another.
pub fn within_two(a: &[u8], b: &[u8]) -> bool {
    let (a, b) = rests(a, b);
    within_one(tail(a), tail(b)) || within_one(tail(a), b) || within_one(a, tail(b))
}

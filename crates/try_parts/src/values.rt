//! Words, ranges and values (`plant_types`).

use crate::printing::{bytes_of, parts_of, push_byte, truth_text};
use plant_types::{Given, Items, Kind, Text, Value, fitted, is_name, same_word};
use std::alloc::{AllocError, Global};
use try_text::Page;

/// Whether two words are one.
pub fn push_same(alloc: Global, page: &mut Page, words: &str) {
    let (left, right) = parts_of(words, "|");
    match (bytes_of(alloc, left), bytes_of(alloc, right)) {
        (Ok(left), Ok(right)) => page.add(truth_text(same_word(&left, &right))),
        _ => page.refuse(),
    }
}

/// Whether a word is a name.
pub fn push_name(page: &mut Page, word: &str) {
    page.add(truth_text(is_name(word.as_bytes())));
}

/// Those of all 256 bytes that make a name between two texts.
pub fn push_names(alloc: Global, page: &mut Page, words: &str) {
    let (before, after) = parts_of(words, "|");
    for byte in 0..=255u8 {
        let mut word = Page::new(alloc);
        word.add(before);
        word.add_bytes(&[byte]);
        word.add(after);
        if word.is_short() {
            page.refuse();
        }
        if is_name(word.as_slice()) {
            push_byte(page, byte);
        }
    }
}

/// The kind that a word names; TIME for any other word.
fn kind_of(word: &str) -> Kind {
    match word {
        "BOOL" => Kind::Bool,
        "DINT" => Kind::Dint,
        _ => Kind::Time,
    }
}

/// What a word gives: a truth, or a number.
fn given_of(word: &str) -> Given {
    match word {
        "TRUE" => Given::Truth(true),
        "FALSE" => Given::Truth(false),
        _ => Given::Whole(word.parse::<i128>().unwrap_or(0)),
    }
}

/// How a kind is printed.
fn kind_text(kind: Kind) -> &'static str {
    match kind {
        Kind::Bool => "BOOL",
        Kind::Dint => "DINT",
        Kind::Time => "TIME",
    }
}

/// Adds a value's kind, what it is worth, and the value.
fn push_value(page: &mut Page, value: Value) {
    page.add(kind_text(value.kind()));
    page.number(i128::from(value.worth()));
    match value {
        Value::Bool(truth) => page.truth(truth),
        Value::Dint(number) => page.number(i128::from(number)),
        Value::Time(number) => page.number(i128::from(number)),
    }
}

/// The value that is taken where a kind is given a truth or a number; `-` where none is.
pub fn push_fitted(page: &mut Page, words: &str) {
    let (kind, given) = parts_of(words, " ");
    match fitted(kind_of(kind), given_of(given)) {
        Some(value) => push_value(page, value),
        None => page.add("-"),
    }
}

/// The BOOL of 1 and of 0.
pub fn push_truths(page: &mut Page) {
    push_value(page, Value::of_kind(Kind::Bool, 1));
    page.add(", ");
    push_value(page, Value::of_kind(Kind::Bool, 0));
}

fn copied(alloc: Global, word: &str) -> Result<Text, AllocError> {
    Text::from_str(alloc, word)?.copy(alloc)
}

/// A list of two.
fn listed(alloc: Global) -> Result<Items<u8>, AllocError> {
    Ok(Items::from_vec(Vec::from_slice(alloc, [3, 5].as_slice())?))
}

/// A text's copy and how many bytes it has, and how many items a list of two has as a slice and as a vector.
pub fn push_lists(alloc: Global, page: &mut Page, word: &str) {
    let (Ok(copy), Ok(list)) = (copied(alloc, word), listed(alloc)) else {
        return page.refuse();
    };
    page.add(copy.as_str());
    page.number(copy.as_bytes().len() as i128);
    page.number(list.as_slice().len() as i128);
    page.number(list.into_vec().len() as i128);
}

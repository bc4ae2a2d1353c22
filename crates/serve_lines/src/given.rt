ghost use Rattle.std.specs.Prelude.{◌≡◌, ◌++◌, ◌∷◌, [], OnOk, ◌<◌, ◌≤◌, IfOk, IfSome, MatchOption, None, Some, length, take, slice_index, true, false, codes, if◌then◌else◌};
ghost use Rattle.std.specs.List.{list_all};
ghost use Rattle.plant_types.specs.Words.{is_name, is_name_byte, same_word};
ghost use Rattle.serve_lines.specs.Given.{given_of, pair_of, pairs_of};
ghost use Rattle.serve_lines.specs.Words.{at_gap, words_of};
ghost use Rattle.serve_lines.specs.Cuts.{cut_name, split_word};

use crate::numbers::whole;
use crate::pool::Pool;
use crate::words::{split_word, trim_start};
use plant_types::{Given, is_name_byte, same_word};
use std::alloc::{AllocError, Global};
use std::str;

/// The number of bytes before the first one with which no name may go on.
// Not inlined: among all that a pair takes, its loop would have to keep far more than a place.
#[inline(never)]
fn name_len(line: &[u8]) -> usize
    ensures within { result ≤ length line.now }
    ensures names { list_all is_name_byte (take result line.now) ≡ true }
    ensures stops { result < length line.now → is_name_byte (slice_index line.now result) ≡ false }
{
    for (i, byte) in line.iter().enumerate() {
        if !is_name_byte(*byte) {
            return i;
        }
    }
    line.len()
}

/// Splits a line at its first `=`, if only bytes of names are before it, into these and what is after it; `None` for any other line.
fn cut_name(line: &[u8]) -> Option<(&[u8], &[u8])>
    ensures cut { MatchOption result (cut_name line.now ≡ None)
        (λ r. cut_name line.now ≡ Some (r.0.now, r.1.now)) }
    ensures shorter { IfSome result (λ r. length r.1.now < length line.now) }
{
    let (name, rest) = line.split_at(name_len(line));
    let (byte, after) = rest.split_first()?;
    if *byte == b'=' {
        Some((name, after))
    } else {
        None
    }
}

/// Whether bytes that may all stand in a name are one: there are some, and the first is no digit.
fn begins_name(bytes: &[u8]) -> bool
    requires { list_all is_name_byte bytes.now ≡ true }
    ensures { result ≡ is_name bytes.now }
{
    match bytes.split_first() {
        Some((first, _)) => !first.is_ascii_digit(),
        None => false,
    }
}

/// Whether a word may be TRUE or FALSE: it begins with a letter.
fn begins_truth(word: &[u8]) -> bool
    ensures { result ≡ false
        → (same_word word.now (codes "true") ≡ false) × (same_word word.now (codes "false") ≡ false) }
{
    match word.split_first() {
        Some((first, _)) => first.is_ascii_alphabetic(),
        None => false,
    }
}

/// Parses a value for an input: TRUE or FALSE in any letter case, or a number; `None` for any other word.
#[tactic(auto, unfolding(crate::specs::Given::given_of))]
fn given(word: &[u8]) -> Option<Given>
    ensures { result ≡ given_of word.now }
{
    if begins_truth(word) {
        if same_word(word, b"true") {
            return Some(Given::Truth(true));
        }
        if same_word(word, b"false") {
            return Some(Given::Truth(false));
        }
    }
    let n = whole(word)?;
    Some(Given::Whole(n))
}

fn name_text(name: &[u8]) -> &str
    requires { is_name name.now ≡ true }
    ensures { result.now ≡ name.now }
{
    match str::from_utf8(name) {
        Ok(text) => text,
        Err(_) => unreachable!(),
    }
}

/// Parses the word `NAME=VALUE` with which a line begins, and returns what is after the word too; `None` if it is any other word.
fn pair(line: &[u8]) -> Option<(&[u8], Given, &[u8])>
    requires { at_gap line.now ≡ false }
    ensures pair { MatchOption result (pair_of (split_word line.now).0 ≡ None)
        (λ r. pair_of (split_word line.now).0 ≡ Some (record { name = r.0.now; given = r.1 })) }
    ensures name { IfSome result (λ r. is_name r.0.now ≡ true) }
    ensures after { IfSome result (λ r. r.2.now ≡ (split_word line.now).1) }
    ensures shorter { IfSome result (λ r. length r.2.now < length line.now) }
{
    let (name, rest) = cut_name(line)?;
    if !begins_name(name) {
        return None;
    }
    let (value, after) = split_word(rest);
    let given = given(value)?;
    Some((name, given, after))
}

/// Adds a pair to a pool. A name that stands in its place from an earlier line isn't copied again.
fn add_pair(alloc: Global, pool: &mut Pool, name: &[u8], given: Given) -> Result<(), AllocError>
    requires { is_name name.now ≡ true }
    ensures { OnOk result (pool.new ≡ pool.old ++ (record { name = name.now; given = given }) ∷ []) }
{
    if pool.push_again(name, given) {
        return Ok(());
    }
    pool.push(alloc, name_text(name), given)
}

/// Parses each word of a line as `NAME=VALUE`, and lists the pairs in a pool in place of those in it; false if one of the words isn't such a pair.
pub(crate) fn list_pairs(alloc: Global, words: &[u8], pool: &mut Pool) -> Result<bool, AllocError>
    ensures { IfOk result (λ all. pairs_of (words_of words.now)
        ≡ (if all then Some pool.new else None)) }
{
    pool.clear();
    let mut rest = trim_start(words);
    while !rest.is_empty() {
        match pair(rest) {
            Some((name, given, after)) => {
                add_pair(alloc, pool, name, given)?;
                rest = trim_start(after);
            }
            None => return Ok(false),
        }
    }
    Ok(true)
}

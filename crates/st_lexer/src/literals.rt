//! Typed literals: how many bytes they have, and their values.

ghost use Rattle.std.specs.Prelude.{◌≡◌, ◌≤◌, ◌+◌, ◌^◌, ◌<◌, ◌==◌, true, false, length, take, drop, IfSome};
ghost use Rattle.st_lexer.specs.Literals.{begins_word};
ghost use Rattle.st_lexer.specs.ReadingLiterals.{signed_within, parse_dint, parse_truth, parse_time, signed_len, pointed_len, timed_len, lettered_len, parse_literal};

use crate::bytes::{begins_with, is_tied, tied_len};
use crate::durations::parse_parts;
use crate::numbers::parse_integer;
use crate::token::TokenKind;
use plant_types::same_word;

// A number with its sign; `None` where it doesn't fit 32 bits.
#[tactic(auto, unfolding(crate::specs::ReadingLiterals::signed_within))]
fn dint_from(n: u32, is_negative: bool) -> Option<i32>
    ensures { result ≡ signed_within (2 ^ 31) is_negative n }
{
    if is_negative {
        0i32.checked_sub_unsigned(n)
    } else {
        0i32.checked_add_unsigned(n)
    }
}

// A number with its sign; `None` where it doesn't fit 64 bits.
#[tactic(auto, unfolding(crate::specs::ReadingLiterals::signed_within))]
fn time_from(n: u64, is_negative: bool) -> Option<i64>
    ensures { result ≡ signed_within (2 ^ 63) is_negative n }
{
    if is_negative {
        0i64.checked_sub_unsigned(n)
    } else {
        0i64.checked_add_unsigned(n)
    }
}

// Parses an optional sign and a whole number; `None` for other bytes and outside 32 bits.
#[tactic(auto, unfolding(crate::specs::ReadingLiterals::parse_dint))]
fn parse_dint(text: &[u8]) -> Option<i32>
    ensures { result ≡ parse_dint text.now }
{
    if begins_with(b'-', text) {
        dint_from(parse_integer(&text[1..])?, true)
    } else if begins_with(b'+', text) {
        dint_from(parse_integer(&text[1..])?, false)
    } else {
        dint_from(parse_integer(text)?, false)
    }
}

// Parses `BOOL#` and 1 or TRUE, 0 or FALSE; `None` for other bytes.
#[tactic(auto, unfolding(crate::specs::ReadingLiterals::parse_truth))]
fn parse_truth(piece: &[u8]) -> Option<bool>
    ensures { result ≡ parse_truth piece.now }
{
    if same_word(piece, b"BOOL#1") || same_word(piece, b"BOOL#TRUE") {
        Some(true)
    } else if same_word(piece, b"BOOL#0") || same_word(piece, b"BOOL#FALSE") {
        Some(false)
    } else {
        None
    }
}

// Parses an optional minus and the parts of a duration; `None` for other bytes and outside 64 bits of milliseconds.
#[tactic(auto, unfolding(crate::specs::ReadingLiterals::parse_time))]
fn parse_time(text: &[u8]) -> Option<i64>
    ensures { result ≡ parse_time text.now }
{
    if begins_with(b'-', text) {
        time_from(parse_parts(&text[1..])?, true)
    } else {
        time_from(parse_parts(text)?, false)
    }
}

// Whether a word begins a text, in any letter case.
fn begins_word(word: &[u8], text: &[u8]) -> bool
    ensures found { result ≡ begins_word word.now text.now }
    ensures within { result ≡ true → length word.now ≤ length text.now }
{
    if text.len() < word.len() {
        return false;
    }
    same_word(&text[..word.len()], word)
}

// How many bytes an optional sign and what is tied together after it have.
#[tactic(auto, unfolding(crate::specs::ReadingLiterals::signed_len))]
fn signed_len(text: &[u8]) -> usize
    ensures found { result ≡ signed_len text.now }
    ensures within { result ≤ length text.now }
{
    match text.first() {
        Some(b'-' | b'+') => 1 + tied_len(&text[1..]),
        _ => tied_len(text),
    }
}

// How many bytes at the front are tied together; from a digit before a point on, also the point and what is tied
// together after it.
fn pointed_len(text: &[u8]) -> usize
    ensures found { result ≡ pointed_len text.now }
    ensures within { result ≤ length text.now }
{
    for (i, byte) in text.iter().enumerate() {
        if !is_tied(*byte) {
            return i;
        }
        let after = &text[i + 1..];
        if char::from(*byte).is_digit(10) && begins_with(b'.', after) {
            return i + 2 + tied_len(&after[1..]);
        }
    }
    text.len()
}

// How many bytes an optional minus and the parts of a duration have.
#[tactic(auto, unfolding(crate::specs::ReadingLiterals::timed_len))]
fn timed_len(text: &[u8]) -> usize
    ensures found { result ≡ timed_len text.now }
    ensures within { result ≤ length text.now }
{
    if begins_with(b'-', text) {
        1 + pointed_len(&text[1..])
    } else {
        pointed_len(text)
    }
}

/// How many bytes the word or literal at the front has, which begins with a letter.
#[tactic(auto, unfolding(crate::specs::ReadingLiterals::lettered_len))]
pub fn lettered_len(text: &[u8]) -> usize
    ensures found { result ≡ lettered_len text.now }
    ensures within { result ≤ length text.now }
{
    if begins_word(b"DINT#", text) {
        5 + signed_len(&text[5..])
    } else if begins_word(b"T#", text) {
        2 + timed_len(&text[2..])
    } else if begins_word(b"TIME#", text) {
        5 + timed_len(&text[5..])
    } else {
        tied_len(text)
    }
}

/// Parses a literal that begins with a letter: `DINT#`, `T#`, `TIME#` or `BOOL#` and a value; `None` for other bytes.
#[tactic(auto, unfolding(crate::specs::ReadingLiterals::parse_literal))]
pub fn parse_literal(piece: &[u8]) -> Option<TokenKind>
    ensures { result ≡ parse_literal piece.now }
{
    if begins_word(b"DINT#", piece) {
        Some(TokenKind::Dint(parse_dint(&piece[5..])?))
    } else if begins_word(b"T#", piece) {
        Some(TokenKind::Duration(parse_time(&piece[2..])?))
    } else if begins_word(b"TIME#", piece) {
        Some(TokenKind::Duration(parse_time(&piece[5..])?))
    } else {
        Some(TokenKind::Truth(parse_truth(piece)?))
    }
}

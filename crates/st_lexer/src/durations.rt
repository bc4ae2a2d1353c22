//! Durations: the sum of their parts, each a number and a unit, in milliseconds.

ghost use Rattle.std.specs.Prelude.{◌≡◌, ◌≤◌, ◌<◌, ◌+◌, ◌*◌, ◌^◌, ◌==◌, ℕ, Some, None, IfSome, IfNone, length};
ghost use Rattle.std.specs.Char.{is_digit, is_ascii_alphabetic};
ghost use Rattle.st_lexer.specs.Durations.{unit_spelling, milliseconds_in};
ghost use Rattle.st_lexer.specs.ReadingLiterals.{digits_len, linked_len, decimal_step, parse_decimals, letters_len, parse_fraction, leading_number, parse_part, part_added, after_underscore, parts_after, parse_parts};

use crate::bytes::begins_with;
use crate::numbers::{begins_by_digit, parse_number};
use plant_types::same_word;

/// A unit of time; the longest comes first.
#[derive(Clone, Copy, Drop)]
pub enum TimeUnit {
    Day,
    Hour,
    Minute,
    Second,
    Millisecond,
}

/// The units in the order in which a duration may have them.
pub const UNITS: [TimeUnit; 5] = [
    TimeUnit::Day,
    TimeUnit::Hour,
    TimeUnit::Minute,
    TimeUnit::Second,
    TimeUnit::Millisecond,
];

/// Decimals are counted in multiples of 10 ^ -10: ten places, as many as a whole number of milliseconds can need.
const DECIMAL_SCALE: u64 = 10_000_000_000;

/// The number of a part: its digits before a point, and those after it as a multiple of 10 ^ -10.
#[derive(Clone, Copy, Drop)]
pub struct Number {
    pub whole: u64,
    pub decimals: u64,
    pub is_pointed: bool,
}

// How a unit is written, in capitals.
fn unit_spelling(unit: TimeUnit) -> &'static [u8]
    ensures { result.now ≡ unit_spelling unit }
{
    match unit {
        TimeUnit::Day => b"D",
        TimeUnit::Hour => b"H",
        TimeUnit::Minute => b"M",
        TimeUnit::Second => b"S",
        TimeUnit::Millisecond => b"MS",
    }
}

// The length of a unit in milliseconds.
fn milliseconds_in(unit: TimeUnit) -> u64
    ensures is { result ≡ milliseconds_in unit }
    ensures most { result ≤ 86400000 }
{
    match unit {
        TimeUnit::Day => 86_400_000,
        TimeUnit::Hour => 3_600_000,
        TimeUnit::Minute => 60_000,
        TimeUnit::Second => 1000,
        TimeUnit::Millisecond => 1,
    }
}

// How many bytes at the front are digits, or underscores directly before digits.
fn linked_digits_len(text: &[u8]) -> usize
    ensures found { result ≡ linked_len (λ b. is_digit b 10) 95 text.now }
    ensures within { result ≤ length text.now }
{
    for (i, byte) in text.iter().enumerate() {
        if !(char::from(*byte).is_digit(10)
            || *byte == b'_' && begins_by_digit(10, &text[i + 1..]))
        {
            return i;
        }
    }
    text.len()
}

// How many bytes at the front are digits with single underscores between them.
#[tactic(auto, unfolding(crate::specs::ReadingLiterals::digits_len))]
fn digits_len(text: &[u8]) -> usize
    ensures found { result ≡ digits_len text.now }
    ensures within { result ≤ length text.now }
{
    if begins_by_digit(10, text) {
        linked_digits_len(text)
    } else {
        0
    }
}

// How many bytes at the front are letters.
#[tactic(auto, unfolding(crate::specs::ReadingLiterals::letters_len))]
fn letters_len(text: &[u8]) -> usize
    ensures found { result ≡ letters_len text.now }
    ensures within { result ≤ length text.now }
{
    let mut n = 0;
    for byte in text {
        if !byte.is_ascii_alphabetic() {
            return n;
        }
        n += 1;
    }
    n
}

// The sum with one digit more after a point, and what that digit counted; `None` for a digit but 0 after ten places.
#[tactic(auto, unfolding(crate::specs::ReadingLiterals::decimal_step))]
fn decimal_step(sum: u64, weight: u64, byte: u8) -> Option<(u64, u64)>
    requires { sum + weight ≤ 10 ^ 10 }
    ensures found { result ≡ decimal_step sum weight byte }
    ensures room { IfSome result (λ s. s.0 + s.1 ≤ 10 ^ 10) }
{
    if byte == b'_' {
        return Some((sum, weight));
    }
    let digit = char::from(byte).to_digit(10)? as u64;
    if weight != 1 {
        Some((sum + digit * (weight / 10), weight / 10))
    } else if byte == b'0' {
        Some((sum, 1))
    } else {
        None
    }
}

// Parses the digits after a point, as a multiple of 10 ^ -10; `None` where they need more than ten places.
#[tactic(auto, unfolding(crate::specs::ReadingLiterals::parse_decimals))]
fn parse_decimals(digits: &[u8]) -> Option<u64>
    ensures found { result ≡ parse_decimals digits.now }
    ensures room { IfSome result (λ d. d ≤ 10 ^ 10) }
{
    let mut sum = 0;
    let mut weight = DECIMAL_SCALE;
    for byte in digits {
        let step = decimal_step(sum, weight, *byte)?;
        sum = step.0;
        weight = step.1;
    }
    Some(sum)
}

// The number with the digits after a point, if there are any, and the rest of the text; `None` where they need more
// than ten places.
#[tactic(auto, unfolding(crate::specs::ReadingLiterals::parse_fraction))]
fn parse_fraction(whole: u64, text: &[u8]) -> Option<(Number, &[u8])>
    ensures found { IfSome result (λ r. parse_fraction whole text.now ≡ Some (r.0, r.1.now)) }
    ensures none { IfNone result (parse_fraction whole text.now ≡ None) }
    ensures room { IfSome result (λ r. r.0.decimals ≤ 10 ^ 10) }
{
    if begins_with(b'.', text) {
        let after = &text[1..];
        let n = digits_len(after);
        if n > 0 {
            let (digits, rest) = after.split_at(n);
            let decimals = parse_decimals(digits)?;
            return Some((
                Number {
                    whole,
                    decimals,
                    is_pointed: true,
                },
                rest,
            ));
        }
    }
    Some((
        Number {
            whole,
            decimals: 0,
            is_pointed: false,
        },
        text,
    ))
}

// The number at the front, and the rest of the text; `None` where no digit is there or the number is too long.
#[tactic(auto, unfolding(crate::specs::ReadingLiterals::leading_number))]
fn leading_number(text: &[u8]) -> Option<(Number, &[u8])>
    ensures found { IfSome result (λ r. leading_number text.now ≡ Some (r.0, r.1.now)) }
    ensures none { IfNone result (leading_number text.now ≡ None) }
    ensures room { IfSome result (λ r. r.0.decimals ≤ 10 ^ 10) }
{
    let (digits, after) = text.split_at(digits_len(text));
    parse_fraction(parse_number(10, digits)?, after)
}

// The number at the front, the letters after it, and the rest of the text; `None` where no number is there.
#[tactic(auto, unfolding(crate::specs::ReadingLiterals::parse_part))]
fn parse_part(text: &[u8]) -> Option<(Number, &[u8], &[u8])>
    ensures found { IfSome result (λ r. parse_part text.now ≡ Some (r.0, r.1.now, r.2.now)) }
    ensures none { IfNone result (parse_part text.now ≡ None) }
    ensures room { IfSome result (λ r. r.0.decimals ≤ 10 ^ 10) }
{
    let (number, after) = leading_number(text)?;
    let (name, rest) = after.split_at(letters_len(after));
    Some((number, name, rest))
}

// The sum with a number of a unit; `None` where that is no whole number of milliseconds, or the sum is above 64 bits.
#[tactic(auto, unfolding(crate::specs::ReadingLiterals::part_added))]
fn part_added(sum: u64, number: Number, unit: TimeUnit) -> Option<u64>
    requires { number.decimals ≤ 10 ^ 10 }
    ensures { result ≡ part_added sum number unit }
{
    let length = milliseconds_in(unit);
    let scaled = number.decimals * length;
    if scaled % DECIMAL_SCALE != 0 {
        return None;
    }
    let more = number
        .whole
        .checked_mul(length)?
        .checked_add(scaled / DECIMAL_SCALE)?;
    sum.checked_add(more)
}

// The text after one underscore, if it begins with one.
fn after_underscore(text: &[u8]) -> &[u8]
    ensures { result.now ≡ after_underscore text.now }
{
    if begins_with(b'_', text) {
        &text[1..]
    } else {
        text
    }
}

// The sum with the parts of these units, of which the next number and its letters are split off already; `None` where
// the letters are no unit of these, or the parts are none. It recurses over the units, at most five.
fn parts_after(
    units: &[TimeUnit],
    sum: u64,
    number: Number,
    letters: &[u8],
    rest: &[u8],
) -> Option<u64>
    requires { number.decimals ≤ 10 ^ 10 }
    ensures { result ≡ parts_after units.now sum number letters.now rest.now }
{
    let (unit, later) = units.split_first()?;
    if !same_word(letters, unit_spelling(*unit)) {
        return parts_after(later, sum, number, letters, rest);
    }
    let more = part_added(sum, number, *unit)?;
    if rest.is_empty() {
        return Some(more);
    }
    if number.is_pointed {
        return None;
    }
    let (next, next_letters, next_rest) = parse_part(after_underscore(rest))?;
    parts_after(later, more, next, next_letters, next_rest)
}

/// Parses the parts of a duration, with units in their order and each at most once, as milliseconds; `None` for other
/// bytes, where the sum is no whole number, and above 64 bits.
#[tactic(auto, unfolding(crate::specs::ReadingLiterals::parse_parts))]
pub fn parse_parts(text: &[u8]) -> Option<u64>
    ensures { result ≡ parse_parts text.now }
{
    let (number, letters, rest) = parse_part(text)?;
    parts_after(&UNITS, 0, number, letters, rest)
}

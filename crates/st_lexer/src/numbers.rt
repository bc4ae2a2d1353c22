//! Whole numbers.

ghost use Rattle.std.specs.Prelude.{◌≡◌, ◌≤◌, length, IfSome};
ghost use Rattle.std.specs.Char.{is_digit};
ghost use Rattle.st_lexer.specs.Bytes.{begins_by};
ghost use Rattle.st_lexer.specs.Numbers.{base_of, digits_of};
ghost use Rattle.st_lexer.specs.ReadingLiterals.{number_step, parse_number, parse_integer};

/// The greatest whole number that may be written: the size of the least DINT.
const GREATEST: u64 = 2147483648;

/// Whether a text begins with a digit of this base.
pub fn begins_by_digit(base: u32, text: &[u8]) -> bool
    requires low { 2 ≤ base }
    requires high { base ≤ 36 }
    ensures { result ≡ begins_by (λ b. is_digit b base) text.now }
{
    match text.first() {
        Some(byte) => char::from(*byte).is_digit(base),
        None => false,
    }
}

// The number with one digit more, or the same number at an underscore before a digit;
// `None` at any other byte, and above 64 bits.
#[tactic(auto, unfolding(crate::specs::ReadingLiterals::number_step))]
fn number_step(base: u32, value: u64, byte: u8, rest: &[u8]) -> Option<u64>
    requires low { 2 ≤ base }
    requires high { base ≤ 36 }
    ensures { result ≡ number_step base value byte rest.now }
{
    match char::from(byte).to_digit(base) {
        Some(digit) => value.checked_mul(base as u64)?.checked_add(digit as u64),
        None if byte == b'_' && begins_by_digit(base, rest) => Some(value),
        None => None,
    }
}

/// Parses digits of a base with single underscores between them; `None` for other bytes and above 64 bits.
#[tactic(auto, unfolding(crate::specs::ReadingLiterals::parse_number))]
pub fn parse_number(base: u32, text: &[u8]) -> Option<u64>
    requires low { 2 ≤ base }
    requires high { base ≤ 36 }
    ensures { result ≡ parse_number base text.now }
{
    if !begins_by_digit(base, text) {
        return None;
    }
    let mut value = 0;
    for (i, byte) in text.iter().enumerate() {
        value = number_step(base, value, *byte, &text[i + 1..])?;
    }
    Some(value)
}

// The base that a number is written in, 2, 8, 10 or 16, and its digits.
fn base_and_digits(text: &[u8]) -> (u32, &[u8])
    ensures base { result.0 ≡ base_of text.now }
    ensures digits { result.1.now ≡ digits_of text.now }
    ensures low { 2 ≤ result.0 }
    ensures high { result.0 ≤ 36 }
{
    match text {
        [b'2', b'#', digits @ ..] => (2, digits),
        [b'8', b'#', digits @ ..] => (8, digits),
        [b'1', b'6', b'#', digits @ ..] => (16, digits),
        _ => (10, text),
    }
}

/// Parses a whole number of base 2, 8, 10 or 16; `None` for other bytes and above 2147483648.
#[tactic(auto, unfolding(crate::specs::ReadingLiterals::parse_integer))]
pub fn parse_integer(piece: &[u8]) -> Option<u32>
    ensures { result ≡ parse_integer piece.now }
{
    let (base, digits) = base_and_digits(piece);
    let value = parse_number(base, digits)?;
    if value <= GREATEST {
        Some(value as u32)
    } else {
        None
    }
}

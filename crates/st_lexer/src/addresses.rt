//! Addresses of variables.

ghost use Rattle.std.specs.Prelude.{◌≡◌, ◌≤◌, ◌+◌, length, IfSome};
ghost use Rattle.std.specs.Char.{is_ascii_digit};
ghost use Rattle.st_lexer.specs.Addresses.{is_size};
ghost use Rattle.st_lexer.specs.Bytes.{begins_by};
ghost use Rattle.st_lexer.specs.Reading.{region_of, place_len, placed, parse_address};
ghost use Rattle.st_lexer.specs.ReadingLiterals.{linked_len};

use plant_types::Region;

// The region of a letter: I, Q or M in any case (IEC 61131-3).
#[tactic(auto, unfolding(crate::specs::Reading::region_of))]
fn region_of(letter: u8) -> Option<Region>
    ensures { result ≡ region_of letter }
{
    match letter.to_ascii_lowercase() {
        b'i' => Some(Region::Input),
        b'q' => Some(Region::Output),
        b'm' => Some(Region::Plain),
        _ => None,
    }
}

// Whether a byte is the letter of a size: X, B, W, D or L in any case.
#[tactic(auto, unfolding(crate::specs::Addresses::is_size))]
fn is_size(byte: u8) -> bool
    ensures { result ≡ is_size byte }
{
    match byte.to_ascii_lowercase() {
        b'x' | b'b' | b'w' | b'd' | b'l' => true,
        _ => false,
    }
}

// Whether a text begins with a decimal digit.
fn begins_by_decimal(text: &[u8]) -> bool
    ensures { result ≡ begins_by is_ascii_digit text.now }
{
    match text.first() {
        Some(byte) => byte.is_ascii_digit(),
        None => false,
    }
}

// Whether a text begins with the letter of a size.
fn begins_by_size(text: &[u8]) -> bool
    ensures { result ≡ begins_by is_size text.now }
{
    match text.first() {
        Some(byte) => is_size(*byte),
        None => false,
    }
}

// How many bytes at the front are digits, or points directly before digits.
fn dotted_len(text: &[u8]) -> usize
    ensures found { result ≡ linked_len is_ascii_digit 46 text.now }
    ensures within { result ≤ length text.now }
{
    for (i, byte) in text.iter().enumerate() {
        if !(byte.is_ascii_digit() || *byte == b'.' && begins_by_decimal(&text[i + 1..])) {
            return i;
        }
    }
    text.len()
}

// How many bytes at the front are a place: `*`, or groups of digits with points between them.
#[tactic(auto, unfolding(crate::specs::Reading::place_len))]
fn place_len(text: &[u8]) -> usize
    ensures found { result ≡ place_len text.now }
    ensures within { result ≤ length text.now }
{
    match text.first() {
        Some(b'*') => 1,
        Some(byte) if byte.is_ascii_digit() => dotted_len(text),
        _ => 0,
    }
}

// The address of this region, if a place is next: so many bytes were skipped before it.
#[tactic(auto, unfolding(crate::specs::Reading::placed))]
fn placed(region: Region, skipped: usize, text: &[u8]) -> Option<(Region, usize)>
    requires { skipped ≤ 2 }
    ensures found { result ≡ placed region skipped text.now }
    ensures within { IfSome result (λ a. a.1 ≤ length text.now + skipped) }
{
    let n = place_len(text);
    if n == 0 {
        None
    } else {
        Some((region, skipped + n))
    }
}

/// Parses what follows `%` in an address: its region, and how many bytes follow `%`; `None` where no address does.
pub fn parse_address(text: &[u8]) -> Option<(Region, usize)>
    ensures found { result ≡ parse_address text.now }
    ensures within { IfSome result (λ a. a.1 ≤ length text.now) }
{
    let (letter, rest) = text.split_first()?;
    let region = region_of(*letter)?;
    if begins_by_size(rest) {
        placed(region, 2, &rest[1..])
    } else {
        placed(region, 1, rest)
    }
}

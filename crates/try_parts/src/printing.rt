//! How answers are printed and words of a row are read.

ghost use Rattle.std.specs.Prelude.{◌≤◌};

use std::alloc::{AllocError, Global};
use try_text::{Page, push_line};

/// The digits of hexadecimal numbers.
const DIGITS: &[u8; 16] = b"0123456789abcdef";

/// Adds a byte: a character of ASCII that can be seen, or a backslash, `x` and two digits.
pub fn push_byte(page: &mut Page, byte: u8) {
    if byte.is_ascii_graphic() {
        return page.add_bytes(&[byte]);
    }
    let (high, low) = (
        DIGITS[usize::from(byte >> 4)],
        DIGITS[usize::from(byte & 15)],
    );
    page.add_bytes(&[b'\\', b'x', high, low]);
}

/// How a truth is printed.
pub fn truth_text(truth: bool) -> &'static str {
    if truth { "TRUE" } else { "FALSE" }
}

/// The number that a word spells; 0 where it spells none.
pub fn number_of(word: &str) -> u64 {
    word.parse::<u64>().unwrap_or(0)
}

/// The moment that a word spells, in milliseconds; the last one of all where it spells a later one.
pub fn moment_of(word: &str) -> u64
    ensures { result ≤ 4_000_000_000_000 }
{
    let moment = number_of(word);
    if moment <= 4_000_000_000_000 {
        moment
    } else {
        4_000_000_000_000
    }
}

/// The two parts of a word around a mark; the second is empty where there is no mark.
pub fn parts_of<'a>(word: &'a str, mark: &str) -> (&'a str, &'a str) {
    word.split_once(mark).unwrap_or((word, ""))
}

/// The bytes that a word stands for, as row_text spells them.
pub fn bytes_of(alloc: Global, word: &str) -> Result<Vec<u8>, AllocError> {
    let mut bytes = Vec::new(alloc);
    push_line(&mut bytes, word)?;
    let _ = bytes.pop();
    Ok(bytes)
}

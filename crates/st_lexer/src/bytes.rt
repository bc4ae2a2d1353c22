//! What a byte of a source may be.

ghost use Rattle.std.specs.Prelude.{◌≡◌, ◌==◌, ◌≤◌, length};
ghost use Rattle.std.specs.List.{prefix_len};
ghost use Rattle.st_lexer.specs.Bytes.{begins_by, is_blank, is_tied, stands_apart, first_of};

/// The kind of piece that a first byte begins.
#[derive(Clone, Copy, Drop)]
pub enum First {
    Blank,
    Letter,
    Digit,
    Percent,
    Mark,
}

// Space, tab, line feed, form feed or carriage return.
#[tactic(auto, unfolding(crate::specs::Bytes::is_blank))]
fn is_blank(byte: u8) -> bool
    ensures { result ≡ is_blank byte }
{
    byte == b' ' || byte == b'\t' || byte == b'\n' || byte == 12 || byte == b'\r'
}

/// Whether a byte is a letter, digit, underscore or `#`, and so may not directly follow a word, literal or address.
#[tactic(auto, unfolding(crate::specs::Bytes::is_tied))]
pub fn is_tied(byte: u8) -> bool
    ensures { result ≡ is_tied byte }
{
    byte.is_ascii_alphanumeric() || byte == b'_' || byte == b'#'
}

/// The kind of piece that this byte begins.
#[tactic(auto, unfolding(crate::specs::Bytes::first_of))]
pub fn first_of(byte: u8) -> First
    ensures { result ≡ first_of byte }
{
    if is_blank(byte) {
        First::Blank
    } else if byte.is_ascii_alphabetic() || byte == b'_' {
        First::Letter
    } else if byte.is_ascii_digit() {
        First::Digit
    } else if byte == b'%' {
        First::Percent
    } else {
        First::Mark
    }
}

/// Whether a text begins with this byte.
pub fn begins_with(mark: u8, text: &[u8]) -> bool
    ensures { result ≡ begins_by (λ c. c == mark) text.now }
{
    match text.first() {
        Some(byte) => *byte == mark,
        None => false,
    }
}

/// Whether a text begins with no letter, digit, underscore or `#`.
pub fn stands_apart(rest: &[u8]) -> bool
    ensures { result ≡ stands_apart rest.now }
{
    match rest.first() {
        Some(byte) => !is_tied(*byte),
        None => true,
    }
}

/// How many letters, digits, underscores and `#` a text begins with.
pub fn tied_len(text: &[u8]) -> usize
    ensures found { result ≡ prefix_len is_tied text.now }
    ensures within { result ≤ length text.now }
{
    let mut n = 0;
    for byte in text {
        if !is_tied(*byte) {
            return n;
        }
        n += 1;
    }
    n
}

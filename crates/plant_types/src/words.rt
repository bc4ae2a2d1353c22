ghost use Rattle.std.specs.Prelude.{◌≡◌};
ghost use Rattle.std.specs.List.{list_all};
ghost use Rattle.plant_types.specs.Words.{same_word, is_name, is_name_byte, is_letter, is_tag, is_tag_byte};

/// Whether two words are the same: letter case has no meaning in names and keywords (IEC 61131-3).
pub fn same_word(a: &[u8], b: &[u8]) -> bool
    ensures { result ≡ same_word a.now b.now }
{
    a.eq_ignore_ascii_case(b)
}

/// Whether a name may begin with this byte: a letter or an underscore.
fn is_letter(byte: u8) -> bool
    ensures { result ≡ is_letter byte }
{
    byte.is_ascii_alphabetic() || byte == b'_'
}

/// Whether a name may go on with this byte: a letter, an underscore or a digit.
pub fn is_name_byte(byte: u8) -> bool
    ensures { result ≡ is_name_byte byte }
{
    is_letter(byte) || byte.is_ascii_digit()
}

/// Whether a name may go on with each of these bytes.
fn are_name_bytes(word: &[u8]) -> bool
    ensures { result ≡ list_all is_name_byte word.now }
{
    word.iter().all(|byte| is_name_byte(*byte))
}

/// Whether bytes have the form of a name: a letter or underscore, then letters, digits and underscores (IEC 61131-3; only ASCII, this profile).
pub fn is_name(word: &[u8]) -> bool
    ensures { result ≡ is_name word.now }
{
    match word.split_first() {
        None => false,
        Some((first, others)) => is_letter(*first) && are_name_bytes(others),
    }
}

/// Whether a tag may have this byte: a letter, a digit, `_`, `-` or `.`.
fn is_tag_byte(byte: u8) -> bool
    ensures { result ≡ is_tag_byte byte }
{
    byte.is_ascii_alphanumeric() || byte == b'_' || byte == b'-' || byte == b'.'
}

/// Whether a tag may have each of these bytes.
fn are_tag_bytes(text: &[u8]) -> bool
    ensures { result ≡ list_all is_tag_byte text.now }
{
    text.iter().all(|byte| is_tag_byte(*byte))
}

/// Whether a text has the form of a tag, or of the name of an area: 1 to 32 letters, digits, `_`, `-` and `.` (this profile).
pub fn is_tag(text: &[u8]) -> bool
    ensures { result ≡ is_tag text.now }
{
    !text.is_empty() && text.len() <= 32 && are_tag_bytes(text)
}

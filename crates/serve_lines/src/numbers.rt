ghost use Rattle.std.specs.Prelude.{◌≡◌, ◌<◌, ◌≤◌, ◌^◌, IfSome};
ghost use Rattle.serve_lines.specs.Numbers.{number_of, whole_of};

/// Parses a number of 1 to `most` decimal digits; `None` for any other word.
fn digits(word: &[u8], most: usize) -> Option<u64>
    requires { most ≤ 19 }
    ensures value { result ≡ number_of most word.now }
    ensures small { IfSome result (λ n. n < 10 ^ most) }
{
    if word.is_empty() {
        return None;
    }
    if word.len() > most {
        return None;
    }
    let mut n: u64 = 0;
    for byte in word {
        if !byte.is_ascii_digit() {
            return None;
        }
        n = n * 10 + u64::from(*byte - b'0');
    }
    Some(n)
}

/// Parses a number of 1 to 19 digits, such as a moment; `None` for any other word.
pub(crate) fn number(word: &[u8]) -> Option<u64>
    ensures { result ≡ number_of 19 word.now }
{
    digits(word, 19)
}

/// Parses a number of 1 to 9 digits, such as a console's; `None` for any other word.
pub(crate) fn short_number(word: &[u8]) -> Option<u32>
    ensures { result ≡ number_of 9 word.now }
{
    let n = digits(word, 9)?;
    Some(n as u32)
}

/// Parses a number of 1 to 8 digits, such as a size in bytes; `None` for any other word.
pub(crate) fn size_number(word: &[u8]) -> Option<u32>
    ensures { result ≡ number_of 8 word.now }
{
    let n = digits(word, 8)?;
    Some(n as u32)
}

/// Parses a number of 1 to 19 digits, perhaps with a minus before it; `None` for any other word.
pub(crate) fn whole(word: &[u8]) -> Option<i128>
    ensures { result ≡ whole_of word.now }
{
    let (first, others) = word.split_first()?;
    if *first == b'-' {
        let n = number(others)?;
        Some(-i128::from(n))
    } else {
        let n = number(word)?;
        Some(i128::from(n))
    }
}

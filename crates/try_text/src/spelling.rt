use std::alloc::AllocError;

/// The number of a hexadecimal digit; 0 for any other byte.
fn digit(byte: u8) -> u8 {
    match byte {
        b'0'..=b'9' => byte - b'0',
        b'a'..=b'f' => byte - b'a' + 10,
        b'A'..=b'F' => byte - b'A' + 10,
        _ => 0,
    }
}

/// Adds a byte, and then the bytes after its escape.
fn push_byte(text: &mut Vec<u8>, byte: u8, rest: &[u8]) -> Result<(), AllocError> {
    text.push(byte)?;
    text.extend_from_slice(rest)
}

/// Adds a text so many times.
fn push_times(text: &mut Vec<u8>, times: u32, repeated: &[u8]) -> Result<(), AllocError> {
    for _ in 0..times {
        text.extend_from_slice(repeated)?;
    }
    Ok(())
}

/// Adds what `3{ab}` stands for, and then what comes after it; a text that is no such escape stays as it is.
fn push_repeated(text: &mut Vec<u8>, escaped: &str) -> Result<(), AllocError> {
    if let Some((times, rest)) = escaped.split_once("{") {
        if let (Ok(times), Some((repeated, rest))) = (times.parse::<u32>(), rest.split_once("}")) {
            push_times(text, times, repeated.as_bytes())?;
            return text.extend_from_slice(rest.as_bytes());
        }
    }
    text.extend_from_slice(escaped.as_bytes())
}

/// Adds what an escape stands for, without its backslash, and then what comes after it.
fn push_escape(text: &mut Vec<u8>, escaped: &str) -> Result<(), AllocError> {
    match escaped.as_bytes() {
        [b'n', rest @ ..] => push_byte(text, b'\n', rest),
        [b'r', rest @ ..] => push_byte(text, b'\r', rest),
        [b't', rest @ ..] => push_byte(text, b'\t', rest),
        [b'x', high, low, rest @ ..] => push_byte(text, digit(*high) << 4 | digit(*low), rest),
        _ => push_repeated(text, escaped),
    }
}

/// Adds the bytes that a line of a table stands for.
pub fn push_line(text: &mut Vec<u8>, line: &str) -> Result<(), AllocError> {
    let mut parts = line.split("\\");
    if let Some(plain) = parts.next() {
        text.extend_from_slice(plain.as_bytes())?;
    }
    for part in parts {
        push_escape(text, part)?;
    }
    if line.ends_with("\\") {
        return Ok(());
    }
    text.push(b'\n')?;
    Ok(())
}

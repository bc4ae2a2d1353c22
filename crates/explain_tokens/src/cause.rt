//! What is wrong, and where.

/// What is wrong in a text.
#[derive(Drop)]
pub struct Cause {
    /// The bytes that are wrong, from one number to before another; `None` where no place can be told.
    pub mark: Option<(usize, usize)>,
    /// A sentence that says what is wrong.
    pub said: String,
    /// Where to read on: a page and one of its headings.
    pub page: &'static str,
}

/// The cause that these bytes are.
pub fn cause_at(mark: (usize, usize), said: String, page: &'static str) -> Cause {
    Cause {
        mark: Some(mark),
        said,
        page,
    }
}

/// A cause without a place.
pub fn cause_of(said: String, page: &'static str) -> Cause {
    Cause {
        mark: None,
        said,
        page,
    }
}

/// The bytes of a text from one number to before another; none where these aren't in order in the text.
pub fn part(text: &[u8], from: usize, until: usize) -> &[u8] {
    text.get(from..until).unwrap_or(b"")
}

/// The number of the byte at a line and a column of a text, which count from 1; that of its end if it has no such line. A byte order mark at its start isn't
/// counted.
pub fn byte_at(text: &[u8], line: usize, column: usize) -> usize {
    let mark = if text.starts_with(&[0xEF, 0xBB, 0xBF]) {
        3
    } else {
        0
    };
    let mut ends = text.iter().enumerate().filter(|(_, byte)| **byte == b'\n');
    let start = match line {
        0 | 1 => Some(mark),
        _ => ends
            .nth(line.saturating_sub(2))
            .map(|(end, _)| end.saturating_add(1)),
    };
    let at = start.map(|start| start.saturating_add(column).saturating_sub(1));
    at.unwrap_or(text.len()).min(text.len())
}

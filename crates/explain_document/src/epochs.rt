//! What is wrong with an epoch (C3).

use explain_tokens::part;

/// The form of an epoch, in which a `0` stands for a digit.
const FORM: &str = "0000-00-00T00:00:00Z";

/// Forms that are none of an epoch, and behind `| ` what is said of them: the first that fits.
const OTHERS: &str = "\
0000-00-00| its time is missing, as T00:00:00Z
0000-00-00T00:00:00| the 'Z' at its end is missing, which says that it is in UTC
0000-00-00T00:00:00z| 'T' and 'Z' are written large
0000-00-00t00:00:00Z| 'T' and 'Z' are written large
0000-00-00t00:00:00z| 'T' and 'Z' are written large
0000-00-00T00:00Z| its seconds are missing
0000-00-00T00:00| its seconds are missing, and the 'Z' at its end
0000-00-00 00:00:00Z| a 'T' stands between its day and its time
0000-00-00 00:00:00| a 'T' stands between its day and its time, and a 'Z' at its end
0000-00-00 00:00| a 'T' stands between its day and its time, and seconds and a 'Z' behind that
0000-00-00T00:00:00 Z| no blank stands before its 'Z'
0000-00-00T00:00:00UTC| it is in UTC, with 'Z' at its end
0000-00-00T00:00:00+0000| it is in UTC, with 'Z' at its end: an offset is taken off the time before it
0000-00-00T00:00:00+00:00| it is in UTC, with 'Z' at its end: an offset is taken off the time before it
0000-00-00T00:00:00-00:00| it is in UTC, with 'Z' at its end: this offset is added to the time before it
00-00-00T00:00:00Z| its year has four digits
0000/00/00T00:00:00Z| '-' stands between its year, month and day
0000.00.00T00:00:00Z| '-' stands between its year, month and day
00000000T000000Z| '-' stands between its year, month and day, and ':' between its hour, minute and second
0000-00-00T00.00.00Z| ':' stands between its hour, minute and second
0000-00-00T000000Z| ':' stands between its hour, minute and second
00:00:00Z| its day is missing, as 2026-01-31T
0000-0-00T00:00:00Z| its month has two digits
0000-00-0T00:00:00Z| its day has two digits
0000-0-0T00:00:00Z| its month and its day have two digits each
0000-00-00T0:00:00Z| its hour has two digits
00-00-0000T00:00:00Z| the year stands first, then month and day
00.00.0000T00:00:00Z| the year stands first, then month and day, parted by '-'
00/00/0000T00:00:00Z| the year stands first, then month and day, parted by '-'
00.00.0000| the year stands first, then month and day, parted by '-'
00/00/0000| the year stands first, then month and day, parted by '-'
00/00/0000 00:00:00| the year stands first, then month and day, parted by '-', and a 'T' before the time
00.00.0000 00:00| the year stands first, then month and day, parted by '-', and a 'T' before the time
00.00.0000 00:00:00| the year stands first, then month and day, parted by '-', and a 'T' before the time
";

/// Whether a text has a form.
fn has_form(text: &[u8], form: &[u8]) -> bool {
    let mut pairs = text.iter().zip(form);
    text.len() == form.len()
        && pairs.all(|(byte, wanted)| byte == wanted || *wanted == b'0' && byte.is_ascii_digit())
}

/// What is said of a text that has the form of an epoch, and is none.
fn said_of_numbers(text: &[u8]) -> &'static str {
    let is_past = |from: usize, until: usize, last: &[u8]| part(text, from, until) > last;
    if is_past(5, 7, b"12") || part(text, 5, 7) == b"00".as_slice() {
        "its month is 01 to 12"
    } else if is_past(0, 4, b"2399") || part(text, 0, 4) < b"1970".as_slice() {
        "its year is 1970 to 2399"
    } else if is_past(11, 13, b"23") {
        "its hour is 00 to 23"
    } else if is_past(14, 16, b"59") || is_past(17, 19, b"59") {
        "its minutes and seconds are 00 to 59"
    } else {
        "its month hasn't this day"
    }
}

/// What is said of a text that is no epoch: of the first reason that is found; empty where none is.
pub fn said_of_epoch(text: &[u8]) -> &'static str {
    let mut others = OTHERS.lines().filter_map(|line| line.split_once("| "));
    let other = others.find(|other| has_form(text, other.0.as_bytes()));
    let (seconds, rest) = (part(text, 0, 19), part(text, 19, text.len()));
    match other {
        Some(other) => other.1,
        None if has_form(text, FORM.as_bytes()) => said_of_numbers(text),
        None if text.is_empty() => "this one is empty",
        None if text.trim_ascii().len() < text.len() => "no blanks stand beside it",
        None if text.contains(&b' ') => "no blank stands in it",
        None
            if has_form(seconds, part(FORM.as_bytes(), 0, 19))
                && matches!(rest, [b'.' | b',', b'0'..=b'9', ..]) => "its seconds are whole ones",
        None => "",
    }
}

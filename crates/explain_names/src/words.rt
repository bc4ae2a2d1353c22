//! Words that stand for a constant and aren't written as one.

use crate::hints::Wanted;
use crate::slips::{Said, plain, question, with_words};
use explain_tokens::{fits, within_one};
use plant_types::Kind;

/// Words that other dialects have for truths, or that people write for them, but that may be names as well.
const TRUTHS: &str =
    "T|F|ON|OFF|YES|NO|HIGH|LOW|AlwaysTRUE|AlwaysFALSE|Always_TRUE|Always_FALSE|Always_On|Always_Off";

/// Words that other dialects have for what is TRUE in the first scan alone.
const FIRSTS: &str = "FirstScan|First_Scan|FirstCycle|First_Cycle|InitScan|S_FS";

/// The truth that a word is nearly spelled as; empty where it is none.
fn truth_of(word: &str) -> &'static str {
    let near = |truth: &str| word.len() > 3 && within_one(word.as_bytes(), truth.as_bytes());
    if near("TRUE") {
        "TRUE"
    } else if near("FALSE") {
        "FALSE"
    } else {
        ""
    }
}

/// The parts of a duration that is written without its sign, as T20s; `None` where a word is none.
fn duration_in(word: &str) -> Option<&str> {
    let parts = word.get(1..)?;
    let is_part = |byte: u8| byte.is_ascii_digit() || b"dhms_DHMS".contains(&byte);
    let is_begun = matches!(word.as_bytes(), [b'T' | b't', b'0'..=b'9', ..]);
    let ends = matches!(parts.as_bytes(), [.., b'd' | b'h' | b'm' | b's']);
    let are_parts = parts.as_bytes().iter().all(|byte| is_part(*byte));
    (is_begun && ends && are_parts).then_some(parts)
}

/// What is said of a word that stands for a truth; `None` where it stands for none.
fn truth_said(word: &str, is_often: bool) -> Option<Said<'_>> {
    let truth = truth_of(word);
    if !truth.is_empty() && !is_often {
        return question(truth);
    }
    if fits(FIRSTS, word) {
        let text =
            "; nothing tells the first scan from the start: a BOOL with := TRUE that a program sets to FALSE at its end does, or the declaration is missing";
        return Some(plain(text));
    }
    if truth.is_empty() && !fits(TRUTHS, word) {
        return None;
    }
    Some(plain("; a BOOL is TRUE or FALSE, or the declaration is missing"))
}

/// What is said of a word that stands for a duration; `None` where it stands for none.
fn duration_said(word: &str) -> Option<Said<'_>> {
    let parts = duration_in(word)?;
    let rest = parts.get(1..).unwrap_or("");
    let text = if matches!(parts.as_bytes(), [b'3', b'0'..=b'9', ..]) {
        "; a duration is written as T#%, or T#% where the 3 stands for a #, or the declaration is missing"
    } else {
        "; a duration is written as T#%, or the declaration is missing"
    };
    Some(with_words(text, parts, rest))
}

/// What is said of a letter that stands for a number; `None` of other words.
fn number_said(word: &str) -> Option<Said<'_>> {
    let text = "; the number is written 0, or the declaration is missing";
    word.eq_ignore_ascii_case("O").then_some(plain(text))
}

/// What is said of a word that stands for a constant, where one may be wanted: where the word is used often, it may be a name as well.
pub fn literal_hint(word: &str, wanted: Wanted, is_often: bool) -> Option<Said<'_>> {
    match wanted {
        Wanted::Of(Kind::Bool) => truth_said(word, is_often),
        Wanted::Of(Kind::Time) => duration_said(word),
        Wanted::Of(Kind::Dint) => number_said(word),
        Wanted::Number | Wanted::Any => duration_said(word).or(number_said(word)),
        _ => None,
    }
}

//! The blocks and kinds that may be meant by a word that is none.

use crate::slips::{Said, Slips, plain, question_or_nothing, with_words};
use explain_tokens::{said_of, within_two};
use explain_trees::{Form, Trees};

/// Blocks and kinds that other dialects have, and what stands in their place.
const DIALECTS: &str = "\
F_TRIG|OSF|OSFI|F_EDGE|FALLING_EDGE an R_TRIG with CLK := NOT x has Q TRUE when x falls
OSR|OSRI|ONS|R_EDGE|RISING_EDGE an R_TRIG has Q TRUE when its CLK rises
REAL|LREAL|FLOAT|DOUBLE there are no fractions: a DINT counts in tenths or hundredths
INT|SINT|LINT|UINT|USINT|UDINT|ULINT|INTEGER|LONG|INT8|INT16|INT32|UINT8|UINT16|INT16_T|INT32_T|UINT8_T|UINT16_T whole numbers are of the kind DINT
BYTE|WORD|DWORD|LWORD numbers are of the kind DINT, and each bit is a BOOL of its own
BOOLEAN|BIT truths are of the kind BOOL
LTIME|S5TIME durations are of the kind TIME
DATE|TOD|DT|LDATE|LTOD|LDT|DATE_AND_TIME|TIME_OF_DAY|DTL durations are of the kind TIME, and moments there are none
STRING|WSTRING|CHAR|WCHAR there are no texts
TP|TP_TIME|LTP there is no timer of one pulse: a TOF with the Q of an R_TRIG as its IN gives one, which a new edge lengthens
SR a BOOL keeps its value: IF s THEN q := TRUE; ELSIF r THEN q := FALSE; END_IF
RS a BOOL keeps its value: IF r THEN q := FALSE; ELSIF s THEN q := TRUE; END_IF
CTU|CTD|CTUD|COUNTER|IEC_COUNTER a DINT counts, with an R_TRIG for the edge
TONR|TONR_TIME there is no timer that keeps its time while IN is FALSE, and none with a reset
RTO|RTOR there is no timer that keeps its time while IN is FALSE
TOFR there is no timer with a reset
TON_TIME|LTON|ON_DELAY the timer that delays on is TON
TOF_TIME|LTOF|OFF_DELAY the timer that delays off is TOF
TIMER|IEC_TIMER|FBD_TIMER a timer is an instance of TON, which delays on, or of TOF, which delays off
";

/// The kinds, and the blocks that are there from the start.
const STANDARD: [&str; 6] = ["BOOL", "DINT", "TIME", "TON", "TOF", "R_TRIG"];

/// Whether a word of more than five letters is a name but for two of these.
fn is_nearly(word: &str, name: &str) -> bool {
    let is_long = word.len() > 5 && word.len().max(name.len()) <= 64;
    is_long && within_two(word.as_bytes(), name.as_bytes())
}

/// A question for the block or kind that is meant by a word, or for two that are as near; where none is near for the block that it nearly is. Empty where there
/// is none.
fn nearest_type<'t>(plant: &Trees<'t>, word: &'t str) -> Said<'t> {
    let (mut slips, mut others) = (Slips::of(word), Slips::of(word));
    for name in STANDARD {
        slips.offer(name);
    }
    for entry in &plant.entries {
        if let Form::Block(_) = &entry.form {
            let name = entry.name.as_str();
            slips.offer(name);
            if is_nearly(word, name) {
                others.keep(name);
            }
        }
    }
    let [one, other, third] = slips.near();
    if one == "TON" && other == "TOF" && third.is_empty() {
        plain("; did you mean 'TON' or 'TOF'?")
    } else if slips.has_near() {
        question_or_nothing(slips.likely())
    } else {
        question_or_nothing(others.only())
    }
}

/// What is said of a word of other dialects; `None` where it is none.
fn dialect_said(word: &str) -> Option<Said<'_>> {
    let told = said_of(DIALECTS, &[word]);
    if told.is_empty() {
        return None;
    }
    Some(with_words("; %", told, ""))
}

/// What stands in the place of a word of other dialects, or a question for the block or kind that is meant by a word; empty where there is none.
pub fn type_hint<'t>(plant: &Trees<'t>, word: &'t str) -> Said<'t> {
    match dialect_said(word) {
        Some(said) => said,
        None => nearest_type(plant, word),
    }
}

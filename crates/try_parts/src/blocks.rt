//! The standard blocks (`std_blocks`), call by call.

use crate::printing::{number_of, parts_of};
use std_blocks::{TofState, TonState, TrigState};
use try_text::Page;

/// Adds what a timer shows.
fn push_shown(page: &mut Page, shown: (bool, i64)) {
    let (q, et) = shown;
    page.truth(q);
    page.number(i128::from(et));
}

/// A call of a timer, as a word spells it: its input and the moment.
fn call_of(word: &str) -> (bool, u64) {
    let (input, moment) = parts_of(word, "@");
    (input == "TRUE", number_of(moment))
}

/// What an on-delay shows after each call; the time stands first.
pub fn push_on_delay(page: &mut Page, words: &str) {
    let (time, calls) = parts_of(words, " ");
    let time = time.parse::<i64>().unwrap_or(0);
    let mut timer = TonState::new();
    for word in calls.split(" ") {
        let (input, moment) = call_of(word);
        push_shown(page, timer.call(input, time, moment));
    }
}

/// The same of an off-delay.
pub fn push_off_delay(page: &mut Page, words: &str) {
    let (time, calls) = parts_of(words, " ");
    let time = time.parse::<i64>().unwrap_or(0);
    let mut timer = TofState::new();
    for word in calls.split(" ") {
        let (input, moment) = call_of(word);
        push_shown(page, timer.call(input, time, moment));
    }
}

/// What an edge detector shows after each call.
pub fn push_edges(page: &mut Page, words: &str) {
    let mut edge = TrigState::new();
    for word in words.split(" ") {
        page.truth(edge.call(word == "TRUE"));
    }
}

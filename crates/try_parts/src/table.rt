//! The rows of the table: the first word of each says what is asked.

use crate::alarms::{push_alarm, push_changes, push_ends, push_held, push_texts};
use crate::banks::{push_bank, push_panel};
use crate::blocks::{push_edges, push_off_delay, push_on_delay};
use crate::choices::{push_chosen, push_statuses};
use crate::codes::{push_cells, push_counts};
use crate::commands::{push_command, push_lines, push_reload};
use crate::journals::{push_row, push_stamp};
use crate::printing::{number_of, parts_of};
use crate::sharing::push_shared;
use crate::sources::push_source;
use crate::splits::push_split;
use crate::trees::{push_copied, push_labels, push_named_body, push_named_sum};
use crate::values::{push_fitted, push_lists, push_name, push_names, push_same, push_truths};
use std::alloc::{AllocError, Global};
use std::thread::Threads;
use try_text::Page;
use try_twins::{push_level_row, push_seed};

/// Adds the answer to a row of words, values, alarms or blocks; of any other row that of `push_other`.
fn push_answer(alloc: Global, page: &mut Page, word: &str, rest: &str) {
    match word {
        "same" => push_same(alloc, page, rest),
        "name" => push_name(page, rest),
        "names" => push_names(alloc, page, rest),
        "fitted" => push_fitted(page, rest),
        "truths" => push_truths(page),
        "lists" => push_lists(alloc, page, rest),
        "alarm" => push_alarm(page, rest),
        "ends" => push_ends(page, rest),
        "held" => push_held(page, rest),
        "texts" => push_texts(page, rest),
        "changes" => push_changes(page),
        "bank" => push_bank(alloc, page, rest),
        "panel" => push_panel(alloc, page, rest),
        "on_delay" => push_on_delay(page, rest),
        "off_delay" => push_off_delay(page, rest),
        "edges" => push_edges(page, rest),
        _ => push_other(alloc, page, word, rest),
    }
}

/// Adds what is left where the levels of a source, behind a `|`, are handed the runs that words name.
fn push_levels(alloc: Global, page: &mut Page, words: &str) {
    let (named, source) = parts_of(words, "|");
    push_level_row(alloc, page, named, source);
}

/// Adds the answer to a row of journals, commands, trees, code or sources.
fn push_other(alloc: Global, page: &mut Page, word: &str, rest: &str) {
    match word {
        "stamp" => push_stamp(alloc, page, rest),
        "row" => push_row(alloc, page, rest),
        "command" => push_command(alloc, page, rest),
        "lines" => push_lines(alloc, page),
        "reload" => push_reload(alloc, page, rest),
        "split" => push_split(alloc, page, rest),
        "choose" => push_chosen(alloc, page, rest),
        "statuses" => push_statuses(page),
        "copied" => push_copied(alloc, page),
        "labels" => push_labels(alloc, page),
        "named_sum" => push_named_sum(alloc, page),
        "named_body" => push_named_body(alloc, page),
        "cells" => push_cells(alloc, page),
        "counts" => push_counts(alloc, page),
        "look" | "cost" | "judge" | "walk" | "count" => push_source(alloc, page, word, rest),
        "levels" => push_levels(alloc, page, rest),
        "seed" => push_seed(alloc, page, number_of(rest)),
        _ => page.add("?"),
    }
}

/// A row and its answer.
fn answered<H: Threads + Sync>(rt: &H, alloc: Global, line: &str) -> Result<Vec<u8>, AllocError> {
    let mut page = Page::new(alloc);
    page.line(line);
    let (word, rest) = parts_of(line, " ");
    if word == "shared" {
        push_shared(rt, alloc, &mut page, rest.parse::<u32>().unwrap_or(0));
    } else {
        push_answer(alloc, &mut page, word, rest);
    }
    page.add("\n");
    page.end()
}

/// Adds a row and its answer; where memory is refused it is answered once more.
fn push_answered<H: Threads + Sync>(rt: &H, alloc: Global, text: &mut Page, line: &str) {
    if let Ok(answer) = answered(rt, alloc, line) {
        return text.add_bytes(answer.as_slice());
    }
    match answered(rt, alloc, line) {
        Ok(answer) => text.add_bytes(answer.as_slice()),
        Err(_) => text.refuse(),
    }
}

/// The rows of a table and their answers. A row without words and one that begins with `#` are passed over.
pub fn answers_to<H: Threads + Sync>(
    rt: &H,
    alloc: Global,
    table: &str,
) -> Result<Vec<u8>, AllocError> {
    let mut text = Page::new(alloc);
    for line in table.lines() {
        if !line.is_empty() && !line.starts_with("#") {
            push_answered(rt, alloc, &mut text, line);
        }
    }
    text.end()
}

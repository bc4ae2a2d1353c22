//! What there is to tell of the consoles.

use crate::crews::Workers;
use crate::events::Events;
use engine::{Engine, Entry, Log};
use station::Closing;
use try_desks::{Note, Orders, Post, are_told, count, is_outdated};
use try_text::Page;

/// How many orders may be left of a console at most.
const MOST_LEFT: u32 = 64;

/// How many orders are left of the console of a number.
fn orders_left(closing: &mut Closing<Workers>, console: u32) -> u32 {
    let mut count = 0u32;
    for _ in 0..MOST_LEFT {
        if closing.next_left(console).is_none() {
            break;
        }
        count = count.saturating_add(1);
    }
    count
}

/// How many of a console's looks after an answer showed fewer events than the place that the order has in the history; one for which there is no
/// look counts too.
fn early_looks(engine: &Engine, events: &Events, console: u32, notes: &[Note]) -> u32 {
    let log = engine.journal();
    let rows = log.len() as u64;
    let (mut orders, mut told, mut early) = (0u64, 0usize, 0u32);
    for before in 0..rows {
        let Entry::Order {
            console: number,
            ..
        } = log.row(before + 1).entry
        else {
            continue;
        };
        orders = orders.saturating_add(1);
        if number != console {
            continue;
        }
        let seen = notes.get(told).map_or(0, |note| note.seen);
        if seen < events.place(orders) {
            early = early.saturating_add(1);
        }
        told = told.saturating_add(1);
    }
    early
}

/// How many alarms had another state on the board that a console saw last than the engine has.
fn states_apart(engine: &Engine, post: &Post) -> u32 {
    let mut apart = 0u32;
    for alarm in 0..engine.plant().alarms() {
        match post.lamps.get(alarm as usize) {
            Some(lamp) if lamp.state == engine.state(alarm) => {}
            _ => apart = apart.saturating_add(1),
        }
    }
    apart
}

/// How many of a console's orders were refused since they were for an older plant.
fn outdated(notes: &[Note]) -> u32 {
    let mut count = 0u32;
    for note in notes {
        if is_outdated(note.refused) {
            count = count.saturating_add(1);
        }
    }
    count
}

/// Adds a console's number, and a word.
fn push_head(page: &mut Page, post: &Post, word: &str) {
    page.add("CONSOLE");
    page.number(i128::from(post.number));
    page.word(word);
}

/// Adds what there is to tell of a console's orders: how many there were, how many were refused, and how many are left.
fn push_orders(page: &mut Page, log: &Log, post: &Post, left: u32) {
    push_head(page, post, "ORDERS");
    page.number(i128::from(count(log, Orders::By(post.number))));
    page.word("REFUSED");
    page.number(i128::from(count(log, Orders::RefusedBy(post.number))));
    page.word("LEFT");
    page.number(i128::from(left));
    page.add("\n");
}

/// Adds how many of a console's orders were for an older plant, how many answers it took, and whether they are those that the history has.
fn push_answers(page: &mut Page, log: &Log, post: &Post) {
    push_head(page, post, "ORDERS FOR AN OLDER PLANT");
    page.number(i128::from(outdated(post.notes.as_slice())));
    page.add("\n");
    push_head(page, post, "ANSWERS");
    page.number(post.notes.len() as i128);
    page.word("AS IN THE HISTORY");
    page.truth(!post.is_short && are_told(log, post.number, post.notes.as_slice()));
    page.add("\n");
}

/// Adds what there is to tell of what a console saw.
fn push_looks(page: &mut Page, closing: &Closing<Workers>, events: &Events, post: &Post) {
    let engine = closing.engine();
    push_head(page, post, "LOOKS BEFORE AN ANSWERED ORDER");
    page.number(i128::from(early_looks(engine, events, post.number, post.notes.as_slice())));
    page.add("\n");
    push_head(page, post, "STATES APART");
    page.number(i128::from(states_apart(engine, post)));
    page.word("WITHIN");
    page.truth(closing.within(post.number));
    page.add("\n");
}

/// Adds what there is to tell of each console.
pub fn push_consoles(
    page: &mut Page,
    closing: &mut Closing<Workers>,
    events: &Events,
    posts: &[Post],
) {
    for post in posts {
        let left = orders_left(closing, post.number);
        push_orders(page, closing.engine().journal(), post, left);
        push_answers(page, closing.engine().journal(), post);
        push_looks(page, &*closing, events, post);
    }
}

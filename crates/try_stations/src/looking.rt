//! The lines of the table that ask consoles.

ghost use Rattle.try_stations.specs.Seated.{AreSame};

use crate::asking::{Asked, Told, ask};
use crate::orders::{order_of, push_order, push_reply};
use crate::rows::{cut, number};
use engine::{Engine, Order, Reply};
use station::{Answer, Console};
use std::alloc::Global;
use try_text::Page;

/// Adds what a board shows.
fn push_shown(page: &mut Page, events: u64, state: Option<engine::AlarmState>) {
    page.add("BOARD");
    page.number(i128::from(events));
    match state {
        Some(state) => page.word(state.code().text()),
        None => page.word("?"),
    }
}

fn push_answer(page: &mut Page, engine: &Engine, answer: Answer<Order, Reply>) {
    page.add("ANSWER");
    push_order(page, engine, answer.order);
    push_reply(page, answer.reply);
}

/// Adds what a console tells.
fn push_told(page: &mut Page, engine: &Engine, told: Option<Told>) {
    match told {
        Some(Told::Submitted(true)) => page.add("SUBMITTED"),
        Some(Told::Submitted(false)) => page.add("HANDED BACK"),
        Some(Told::Answer(Some(answer))) => push_answer(page, engine, answer),
        Some(Told::Answer(None)) => page.add("NO ANSWER"),
        Some(Told::Board(Some((events, state)))) => push_shown(page, events, state),
        Some(Told::Reloads(Some(reloads))) => {
            page.add("RELOADS");
            page.number(i128::from(reloads));
        }
        Some(Told::Board(None) | Told::Reloads(None)) => page.add("NO BOARD"),
        Some(Told::Room(places)) => {
            page.add("ROOM");
            page.number(i128::from(places));
        }
        None => page.add("NO CONSOLE"),
    }
    page.add("\n");
}

/// Asks a console, and adds what it tells.
fn push_asking(
    engine: &Engine,
    consoles: &mut [Console],
    page: &mut Page,
    console: u32,
    asked: Asked,
)
    ensures { AreSame consoles.old consoles.new }
{
    let told = ask(consoles, console, asked);
    push_told(page, engine, told);
}

/// Submits an order so many times, and tells how many were submitted.
#[tactic(auto, using(crate::proofs::Seats::same_all, crate::proofs::Seats::same_more))]
fn submit_all(consoles: &mut [Console], console: u32, order: Order, times: u32) -> u32
    ensures { AreSame consoles.old consoles.new }
{
    let mut submitted = 0u32;
    for _ in 0..times {
        if let Some(Told::Submitted(true)) = ask(consoles, console, Asked::Submit(order)) {
            submitted += 1;
        }
    }
    submitted
}

/// Takes so many answers, and tells how many were there.
#[tactic(auto, using(crate::proofs::Seats::same_all, crate::proofs::Seats::same_more))]
fn take_all(consoles: &mut [Console], console: u32, times: u32) -> u32
    ensures { AreSame consoles.old consoles.new }
{
    let mut taken = 0u32;
    for _ in 0..times {
        if let Some(Told::Answer(Some(_))) = ask(consoles, console, Asked::Answer) {
            taken += 1;
        }
    }
    taken
}

/// Submits the order of a line, and adds whether it was submitted.
#[tactic(auto, using(crate::proofs::Seats::same_all))]
fn push_submitted(
    alloc: Global,
    engine: &Engine,
    consoles: &mut [Console],
    page: &mut Page,
    line: &str,
)
    ensures { AreSame consoles.old consoles.new }
{
    match order_of(alloc, engine, line) {
        Ok(Some((console, order))) => {
            push_asking(engine, consoles, page, console, Asked::Submit(order));
        }
        Ok(None) => page.line("NO ROW"),
        Err(_) => page.refuse(),
    }
}

/// Submits an order so many times, and adds how many were submitted and how many came back.
fn push_times(consoles: &mut [Console], page: &mut Page, console: u32, order: Order, times: u32)
    ensures { AreSame consoles.old consoles.new }
{
    let submitted = submit_all(consoles, console, order, times);
    page.add("SUBMITTED");
    page.number(i128::from(submitted));
    page.word("HANDED BACK");
    page.number(i128::from(times.saturating_sub(submitted)));
    page.add("\n");
}

/// Submits the order of a line so many times, and adds how many were submitted and how many came back.
#[tactic(auto, using(crate::proofs::Seats::same_all))]
fn push_repeated(
    alloc: Global,
    engine: &Engine,
    consoles: &mut [Console],
    page: &mut Page,
    words: &str,
)
    ensures { AreSame consoles.old consoles.new }
{
    let (times, line) = cut(words);
    match order_of(alloc, engine, line) {
        Ok(Some((console, order))) => push_times(consoles, page, console, order, number(times)),
        Ok(None) => page.line("NO ROW"),
        Err(_) => page.refuse(),
    }
}

/// Takes the answers that a line asks for, and adds how many were there.
fn push_taken(consoles: &mut [Console], page: &mut Page, words: &str)
    ensures { AreSame consoles.old consoles.new }
{
    let (console, times) = cut(words);
    let taken = take_all(consoles, number(console), number(times));
    page.add("ANSWERS");
    page.number(i128::from(taken));
    page.add("\n");
}

/// Looks at the alarm of a line on a console's board, and adds what is seen.
fn push_board(engine: &Engine, consoles: &mut [Console], page: &mut Page, words: &str)
    ensures { AreSame consoles.old consoles.new }
{
    let (console, tag) = cut(words);
    let alarm = engine.plant().alarm_number(tag).unwrap_or(u32::MAX);
    push_asking(engine, consoles, page, number(console), Asked::Board(alarm));
}

/// Does a line that asks consoles, and adds what it gives.
pub fn push_asked(
    alloc: Global,
    engine: &Engine,
    consoles: &mut [Console],
    page: &mut Page,
    line: &str,
)
    ensures { AreSame consoles.old consoles.new }
{
    let (word, words) = cut(line);
    match word {
        "answer" => push_asking(engine, consoles, page, number(words), Asked::Answer),
        "answers" => push_taken(consoles, page, words),
        "board" => push_board(engine, consoles, page, words),
        "reloads" => push_asking(engine, consoles, page, number(words), Asked::Reloads),
        "room" => push_asking(engine, consoles, page, number(words), Asked::Room),
        "repeat" => push_repeated(alloc, engine, consoles, page, words),
        _ => push_submitted(alloc, engine, consoles, page, line),
    }
}

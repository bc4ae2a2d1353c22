//! What a console does in a round.

ghost use Rattle.std.specs.Prelude.{◌≡◌};
ghost use Rattle.console_link.specs.Seats.{SameConsole};

use crate::post::{Lamp, Post};
use crate::watch::Watch;
use station::{BoardView, Console, Order, Reply};

/// How many answers a console takes in a round at most.
const MOST_ANSWERS: u32 = 64;

/// Puts what a board shows into lamps.
fn show(view: &BoardView<'_, Order, Reply>, lamps: &mut [Lamp]) {
    let mut number = 0u32;
    for lamp in lamps {
        if let Some(state) = view.state(number) {
            lamp.state = state;
        }
        number = number.saturating_add(1);
    }
}

/// Looks at the board, and keeps what it shows; tells whether there was one.
pub fn look(console: &mut Console, post: &mut Post) -> bool
    ensures { console.new.link ≡ console.old.link }
{
    let Some(view) = console.board() else {
        return false;
    };
    post.follow(view.reloads());
    show(&view, post.lamps.as_mut_slice());
    let events = view.events();
    drop(view);
    post.look(events);
    true
}

/// Takes the answers that are there.
#[tactic(auto, using(crate::proofs::Seats::same_link, crate::proofs::Seats::same_console, crate::proofs::Seats::same_on))]
pub fn take_answers(console: &mut Console, post: &mut Post)
    ensures { SameConsole console.old.link console.new.link }
{
    for _ in 0..MOST_ANSWERS {
        let Some(answer) = console.answer() else {
            return;
        };
        post.take(answer);
    }
}

/// Submits orders of the drill, as many as may be under way and have a place.
#[tactic(auto, using(crate::proofs::Seats::same_link, crate::proofs::Seats::same_console, crate::proofs::Seats::same_on))]
fn submit_drill(console: &mut Console, post: &mut Post, is_held: bool)
    ensures { SameConsole console.old.link console.new.link }
{
    for _ in 0..MOST_ANSWERS {
        let Some(order) = post.drill_order(is_held) else {
            return;
        };
        if console.submit(order).is_err() {
            return;
        }
        post.add_drilled();
    }
}

/// Goes on with the drill, and tells the owner once its orders are under way for a plant that is to change.
#[tactic(auto, using(crate::proofs::Seats::same_link, crate::proofs::Seats::same_console, crate::proofs::Seats::same_on))]
fn drill(console: &mut Console, post: &mut Post, watch: &Watch)
    ensures { SameConsole console.old.link console.new.link }
{
    let was_waiting = post.is_waiting();
    submit_drill(console, post, watch.is_held());
    if !was_waiting && post.is_waiting() {
        watch.add_waiting();
    }
}

/// Tells the owner how far the drill is, where a round brought it there.
fn tell_progress(post: &Post, watch: &Watch, was_halved: bool, was_drilled: bool) {
    if !was_halved && post.is_halved() {
        watch.add_halved();
    }
    if !was_drilled && post.is_drilled() {
        watch.add_drilled();
    }
}

/// Orders what the board that was seen last asks for, as much as has a place.
#[tactic(auto, using(crate::proofs::Seats::same_link, crate::proofs::Seats::same_console, crate::proofs::Seats::same_on))]
fn acknowledge(console: &mut Console, post: &mut Post)
    ensures { SameConsole console.old.link console.new.link }
{
    let alarms = post.lamps.len();
    for number in 0..alarms {
        let Ok(alarm) = u32::try_from(number) else {
            return;
        };
        let Some(verb) = post.duty(alarm) else {
            continue;
        };
        let order = Order {
            verb,
            target: Some(alarm),
            plant: post.plant,
        };
        if console.submit(order).is_err() {
            return;
        }
        post.set_away(alarm, true);
    }
}

/// A round: answers, a look, and then the drill or what the board asks for. Without a board nothing is ordered by what an older one showed.
#[tactic(auto, using(crate::proofs::Seats::same_link, crate::proofs::Seats::same_console, crate::proofs::Seats::same_on))]
pub fn go_round(console: &mut Console, post: &mut Post, watch: &Watch)
    ensures { SameConsole console.old.link console.new.link }
{
    let (was_halved, was_drilled) = (post.is_halved(), post.is_drilled());
    take_answers(console, post);
    let sees = look(console, post);
    tell_progress(post, watch, was_halved, was_drilled);
    if !sees {
        return;
    }
    if post.is_drilled() {
        acknowledge(console, post);
    } else {
        drill(console, post, watch);
    }
}

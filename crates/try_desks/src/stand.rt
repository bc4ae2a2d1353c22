//! The thread of a console.

ghost use Rattle.std.specs.Prelude.{IfSome};
ghost use Rattle.console_link.specs.Seats.{SameConsole};
ghost use Rattle.try_desks.specs.Ends.{EndsFrom};

use crate::duty::{go_round, look, take_answers};
use crate::post::Post;
use crate::watch::Watch;
use station::{Console, Finished};
use std::thread;

/// How many rounds a console makes at most.
const MOST_ROUNDS: u64 = 1_000_000_000;

/// How often it looks for a board at most once the day is over.
const MOST_LOOKS: u64 = 1_000_000;

/// What comes back of a console: its end, if it could be ended, and its post.
#[derive(Drop)]
pub struct Stint {
    pub finished: Option<Finished>,
    pub post: Post,
}

/// Makes rounds until the day is over.
#[tactic(auto, using(crate::proofs::Seats::same_link, crate::proofs::Seats::same_console, crate::proofs::Seats::same_on))]
fn go_rounds(console: &mut Console, post: &mut Post, watch: &Watch)
    ensures { SameConsole console.old.link console.new.link }
{
    for _ in 0..MOST_ROUNDS {
        if watch.is_over() {
            return;
        }
        go_round(console, post, watch);
        thread::yield_now();
    }
}

/// Takes the last answers, and looks at the board for the last time.
#[tactic(auto, using(crate::proofs::Seats::same_link, crate::proofs::Seats::same_console, crate::proofs::Seats::same_on))]
fn wind_up(console: &mut Console, post: &mut Post)
    ensures { SameConsole console.old.link console.new.link }
{
    for _ in 0..MOST_LOOKS {
        take_answers(console, post);
        if look(console, post) {
            return;
        }
        thread::yield_now();
    }
}

/// A console's day, from its drill to its end.
#[tactic(auto, using(crate::proofs::Seats::same_on, crate::proofs::Seats::ends_from))]
pub fn stand(console: Console, post: Post, watch: &Watch) -> Stint
    ensures { IfSome result.finished (EndsFrom console) }
{
    let mut console = console;
    let mut post = post;
    go_rounds(&mut console, &mut post, watch);
    wind_up(&mut console, &mut post);
    Stint {
        finished: console.finish(),
        post,
    }
}

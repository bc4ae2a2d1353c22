//! What is asked of a console.

ghost use Rattle.std.specs.Prelude.{◌≡◌};
ghost use Rattle.console_link.specs.Seats.{SameConsole};
ghost use Rattle.try_stations.specs.Seated.{AreSame};

use engine::{AlarmState, Order, Reply};
use station::{Answer, Console};

/// What is asked of a console.
#[derive(Clone, Copy, Drop)]
pub enum Asked {
    /// To submit an order.
    Submit(Order),
    /// To take its next answer.
    Answer,
    /// To look at the board: at the alarm of a number.
    Board(u32),
    /// To look at the board: how many reloads it shows.
    Reloads,
    /// How many places for orders it knows to be free.
    Room,
}

/// What a console tells.
#[derive(Clone, Copy, Drop)]
pub enum Told {
    /// Whether the order was submitted.
    Submitted(bool),
    /// Its next answer, if there is one.
    Answer(Option<Answer<Order, Reply>>),
    /// How many events its board shows, and the alarm's state, if there is a board.
    Board(Option<(u64, Option<AlarmState>)>),
    /// How many reloads its board shows, if there is a board.
    Reloads(Option<u32>),
    /// So many places.
    Room(u32),
}

/// Looks at the board: how many events it shows, and the state of the alarm of a number.
fn look(console: &mut Console, alarm: u32) -> Option<(u64, Option<AlarmState>)>
    ensures { console.new.link ≡ console.old.link }
{
    let view = console.board()?;
    Some((view.events(), view.state(alarm)))
}

/// Looks at the board: how many reloads it shows.
fn look_for_reloads(console: &mut Console) -> Option<u32>
    ensures { console.new.link ≡ console.old.link }
{
    let view = console.board()?;
    Some(view.reloads())
}

#[tactic(auto, using(crate::proofs::Seats::same_link))]
fn ask_one(console: &mut Console, asked: Asked) -> Told
    ensures { SameConsole console.old.link console.new.link }
{
    match asked {
        Asked::Submit(order) => Told::Submitted(console.submit(order).is_ok()),
        Asked::Answer => Told::Answer(console.answer()),
        Asked::Board(alarm) => Told::Board(look(console, alarm)),
        Asked::Reloads => Told::Reloads(look_for_reloads(console)),
        Asked::Room => Told::Room(console.room()),
    }
}

/// Asks the console of a number; `None` where there is none.
#[tactic(auto, using(crate::proofs::Seats::same_first, crate::proofs::Seats::same_later, crate::proofs::Seats::same_equal))]
pub fn ask(consoles: &mut [Console], number: u32, asked: Asked) -> Option<Told>
    ensures { AreSame consoles.old consoles.new }
{
    let (console, others) = consoles.split_first_mut()?;
    if console.number() == number {
        Some(ask_one(console, asked))
    } else {
        ask(others, number, asked)
    }
}

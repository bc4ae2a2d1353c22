//! A console's ends of its rings.
ghost use Rattle.std.specs.Prelude.{◌≡◌, length};
ghost use Rattle.rtrb.specs.Ring.{producer_capacity, received};

use crate::answer::Answer;
use console_log::LogName;
use rtrb::{Consumer, Producer, PushError};

/// A console: it submits orders and takes their answers. It may go to a thread of its own.
#[derive(Drop)]
pub struct ConsoleRings<O, R> {
    pub(crate) number: u32,
    pub(crate) orders: Producer<O>,
    pub(crate) answers: Consumer<Answer<O, R>>,
    /// How many answers it has taken.
    pub(crate) answered: u64,
    /// In which log what it sees is marked, as its owner says.
    pub(crate) log: LogName,
    ghost places: { producer_capacity orders ≡ 64 },
    ghost counted: { answered ≡ length (received answers) },
}

/// A console that has ended: it submits and takes nothing more.
#[derive(Drop)]
pub struct FinishedRings<O, R> {
    pub(crate) number: u32,
    pub(crate) orders: rtrb::Finished<O>,
    pub(crate) answers: Consumer<Answer<O, R>>,
    /// How many events it saw, as its owner says.
    pub(crate) seen: u64,
    /// In which log they are marked.
    pub(crate) log: LogName,
}

impl<O: Drop, R: Drop> ConsoleRings<O, R> {
    ghost use Rattle.std.specs.Prelude.{◌≡◌, ◌<◌, ◌≤◌, ◌+◌, [], ◌∷◌, ◌++◌, length, OnOk, IfErr, IfSome, IsOk, IfNone};
    ghost use Rattle.console_link.specs.Seats.{submitted, taken, known_room, SameConsole, all_submitted, all_taken, Ends};

    /// Its number.
    pub fn number(&self) -> u32
        ensures { result ≡ self.now.number }
    {
        self.number
    }

    /// How many answers it has taken.
    pub fn answered(&self) -> u64
        ensures { result ≡ length (taken self.now) }
    {
        self.answered
    }

    /// How many places of the order ring the console knows to be free, at most 64.
    pub fn room(&mut self) -> u32
        ensures seat { SameConsole self.old self.new }
        ensures same { (submitted self.new ≡ submitted self.old) × (taken self.new ≡ taken self.old) }
        ensures room { (result ≡ known_room self.new) × (known_room self.old ≤ known_room self.new) }
    {
        self.orders.slots() as u32
    }

    /// Submits an order. It comes back where no place is free, and then nothing is submitted.
    pub fn submit(&mut self, order: O) -> Result<(), O>
        ensures seat { SameConsole self.old self.new }
        ensures ok { OnOk result (submitted self.new ≡ submitted self.old ++ order ∷ []) }
        ensures full { IfErr result (λ e. (e ≡ order) × (submitted self.new ≡ submitted self.old)
            × (known_room self.new ≡ 0)) }
        ensures room { OnOk result (known_room self.old ≤ known_room self.new + 1) }
        ensures taken { taken self.new ≡ taken self.old }
        ensures succeeds { 0 < known_room self.old → IsOk result }
    {
        match self.orders.push(order) {
            Ok(()) => Ok(()),
            Err(PushError::Full(back)) => Err(back),
        }
    }

    /// Takes the next answer; `None` where none is there. It takes fewer than 2^64 answers in all.
    pub fn answer(&mut self) -> Option<Answer<O, R>>
        ensures seat { SameConsole self.old self.new }
        ensures some { IfSome result (λ a. taken self.new ≡ taken self.old ++ a ∷ []) }
        ensures none { IfNone result (taken self.new ≡ taken self.old) }
        ensures submitted { (submitted self.new ≡ submitted self.old)
            × (known_room self.new ≡ known_room self.old) }
    {
        if self.answered == u64::MAX {
            return None;
        }
        let answer = self.answers.pop().ok()?;
        self.answered += 1;
        Some(answer)
    }

    /// Ends the console, which saw so many events. `None` where the order ring can't be ended; then nothing is known of the orders that are left
    /// in it.
    pub fn finish(self, seen: u64) -> Option<FinishedRings<O, R>>
        ensures rings { IfSome result (λ f. Ends self f × (all_submitted f ≡ submitted self)
            × (all_taken f ≡ taken self)) }
        ensures seen { IfSome result (λ f. f.seen ≡ seen) }
    {
        let ConsoleRings {
            number,
            orders,
            answers,
            answered: _,
            log,
        } = self;
        let orders = orders.finish()?;
        Some(FinishedRings {
            number,
            orders,
            answers,
            seen,
            log,
        })
    }
}

impl<O: Drop, R: Drop> FinishedRings<O, R> {
    ghost use Rattle.std.specs.Prelude.{◌≡◌};

    /// The number that its console had.
    pub fn number(&self) -> u32
        ensures { result ≡ self.now.number }
    {
        self.number
    }
}

//! How a console stands to its board.
ghost use Rattle.std.specs.Prelude.{◌≡◌, None, MatchBool};
ghost use Rattle.console_boards.specs.Stories.{seen_events, seen_list, IsSound};
ghost use Rattle.console_boards.specs.Replies.{after, allows};
ghost use Rattle.console_boards.specs.Marks.{IsMark};
ghost use Rattle.console_boards.specs.Readers.{seen, told, log_of};
ghost use Rattle.console_operator.specs.Sights.{seen_by, told_by, log_by, looked_at, reloads_shown, state_shown, HasOrders, LacksOrders, KnowsAs, LooksFrom};

use alarm_machine::AlarmState;
use console_boards::{BoardEntry, BoardReader, BoardReading};
use console_log::Mark;
use core::mem::replace_with;

/// How a console stands to its board.
#[derive(Drop)]
pub enum Sight {
    /// It doesn't look at it.
    Idle(BoardReader),
    /// It looks at it.
    Looking(BoardReading),
}

/// Looks at the board that was published last, where the writer is there.
fn look(reader: BoardReader) -> Sight
    ensures { LooksFrom (seen reader) (told reader) (log_of reader) result }
{
    match reader.enter() {
        Ok(reading) => Sight::Looking(reading),
        Err(reader) => Sight::Idle(reader),
    }
}

impl Sight {
    /// How it stands once the look has ended, if there was one.
    fn ended(self, _nothing: ()) -> (Sight, ())
        ensures knows { KnowsAs self result.0 }
        ensures over { looked_at result.0 ≡ None }
    {
        let sight = match self {
            Sight::Looking(reading) => Sight::Idle(reading.leave()),
            Sight::Idle(reader) => Sight::Idle(reader),
        };
        (sight, ())
    }

    pub(crate) fn end(&mut self)
        ensures knows { KnowsAs self.old self.new }
        ensures over { looked_at self.new ≡ None }
    {
        replace_with(self, (), Sight::ended)
    }

    /// How it stands once it has looked anew.
    fn renewed(self, _nothing: ()) -> (Sight, ())
        ensures { LooksFrom (seen_by self) (told_by self) (log_by self) result.0 }
    {
        let sight = match self {
            Sight::Looking(reading) => look(reading.leave()),
            Sight::Idle(reader) => look(reader),
        };
        (sight, ())
    }

    /// Looks anew.
    pub(crate) fn renew(&mut self)
        ensures { LooksFrom (seen_by self.old) (told_by self.old) (log_by self.old) self.new }
    {
        replace_with(self, (), Sight::renewed)
    }

    /// Whether it looks at a board that has so many orders of the console of a number, or more.
    pub(crate) fn has_orders(&self, console: u32, orders: u64) -> bool
        ensures { MatchBool result (HasOrders console orders (looked_at self.now))
            (LacksOrders console orders (looked_at self.now)) }
    {
        let Sight::Looking(reading) = self else {
            return false;
        };
        match reading.board().orders(console) {
            Some(counted) => orders <= counted,
            None => false,
        }
    }

    /// The state of an alarm on the board at which it looks.
    pub(crate) fn state(&self, alarm: u32) -> Option<AlarmState>
        ensures { result ≡ state_shown alarm (looked_at self.now) }
    {
        match self {
            Sight::Looking(reading) => reading.board().state(alarm),
            Sight::Idle(_) => None,
        }
    }

    /// How many entries the board has at which it looks.
    pub(crate) fn events(&self) -> u64
        ensures { result ≡ seen_events (looked_at self.now) }
    {
        match self {
            Sight::Looking(reading) => reading.board().events(),
            Sight::Idle(_) => 0,
        }
    }

    /// How many reloads the board has at which it looks; 4,294,967,295 where it has more.
    pub(crate) fn reloads(&self) -> u32
        ensures { result ≡ reloads_shown (looked_at self.now) }
    {
        match self {
            Sight::Looking(reading) => reading.board().reloads(),
            Sight::Idle(_) => 0,
        }
    }

    /// How many entries it saw last. They begin where those begin that it was told of, and each of them might come after those before it.
    pub(crate) fn seen(&self) -> u64
        ensures count { result ≡ seen_events (seen_by self.now) }
        ensures sound { IsSound after allows (told_by self.now) (seen_by self.now) }
    {
        match self {
            Sight::Looking(reading) => reading.board().events(),
            Sight::Idle(reader) => reader.events(),
        }
    }

    /// A mark of the entries that it saw last, which are none where it saw nothing yet.
    pub(crate) fn mark(&self) -> Mark<BoardEntry>
        ensures { IsMark (log_by self.now) (seen_list (seen_by self.now)) result }
    {
        match self {
            Sight::Looking(reading) => reading.mark(),
            Sight::Idle(reader) => reader.mark(),
        }
    }
}

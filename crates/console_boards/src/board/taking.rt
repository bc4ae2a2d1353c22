//! How a board takes in an entry.
ghost use Rattle.std.specs.Prelude.{◌≡◌, ◌^◌, ◌+◌, ◌<◌, true, length, All, [], ◌∷◌, ◌++◌, map};
ghost use Rattle.console_boards.specs.Stories.{shown, is_lawful, grown};
ghost use Rattle.console_boards.specs.Marks.{operated};
ghost use Rattle.console_boards.specs.Replies.{after, allows};
ghost use Rattle.console_boards.specs.Counts.{count_of, tallied, consoles_in};

use super::Board;
use crate::entry::{BoardEntry, Operation};
use crate::picture::Picture;
use crate::replies::take;
use crate::tally::{Tally, consoles_in, count_entry, reloads_as};
use alarm_bank::Annunciator;
use base_trace::{Remembered, Trace};
use console_log::{Log, Mark};
use left_right::Absorb;
use std::alloc::AllocError;

impl Board {
    /// A board before the first entry, which counts the orders of these consoles. None of them has one yet.
    pub fn new(panel: Annunciator, tallies: Vec<Tally>) -> Board
        requires { All (λ t. t.orders ≡ 0) tallies.items }
        ensures alarms { result.opening.value.panel ≡ panel }
        ensures consoles { result.opening.value.consoles ≡ consoles_in tallies.items }
        ensures none { result.list ≡ [] }
    {
        let consoles = consoles_in(tallies.as_slice());
        let picture = Picture { panel, consoles };
        let opening = Remembered::of(&picture);
        let Picture { panel, consoles: _ } = picture;
        Board {
            panel,
            opening,
            list: Trace::new(),
            events: 0,
            reloads: 0,
            tallies,
            mark: Log::new().mark(),
        }
    }

    /// Takes in an entry, if it may come next.
    fn take(&mut self, entry: &BoardEntry)
        ensures story { (self.new.opening.value, self.new.list)
            ≡ grown after allows (self.old.opening.value, self.old.list) entry.now }
        ensures mark { self.new.mark ≡ self.old.mark }
    {
        if self.events < u64::MAX && take(&mut self.panel, entry) {
            self.list = self.list.then(entry);
            self.events += 1;
            self.reloads += reloads_as(entry);
            count_entry(&mut self.tallies, entry);
        }
    }
}

impl Absorb<Operation> for Board {
    type State = (Picture, Trace<BoardEntry>, Mark<BoardEntry>);

    ghost state = { λ b. (b.opening.value, b.list, b.mark) };

    ghost applied = { operated };

    ghost never_fails = { Unit {0} };

    fn absorb_first(&mut self, operation: &Operation, _other: &Board) -> Result<(), AllocError> {
        match operation {
            Operation::Entry(entry) => self.take(entry),
            Operation::Mark(mark) => self.mark = mark.again(),
        }
        Ok(())
    }
}

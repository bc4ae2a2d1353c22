//! What a console does with its rings.
ghost use Rattle.std.specs.Prelude.{◌≡◌, ◌<◌, ◌≤◌, ◌+◌, [], ◌∷◌, ◌++◌, OnOk, IfErr, IfSome, IsOk, IfNone};
ghost use Rattle.console_boards.specs.Readers.{seen, told, log_of};
ghost use Rattle.console_link.specs.Seats.{SameConsole};
ghost use Rattle.console_operator.specs.Consoles.{submitted, taken, known_room, story_seen, story_told, board_log};

use super::Console;
use crate::sight::Sight;
use console_boards::BoardReader;
use console_link::Answer;

impl<O: Drop, R: Drop> Console<O, R> {
    /// A console with these rings and this reader of the board, which has its marks in the log that the rings tell.
    pub fn new(link: console_link::ConsoleRings<O, R>, reader: BoardReader) -> Console<O, R>
        requires log { link.log ≡ log_of reader }
        ensures rings { result.link ≡ link }
        ensures seen { (story_seen result ≡ seen reader) × (story_told result ≡ told reader) }
        ensures log { board_log result ≡ log_of reader }
    {
        Console {
            link,
            sight: Sight::Idle(reader),
        }
    }

    /// Its number.
    pub fn number(&self) -> u32
        ensures { result ≡ self.now.link.number }
    {
        self.link.number()
    }

    /// How many places of the order ring the console knows to be free, at most 64.
    pub fn room(&mut self) -> u32
        ensures rings { SameConsole self.old.link self.new.link }
        ensures same { (submitted self.new ≡ submitted self.old) × (taken self.new ≡ taken self.old) }
        ensures room { (result ≡ known_room self.new) × (known_room self.old ≤ known_room self.new) }
        ensures sight { self.new.sight ≡ self.old.sight }
    {
        self.link.room()
    }

    /// Submits an order. It comes back where no place is free, and then nothing is submitted.
    pub fn submit(&mut self, order: O) -> Result<(), O>
        ensures rings { SameConsole self.old.link self.new.link }
        ensures ok { OnOk result (submitted self.new ≡ submitted self.old ++ order ∷ []) }
        ensures full { IfErr result (λ e. (e ≡ order) × (submitted self.new ≡ submitted self.old)
            × (known_room self.new ≡ 0)) }
        ensures room { OnOk result (known_room self.old ≤ known_room self.new + 1) }
        ensures taken { taken self.new ≡ taken self.old }
        ensures succeeds { 0 < known_room self.old → IsOk result }
        ensures sight { self.new.sight ≡ self.old.sight }
    {
        self.link.submit(order)
    }

    /// Takes the next answer; `None` where none is there.
    pub fn answer(&mut self) -> Option<Answer<O, R>>
        ensures rings { SameConsole self.old.link self.new.link }
        ensures some { IfSome result (λ a. taken self.new ≡ taken self.old ++ a ∷ []) }
        ensures none { IfNone result (taken self.new ≡ taken self.old) }
        ensures submitted { submitted self.new ≡ submitted self.old }
        ensures room { known_room self.new ≡ known_room self.old }
        ensures sight { self.new.sight ≡ self.old.sight }
    {
        self.link.answer()
    }
}

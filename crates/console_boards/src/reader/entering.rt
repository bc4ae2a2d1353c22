//! What a reader does.
ghost use Rattle.std.specs.Prelude.{◌≡◌, MatchResult, Some, true};
ghost use Rattle.console_boards.specs.Stories.{IsSince, OpensAsTold, IsSound, seen_events, seen_list, is_lawful};
ghost use Rattle.console_boards.specs.Replies.{after, allows};
ghost use Rattle.console_boards.specs.Marks.{IsMark};
ghost use Rattle.console_boards.specs.Readers.{story_of, seen, told, log_of, story_read, told_before, log_read};

use super::{BoardReader, BoardReading};
use crate::board::Board;
use crate::entry::BoardEntry;
use crate::rule::Looks;
use console_log::Mark;

impl BoardReader {
    /// Takes the board that was published last: its story goes on from what this reader saw before, and from what it was told of. It waits
    /// for nobody. The reader comes back where the writer is gone.
    #[tactic(auto, using(crate::proofs::Sights::since_opens, crate::proofs::Sights::opens_same))]
    pub fn enter(self) -> Result<BoardReading, BoardReader>
        ensures since { MatchResult result
            (λ r. IsSince (seen self) (story_read r) × IsSince (told self) (story_read r)
            × (told_before r ≡ told self)) (λ r. (seen r ≡ seen self) × (told r ≡ told self)) }
        ensures log { MatchResult result (λ r. log_read r ≡ log_of self) (λ r. log_of r ≡ log_of self) }
    {
        let BoardReader {
            reader,
            events,
            mark,
        } = self;
        match reader.enter_as::<Looks>() {
            Ok(reading) => Ok(BoardReading { reading }),
            Err(reader) => Err(BoardReader {
                reader,
                events,
                mark,
            }),
        }
    }

    /// How many entries it saw last. They begin where those begin that it was told of, and each of them might come after those before it.
    pub fn events(&self) -> u64
        ensures count { result ≡ seen_events (seen self.now) }
        ensures sound { IsSound after allows (told self.now) (seen self.now) }
    {
        self.events
    }

    /// A mark of the entries that it saw last, which are none where it saw nothing yet.
    pub fn mark(&self) -> Mark<BoardEntry>
        ensures { IsMark (log_of self.now) (seen_list (seen self.now)) result }
    {
        self.mark.again()
    }
}

impl BoardReading {
    /// The board. It opens as the one of which the reader was told, and each of its entries might come after those before it.
    #[tactic(auto, using(crate::proofs::Sights::opens_same))]
    pub fn board(&self) -> &Board
        ensures story { story_of result.now ≡ story_read self.now }
        ensures opens { OpensAsTold (told_before self.now) (Some (story_read self.now)) }
        ensures lawful { is_lawful after allows (story_read self.now).0 (story_read self.now).1 ≡ true }
    {
        self.reading.get()
    }

    /// A mark of its entries.
    pub fn mark(&self) -> Mark<BoardEntry>
        ensures { IsMark (log_read self.now) (story_read self.now).1 result }
    {
        self.reading.get().mark.again()
    }

    /// Ends the look.
    #[tactic(auto, using(crate::proofs::Sights::opens_same))]
    pub fn leave(self) -> BoardReader
        ensures seen { (seen result ≡ Some (story_read self)) × (told result ≡ told_before self) }
        ensures log { log_of result ≡ log_read self }
    {
        let events = self.board().events();
        let mark = self.mark();
        let BoardReading { reading } = self;
        let reader = reading.leave();
        BoardReader {
            reader,
            events,
            mark,
        }
    }
}

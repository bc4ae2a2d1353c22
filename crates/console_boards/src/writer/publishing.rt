//! What the owner does with a board.
ghost use Rattle.std.specs.Prelude.{◌≡◌, ◌<◌, ◌^◌, [], ◌∷◌, ◌++◌, MatchResult, IfOk, None, Some, true};
ghost use Rattle.console_boards.specs.Stories.{Continues, shown};
ghost use Rattle.console_boards.specs.Replies.{after, allows};
ghost use Rattle.console_boards.specs.Marks.{IsMark};
ghost use Rattle.console_boards.specs.Readers.{story_of, published, laid, log_kept, seen, told, log_of};

use super::BoardWriter;
use crate::board::Board;
use crate::entry::{BoardEntry, Operation};
use crate::reader::BoardReader;
use crate::rule::{Informs, Looks, Notes};
use base_trace::Remembered;
use console_log::{Log, Mark};
use core::mem::replace_with;
use left_right::writer::Writer;
use std::alloc::{AllocError, Global};
use std::sync::Wait;

impl BoardWriter {
    /// A writer for so many readers, with two copies of a board before the first entry.
    pub fn new<R: Wait>(
        rt: &R,
        alloc: Global,
        first: Board,
        second: Board,
        readers: usize,
    ) -> Result<BoardWriter, AllocError>
        requires readers { (0 < readers) × (readers < 2 ^ 32) }
        requires alike { story_of first ≡ story_of second }
        requires none { first.list ≡ [] }
        ensures { IfOk result (λ w. (published w ≡ story_of first) × (laid w ≡ story_of first)) }
    {
        let log = Log::new();
        let opening = log.mark();
        let mut first = first;
        let mut second = second;
        first.mark = log.mark();
        second.mark = log.mark();
        let writer = Writer::new(alloc, first, second, readers)?;
        let (writer, _) = writer.publish_as::<Looks, R>(rt);
        Ok(BoardWriter {
            writer,
            log,
            opening,
            stuck: false,
        })
    }

    /// What readers take now. It is a beginning of what was laid by.
    pub fn published(&self) -> &Board
        ensures story { story_of result.now ≡ published self.now }
        ensures begins { Continues (published self.now) (laid self.now) }
    {
        self.writer.published()
    }

    /// A mark of all that was laid by.
    pub fn mark(&self) -> Mark<BoardEntry>
        ensures { IsMark (log_kept self.now) (laid self.now).1 result }
    {
        self.log.mark()
    }

    /// Lays an entry by, to be published, which may come after all that was laid by before. Fails if memory was refused, where there are
    /// 2^64 - 1 entries, and where the log doesn't take the entry, which then takes no other: nothing was laid by.
    pub fn lay(&mut self, entry: BoardEntry) -> Result<(), AllocError>
        requires may_come { allows (shown after (laid self.old).0 (laid self.old).1) entry ≡ true }
        ensures same { (published self.new ≡ published self.old)
            × (log_kept self.new ≡ log_kept self.old) }
        ensures laid { MatchResult result
            (λ _. laid self.new ≡ ((laid self.old).0, (laid self.old).1 ++ entry ∷ []))
            (λ _. laid self.new ≡ laid self.old) }
    {
        if self.stuck {
            return Err(AllocError);
        }
        let noted = Remembered::of(&entry);
        if self.writer.append(Operation::Entry(entry)).is_err() {
            return Err(AllocError);
        }
        if self.log.add(&noted) {
            return Ok(());
        }
        self.stuck = true;
        Err(AllocError)
    }

    /// The writer once it has shown what was laid by, or has tried to.
    fn shown<R: Wait>(self, rt: &R) -> (BoardWriter, Result<(), AllocError>)
        ensures same { (laid result.0 ≡ laid self) × (log_kept result.0 ≡ log_kept self) }
        ensures published { MatchResult result.1 (λ _. published result.0 ≡ laid self)
            (λ _. published result.0 ≡ published self) }
    {
        if self.stuck {
            return (self, Err(AllocError));
        }
        let BoardWriter {
            mut writer,
            log,
            opening,
            stuck,
        } = self;
        let Ok(()) = writer.append(Operation::Mark(log.mark())) else {
            let same = BoardWriter {
                writer,
                log,
                opening,
                stuck,
            };
            return (same, Err(AllocError));
        };
        let (writer, _) = writer.publish_as::<Looks, R>(rt);
        let shown = BoardWriter {
            writer,
            log,
            opening,
            stuck,
        };
        (shown, Ok(()))
    }

    /// Shows readers the board with each entry that was laid by. It waits for readers that still have the copy before. Fails if memory was refused, or where the
    /// log didn't take an entry: then readers see what they saw, and the next call shows what was laid by until then.
    pub fn publish<R: Wait>(&mut self, rt: &R) -> Result<(), AllocError>
        ensures same { (laid self.new ≡ laid self.old) × (log_kept self.new ≡ log_kept self.old) }
        ensures published { MatchResult result (λ _. published self.new ≡ laid self.old)
            (λ _. published self.new ≡ published self.old) }
    {
        replace_with(self, rt, BoardWriter::shown)
    }

    /// A reader that has seen nothing yet, and is told what is published now. Fails where no place is left for one, or if memory was refused.
    #[tactic(auto, using(crate::proofs::Sights::opens_unseen))]
    pub fn reader(&mut self) -> Result<BoardReader, AllocError>
        ensures same { (published self.new ≡ published self.old) × (laid self.new ≡ laid self.old)
            × (log_kept self.new ≡ log_kept self.old) }
        ensures reader { IfOk result (λ r. (seen r ≡ None) × (told r ≡ Some (published self.old))
            × (log_of r ≡ log_kept self.old)) }
    {
        let mut reader = self.writer.factory().reader()?;
        reader.learn::<Informs>(self.writer.tell::<Notes>());
        Ok(BoardReader {
            reader,
            events: 0,
            mark: self.opening.again(),
        })
    }

    /// Ends the writer, after each reader has left: it waits for those that read still.
    pub fn end<R: Wait>(self, rt: &R) -> Box<Board>
        ensures { story_of result.value ≡ published self }
    {
        let BoardWriter {
            writer,
            log,
            opening: _,
            stuck: _,
        } = self;
        drop(log);
        writer.take(rt)
    }
}

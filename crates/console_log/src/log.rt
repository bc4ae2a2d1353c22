//! The end of a log that adds to it.
ghost use Rattle.std.specs.Prelude.{◌≡◌, ◌+◌, ◌<◌, ◌^◌, [], ◌∷◌, ◌++◌, length, MatchBool, IsTrue};
ghost use Rattle.console_log.specs.Rules.{word_of};

use crate::mark::Mark;
use crate::rule::{Adds, Counts, Nothing};
use base_trace::Remembered;
use logbook::{Offer, Seen, Start, Word};
use std::marker::Model;

/// A log that only grows, and all that was added to it by this end.
#[derive(Drop)]
pub struct Log<E> {
    word: Word<E, u64, Counts>,
    count: u64,
    mark: Mark<E>,
}

impl<E> Model for Log<E> {
    ghost use Rattle.std.specs.Prelude.{◌≡◌, length};
    ghost use Rattle.console_log.specs.Marks.{PlainMark, mark_code};
    ghost use Rattle.console_log.specs.Rules.{word_of};

    ghost Value = { PlainMark E };

    ghost coded = { mark_code E.code };

    ghost view = { λ l. l.mark };

    ghost invariant = { λ l. (l.count ≡ length l.mark.entries) × (l.word ≡ word_of l.mark.log) };
}

impl<E> Log<E> {
    /// A log of its own, with no entry.
    pub fn new() -> Log<E>
        ensures { result.entries ≡ [] }
    {
        let (seen, mut first, _second) = Seen::open(Start::alone(), 0, 0);
        Log {
            word: Word::tracked(0, &mut first),
            count: 0,
            mark: Mark { seen },
        }
    }

    /// A mark of all that was added.
    pub fn mark(&self) -> Mark<E>
        ensures { result ≡ self.now }
    {
        self.mark.again()
    }

    /// Adds an entry; tells whether it did. It does, but where there are 2^64 - 1, or where the word isn't what this end knows. No other end changes it,
    /// but no contract says so.
    pub fn add(&mut self, entry: &Remembered<E>) -> bool
        ensures log { self.new.log ≡ self.old.log }
        ensures entries { MatchBool result (self.new.entries ≡ self.old.entries ++ entry.now.value ∷ [])
            (self.new.entries ≡ self.old.entries) }
        ensures room { IsTrue result → length self.old.entries + 1 < 2 ^ 64 }
    {
        let count = self.count;
        if count == u64::MAX {
            return false;
        }
        let mut seen = self.mark.again().seen;
        let mut offer: Offer<E, u64, Counts, Nothing> = seen.plain::<Nothing, Remembered<E>, Adds>(
            entry,
        );
        let mut pen = seen.no_pen();
        let found = self
            .word
            .compare_exchange::<Adds, Nothing>(count, count + 1, &mut seen, &mut offer, &mut pen);
        if found != count {
            return false;
        }
        self.count = count + 1;
        self.mark = Mark { seen };
        true
    }
}

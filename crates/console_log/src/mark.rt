//! What is known of a log, and which log it is.
ghost use Rattle.std.specs.Prelude.{◌≡◌};
ghost use mathlib.Core.List.{IsPrefix};

use crate::rule::Counts;
use logbook::{Pen, Seen};
use std::marker::Model;

/// A list that a log had at some moment: each later list of the log begins with it. It may be copied, and go to any thread.
#[derive(Drop)]
pub struct Mark<E> {
    pub(crate) seen: Seen<E, u64, Counts>,
}

impl<E> Model for Mark<E> {
    ghost use Rattle.console_log.specs.Marks.{PlainMark, mark_code};

    ghost Value = { PlainMark E };

    ghost coded = { mark_code E.code };

    ghost view = { λ m. record { log = m.seen.book; entries = m.seen.log } };
}

/// Which log it is. It has no bytes, and may go to any thread.
#[derive(Drop)]
pub struct LogName {
    /// A pen without a right knows its book.
    pen: Pen,
}

impl Model for LogName {
    ghost use Rattle.logbook.specs.Pages.{Book, book_coded};

    ghost Value = { Book };

    ghost coded = { book_coded };

    ghost view = { λ n. n.pen.book };
}

impl<E> Mark<E> {
    /// A copy.
    pub fn again(&self) -> Mark<E>
        ensures { result ≡ self.now }
    {
        Mark {
            seen: self.seen.again(),
        }
    }

    /// Which log it is of.
    pub fn name(&self) -> LogName
        ensures { result ≡ self.now.log }
    {
        LogName {
            pen: self.seen.no_pen(),
        }
    }

    /// Takes in what another mark of the same log says: afterwards both lists are beginnings of the list of this one.
    pub fn learn(&mut self, other: &Mark<E>)
        requires log { other.now.log ≡ self.old.log }
        ensures log { self.new.log ≡ self.old.log }
        ensures own { IsPrefix self.old.entries self.new.entries }
        ensures theirs { IsPrefix other.now.entries self.new.entries }
    {
        self.seen.learn(&other.seen);
    }
}

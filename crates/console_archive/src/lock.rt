//! The archive: a book under a lock.

ghost use Rattle.std.specs.Prelude.{map, string_bytes, IfOk};
ghost use Rattle.engine.specs.Engines.{PlainEngine};
ghost use Rattle.engine.specs.Lawful.{IsLawfulHistory};
ghost use Rattle.engine.specs.Journal.{journal_of};
ghost use Rattle.console_archive.specs.Pages.{IsPage};

use crate::book::Book;
use crate::page::page_of;
use std::alloc::{AllocError, Global};
use std::sync::ledger::Ledger;
use std::sync::{Mutex, MutexGuard, Wait};

/// A book under a lock. Threads share it by reference, as in an `Arc`.
pub struct Archive<L: Ledger> {
    book: Mutex<Book<L>>,
}

impl<L: Ledger> Drop for Archive<L> {
    fn drop(self) {
        let Archive { book: _ } = self;
    }
}

impl<L: Ledger> Archive<L> {
    /// Puts a book under a lock, which nobody has.
    pub fn new(book: Book<L>) -> Archive<L> {
        Archive {
            book: Mutex::new(book),
        }
    }

    /// Waits for the lock and takes it. Nobody else reads or writes the book until the guard is let go.
    pub fn lock<R: Wait>(&self, rt: &R) -> MutexGuard<'_, Book<L>> {
        self.book.lock(rt)
    }

    /// Waits for the lock, and gives the page of the book as it is then, as `Book::page`. The lock is given back before the page is returned.
    pub fn page<R: Wait>(
        &self,
        rt: &R,
        alloc: Global,
        from: u64,
        n: u32,
    ) -> Result<Vec<String>, AllocError>
        ensures { IfOk result (λ lines. (b : PlainEngine) × IsLawfulHistory b.plant b.history
            × IsPage b.plant.epoch (journal_of b.plant b.history) from n
            (map string_bytes lines.items)) }
    {
        let book = self.book.lock(rt);
        page_of(alloc, book.engine(), from, n)
    }
}

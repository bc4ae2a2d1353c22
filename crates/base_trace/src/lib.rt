//! Lists and values that contracts see whole and that take no memory: nothing is stored.
//!
//! A value that grows by entries can keep beside it, for its contracts, the list of the entries that made it: its trace. What it was at some
//! moment can be remembered, too, and what it was made from can still be shown. None of these has bytes, so they may go to any thread, and
//! the prover finds that of each type that holds them.
//!
//! Layer base_: it must not know sources, alarms or files.
#![tactic(auto)]

ghost use Rattle.std.specs.Prelude.{◌≡◌, [], ◌∷◌, ◌++◌};

mod listed;
mod remembered;
mod shown;

use listed::Listed;
pub use remembered::Remembered;
pub use shown::Shown;
use std::marker::Model;

/// A list of entries, for contracts alone. Contracts see it as the list.
#[derive(Drop)]
pub struct Trace<E> {
    list: Listed<E>,
}

impl<E> Model for Trace<E> {
    ghost use Rattle.std.specs.Prelude.{List};

    ghost Value = { List E };

    ghost view = { λ t. t.list.items };
}

impl<E> Trace<E> {
    /// The empty list.
    pub fn new() -> Trace<E>
        ensures { result ≡ [] }
    {
        Trace {
            list: Listed::new(),
        }
    }

    /// The list with one entry more.
    pub fn then(&self, entry: &E) -> Trace<E>
        ensures { result ≡ self.now ++ entry.now ∷ [] }
    {
        Trace {
            list: self.list.then(entry),
        }
    }
}

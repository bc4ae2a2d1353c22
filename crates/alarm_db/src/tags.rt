//! The tags of alarms, in an index.

ghost use Rattle.std.specs.Prelude.{◌≡◌, ◌++◌, ◌∷◌, [], ◌<◌, IfOk, Some, length, not, if◌then◌else◌, position, slice_get};
ghost use Rattle.std.specs.Str.{bytes_eq};
ghost use Rattle.alarm_db.specs.Databases.{is_among};

use base_words::{Case, Table};
use std::alloc::{AllocError, Global};
use std::marker::Model;

/// Tags, numbered from 0 in order; letter case counts. Contracts see a list of tags.
pub struct Tags {
    table: Table,
}

impl Drop for Tags {
    fn drop(self) {
        let Tags { table: _ } = self;
    }
}

impl Model for Tags {
    ghost use Rattle.std.specs.Prelude.{◌≡◌, List, ℕ};
    ghost use Rattle.base_words.specs.declared.table.Case.TheVariants.{Counts};

    ghost Value = { List (List ℕ) };

    ghost view = { λ t. t.table.names };

    ghost invariant = { λ t. t.table.letters ≡ Counts };
}

impl Tags {
    pub(crate) fn new(alloc: Global) -> Tags
        ensures { result ≡ [] }
    {
        Tags {
            table: Table::new(alloc, Case::Counts),
        }
    }

    /// The number of tags.
    pub fn len(&self) -> usize
        ensures { result ≡ length self.now }
    {
        self.table.len()
    }

    /// The tag of a number.
    #[inline(always)]
    pub fn tag(&self, number: usize) -> &str
        requires { number < length self.now }
        ensures { slice_get self.now number ≡ Some result.now }
    {
        self.table.at(number)
    }

    /// The number of a tag; `None` if it isn't there.
    pub fn number(&self, tag: &str) -> Option<usize>
        ensures { result ≡ position (bytes_eq tag.now) self.now }
    {
        self.table.find(tag)
    }

    /// Adds a tag if it isn't there yet. Returns whether it was added.
    pub(crate) fn add(&mut self, alloc: Global, tag: &str) -> Result<bool, AllocError>
        ensures added { IfOk result (λ added. added ≡ not (is_among self.old tag.now)) }
        ensures tags { IfOk result (λ added. self.new
            ≡ (if added then self.old ++ tag.now ∷ [] else self.old)) }
    {
        self.table.add(alloc, tag)
    }

    /// The same tags, each with its number.
    pub fn copy(&self) -> Result<Tags, AllocError>
        ensures { IfOk result (λ copy. copy ≡ self.now) }
    {
        Ok(Tags {
            table: self.table.copy()?,
        })
    }
}

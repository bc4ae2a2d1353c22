//! Names in which letter case has no meaning.

ghost use Rattle.std.specs.Prelude.{◌≡◌, ◌++◌, ◌∷◌, [], ◌<◌, ◌^◌, length, not, IfSome, IfOk, OnErr, IsTrue, ◌↔◌, if◌then◌else◌, option_copied, slice_get};
ghost use Rattle.base_words.specs.Names.{find_name, is_among};

use crate::table::{Case, Table};
use std::alloc::{AllocError, Global};
use std::marker::Model;

/// Names in the order in which they were added, numbered from 0, in which letter case has no meaning (IEC 61131-3).
pub struct Names {
    table: Table,
}

impl Drop for Names {
    fn drop(self) {
        let Names { table: _ } = self;
    }
}

impl Model for Names {
    ghost use Rattle.std.specs.Prelude.{◌≡◌, List, ℕ};
    ghost use Rattle.base_words.specs.declared.table.Case.TheVariants.{HasNoMeaning};

    ghost Value = { List (List ℕ) };

    ghost view = { λ n. n.table.names };

    ghost invariant = { λ n. n.table.letters ≡ HasNoMeaning };
}

impl Names {
    /// No names.
    pub fn new(alloc: Global) -> Names
        ensures { result ≡ [] }
    {
        Names {
            table: Table::new(alloc, Case::HasNoMeaning),
        }
    }

    /// The number of a name, in any letter case; `None` if there is none. It takes no memory.
    pub fn find(&self, name: &str) -> Option<usize>
        ensures number { result ≡ find_name self.now name.now }
        ensures within { IfSome result (λ number. number < length self.now) }
    {
        self.table.find(name)
    }

    /// The name of a number, as it was added; `None` if there is none.
    pub fn get(&self, number: usize) -> Option<&str>
        ensures { option_copied result ≡ slice_get self.now number }
    {
        self.table.get(number)
    }

    /// The number of names.
    pub fn len(&self) -> usize
        ensures count { result ≡ length self.now }
        ensures small { result < 2 ^ 63 }
    {
        self.table.len()
    }

    /// Whether there are no names.
    pub fn is_empty(&self) -> bool
        ensures { IsTrue result ↔ (self.now ≡ []) }
    {
        self.table.len() == 0
    }

    /// Adds a name, and returns true; false if it is there already, in any letter case, and then nothing changes. Fails as `Table::add` does.
    pub fn add(&mut self, alloc: Global, name: &str) -> Result<bool, AllocError>
        ensures added { IfOk result (λ added. added ≡ not (is_among self.old name.now)) }
        ensures names { IfOk result (λ added. self.new
            ≡ (if added then self.old ++ name.now ∷ [] else self.old)) }
        ensures err { OnErr result (self.new ≡ self.old) }
    {
        self.table.add(alloc, name)
    }

    /// The same names, each with its number.
    pub fn copy(&self) -> Result<Names, AllocError>
        ensures { IfOk result (λ copy. copy ≡ self.now) }
    {
        Ok(Names {
            table: self.table.copy()?,
        })
    }
}

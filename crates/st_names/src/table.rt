//! What names stand for.

ghost use Rattle.std.specs.Prelude.{◌≡◌, [], not, is_some, IfOk, option_copied};
ghost use Rattle.st_names.specs.Tables.{value_of, with_entry};

use base_words::Names;
use std::alloc::{AllocError, Global};
use std::marker::Model;

/// What names stand for: the value of each name, found in any letter case.
///
/// Contracts see its entries in the order in which they were added, each a name and its value; none has the name of another.
pub struct NameTable<T> {
    names: Names,
    values: Vec<T>,
}

impl<T: Drop> Drop for NameTable<T> {
    fn drop(self) {
        let NameTable {
            names: _,
            values: _,
        } = self;
    }
}

impl<T> Model for NameTable<T> {
    ghost use Rattle.std.specs.Prelude.{◌≡◌, List, ℕ, length};
    ghost use Rattle.std.specs.List.{zip};

    ghost Value = { List (List ℕ × T) };

    ghost view = { λ table. zip table.names table.values.items };

    ghost invariant = { λ table. length table.values.items ≡ length table.names };
}

impl<T: Drop> NameTable<T> {
    /// A table without names.
    pub fn new(alloc: Global) -> NameTable<T>
        ensures { result ≡ [] }
    {
        NameTable {
            names: Names::new(alloc),
            values: Vec::new(alloc),
        }
    }

    /// The value of a name, in any letter case; `None` if it has none. It takes no memory.
    pub fn find(&self, name: &str) -> Option<&T>
        ensures { option_copied result ≡ value_of self.now name.now }
    {
        match self.names.find(name) {
            Some(number) => Some(&self.values[number]),
            None => None,
        }
    }

    /// Adds a name with its value, and returns true; false if the name has one already, in any letter case, and then nothing changes.
    pub fn add(&mut self, alloc: Global, name: &str, value: T) -> Result<bool, AllocError>
        ensures added { IfOk result (λ added. added ≡ not (is_some (value_of self.old name.now))) }
        ensures entries { IfOk result (λ added. self.new ≡ with_entry self.old (name.now, value)) }
    {
        self.values.push(value)?;
        let added = match self.names.add(alloc, name) {
            Ok(added) => added,
            Err(refused) => {
                self.values.truncate(self.names.len());
                return Err(refused);
            }
        };
        if added {
            return Ok(true);
        }
        self.values.truncate(self.names.len());
        Ok(false)
    }
}

//! A list of names.

ghost use Rattle.std.specs.Prelude.{◌≡◌, ◌<◌, ◌≤◌, ◌++◌, [], ◌∷◌, OnOk, OnErr, Some, length, slice_get, string_bytes};

use indexmap::IndexSet;
use std::alloc::{AllocError, Global};
use std::marker::Model;

/// A list of names. Each name that stands there is kept once. Contracts see the list.
pub struct NameList {
    /// The names, each once.
    names: IndexSet<String>,
    /// The number of each one of the list.
    numbers: Vec<u32>,
}

impl Drop for NameList {
    fn drop(self) {
        let NameList {
            names: _,
            numbers: _,
        } = self;
    }
}

impl Model for NameList {
    ghost use Rattle.std.specs.Prelude.{List, ℕ, ◌<◌, All, length, map};
    ghost use Rattle.base_names.specs.Names.{name_at};

    ghost Value = { List (List ℕ) };

    ghost view = { λ l. map (name_at l.names.keys) l.numbers.items };

    ghost invariant = { λ l. All (λ n. n < length l.names.keys) l.numbers.items };
}

impl NameList {
    /// No names. It allocates nothing.
    pub fn new(alloc: Global) -> NameList
        ensures { result ≡ [] }
    {
        NameList {
            names: IndexSet::new(alloc),
            numbers: Vec::new(alloc),
        }
    }

    /// How many names the list has.
    pub fn len(&self) -> usize
        ensures { result ≡ length self.now }
    {
        self.numbers.len()
    }

    /// Adds a name at the end. Fails if memory is refused, or at the 4,294,967,296th different name; the list then stays as it is.
    pub fn push(&mut self, name: String) -> Result<(), AllocError>
        ensures ok { OnOk result (self.new ≡ self.old ++ string_bytes name ∷ []) }
        ensures err { OnErr result (self.new ≡ self.old) }
    {
        self.numbers.reserve(1)?;
        let (number, _) = self.names.insert_full(name)?;
        let Ok(number) = u32::try_from(number) else {
            return Err(AllocError);
        };
        self.numbers.push_reserved(number);
        Ok(())
    }

    /// The name at a place, from 0.
    pub fn get(&self, place: usize) -> &str
        requires { place < length self.now }
        ensures { slice_get self.now place ≡ Some result.now }
    {
        let number = self.numbers[place];
        self.names.as_slice()[number as usize].as_str()
    }
}

//! Names that are found without a look at each, in any letter case or in their own.

ghost use Rattle.std.specs.Prelude.{◌≡◌, ◌++◌, ◌∷◌, [], ◌<◌, ◌^◌, length, map, not, if◌then◌else◌, IfSome, IfOk, OnErr, Some, option_copied, slice_get};
ghost use Rattle.base_words.specs.Tables.{is_alike, number_of, has_name, hash_of};
ghost use Rattle.base_words.specs.Found.{IsFound};
ghost use Rattle.base_words.specs.Texts.{places_of};

use crate::chains::Chains;
use crate::texts::Texts;
use plant_types::same_word;
use std::alloc::{AllocError, Global};
use std::marker::Model;

/// Whether letter case has a meaning in names.
#[derive(Clone, Copy, Drop)]
pub enum Case {
    Counts,
    HasNoMeaning,
}

/// Names in the order in which they were added, numbered from 0, no two of which are one. They lie one behind another in one text.
pub struct Table {
    letters: Case,
    texts: Texts,
    chains: Chains,
}

impl Drop for Table {
    fn drop(self) {
        let Table {
            letters: _,
            texts: _,
            chains: _,
        } = self;
    }
}

impl Model for Table {
    ghost use Rattle.std.specs.Prelude.{◌≡◌, map};
    ghost use Rattle.base_words.specs.Tables.{PlainTable, hash_of};
    ghost use Rattle.base_words.specs.Found.{AreApart};
    ghost use Rattle.base_words.specs.Texts.{places_of};

    ghost Value = { PlainTable };

    ghost view = { λ t. record { letters = t.letters; names = t.texts } };

    ghost invariant = { λ t. (t.chains.hashes ≡ map hash_of t.texts) × (AreApart t.letters t.texts × (t.chains.places ≡ places_of 0 t.texts)) };
}

#[inline(always)]
#[tactic(auto, unfolding(crate::specs::Tables::hash_of))]
fn hash_of(name: &[u8]) -> u32
    ensures { result ≡ hash_of name.now }
{
    let mut hash = 0x811c_9dc5u32;
    for byte in name {
        hash = (hash ^ u32::from(byte.to_ascii_lowercase())).wrapping_mul(0x0100_0193);
    }
    hash
}

/// Whether two names are one.
#[inline(always)]
fn is_alike(letters: Case, a: &[u8], b: &[u8]) -> bool
    ensures { result ≡ is_alike letters a.now b.now }
{
    match letters {
        Case::Counts => a == b,
        Case::HasNoMeaning => a == b || same_word(a, b),
    }
}

/// The number of the last name that is one with this; `None` if there is none.
fn find(letters: Case, texts: &Texts, chains: &Chains, name: &str) -> Option<usize>
    requires hashes { chains.now.hashes ≡ map hash_of texts.now }
    requires places { chains.now.places ≡ places_of 0 texts.now }
    ensures { IsFound letters texts.now name.now result }
{
    let mut found = chains.last(hash_of(name.as_bytes()));
    while let Some(placed) = found {
        if is_alike(letters, name.as_bytes(), texts.cut(placed).as_bytes()) {
            return Some(placed.number);
        }
        found = chains.before(placed.number);
    }
    None
}

impl Table {
    /// No names.
    pub fn new(alloc: Global, letters: Case) -> Table
        ensures { result ≡ record { letters = letters; names = [] } }
    {
        Table {
            letters,
            texts: Texts::new(alloc),
            chains: Chains::new(alloc),
        }
    }

    /// The number of a name; `None` if there is none. It takes no memory.
    pub fn find(&self, name: &str) -> Option<usize>
        ensures number { result ≡ number_of self.now name.now }
        ensures within { IfSome result (λ number. number < length self.now.names) }
    {
        find(self.letters, &self.texts, &self.chains, name)
    }

    /// The name of a number that is there.
    #[inline(always)]
    pub fn at(&self, number: usize) -> &str
        requires { number < length self.now.names }
        ensures { slice_get self.now.names number ≡ Some result.now }
    {
        self.texts.at(number)
    }

    /// The name of a number, as it was added; `None` if there is none.
    pub fn get(&self, number: usize) -> Option<&str>
        ensures { option_copied result ≡ slice_get self.now.names number }
    {
        self.texts.get(number)
    }

    /// The number of names.
    pub fn len(&self) -> usize
        ensures count { result ≡ length self.now.names }
        ensures small { result < 2 ^ 63 }
    {
        self.texts.len()
    }

    /// Adds a name, and returns true; false if it is there already, and then nothing changes. Fails if memory is refused, if there are 4,294,967,295
    /// names, or if they have more bytes than that together.
    pub fn add(&mut self, alloc: Global, name: &str) -> Result<bool, AllocError>
        ensures added { IfOk result (λ added. added ≡ not (has_name self.old name.now)) }
        ensures names { IfOk result (λ added. self.new
            ≡ record self.old
            { names = if added then self.old.names ++ name.now ∷ [] else self.old.names }) }
        ensures err { OnErr result (self.new ≡ self.old) }
    {
        if find(self.letters, &self.texts, &self.chains, name).is_some() {
            return Ok(false);
        }
        self.chains.make_room(alloc)?;
        let place = self.texts.push(name)?;
        self.chains.push_reserved(hash_of(name.as_bytes()), place);
        Ok(true)
    }

    /// The same names.
    pub fn copy(&self) -> Result<Table, AllocError>
        ensures { IfOk result (λ copy. copy ≡ self.now) }
    {
        Ok(Table {
            letters: self.letters,
            texts: self.texts.copy()?,
            chains: self.chains.copy()?,
        })
    }
}

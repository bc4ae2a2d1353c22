//! Lists of texts in which none stands twice.

ghost use Rattle.std.specs.Prelude.{◌≡◌, ◌++◌, ◌∷◌, [], IfOk, false, not, if◌then◌else◌, map, position, Some, None, string_bytes, option_map};
ghost use Rattle.std.specs.List.{list_any};
ghost use Rattle.std.specs.Str.{bytes_eq};
ghost use Rattle.toml.specs.View.{items_view};
ghost use Rattle.plant_file.specs.Lists.{repeats, passing};
ghost use Rattle.plant_file.specs.PlantFiles.{texts};

use indexmap::IndexSet;
use plant_types::{Items, Text};
use std::alloc::{AllocError, Global};
use std::marker::Model;
use toml::Value;

/// Texts, each once, numbered from 0 in the order in which they were added. Contracts see a list of texts.
pub struct TextSet {
    index: IndexSet<String>,
}

impl Drop for TextSet {
    fn drop(self) {
        let TextSet { index: _ } = self;
    }
}

impl Model for TextSet {
    ghost use Rattle.std.specs.Prelude.{List, ℕ, map, string_bytes};

    ghost Value = { List (List ℕ) };

    ghost view = { λ a. map string_bytes a.index.keys };
}

impl TextSet {
    /// No texts.
    pub fn new(alloc: Global) -> TextSet
        ensures { result ≡ [] }
    {
        TextSet {
            index: IndexSet::new(alloc),
        }
    }

    /// Adds a copy of a text if it isn't there yet. Returns whether it was added.
    pub fn add(&mut self, alloc: Global, text: &str) -> Result<bool, AllocError>
        ensures added { IfOk result (λ added. added ≡ not (list_any (bytes_eq text.now) self.old)) }
        ensures texts { IfOk result (λ added. self.new
            ≡ (if added then self.old ++ text.now ∷ [] else self.old)) }
    {
        let copy = String::from_str(alloc, text)?;
        let (_, added) = self.index.insert_full(copy)?;
        Ok(added)
    }

    /// The number of a text; `None` if it isn't there.
    pub fn number(&self, text: &str) -> Option<usize>
        ensures { result ≡ position (bytes_eq text.now) self.now }
    {
        self.index.get_index_of(text)
    }

    /// The texts, in order.
    pub fn as_slice(&self) -> &[String]
        ensures { map string_bytes result.now ≡ self.now }
    {
        self.index.as_slice()
    }
}

/// The texts of a list, in order; `None` if an item is no text.
pub fn texts<'a>(alloc: Global, items: &'a [Value]) -> Result<Option<Vec<&'a str>>, AllocError>
    ensures { IfOk result (λ found. option_map (λ v. map (λ t. t.now) v.items) found
        ≡ texts (items_view items.now)) }
{
    let mut found = Vec::new(alloc);
    for item in items {
        match item.as_str() {
            Some(text) => found.push(text)?,
            None => return Ok(None),
        }
    }
    Ok(Some(found))
}

/// The texts, if none stands there twice.
pub fn distinct(alloc: Global, texts: &[&str]) -> Result<Option<TextSet>, AllocError>
    ensures { IfOk result (λ found. found
        ≡ passing (λ all. not (repeats bytes_eq all)) (map (λ t. t.now) texts.now)) }
{
    let mut found = TextSet::new(alloc);
    for text in texts {
        let text: &str = *text;
        if !found.add(alloc, text)? {
            return Ok(None);
        }
    }
    Ok(Some(found))
}

/// Texts, none of which stands there twice, in an index.
pub fn set_of(alloc: Global, texts: &[Text]) -> Result<TextSet, AllocError>
    requires { repeats bytes_eq texts.now ≡ false }
    ensures { IfOk result (λ set. set ≡ texts.now) }
{
    let mut names = Vec::new(alloc);
    for text in texts {
        names.push(text.as_str())?;
    }
    match distinct(alloc, names.as_slice())? {
        Some(set) => Ok(set),
        None => unreachable!(),
    }
}

/// Copies texts.
pub fn copied(alloc: Global, texts: &[String]) -> Result<Vec<Text>, AllocError>
    ensures { IfOk result (λ copies. copies.items ≡ map string_bytes texts.now) }
{
    let mut copies = Vec::new(alloc);
    for text in texts {
        copies.push(Text::from_str(alloc, text.as_str())?)?;
    }
    Ok(copies)
}

/// The same texts in the same order.
pub fn copy_texts(alloc: Global, texts: &[Text]) -> Result<Items<Text>, AllocError>
    ensures { IfOk result (λ copies. copies ≡ texts.now) }
{
    let mut copies = Vec::new(alloc);
    for text in texts {
        copies.push(text.copy(alloc)?)?;
    }
    Ok(Items::from_vec(copies))
}

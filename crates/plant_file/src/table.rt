//! What stands under the keys of a table.

ghost use Rattle.std.specs.Prelude.{◌≡◌, IfOk, map, option_map};
ghost use Rattle.std.specs.List.{list_any};
ghost use Rattle.std.specs.Str.{bytes_eq};
ghost use Rattle.toml.specs.View.{array_view, table_view};
ghost use Rattle.plant_types.specs.Words.{is_sized};
ghost use Rattle.plant_file.specs.PlantFiles.{has_key, has_only, integer_at, list_at, text_at, texts_at};

use crate::texts::{TextSet, distinct, texts};
use std::alloc::{AllocError, Global};
use toml::{Table, Value};

/// Whether a key is one of these.
pub fn is_among(keys: &[&str], key: &str) -> bool
    ensures { result ≡ list_any (bytes_eq key.now) (map (λ k. k.now) keys.now) }
{
    for known in keys {
        if key == *known {
            return true;
        }
    }
    false
}

/// Whether a table has no other keys than these.
pub fn has_only(table: &Table, keys: &[&str]) -> bool
    ensures { result ≡ has_only (map (λ k. k.now) keys.now) (table_view table.now) }
{
    for key in table.keys() {
        if !is_among(keys, key.as_str()) {
            return false;
        }
    }
    true
}

/// The text under a key; `None` if there is none.
pub fn text_at<'a>(table: &'a Table, key: &str) -> Option<&'a str>
    ensures { option_map (λ s. s.now) result ≡ text_at key.now (table_view table.now) }
{
    match table.get(key) {
        Some(value) => value.as_str(),
        None => None,
    }
}

/// Whether a key is there.
pub fn has_key(table: &Table, key: &str) -> bool
    ensures { result ≡ has_key key.now (table_view table.now) }
{
    match table.get(key) {
        Some(_) => true,
        None => false,
    }
}

/// The integer under a key; `None` if there is none.
pub fn integer_at(table: &Table, key: &str) -> Option<i64>
    ensures { result ≡ integer_at key.now (table_view table.now) }
{
    match table.get(key) {
        Some(value) => value.as_integer(),
        None => None,
    }
}

/// The list under a key; `None` if there is none.
pub fn list_at<'a>(table: &'a Table, key: &str) -> Option<&'a Vec<Value>>
    ensures { option_map (λ v. array_view v.now) result ≡ list_at key.now (table_view table.now) }
{
    match table.get(key) {
        Some(value) => value.as_array(),
        None => None,
    }
}

/// The texts under a key; `None` if there is no list of texts, or if one stands there twice.
pub fn texts_at(alloc: Global, table: &Table, key: &str) -> Result<Option<TextSet>, AllocError>
    ensures { IfOk result (λ found. found ≡ texts_at key.now (table_view table.now)) }
{
    let Some(items) = list_at(table, key) else {
        return Ok(None);
    };
    let Some(found) = texts(alloc, items.as_slice())? else {
        return Ok(None);
    };
    distinct(alloc, found.as_slice())
}

/// Whether a text has so many bytes.
pub fn is_sized(low: usize, high: usize, text: &str) -> bool
    ensures { result ≡ is_sized low high text.now }
{
    low <= text.len() && text.len() <= high
}

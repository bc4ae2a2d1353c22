//! The numbers of words, and routines by them.

ghost use Rattle.std.specs.Prelude.{◌≡◌, Some, None, IfOk, OnOk, map};
ghost use Rattle.base_words.specs.Names.{find_name};
ghost use Rattle.logic_carry.specs.Paths.{Grows};
ghost use Rattle.logic_carry.specs.Shapes.{IsNumbered, AreOwn, AreRows, AreParts, as_local};

use base_words::Names;
use logic_source::{BlockRef, Instance, Local, Row, Variable};
use plant_types::{Bounds, Kind};
use std::alloc::{AllocError, Global};

/// A variable: the number of its name's word, and its kind.
#[derive(Clone, Copy, Drop)]
pub struct Own {
    pub word: usize,
    pub kind: Kind,
}

/// An array: the number of its name's word, the kind of its elements, its bounds, how far the index of its first element is from the least one,
/// and how far its last element is from the first one.
#[derive(Clone, Copy, Drop)]
pub struct OwnRow {
    pub word: usize,
    pub kind: Kind,
    pub bounds: Bounds,
    pub first: u32,
    pub last: u32,
}

/// An instance: the number of its name's word, and what it is of.
#[derive(Clone, Copy, Drop)]
pub struct NamedInstance {
    pub word: usize,
    pub of: BlockRef,
}

/// A routine without its statements: its own variables, its own arrays and its instances.
#[derive(Drop)]
pub struct Shape {
    pub own: Vec<Own>,
    pub rows: Vec<OwnRow>,
    pub parts: Vec<NamedInstance>,
}

/// Adds a name that isn't there.
fn added_word(alloc: Global, names: &mut Names, name: &str) -> Result<usize, AllocError>
    requires { find_name names.old name.now ≡ None }
    ensures number { IfOk result (λ number. IsNumbered (find_name names.new) name.now number) }
    ensures grows { OnOk result (Grows (find_name names.old) (find_name names.new)) }
{
    let number = names.len();
    let _is_new = names.add(alloc, name)?;
    Ok(number)
}

/// The number of a name among names, to which it is added if it isn't there.
pub fn word_number(alloc: Global, names: &mut Names, name: &str) -> Result<usize, AllocError>
    ensures number { IfOk result (λ number. IsNumbered (find_name names.new) name.now number) }
    ensures grows { OnOk result (Grows (find_name names.old) (find_name names.new)) }
{
    let _count = names.len();
    match names.find(name) {
        Some(number) => Ok(number),
        None => added_word(alloc, names, name),
    }
}

/// Variables of a routine's own by the numbers of their words.
pub fn own_of(alloc: Global, names: &mut Names, locals: &[Local]) -> Result<Vec<Own>, AllocError>
    ensures are { IfOk result (λ own. AreOwn (find_name names.new) own.items locals.now) }
    ensures grows { OnOk result (Grows (find_name names.old) (find_name names.new)) }
{
    let mut own = Vec::with_capacity(alloc, locals.len())?;
    for local in locals {
        let word = word_number(alloc, names, local.name.as_str())?;
        own.push(Own {
            word,
            kind: local.kind,
        })?;
    }
    Ok(own)
}

/// Global variables by the numbers of their words.
pub fn globals_of(
    alloc: Global,
    names: &mut Names,
    globals: &[Variable],
) -> Result<Vec<Own>, AllocError>
    ensures are { IfOk result (λ own. AreOwn (find_name names.new) own.items
        (map as_local globals.now)) }
    ensures grows { OnOk result (Grows (find_name names.old) (find_name names.new)) }
{
    let mut own = Vec::with_capacity(alloc, globals.len())?;
    for global in globals {
        let word = word_number(alloc, names, global.name.as_str())?;
        own.push(Own {
            word,
            kind: global.kind,
        })?;
    }
    Ok(own)
}

/// Arrays by the numbers of their words.
pub fn rows_of(alloc: Global, names: &mut Names, rows: &[Row]) -> Result<Vec<OwnRow>, AllocError>
    ensures are { IfOk result (λ own. AreRows (find_name names.new) own.items rows.now) }
    ensures grows { OnOk result (Grows (find_name names.old) (find_name names.new)) }
{
    let mut own = Vec::with_capacity(alloc, rows.len())?;
    for row in rows {
        let word = word_number(alloc, names, row.name.as_str())?;
        own.push(OwnRow {
            word,
            kind: row.kind,
            bounds: row.bounds,
            first: row.bounds.low.abs_diff(i32::MIN),
            last: row.bounds.high.abs_diff(row.bounds.low),
        })?;
    }
    Ok(own)
}

/// Instances by the numbers of their words.
pub fn parts_of(
    alloc: Global,
    names: &mut Names,
    instances: &[Instance],
) -> Result<Vec<NamedInstance>, AllocError>
    ensures are { IfOk result (λ parts. AreParts (find_name names.new) parts.items instances.now) }
    ensures grows { OnOk result (Grows (find_name names.old) (find_name names.new)) }
{
    let mut parts = Vec::with_capacity(alloc, instances.len())?;
    for instance in instances {
        let word = word_number(alloc, names, instance.name.as_str())?;
        parts.push(NamedInstance {
            word,
            of: instance.of,
        })?;
    }
    Ok(parts)
}

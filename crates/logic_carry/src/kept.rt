//! Which values and standard blocks go over from another source, by the numbers of their paths.

ghost use Rattle.std.specs.Prelude.{◌≡◌, Some, None, IfOk, get_or, length, map, replicate, set, slice_get};
ghost use Rattle.st_tree.specs.Kinds.{same_kind};
ghost use Rattle.logic_source.specs.Carried.{same_array, same_standard};
ghost use Rattle.logic_carry.specs.Keeping.{same_listed, judged_value, judged_call, kept_value, kept_call, ArePlaces, value_path, standard_path};

use crate::lists::{StandardAt, ValueAt};
use logic_source::BlockRef;
use plant_types::{Bounds, Kind};
use std::alloc::{AllocError, Global};

fn same_kind(a: Kind, b: Kind) -> bool
    ensures { result ≡ same_kind a b }
{
    match a {
        Kind::Bool => matches!(b, Kind::Bool),
        Kind::Dint => matches!(b, Kind::Dint),
        Kind::Time => matches!(b, Kind::Time),
    }
}

/// Whether two values are elements of arrays with the same bounds, or both are none.
fn same_array(a: Option<Bounds>, b: Option<Bounds>) -> bool
    ensures { result ≡ same_array a b }
{
    match a {
        None => b.is_none(),
        Some(a) => {
            match b {
                None => false,
                Some(b) => a.low == b.low && a.high == b.high,
            }
        }
    }
}

/// Whether two values are declared alike.
fn same_listed(a: ValueAt, b: ValueAt) -> bool
    ensures { result ≡ same_listed a b }
{
    same_kind(a.kind, b.kind) && same_array(a.bounds, b.bounds)
}

/// Whether two instances are of the same standard block.
fn same_standard(a: BlockRef, b: BlockRef) -> bool
    ensures { result ≡ same_standard a b }
{
    match a {
        BlockRef::Ton => matches!(b, BlockRef::Ton),
        BlockRef::Tof => matches!(b, BlockRef::Tof),
        BlockRef::RTrig => matches!(b, BlockRef::RTrig),
        BlockRef::Declared(_) => false,
    }
}

/// The paths of values, by their numbers.
pub fn value_paths(alloc: Global, values: &[ValueAt]) -> Result<Vec<usize>, AllocError>
    ensures { IfOk result (λ paths. paths.items ≡ map value_path values.now) }
{
    let mut paths = Vec::with_capacity(alloc, values.len())?;
    for value in values {
        paths.push(value.path)?;
    }
    Ok(paths)
}

/// The paths of standard blocks, by their numbers.
pub fn standard_paths(alloc: Global, standards: &[StandardAt]) -> Result<Vec<usize>, AllocError>
    ensures { IfOk result (λ paths. paths.items ≡ map standard_path standards.now) }
{
    let mut paths = Vec::with_capacity(alloc, standards.len())?;
    for standard in standards {
        paths.push(standard.path)?;
    }
    Ok(paths)
}

/// So many places where nothing is.
fn empty_places(alloc: Global, size: usize) -> Result<Vec<Option<usize>>, AllocError>
    ensures { IfOk result (λ places. places.items ≡ replicate size None) }
{
    let mut places = Vec::with_capacity(alloc, size)?;
    for number in 0..size {
        let _ = number;
        places.push(None)?;
    }
    Ok(places)
}

/// Puts a number in the place of a path, if it has one.
fn put_place(places: &mut Vec<Option<usize>>, path: usize, number: usize)
    ensures { places.new.items ≡ set places.old.items path (Some number) }
{
    if path < places.len() {
        places[path] = Some(number);
    }
}

/// Where in a list each path stands, for paths below a number.
pub fn places_of(
    alloc: Global,
    size: usize,
    paths: &[usize],
) -> Result<Vec<Option<usize>>, AllocError>
    ensures places { IfOk result (λ places. ArePlaces paths.now (length paths.now) places.items) }
    ensures size { IfOk result (λ places. length places.items ≡ size) }
{
    let mut places = empty_places(alloc, size)?;
    for number in 0..paths.len() {
        put_place(&mut places, paths[number], number);
    }
    Ok(places)
}

/// What stands at a place; none past the end.
pub fn place_of(places: &[Option<usize>], place: usize) -> Option<usize>
    ensures { result ≡ get_or places.now place None }
{
    match places.get(place) {
        Some(number) => *number,
        None => None,
    }
}

/// The number of an old value, if it goes over to a value.
fn judged_value(old: &[ValueAt], number: usize, value: ValueAt) -> Option<usize>
    ensures { result ≡ judged_value value number (slice_get old.now number) }
{
    match old.get(number) {
        None => None,
        Some(other) => {
            if same_listed(*other, value) {
                Some(number)
            } else {
                None
            }
        }
    }
}

/// The number of the old value that goes over to a value, by the places of the old ones.
fn kept_value(old: &[ValueAt], places: &[Option<usize>], value: ValueAt) -> Option<usize>
    ensures { result ≡ kept_value old.now places.now value }
{
    match place_of(places, value.path) {
        None => None,
        Some(number) => judged_value(old, number, value),
    }
}

/// The number of an old standard block, if its calls go over to a standard block.
fn judged_call(old: &[StandardAt], number: usize, standard: StandardAt) -> Option<usize>
    ensures { result ≡ judged_call standard number (slice_get old.now number) }
{
    match old.get(number) {
        None => None,
        Some(other) => {
            if same_standard(other.of, standard.of) {
                Some(number)
            } else {
                None
            }
        }
    }
}

/// The number of the old standard block whose calls go over to a standard block, by the places of the old ones.
fn kept_call(old: &[StandardAt], places: &[Option<usize>], standard: StandardAt) -> Option<usize>
    ensures { result ≡ kept_call old.now places.now standard }
{
    match place_of(places, standard.path) {
        None => None,
        Some(number) => judged_call(old, number, standard),
    }
}

/// For each value the number of the old one that goes over to it, by the places of the old ones.
pub fn kept_values(
    alloc: Global,
    old: &[ValueAt],
    places: &[Option<usize>],
    new: &[ValueAt],
) -> Result<Vec<Option<usize>>, AllocError>
    ensures { IfOk result (λ kept. kept.items ≡ map (kept_value old.now places.now) new.now) }
{
    let mut kept = Vec::with_capacity(alloc, new.len())?;
    for value in new {
        kept.push(kept_value(old, places, *value))?;
    }
    Ok(kept)
}

/// For each standard block the number of the old one whose calls go over to it, by the places of the old ones.
pub fn kept_calls(
    alloc: Global,
    old: &[StandardAt],
    places: &[Option<usize>],
    new: &[StandardAt],
) -> Result<Vec<Option<usize>>, AllocError>
    ensures { IfOk result (λ kept. kept.items ≡ map (kept_call old.now places.now) new.now) }
{
    let mut kept = Vec::with_capacity(alloc, new.len())?;
    for standard in new {
        kept.push(kept_call(old, places, *standard))?;
    }
    Ok(kept)
}

//! Block types that hold nothing: no variables, no arrays, and no instances but of such block types. They are passed over, for a routine may
//! have very many of them, and these again.

ghost use Rattle.std.specs.Prelude.{◌≡◌, IfOk, true, false, set, replicate};
ghost use Rattle.std.specs.List.{list_all};
ghost use Rattle.logic_carry.specs.declared.words.NamedInstance.{NamedInstance};
ghost use Rattle.logic_carry.specs.Marks.{is_marked, holds_nothing, marked_one, AreMarked};

use crate::words::{NamedInstance, Shape};
use logic_source::BlockRef;
use std::alloc::{AllocError, Global};

/// The most levels that block types have.
const LEVELS: usize = 16;

/// Whether an instance is of a block type that is marked.
pub fn is_marked(marks: &[bool], of: BlockRef) -> bool
    ensures { result ≡ is_marked marks.now of }
{
    match of {
        BlockRef::Ton | BlockRef::Tof | BlockRef::RTrig => false,
        BlockRef::Declared(number) => match marks.get(number) {
            Some(mark) => *mark,
            None => false,
        },
    }
}

/// Whether all these instances are of block types that are marked.
fn are_marked(marks: &[bool], parts: &[NamedInstance]) -> bool
    ensures { result ≡ list_all (λ (p : NamedInstance). is_marked marks.now p.of) parts.now }
{
    parts.iter().all(|part| is_marked(marks, part.of))
}

/// Whether a routine holds nothing, by the marks of block types.
fn holds_nothing(marks: &[bool], shape: &Shape) -> bool
    ensures { result ≡ holds_nothing marks.now shape.now }
{
    let all = are_marked(marks, &shape.parts);
    let none = shape.own.is_empty() && shape.rows.is_empty();
    none && all
}

/// Marks a block type, if it is there.
fn mark(marks: &mut Vec<bool>, number: usize)
    ensures { marks.new.items ≡ set marks.old.items number true }
{
    if number < marks.len() {
        marks[number] = true;
    }
}

/// Marks a block type if it holds nothing by the marks so far.
fn mark_one(marks: &mut Vec<bool>, number: usize, shape: &Shape)
    ensures { marks.new.items
        ≡ marked_one marks.old.items number (holds_nothing marks.old.items shape.now) }
{
    if holds_nothing(marks, shape) {
        mark(marks, number);
    }
}

/// Marks those block types that hold nothing by the marks so far.
fn mark_more(marks: &mut Vec<bool>, shapes: &[Shape])
    requires { AreMarked marks.old.items shapes.now }
    ensures { AreMarked marks.new.items shapes.now }
{
    for number in 0..shapes.len() {
        mark_one(marks, number, &shapes[number]);
    }
}

/// So many marks of which none is set.
fn no_marks(alloc: Global, size: usize) -> Result<Vec<bool>, AllocError>
    ensures { IfOk result (λ marks. marks.items ≡ replicate size false) }
{
    let mut marks = Vec::with_capacity(alloc, size)?;
    for number in 0..size {
        let _ = number;
        marks.push(false)?;
    }
    Ok(marks)
}

/// The marks of block types: each that is marked holds nothing, and each that holds nothing is marked where they have no more levels than are
/// allowed.
pub fn marks_of(alloc: Global, shapes: &[Shape]) -> Result<Vec<bool>, AllocError>
    ensures { IfOk result (λ marks. AreMarked marks.items shapes.now) }
{
    let mut marks = no_marks(alloc, shapes.len())?;
    for level in 0..LEVELS {
        let _ = level;
        mark_more(&mut marks, shapes);
    }
    Ok(marks)
}

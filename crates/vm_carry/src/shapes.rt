//! A source by the numbers of its words.

ghost use Rattle.std.specs.Prelude.{◌≡◌, List, IfOk, OnOk, map};
ghost use Rattle.base_words.specs.Names.{find_name};
ghost use Rattle.logic_source.specs.Source.{PlainRoutine};
ghost use Rattle.vm_logic.specs.Headings.{heading_of, view_heading};
ghost use Rattle.logic_carry.specs.Paths.{Grows};
ghost use Rattle.logic_carry.specs.Shapes.{AreOwn, IsShape, AreShapes, ArePrograms, AreTable, IsSourceShape, timer_inputs, trigger_inputs};

use base_words::Names;
use logic_carry::{
    Own, Program, Shape, SourceShape, TypeTable, globals_of, marks_of, own_of, parts_of, rows_of,
    word_number,
};
use plant_types::Kind;
use std::alloc::{AllocError, Global};
use vm_logic::{Framed, Heading};

/// The shape of a routine, by its heading.
fn shape_of(alloc: Global, names: &mut Names, heading: &Heading) -> Result<Shape, AllocError>
    ensures shape { IfOk result (λ shape. (r : PlainRoutine) → view_heading heading.now ≡ heading_of r
        → IsShape (find_name names.new) shape r) }
    ensures grows { OnOk result (Grows (find_name names.old) (find_name names.new)) }
{
    let own = own_of(alloc, names, &heading.locals)?;
    let rows = rows_of(alloc, names, &heading.rows)?;
    let parts = parts_of(alloc, names, &heading.instances)?;
    Ok(Shape { own, rows, parts })
}

/// The shapes of block types, by their headings.
fn shapes_of(alloc: Global, names: &mut Names, blocks: &[Heading]) -> Result<Vec<Shape>, AllocError>
    ensures shapes { IfOk result (λ shapes. (rs : List PlainRoutine)
        → map view_heading blocks.now ≡ map heading_of rs
        → AreShapes (find_name names.new) shapes.items rs) }
    ensures grows { OnOk result (Grows (find_name names.old) (find_name names.new)) }
{
    let mut shapes = Vec::with_capacity(alloc, blocks.len())?;
    for block in blocks {
        let shape = shape_of(alloc, names, block)?;
        shapes.push(shape)?;
    }
    Ok(shapes)
}

/// Programs by the numbers of their words, by their headings.
fn programs_of(
    alloc: Global,
    names: &mut Names,
    headings: &[Heading],
) -> Result<Vec<Program>, AllocError>
    ensures programs { IfOk result (λ programs. (rs : List PlainRoutine)
        → map view_heading headings.now ≡ map heading_of rs
        → ArePrograms (find_name names.new) programs.items rs) }
    ensures grows { OnOk result (Grows (find_name names.old) (find_name names.new)) }
{
    let mut programs = Vec::with_capacity(alloc, headings.len())?;
    for heading in headings {
        let word = word_number(alloc, names, heading.name.as_str())?;
        let shape = shape_of(alloc, names, heading)?;
        programs.push(Program { word, shape })?;
    }
    Ok(programs)
}

/// The inputs of a timer.
fn timer_of(alloc: Global, names: &mut Names) -> Result<Vec<Own>, AllocError>
    ensures timer { IfOk result (λ own. AreOwn (find_name names.new) own.items timer_inputs) }
    ensures grows { OnOk result (Grows (find_name names.old) (find_name names.new)) }
{
    let input = word_number(alloc, names, "IN")?;
    let preset = word_number(alloc, names, "PT")?;
    let mut own = Vec::new(alloc);
    own.push(Own {
        word: input,
        kind: Kind::Bool,
    })?;
    own.push(Own {
        word: preset,
        kind: Kind::Time,
    })?;
    Ok(own)
}

/// The input of an edge detector.
fn trigger_of(alloc: Global, names: &mut Names) -> Result<Vec<Own>, AllocError>
    ensures trigger { IfOk result (λ own. AreOwn (find_name names.new) own.items trigger_inputs) }
    ensures grows { OnOk result (Grows (find_name names.old) (find_name names.new)) }
{
    let input = word_number(alloc, names, "CLK")?;
    let mut own = Vec::new(alloc);
    own.push(Own {
        word: input,
        kind: Kind::Bool,
    })?;
    Ok(own)
}

/// The table of block types, by their headings.
fn table_of(alloc: Global, names: &mut Names, blocks: &[Heading]) -> Result<TypeTable, AllocError>
    ensures table { IfOk result (λ table. (rs : List PlainRoutine)
        → map view_heading blocks.now ≡ map heading_of rs → AreTable (find_name names.new) table rs) }
    ensures grows { OnOk result (Grows (find_name names.old) (find_name names.new)) }
{
    let timer = timer_of(alloc, names)?;
    let trigger = trigger_of(alloc, names)?;
    let blocks = shapes_of(alloc, names, blocks)?;
    let marks = marks_of(alloc, &blocks)?;
    Ok(TypeTable {
        blocks,
        marks,
        timer,
        trigger,
    })
}

/// A source by the numbers of its words, which are added where they aren't there.
pub fn shape_of_source(
    alloc: Global,
    names: &mut Names,
    framed: &Framed,
) -> Result<SourceShape, AllocError>
    ensures shape { IfOk result (λ shape. IsSourceShape (find_name names.new) shape framed.now) }
    ensures grows { OnOk result (Grows (find_name names.old) (find_name names.new)) }
{
    let globals = globals_of(alloc, names, framed.globals())?;
    let rows = rows_of(alloc, names, framed.rows())?;
    let programs = programs_of(alloc, names, framed.programs())?;
    let table = table_of(alloc, names, framed.blocks())?;
    Ok(SourceShape {
        globals,
        rows,
        programs,
        table,
    })
}

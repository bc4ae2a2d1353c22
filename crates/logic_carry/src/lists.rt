//! The values and the standard blocks of a source in order, each with the number of its path.

ghost use Rattle.std.specs.Prelude.{◌≡◌, ◌+◌, ◌∷◌, [], ℕ, List, Option, OnOk, map, length};
ghost use Rattle.plant_types.specs.Words.{folded};
ghost use Rattle.logic_source.specs.declared.logic.Instance.{Instance};
ghost use Rattle.logic_source.specs.declared.logic.Local.{Local};
ghost use Rattle.logic_source.specs.declared.logic.Row.{Row};
ghost use Rattle.logic_source.specs.Source.{PlainRoutine, Source};
ghost use Rattle.logic_source.specs.Blocks.{levels};
ghost use Rattle.plant_types.specs.Values.{Path};
ghost use Rattle.logic_source.specs.Layout.{element_values, block_clocks, clocks_rule, program_clocks, all_clocks};
ghost use Rattle.logic_source.specs.Ranges.{element_at, local_kinds, row_kinds, block_kinds, kinds_rule, program_kinds, all_kinds};
ghost use Rattle.logic_carry.specs.Shapes.{AreOwn, AreRows, IsMeasured, IsPart, IsShape, AreTable, ArePrograms, IsSourceShape};
ghost use Rattle.logic_carry.specs.Lists.{IsListing, HasPath, Adds};

use crate::marks::is_marked;
use crate::paths::path_number;
use crate::words::{NamedInstance, Own, OwnRow, Shape};
use logic_source::BlockRef;
use plant_types::{Bounds, Kind};
use std::alloc::AllocError;
use std::collections::HashMap;

/// The number that stands for the element of the least index in the place of a word's. All numbers of words are below it.
const FIRST_ELEMENT: usize = 9_223_372_036_854_775_808;

/// A value: the number of its path, its kind, and the bounds of the array if it is an element of one.
#[derive(Clone, Copy, Drop)]
pub struct ValueAt {
    pub path: usize,
    pub kind: Kind,
    pub bounds: Option<Bounds>,
}

/// A standard block: the number of its path, and which it is.
#[derive(Clone, Copy, Drop)]
pub struct StandardAt {
    pub path: usize,
    pub of: BlockRef,
}

/// The numbers of paths, and the values and standard blocks that are listed so far.
#[derive(Drop)]
pub struct Listed {
    pub numbers: HashMap<u128, usize>,
    pub values: Vec<ValueAt>,
    pub standards: Vec<StandardAt>,
}

/// The block types of a source by their numbers, and which of them are known to hold nothing; and the inputs of standard blocks: those of a
/// timer, and that of an edge detector.
#[derive(Drop)]
pub struct TypeTable {
    pub blocks: Vec<Shape>,
    pub marks: Vec<bool>,
    pub timer: Vec<Own>,
    pub trigger: Vec<Own>,
}

/// A program: the number of its name's word, and what it has.
#[derive(Drop)]
pub struct Program {
    pub word: usize,
    pub shape: Shape,
}

/// A source without its statements.
#[derive(Drop)]
pub struct SourceShape {
    pub globals: Vec<Own>,
    pub rows: Vec<OwnRow>,
    pub programs: Vec<Program>,
    pub table: TypeTable,
}

/// Lists variables at the path of a number.
fn list_own(own: &[Own], path: usize, listed: &mut Listed) -> Result<(), AllocError>
    requires { IsListing listed.old }
    ensures numbered { OnOk result (IsListing listed.new) }
    ensures lists { OnOk result
        ((words : List ℕ → Option ℕ) (locals : List Local) (q : Path) → AreOwn words own.now locals
        → HasPath words listed.old path q → Adds words listed.old listed.new (local_kinds locals q) []) }
{
    for variable in own {
        let below = path_number(&mut listed.numbers, path, variable.word)?;
        listed.values.push(ValueAt {
            path: below,
            kind: variable.kind,
            bounds: None,
        })?;
    }
    Ok(())
}

/// Lists the elements of an array at its path's number.
fn list_row(row: OwnRow, path: usize, listed: &mut Listed) -> Result<(), AllocError>
    requires { IsListing listed.old }
    ensures numbered { OnOk result (IsListing listed.new) }
    ensures lists { OnOk result
        ((words : List ℕ → Option ℕ) (q : Path) → IsMeasured row → HasPath words listed.old path q
        → Adds words listed.old listed.new
        (map (element_at row.kind row.bounds) (element_values row.bounds q)) []) }
{
    let first = FIRST_ELEMENT + row.first as usize;
    let count = row.last as usize + 1;
    for step in 0..count {
        let below = path_number(&mut listed.numbers, path, first + step)?;
        listed.values.push(ValueAt {
            path: below,
            kind: row.kind,
            bounds: Some(row.bounds),
        })?;
    }
    Ok(())
}

/// Lists arrays at the path of a number, element by element.
fn list_rows(rows: &[OwnRow], path: usize, listed: &mut Listed) -> Result<(), AllocError>
    requires { IsListing listed.old }
    ensures numbered { OnOk result (IsListing listed.new) }
    ensures lists { OnOk result
        ((words : List ℕ → Option ℕ) (arrays : List Row) (q : Path) → AreRows words rows.now arrays
        → HasPath words listed.old path q → Adds words listed.old listed.new (row_kinds arrays q) []) }
{
    for row in rows {
        let below = path_number(&mut listed.numbers, path, row.word)?;
        list_row(*row, below, listed)?;
    }
    Ok(())
}

/// Lists a standard block at the path of a number, with its inputs.
fn list_standard(
    inputs: &[Own],
    of: BlockRef,
    path: usize,
    listed: &mut Listed,
) -> Result<(), AllocError>
    requires { IsListing listed.old }
    ensures numbered { OnOk result (IsListing listed.new) }
    ensures lists { OnOk result
        ((words : List ℕ → Option ℕ) (locals : List Local) (q : Path) → AreOwn words inputs.now locals
        → HasPath words listed.old path q
        → Adds words listed.old listed.new (local_kinds locals q) (record { of = of; path = q } ∷ [])) }
{
    list_own(inputs, path, listed)?;
    listed.standards.push(StandardAt { path, of })?;
    Ok(())
}

/// Lists an instance at the path of a number, with those below it, so many levels deep.
#[cycle(lists)]
fn list_block(
    table: &TypeTable,
    depth: usize,
    of: BlockRef,
    path: usize,
    listed: &mut Listed,
) -> Result<(), AllocError>
    requires { IsListing listed.old }
    ensures numbered { OnOk result (IsListing listed.new) }
    ensures lists { OnOk result
        ((words : List ℕ → Option ℕ) (blocks : List PlainRoutine) (q : Path)
        → AreTable words table.now blocks → HasPath words listed.old path q
        → Adds words listed.old listed.new
        (block_kinds (levels (λ path. []) kinds_rule blocks depth) of q)
        (block_clocks (levels (λ path. []) clocks_rule blocks depth) of q)) }
{
    match of {
        BlockRef::Ton | BlockRef::Tof => list_standard(&table.timer, of, path, listed),
        BlockRef::RTrig => list_standard(&table.trigger, of, path, listed),
        BlockRef::Declared(number) => {
            if depth == 0 || number >= table.blocks.len() {
                return Ok(());
            }
            list_routine(table, depth - 1, &table.blocks[number], path, listed)
        }
    }
}

/// Lists an instance of the routine at the path of a number, so many levels deep. What holds nothing is passed over.
#[cycle(lists)]
fn list_part(
    table: &TypeTable,
    depth: usize,
    part: NamedInstance,
    path: usize,
    listed: &mut Listed,
) -> Result<(), AllocError>
    requires { IsListing listed.old }
    ensures numbered { OnOk result (IsListing listed.new) }
    ensures lists { OnOk result
        ((words : List ℕ → Option ℕ) (blocks : List PlainRoutine) (i : Instance) (q : Path)
        → AreTable words table.now blocks → IsPart words part i → HasPath words listed.old path q
        → Adds words listed.old listed.new
        (block_kinds (levels (λ path. []) kinds_rule blocks depth) i.of (folded i.name ∷ q))
        (block_clocks (levels (λ path. []) clocks_rule blocks depth) i.of (folded i.name ∷ q))) }
{
    if is_marked(&table.marks, part.of) {
        return Ok(());
    }
    let below = path_number(&mut listed.numbers, path, part.word)?;
    list_block(table, depth, part.of, below, listed)
}

/// Lists a routine at the path of a number, so many levels deep: its own variables and arrays, and then its instances.
#[cycle(lists)]
fn list_routine(
    table: &TypeTable,
    depth: usize,
    shape: &Shape,
    path: usize,
    listed: &mut Listed,
) -> Result<(), AllocError>
    requires { IsListing listed.old }
    ensures numbered { OnOk result (IsListing listed.new) }
    ensures lists { OnOk result
        ((words : List ℕ → Option ℕ) (blocks : List PlainRoutine) (r : PlainRoutine) (q : Path)
        → AreTable words table.now blocks → IsShape words shape.now r → HasPath words listed.old path q
        → Adds words listed.old listed.new (kinds_rule (levels (λ path. []) kinds_rule blocks depth) r q)
        (clocks_rule (levels (λ path. []) clocks_rule blocks depth) r q)) }
{
    list_own(&shape.own, path, listed)?;
    list_rows(&shape.rows, path, listed)?;
    for part in &shape.parts {
        list_part(table, depth, *part, path, listed)?;
    }
    Ok(())
}

/// Lists programs, one after another.
fn list_programs(
    table: &TypeTable,
    programs: &[Program],
    listed: &mut Listed,
) -> Result<(), AllocError>
    requires { IsListing listed.old }
    ensures numbered { OnOk result (IsListing listed.new) }
    ensures lists { OnOk result
        ((words : List ℕ → Option ℕ) (blocks routines : List PlainRoutine)
        → AreTable words table.now blocks → ArePrograms words programs.now routines
        → Adds words listed.old listed.new (program_kinds blocks routines)
        (program_clocks blocks routines)) }
{
    for program in programs {
        let path = path_number(&mut listed.numbers, 0, program.word)?;
        list_routine(table, table.blocks.len(), &program.shape, path, listed)?;
    }
    Ok(())
}

/// Lists a source: its globals, and then program by program.
pub fn list_source(shape: &SourceShape, listed: &mut Listed) -> Result<(), AllocError>
    requires { IsListing listed.old }
    ensures numbered { OnOk result (IsListing listed.new) }
    ensures lists { OnOk result
        ((words : List ℕ → Option ℕ) (source : Source) → IsSourceShape words shape.now source
        → Adds words listed.old listed.new (all_kinds source) (all_clocks source)) }
{
    list_own(&shape.globals, 0, listed)?;
    list_rows(&shape.rows, 0, listed)?;
    list_programs(&shape.table, &shape.programs, listed)
}

//! The names of variables, of arrays and of instances, which are found without a look at each.

ghost use Rattle.std.specs.Prelude.{◌≡◌, [], false, map, IfOk, IfSome, ◌<◌, ◌+◌, ◌^◌, length};
ghost use Rattle.logic_source.specs.Taken.{repeats};
ghost use Rattle.base_words.specs.Names.{find_name};
ghost use Rattle.logic_source.specs.Names.{global_words, own_words, row_words, instance_words};
ghost use Rattle.logic_source.specs.Source.{row_cells};
ghost use Rattle.logic_frames.specs.Scoped.{kind_among, array_among, block_among, row_names, laid_from, local_names, local_kinds, global_names, global_kinds, own_variables, global_variables, AreVariables, AreArrays, AreInstances};

use base_words::Names;
use logic_source::{BlockRef, Instance, Local, Row, Variable};
use plant_types::{Bounds, Kind};
use std::alloc::{AllocError, Global};

/// An array, as bodies are numbered by it.
#[derive(Clone, Copy, Drop)]
pub struct Laid {
    /// That of each element.
    pub kind: Kind,
    pub bounds: Bounds,
    /// The number of its first element, counted from the first of the variables that it stands behind.
    pub first: u32,
}

/// Names of arrays as declared, what is known of each, and the number at which the last one ends.
pub struct Arrays {
    pub names: Names,
    pub laid: Vec<Laid>,
    pub end: u32,
}

impl Drop for Arrays {
    fn drop(self) {
        let Arrays {
            names: _,
            laid: _,
            end: _,
        } = self;
    }
}

impl Arrays {
    /// The array of a name, in any letter case; `None` if there is none. It takes no memory.
    pub fn find(&self, name: &str) -> Option<Laid>
        ensures { result ≡ array_among self.now name.now }
    {
        let number = self.names.find(name)?;
        self.laid.get(number).copied()
    }
}

/// Names of variables as declared, and the kind of each; and the arrays that stand behind them. Arrays can't be seen from outside a block, so
/// the members of a block type have none.
pub struct Variables {
    pub names: Names,
    pub kinds: Vec<Kind>,
    pub arrays: Arrays,
}

impl Drop for Variables {
    fn drop(self) {
        let Variables {
            names: _,
            kinds: _,
            arrays: _,
        } = self;
    }
}

impl Variables {
    /// The kind of the variable of a name, in any letter case; `None` if there is none. It takes no memory.
    pub fn kind(&self, name: &str) -> Option<Kind>
        ensures { result ≡ kind_among self.now name.now }
    {
        let number = self.names.find(name)?;
        self.kinds.get(number).copied()
    }
}

/// Names of instances as declared, and of which block each is.
pub struct Instances {
    pub names: Names,
    pub blocks: Vec<BlockRef>,
}

impl Drop for Instances {
    fn drop(self) {
        let Instances {
            names: _,
            blocks: _,
        } = self;
    }
}

impl Instances {
    /// What the instance of a name is of, the name in any letter case; `None` if there is none. It takes no memory.
    pub fn block(&self, name: &str) -> Option<BlockRef>
        ensures { result ≡ block_among self.now name.now }
    {
        let number = self.names.find(name)?;
        self.blocks.get(number).copied()
    }
}

/// The names of a routine's own variables, of which no two are the same word.
fn names_of_locals(alloc: Global, locals: &[Local]) -> Result<Names, AllocError>
    requires { repeats (own_words locals.now) ≡ false }
    ensures { IfOk result (λ names. names ≡ local_names locals.now) }
{
    let mut names = Names::new(alloc);
    for local in locals {
        let _is_new = names.add(alloc, local.name.as_str())?;
    }
    Ok(names)
}

/// The kinds of a routine's own variables, in order.
fn kinds_of_locals(alloc: Global, locals: &[Local]) -> Result<Vec<Kind>, AllocError>
    ensures { IfOk result (λ kinds. kinds.items ≡ local_kinds locals.now) }
{
    let mut kinds = Vec::new(alloc);
    for local in locals {
        kinds.push(local.kind)?;
    }
    Ok(kinds)
}

/// The names of arrays, of which no two are the same word.
fn names_of_rows(alloc: Global, rows: &[Row]) -> Result<Names, AllocError>
    requires { repeats (row_words rows.now) ≡ false }
    ensures { IfOk result (λ names. names ≡ row_names rows.now) }
{
    let mut names = Names::new(alloc);
    for row in rows {
        let _is_new = names.add(alloc, row.name.as_str())?;
    }
    Ok(names)
}

/// Arrays one after another, in order, from a number on, and the number at which the last one ends, which is one of 32 bits.
fn laid_of(alloc: Global, from: u32, rows: &[Row]) -> Result<(Vec<Laid>, u32), AllocError>
    requires { from + row_cells rows.now < 2 ^ 32 }
    ensures laid { IfOk result (λ made. made.0.items ≡ laid_from from rows.now) }
    ensures end { IfOk result (λ made. made.1 ≡ from + row_cells rows.now) }
{
    let mut laid = Vec::new(alloc);
    let mut first = from;
    for row in rows {
        laid.push(Laid {
            kind: row.kind,
            bounds: row.bounds,
            first,
        })?;
        let next = first as usize + row.elements();
        first = next as u32;
    }
    Ok((laid, first))
}

/// Arrays behind so many variables. No two of the arrays have one name, and together they have few cells.
fn arrays_of(alloc: Global, variables: usize, rows: &[Row]) -> Result<Arrays, AllocError>
    requires apart { repeats (row_words rows.now) ≡ false }
    requires few { variables + row_cells rows.now < 2 ^ 32 }
    ensures { IfOk result (AreArrays variables rows.now) }
{
    let names = names_of_rows(alloc, rows)?;
    let (laid, end) = laid_of(alloc, variables as u32, rows)?;
    Ok(Arrays { names, laid, end })
}

/// No arrays, behind no variables.
fn no_arrays(alloc: Global) -> Arrays
    ensures { AreArrays 0 [] result }
{
    Arrays {
        names: Names::new(alloc),
        laid: Vec::new(alloc),
        end: 0,
    }
}

/// A block type's variables, of which no two have one name, as they are seen from outside: its arrays aren't.
pub fn member_variables(alloc: Global, locals: &[Local]) -> Result<Variables, AllocError>
    requires { repeats (own_words locals.now) ≡ false }
    ensures { IfOk result (AreVariables (own_variables locals.now)) }
{
    Ok(Variables {
        names: names_of_locals(alloc, locals)?,
        kinds: kinds_of_locals(alloc, locals)?,
        arrays: no_arrays(alloc),
    })
}

/// A routine's own variables, and behind them its own arrays. No two of either have one name, and together they have few cells.
pub fn own_variables(alloc: Global, locals: &[Local], rows: &[Row]) -> Result<Variables, AllocError>
    requires locals { repeats (own_words locals.now) ≡ false }
    requires rows { repeats (row_words rows.now) ≡ false }
    requires few { length locals.now + row_cells rows.now < 2 ^ 32 }
    ensures variables { IfOk result (AreVariables (own_variables locals.now)) }
    ensures arrays { IfOk result (λ variables. AreArrays (length locals.now) rows.now variables.arrays) }
{
    Ok(Variables {
        names: names_of_locals(alloc, locals)?,
        kinds: kinds_of_locals(alloc, locals)?,
        arrays: arrays_of(alloc, locals.len(), rows)?,
    })
}

/// No variables and no arrays.
pub fn no_variables(alloc: Global) -> Variables
    ensures variables { AreVariables (own_variables []) result }
    ensures arrays { AreArrays 0 [] result.arrays }
{
    Variables {
        names: Names::new(alloc),
        kinds: Vec::new(alloc),
        arrays: no_arrays(alloc),
    }
}

/// The names of globals, of which no two are the same word.
fn names_of_globals(alloc: Global, globals: &[Variable]) -> Result<Names, AllocError>
    requires { repeats (global_words globals.now) ≡ false }
    ensures { IfOk result (λ names. names ≡ global_names globals.now) }
{
    let mut names = Names::new(alloc);
    for global in globals {
        let _is_new = names.add(alloc, global.name.as_str())?;
    }
    Ok(names)
}

/// The kinds of globals, in order.
fn kinds_of_globals(alloc: Global, globals: &[Variable]) -> Result<Vec<Kind>, AllocError>
    ensures { IfOk result (λ kinds. kinds.items ≡ global_kinds globals.now) }
{
    let mut kinds = Vec::new(alloc);
    for global in globals {
        kinds.push(global.kind)?;
    }
    Ok(kinds)
}

/// The globals, and behind them the global arrays. No two of either have one name, and together they have few cells.
pub fn global_variables(
    alloc: Global,
    globals: &[Variable],
    rows: &[Row],
) -> Result<Variables, AllocError>
    requires globals { repeats (global_words globals.now) ≡ false }
    requires rows { repeats (row_words rows.now) ≡ false }
    requires few { length globals.now + row_cells rows.now < 2 ^ 32 }
    ensures variables { IfOk result (AreVariables (global_variables globals.now)) }
    ensures arrays { IfOk result (λ variables. AreArrays (length globals.now) rows.now
        variables.arrays) }
{
    Ok(Variables {
        names: names_of_globals(alloc, globals)?,
        kinds: kinds_of_globals(alloc, globals)?,
        arrays: arrays_of(alloc, globals.len(), rows)?,
    })
}

/// The names of instances, of which no two are the same word.
fn names_of_instances(alloc: Global, list: &[Instance]) -> Result<Names, AllocError>
    requires { repeats (instance_words list.now) ≡ false }
    ensures { IfOk result (λ names. names ≡ map (λ i. i.name) list.now) }
{
    let mut names = Names::new(alloc);
    for instance in list {
        let _is_new = names.add(alloc, instance.name.as_str())?;
    }
    Ok(names)
}

/// The blocks of instances, in order.
fn blocks_of_instances(alloc: Global, list: &[Instance]) -> Result<Vec<BlockRef>, AllocError>
    ensures { IfOk result (λ blocks. blocks.items ≡ map (λ i. i.of) list.now) }
{
    let mut blocks = Vec::new(alloc);
    for instance in list {
        blocks.push(instance.of)?;
    }
    Ok(blocks)
}

/// A routine's instances, of which no two have one name.
pub fn instances_of(alloc: Global, list: &[Instance]) -> Result<Instances, AllocError>
    requires { repeats (instance_words list.now) ≡ false }
    ensures { IfOk result (AreInstances list.now) }
{
    Ok(Instances {
        names: names_of_instances(alloc, list)?,
        blocks: blocks_of_instances(alloc, list)?,
    })
}

/// No instances.
pub fn no_instances(alloc: Global) -> Instances
    ensures { AreInstances [] result }
{
    Instances {
        names: Names::new(alloc),
        blocks: Vec::new(alloc),
    }
}

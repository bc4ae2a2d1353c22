//! From units to the source that they make.

ghost use Rattle.std.specs.Prelude.{◌≡◌, ◌++◌, IfOk, map, flat_map, false, not};
ghost use Rattle.st_typing.specs.Scopes.{is_external};
ghost use Rattle.st_tree.specs.View.{view_stmt, view_body};
ghost use Rattle.st_blocks.specs.Blocks.{AreOrdered};
ghost use Rattle.st_typing.specs.Blocks.{blocks_of};
ghost use Rattle.st_typing.specs.Faults.{AreTyped};
ghost use Rattle.st_typing.specs.Units.{view_pou, view_section, view_unit};
ghost use Rattle.st_typing.specs.DeclaredNames.{declared_in};
ghost use Rattle.st_typing.specs.Taken.{repeats};
ghost use Rattle.logic_source.specs.Pous.{pous_of, block_pous, pou_word};
ghost use Rattle.logic_source.specs.Source.{view_routine, source_of};
ghost use Rattle.logic_source.specs.Units.{block_ref, global_of, local_of, global_row_of, own_row_of, instance_of, start_of, starts_in, routine_of, declared_globals, source_in};

use crate::logic::{BlockRef, Instance, Local, Logic, Routine, Row, Variable};
use crate::pous::{Pous, names_of, pous_of};
use base_words::Names;
use plant_types::{Text, same_word};
use st_tree::{Stmt, copy_expr};
use st_typing::{Declared, Pou, Section, SectionKind, Sort, Typed, Unit, declared_in};
use std::alloc::{AllocError, Global};
use std::mem::replace;

/// Adds a declared variable to the globals; an array and an instance are none.
fn push_global(
    alloc: Global,
    variables: &mut Vec<Variable>,
    declared: &Declared<'_>,
) -> Result<(), AllocError>
    ensures { IfOk result (λ _. variables.new.items ≡ variables.old.items ++ global_of declared.now) }
{
    let Sort::Kind(kind) = declared.sort() else {
        return Ok(());
    };
    let name = declared.name().copy(alloc)?;
    let region = declared.region();
    let kind = *kind;
    variables.push(Variable { name, region, kind })?;
    Ok(())
}

/// Declared variables as globals, in order.
fn globals_of(alloc: Global, list: &[Declared<'_>]) -> Result<Vec<Variable>, AllocError>
    ensures { IfOk result (λ variables. variables.items ≡ flat_map global_of list.now) }
{
    let mut variables = Vec::new(alloc);
    for declared in list {
        push_global(alloc, &mut variables, declared)?;
    }
    Ok(variables)
}

/// Whether what is declared is a routine's own; a VAR_EXTERNAL is the global of its name.
fn is_own(declared: &Declared<'_>) -> bool
    ensures { result ≡ not (is_external declared.now.section) }
{
    !matches!(declared.section(), SectionKind::External)
}

/// Adds a declared variable to a routine's own; an array and an instance are none, and a VAR_EXTERNAL is the global of its name.
fn push_local(
    alloc: Global,
    locals: &mut Vec<Local>,
    declared: &Declared<'_>,
) -> Result<(), AllocError>
    ensures { IfOk result (λ _. locals.new.items ≡ locals.old.items ++ local_of declared.now) }
{
    if !is_own(declared) {
        return Ok(());
    }
    let Sort::Kind(kind) = declared.sort() else {
        return Ok(());
    };
    let name = declared.name().copy(alloc)?;
    let kind = *kind;
    locals.push(Local { name, kind })?;
    Ok(())
}

/// Declared variables as a routine's own, in order.
fn locals_of(alloc: Global, list: &[Declared<'_>]) -> Result<Vec<Local>, AllocError>
    ensures { IfOk result (λ locals. locals.items ≡ flat_map local_of list.now) }
{
    let mut locals = Vec::new(alloc);
    for declared in list {
        push_local(alloc, &mut locals, declared)?;
    }
    Ok(locals)
}

/// Adds a declared array to the global ones; a variable and an instance are none.
fn push_global_row(
    alloc: Global,
    rows: &mut Vec<Row>,
    declared: &Declared<'_>,
) -> Result<(), AllocError>
    ensures { IfOk result (λ _. rows.new.items ≡ rows.old.items ++ global_row_of declared.now) }
{
    let Sort::Array(bounds, kind) = declared.sort() else {
        return Ok(());
    };
    let name = declared.name().copy(alloc)?;
    let bounds = *bounds;
    let kind = *kind;
    rows.push(Row { name, kind, bounds })?;
    Ok(())
}

/// Declared arrays as global ones, in order.
fn global_rows_of(alloc: Global, list: &[Declared<'_>]) -> Result<Vec<Row>, AllocError>
    ensures { IfOk result (λ rows. rows.items ≡ flat_map global_row_of list.now) }
{
    let mut rows = Vec::new(alloc);
    for declared in list {
        push_global_row(alloc, &mut rows, declared)?;
    }
    Ok(rows)
}

/// Adds a declared array to a routine's own; a variable and an instance are none, and a VAR_EXTERNAL is the global array of its name.
fn push_own_row(
    alloc: Global,
    rows: &mut Vec<Row>,
    declared: &Declared<'_>,
) -> Result<(), AllocError>
    ensures { IfOk result (λ _. rows.new.items ≡ rows.old.items ++ own_row_of declared.now) }
{
    if is_own(declared) {
        push_global_row(alloc, rows, declared)?;
    }
    Ok(())
}

/// Declared arrays as a routine's own, in order.
fn own_rows_of(alloc: Global, list: &[Declared<'_>]) -> Result<Vec<Row>, AllocError>
    ensures { IfOk result (λ rows. rows.items ≡ flat_map own_row_of list.now) }
{
    let mut rows = Vec::new(alloc);
    for declared in list {
        push_own_row(alloc, &mut rows, declared)?;
    }
    Ok(rows)
}

/// The block type of a word, by the names of the declared block types; the number behind all of them where none has the name.
fn block_ref(names: &Names, word: &Text) -> BlockRef
    ensures { result ≡ block_ref names.now word.now }
{
    let bytes = word.as_bytes();
    if same_word(bytes, b"TON") {
        BlockRef::Ton
    } else if same_word(bytes, b"TOF") {
        BlockRef::Tof
    } else if same_word(bytes, b"R_TRIG") {
        BlockRef::RTrig
    } else {
        BlockRef::Declared(names.find(word.as_str()).unwrap_or(names.len()))
    }
}

/// Adds a declared instance to a routine's own; a variable and an array are none.
fn push_instance(
    alloc: Global,
    names: &Names,
    instances: &mut Vec<Instance>,
    declared: &Declared<'_>,
) -> Result<(), AllocError>
    ensures { IfOk result (λ _. instances.new.items
        ≡ instances.old.items ++ instance_of names.now declared.now) }
{
    if !is_own(declared) {
        return Ok(());
    }
    let Sort::Block(word) = declared.sort() else {
        return Ok(());
    };
    let name = declared.name().copy(alloc)?;
    let of = block_ref(names, word);
    instances.push(Instance { name, of })?;
    Ok(())
}

/// Declared instances as a routine's own, in order.
fn instances_of(
    alloc: Global,
    names: &Names,
    list: &[Declared<'_>],
) -> Result<Vec<Instance>, AllocError>
    ensures { IfOk result (λ instances. instances.items ≡ flat_map (instance_of names.now) list.now) }
{
    let mut instances = Vec::new(alloc);
    for declared in list {
        push_instance(alloc, names, &mut instances, declared)?;
    }
    Ok(instances)
}

/// Adds an assignment of its initial value to a declared variable, if one is written.
fn push_start(
    alloc: Global,
    starts: &mut Vec<Stmt<Text>>,
    declared: &Declared<'_>,
) -> Result<(), AllocError>
    ensures { IfOk result (λ _. map view_stmt starts.new.items
        ≡ map view_stmt starts.old.items ++ start_of declared.now) }
{
    let Some(value) = declared.initial() else {
        return Ok(());
    };
    let name = declared.name().copy(alloc)?;
    let copy = copy_expr(alloc, value)?;
    starts.push(Stmt::Assign(0, name, copy))?;
    Ok(())
}

/// The initial values that are written for declared variables, in order.
fn starts_of(alloc: Global, list: &[Declared<'_>]) -> Result<Vec<Stmt<Text>>, AllocError>
    ensures { IfOk result (λ starts. view_body starts.items ≡ starts_in list.now) }
{
    let mut starts = Vec::new(alloc);
    for declared in list {
        push_start(alloc, &mut starts, declared)?;
    }
    Ok(starts)
}

/// What the sections of a block or program declare.
#[derive(Drop)]
struct Heads {
    locals: Vec<Local>,
    rows: Vec<Row>,
    instances: Vec<Instance>,
    starts: Vec<Stmt<Text>>,
}

/// What sections declare.
fn heads_of(alloc: Global, names: &Names, sections: &[Section]) -> Result<Heads, AllocError>
    ensures locals { IfOk result (λ heads. heads.locals.items
        ≡ flat_map local_of (declared_in (map view_section sections.now))) }
    ensures rows { IfOk result (λ heads. heads.rows.items
        ≡ flat_map own_row_of (declared_in (map view_section sections.now))) }
    ensures instances { IfOk result (λ heads. heads.instances.items
        ≡ flat_map (instance_of names.now) (declared_in (map view_section sections.now))) }
    ensures starts { IfOk result (λ heads. view_body heads.starts.items
        ≡ starts_in (declared_in (map view_section sections.now))) }
{
    let declared = declared_in(alloc, sections)?;
    Ok(Heads {
        locals: locals_of(alloc, &declared)?,
        rows: own_rows_of(alloc, &declared)?,
        instances: instances_of(alloc, names, &declared)?,
        starts: starts_of(alloc, &declared)?,
    })
}

/// The body of a block or program, of which the rest is let go.
fn body_of(alloc: Global, pou: Pou) -> Vec<Stmt<Text>>
    ensures { result.items ≡ pou.body.items }
{
    let mut pou = pou;
    replace(&mut pou.body, Vec::new(alloc))
}

/// The routine of a block or program. Its body is moved.
fn routine_of(alloc: Global, names: &Names, pou: Pou) -> Result<Routine, AllocError>
    ensures { IfOk result (λ routine. view_routine routine ≡ routine_of names.now (view_pou pou)) }
{
    let name = pou.name.copy(alloc)?;
    let Heads {
        locals,
        rows,
        instances,
        starts,
    } = heads_of(alloc, names, &pou.sections)?;
    Ok(Routine {
        name,
        locals,
        rows,
        instances,
        starts,
        body: body_of(alloc, pou),
    })
}

/// The routines of blocks or programs, in order.
fn routines_of(alloc: Global, names: &Names, pous: Vec<Pou>) -> Result<Vec<Routine>, AllocError>
    ensures { IfOk result (λ routines. map view_routine routines.items
        ≡ map (routine_of names.now) (map view_pou pous.items)) }
{
    let mut routines = Vec::new(alloc);
    for pou in pous {
        routines.push(routine_of(alloc, names, pou)?)?;
    }
    Ok(routines)
}

/// Adds declared names to others, in order.
fn push_declared<'a>(list: &mut Vec<Declared<'a>>, more: &[Declared<'a>]) -> Result<(), AllocError>
    ensures { IfOk result (λ _. list.new.items ≡ list.old.items ++ more.now) }
{
    for declared in more {
        list.push(declared.copy())?;
    }
    Ok(())
}

/// The names that all units declare as globals, in order of text.
fn declared_globals<'a>(alloc: Global, units: &'a [Unit]) -> Result<Vec<Declared<'a>>, AllocError>
    ensures { IfOk result (λ list. list.items ≡ declared_globals (map view_unit units.now)) }
{
    let mut list = Vec::new(alloc);
    for unit in units {
        let more = declared_in(alloc, &unit.globals)?;
        push_declared(&mut list, &more)?;
    }
    Ok(list)
}

/// What the units declare as globals.
#[derive(Drop)]
struct GlobalHeads {
    globals: Vec<Variable>,
    rows: Vec<Row>,
    starts: Vec<Stmt<Text>>,
}

/// The globals and the global arrays of units, and the globals' initial values.
fn globals_in(alloc: Global, units: &[Unit]) -> Result<GlobalHeads, AllocError>
    ensures globals { IfOk result (λ heads. heads.globals.items
        ≡ flat_map global_of (declared_globals (map view_unit units.now))) }
    ensures rows { IfOk result (λ heads. heads.rows.items
        ≡ flat_map global_row_of (declared_globals (map view_unit units.now))) }
    ensures starts { IfOk result (λ heads. view_body heads.starts.items
        ≡ starts_in (declared_globals (map view_unit units.now))) }
{
    let declared = declared_globals(alloc, units)?;
    Ok(GlobalHeads {
        globals: globals_of(alloc, &declared)?,
        rows: global_rows_of(alloc, &declared)?,
        starts: starts_of(alloc, &declared)?,
    })
}

/// The source that units make, where no two blocks have one name.
fn logic_in(alloc: Global, units: Vec<Unit>) -> Result<Logic, AllocError>
    requires { repeats (map pou_word (block_pous (pous_of (map view_unit units.items)))) ≡ false }
    ensures { IfOk result (λ logic. source_of logic ≡ source_in (map view_unit units.items)) }
{
    let GlobalHeads {
        globals,
        rows,
        starts,
    } = globals_in(alloc, units.as_slice())?;
    let Pous { blocks, programs } = pous_of(alloc, units)?;
    let names = names_of(alloc, blocks.as_slice())?;
    Ok(Logic {
        globals,
        rows,
        starts,
        programs: routines_of(alloc, &names, programs)?,
        blocks: routines_of(alloc, &names, blocks)?,
    })
}

/// The source that well-formed units make: their globals, their programs and their block types, each list in order of text. An instance has the
/// number of its block type among these. The bodies are those of the units.
#[tactic(auto, using(crate::proofs::Apart::typed_blocks_apart))]
pub fn logic_of(alloc: Global, typed: Typed) -> Result<(Logic, Vec<usize>), AllocError>
    ensures source { IfOk result (λ made. source_of made.0 ≡ source_in typed) }
    ensures typed { IfOk result (λ made. AreTyped typed) }
    ensures order { IfOk result (λ made. AreOrdered (blocks_of typed) made.1.items) }
{
    let (units, order) = typed.into_parts();
    let logic = logic_in(alloc, units)?;
    Ok((logic, order))
}

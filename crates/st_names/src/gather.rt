//! Gathers what all sources share.

ghost use Rattle.std.specs.Prelude.{◌≡◌, [], IfOk, map, filter};
ghost use Rattle.st_parser.specs.Units.{view_section, view_pou, view_unit};
ghost use Rattle.st_names.specs.DeclaredNames.{declared_in, first_declared};
ghost use Rattle.st_names.specs.Shared.{global, pou, shared_by, shared_in};
ghost use Rattle.st_names.specs.BlockTypes.{members_in, member_of, is_input_section, is_output_section};
ghost use Rattle.st_names.specs.Tables.{with_entry, with_entries};
ghost use Rattle.st_names.specs.Kept.{member_entry, members_of, named_of, shared_entry, shared_entries, with_member, with_members};

use crate::declared::{Declared, declared_in, first_declared};
use crate::named::{Members, Named, sort_kind};
use crate::table::NameTable;
use st_parser::{Pou, PouKind, Section, SectionKind, Unit};
use std::alloc::{AllocError, Global};

/// Adds an input or an output to those of a block; what is neither adds nothing.
fn add_member(
    alloc: Global,
    members: &mut Members,
    declared: &Declared<'_>,
) -> Result<(), AllocError>
    ensures { IfOk result (λ _. members.new ≡ with_member members.old declared.now) }
{
    let name = declared.name();
    let kind = sort_kind(declared.sort());
    match declared.section() {
        SectionKind::Input => {
            members.inputs.add(alloc, name.as_str(), kind)?;
            Ok(())
        }
        SectionKind::Output => {
            members.outputs.add(alloc, name.as_str(), kind)?;
            Ok(())
        }
        SectionKind::Global | SectionKind::Local | SectionKind::External => Ok(()),
    }
}

/// Adds inputs and outputs to those of a block.
fn add_members(
    alloc: Global,
    members: &mut Members,
    list: &[Declared<'_>],
) -> Result<(), AllocError>
    ensures { IfOk result (λ _. members.new ≡ with_members members.old list.now) }
{
    for declared in list {
        add_member(alloc, members, declared)?;
    }
    Ok(())
}

/// The first declaration of each name that sections declare.
fn firsts_in<'a>(alloc: Global, sections: &'a [Section]) -> Result<Vec<Declared<'a>>, AllocError>
    ensures { IfOk result (λ firsts. firsts.items
        ≡ first_declared [] (declared_in (map view_section sections.now))) }
{
    let all = declared_in(alloc, sections)?;
    let firsts = first_declared(alloc, &all);
    drop(all);
    firsts
}

/// Adds what sections declare first as an input or an output.
fn add_declared(
    alloc: Global,
    members: &mut Members,
    sections: &[Section],
) -> Result<(), AllocError>
    ensures { IfOk result (λ _. members.new
        ≡ with_members members.old (first_declared [] (declared_in (map view_section sections.now)))) }
{
    let firsts = firsts_in(alloc, sections)?;
    let added = add_members(alloc, members, &firsts);
    drop(firsts);
    added
}

/// The inputs and outputs of a block: what it declares first as such.
fn members_of(alloc: Global, block: &Pou) -> Result<Members, AllocError>
    ensures { IfOk result (λ members. members ≡ members_of (view_pou block.now)) }
{
    let mut members = Members {
        inputs: NameTable::new(alloc),
        outputs: NameTable::new(alloc),
    };
    match add_declared(alloc, &mut members, &block.sections) {
        Ok(()) => Ok(members),
        Err(refused) => {
            drop(members);
            Err(refused)
        }
    }
}

/// What the name of a block or program stands for.
fn named_of<'a>(alloc: Global, declaration: &Pou) -> Result<Named<'a>, AllocError>
    ensures { IfOk result (λ named. named ≡ named_of (pou (view_pou declaration.now))) }
{
    match declaration.kind {
        PouKind::Block => Ok(Named::Block(members_of(alloc, declaration)?)),
        PouKind::Program => Ok(Named::Program),
    }
}

/// Adds globals.
fn add_globals<'a>(
    alloc: Global,
    table: &mut NameTable<Named<'a>>,
    list: &[Declared<'a>],
) -> Result<(), AllocError>
    ensures { IfOk result (λ _. table.new
        ≡ with_entries table.old (map shared_entry (map global list.now))) }
{
    for declared in list {
        let name = declared.name();
        table.add(alloc, name.as_str(), Named::Global(declared.copy()))?;
    }
    Ok(())
}

/// Adds blocks and programs.
fn add_pous<'a>(
    alloc: Global,
    table: &mut NameTable<Named<'a>>,
    pous: &[Pou],
) -> Result<(), AllocError>
    ensures { IfOk result (λ _. table.new
        ≡ with_entries table.old (map shared_entry (map pou (map view_pou pous.now)))) }
{
    for pou in pous {
        table.add(alloc, pou.name.as_str(), named_of(alloc, pou)?)?;
    }
    Ok(())
}

/// Adds what a source shares.
fn add_unit<'a>(
    alloc: Global,
    table: &mut NameTable<Named<'a>>,
    unit: &'a Unit,
) -> Result<(), AllocError>
    ensures { IfOk result (λ _. table.new
        ≡ with_entries table.old (map shared_entry (shared_by (view_unit unit.now)))) }
{
    let globals = declared_in(alloc, &unit.globals)?;
    let added = add_globals(alloc, table, &globals);
    drop(globals);
    added?;
    add_pous(alloc, table, &unit.pous)?;
    Ok(())
}

/// Adds what sources share.
fn add_units<'a>(
    alloc: Global,
    table: &mut NameTable<Named<'a>>,
    units: &'a [Unit],
) -> Result<(), AllocError>
    ensures { IfOk result (λ _. table.new
        ≡ with_entries table.old (map shared_entry (shared_in (map view_unit units.now)))) }
{
    for unit in units {
        add_unit(alloc, table, unit)?;
    }
    Ok(())
}

/// The first declaration of each name that sources share.
pub fn shared_entries<'a>(
    alloc: Global,
    units: &'a [Unit],
) -> Result<NameTable<Named<'a>>, AllocError>
    ensures { IfOk result (λ table. table ≡ shared_entries (map view_unit units.now)) }
{
    let mut table = NameTable::new(alloc);
    match add_units(alloc, &mut table, units) {
        Ok(()) => Ok(table),
        Err(refused) => {
            drop(table);
            Err(refused)
        }
    }
}

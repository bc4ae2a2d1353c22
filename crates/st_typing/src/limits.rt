//! Limits that all sources keep together: turns of a FOR, programs, and elements of an array.

ghost use Rattle.std.specs.Prelude.{◌≡◌, ◌+◌, ◌≤◌, ◌<◌, IfOk, IfSome, IsNone, map};
ghost use Rattle.std.specs.List.{list_any};
ghost use Rattle.st_names.specs.SectionKind.{SectionKind};
ghost use Rattle.st_names.specs.Units.{view_declaration, view_section, view_pou, view_unit};
ghost use Rattle.st_names.specs.DeclaredNames.{declared_together, declared_by};
ghost use Rattle.st_typing.specs.Constants.{pou_long};
ghost use Rattle.st_typing.specs.Faults.{some_long, programs_among, too_many, sort_wide, is_wide, sections_wide, unit_wide, some_wide};

use crate::constants::pou_long;
use st_names::{Declaration, Pou, PouKind, Section, Sort, Unit};
use std::alloc::{AllocError, Global};

/// Whether a FOR of some function block or program of a source has more than 10,000 turns.
fn some_pou_long(alloc: Global, pous: &[Pou]) -> Result<bool, AllocError>
    ensures { IfOk result (λ long. long ≡ list_any pou_long (map view_pou pous.now)) }
{
    for pou in pous {
        if pou_long(alloc, pou)? {
            return Ok(true);
        }
    }
    Ok(false)
}

/// Whether a FOR of the sources has more than 10,000 turns.
pub fn some_long(alloc: Global, units: &[Unit]) -> Result<bool, AllocError>
    ensures { IfOk result (λ long. long ≡ some_long (map view_unit units.now)) }
{
    for unit in units {
        if some_pou_long(alloc, &unit.pous)? {
            return Ok(true);
        }
    }
    Ok(false)
}

/// The most programs that the sources may have (this profile).
const PROGRAMS: usize = 512;

/// Counts the programs among a source's function blocks and programs; `None` once there are more than 512.
fn add_programs(count: usize, pous: &[Pou]) -> Option<usize>
    requires { count ≤ 512 }
    ensures few { IfSome result (λ total. (total ≡ count + programs_among (map view_pou pous.now))
        × (total ≤ 512)) }
    ensures many { IsNone result → 512 < count + programs_among (map view_pou pous.now) }
{
    let mut total = count;
    for pou in pous {
        if let PouKind::Program = pou.kind {
            if total == PROGRAMS {
                return None;
            }
            total += 1;
        }
    }
    Some(total)
}

/// Whether there are more than 512 programs.
pub fn too_many(units: &[Unit]) -> bool
    ensures { result ≡ too_many (map view_unit units.now) }
{
    let mut count = 0;
    for unit in units {
        match add_programs(count, &unit.pous) {
            Some(total) => count = total,
            None => return true,
        }
    }
    false
}

/// The most elements that an array may have (this profile).
const ELEMENTS: u64 = 4096;

/// Whether what is declared is an array of more than 4,096 elements.
fn sort_wide(sort: &Sort) -> bool
    ensures { result ≡ sort_wide sort.now }
{
    match sort {
        Sort::Array(bounds, _) => u64::from(bounds.high.abs_diff(bounds.low)) + 1 > ELEMENTS,
        Sort::Kind(_) | Sort::Block(_) => false,
    }
}

/// Whether a name of a declaration is an array of more than 4,096 elements.
fn declaration_wide(declaration: &Declaration) -> bool
    ensures { (section : SectionKind)
        → result ≡ list_any is_wide (declared_together section (view_declaration declaration.now)) }
{
    let wide = sort_wide(&declaration.sort);
    for _name in &declaration.names {
        if wide {
            return true;
        }
    }
    false
}

/// Whether a section declares an array of more than 4,096 elements.
fn section_wide(section: &Section) -> bool
    ensures { result ≡ list_any is_wide (declared_by (view_section section.now)) }
{
    for declaration in &section.declarations {
        if declaration_wide(declaration) {
            return true;
        }
    }
    false
}

/// Whether sections declare an array of more than 4,096 elements.
fn sections_wide(sections: &[Section]) -> bool
    ensures { result ≡ sections_wide (map view_section sections.now) }
{
    for section in sections {
        if section_wide(section) {
            return true;
        }
    }
    false
}

/// Whether a block or program among these declares an array of more than 4,096 elements.
fn some_pou_wide(pous: &[Pou]) -> bool
    ensures { result ≡ list_any (λ p. sections_wide p.sections) (map view_pou pous.now) }
{
    for pou in pous {
        if sections_wide(&pou.sections) {
            return true;
        }
    }
    false
}

/// Whether an array of the sources has more than 4,096 elements.
pub fn some_wide(units: &[Unit]) -> bool
    ensures { result ≡ some_wide (map view_unit units.now) }
{
    for unit in units {
        if sections_wide(&unit.globals) || some_pou_wide(&unit.pous) {
            return true;
        }
    }
    false
}

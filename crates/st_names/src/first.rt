//! The first unit, in order of text, that is at fault.

ghost use Rattle.std.specs.Prelude.{◌≡◌, List, Bool, IfOk, map};
ghost use Rattle.st_parser.specs.Units.{PlainSection, PlainPou, view_section, view_pou, view_unit};
ghost use Rattle.st_names.specs.Faults.{first_pou, first_unit};

use crate::place::UnitPlace;
use st_parser::{Pou, Section, Unit};
use std::alloc::{AllocError, Global};

/// Whether a unit by itself is at fault. What has to be known of all sources, a judge holds.
pub trait Judge {
    /// Whether the globals of a source are at fault.
    ghost bad_globals: { Self → List PlainSection → Bool };

    /// Whether a block or program is at fault.
    ghost bad_pou: { Self → PlainPou → Bool };

    /// Whether the globals of a source are at fault.
    fn globals(&self, alloc: Global, sections: &[Section]) -> Result<bool, AllocError>
        ensures { IfOk result (λ bad. bad ≡ bad_globals self.now (map view_section sections.now)) };

    /// Whether a block or program is at fault.
    fn pou(&self, alloc: Global, pou: &Pou) -> Result<bool, AllocError>
        ensures { IfOk result (λ bad. bad ≡ bad_pou self.now (view_pou pou.now)) };
}

/// The first block or program of a source that is at fault.
fn first_pou<J: Judge>(
    alloc: Global,
    judge: &J,
    source: usize,
    pous: &[Pou],
) -> Result<Option<UnitPlace>, AllocError>
    ensures { IfOk result (λ place. place
        ≡ first_pou (J.bad_globals judge.now) (J.bad_pou judge.now) source 0 (map view_pou pous.now)) }
{
    for i in 0..pous.len() {
        if judge.pou(alloc, &pous[i])? {
            return Ok(Some(UnitPlace {
                source,
                pou: Some(i),
            }));
        }
    }
    Ok(None)
}

/// The first unit that is at fault; a source's globals come before its blocks and programs.
pub fn first_unit<J: Judge>(
    alloc: Global,
    judge: &J,
    units: &[Unit],
) -> Result<Option<UnitPlace>, AllocError>
    ensures { IfOk result (λ place. place
        ≡ first_unit (J.bad_globals judge.now) (J.bad_pou judge.now) 0 (map view_unit units.now)) }
{
    for i in 0..units.len() {
        if judge.globals(alloc, &units[i].globals)? {
            return Ok(Some(UnitPlace {
                source: i,
                pou: None,
            }));
        }
        let found = first_pou(alloc, judge, i, &units[i].pous)?;
        if found.is_some() {
            return Ok(found);
        }
    }
    Ok(None)
}

//! The blocks and programs of all units, in order of text.

ghost use Rattle.std.specs.Prelude.{◌≡◌, ◌++◌, IfOk, map, false};
ghost use Rattle.st_typing.specs.Taken.{repeats};
ghost use Rattle.st_typing.specs.Units.{PlainPou, view_pou, view_unit};
ghost use Rattle.logic_source.specs.Pous.{pous_of, block_pous, program_pous, pou_word};

use base_words::Names;
use st_typing::{Pou, PouKind, Unit};
use std::alloc::{AllocError, Global};
use std::mem::replace;

/// The blocks, and apart from them the programs.
#[derive(Drop)]
pub struct Pous {
    pub blocks: Vec<Pou>,
    pub programs: Vec<Pou>,
}

/// Adds the blocks and programs of a unit.
fn push_pous(list: &mut Pous, pous: Vec<Pou>) -> Result<(), AllocError>
    ensures blocks { IfOk result (λ _. map view_pou list.new.blocks.items
        ≡ map view_pou list.old.blocks.items ++ block_pous (map view_pou pous.items)) }
    ensures programs { IfOk result (λ _. map view_pou list.new.programs.items
        ≡ map view_pou list.old.programs.items ++ program_pous (map view_pou pous.items)) }
{
    for pou in pous {
        match pou.kind {
            PouKind::Block => list.blocks.push(pou)?,
            PouKind::Program => list.programs.push(pou)?,
        }
    }
    Ok(())
}

/// The blocks and programs of a unit, of which the rest is let go.
fn pous_in(alloc: Global, unit: Unit) -> Vec<Pou>
    ensures { result.items ≡ unit.pous.items }
{
    let mut unit = unit;
    replace(&mut unit.pous, Vec::new(alloc))
}

/// The blocks and the programs of all units.
pub fn pous_of(alloc: Global, units: Vec<Unit>) -> Result<Pous, AllocError>
    ensures blocks { IfOk result (λ list. map view_pou list.blocks.items
        ≡ block_pous (pous_of (map view_unit units.items))) }
    ensures programs { IfOk result (λ list. map view_pou list.programs.items
        ≡ program_pous (pous_of (map view_unit units.items))) }
{
    let mut list = Pous {
        blocks: Vec::new(alloc),
        programs: Vec::new(alloc),
    };
    for unit in units {
        push_pous(&mut list, pous_in(alloc, unit))?;
    }
    Ok(list)
}

/// The names of blocks as declared, in order, of which no two are the same word.
pub fn names_of(alloc: Global, blocks: &[Pou]) -> Result<Names, AllocError>
    requires { repeats (map pou_word (map view_pou blocks.now)) ≡ false }
    ensures { IfOk result (λ names. names ≡ map (λ (p : PlainPou). p.name) (map view_pou blocks.now)) }
{
    let mut names = Names::new(alloc);
    for block in blocks {
        let _is_new = names.add(alloc, block.name.as_str())?;
    }
    Ok(names)
}

//! Names that are taken by an earlier declaration of all sources, or by a standard block.

ghost use Rattle.std.specs.Prelude.{◌≡◌, ◌++◌, IfOk, map, Some, None};
ghost use Rattle.plant_types.specs.Words.{folded};
ghost use Rattle.st_parser.specs.Units.{view_pou, view_unit};
ghost use Rattle.st_names.specs.DeclaredNames.{declared_words};
ghost use Rattle.st_names.specs.Taken.{is_taken, first_taken, global_words, pou_words};
ghost use Rattle.st_names.specs.Scanned.{one_taken, first_taken_pou, first_taken_of};
ghost use Rattle.st_names.specs.Asked.{Added, AddedPous};
ghost use Rattle.std.specs.Prelude.{◌∷◌, []};

use crate::declared::{Declared, declared_in};
use crate::place::UnitPlace;
use crate::repeated::add_name;
use crate::standard::is_standard;
use base_words::Names;
use plant_types::Text;
use st_parser::{Pou, Unit};
use std::alloc::{AllocError, Global};

/// Adds a name. True if it is taken.
#[tactic(auto, using(crate::proofs::Twice::standard_folded))]
fn add_shared(alloc: Global, names: &mut Names, name: &Text) -> Result<bool, AllocError>
    ensures { IfOk result (λ taken. Added taken (is_taken (map folded names.old) (folded name.now))
        (map folded names.new) (map folded names.old ++ folded name.now ∷ [])) }
{
    if is_standard(name) {
        return Ok(true);
    }
    add_name(alloc, names, name)
}

/// Adds the names of globals, up to the first that is taken. True if one is.
fn one_taken(alloc: Global, names: &mut Names, list: &[Declared<'_>]) -> Result<bool, AllocError>
    ensures { IfOk result (λ taken. Added taken
        (one_taken (map folded names.old) (declared_words list.now)) (map folded names.new)
        (map folded names.old ++ declared_words list.now)) }
{
    for declared in list {
        if add_shared(alloc, names, declared.name())? {
            return Ok(true);
        }
    }
    Ok(false)
}

/// Adds the names of blocks and programs, up to the first that is taken, which is returned.
fn first_taken_pou(
    alloc: Global,
    names: &mut Names,
    source: usize,
    pous: &[Pou],
) -> Result<Option<UnitPlace>, AllocError>
    ensures { IfOk result (λ place. AddedPous place
        (first_taken_pou source 0 (map folded names.old) (map view_pou pous.now)) (map folded names.new)
        (map folded names.old ++ map (λ p. folded p.name) (map view_pou pous.now))) }
{
    for i in 0..pous.len() {
        if add_shared(alloc, names, &pous[i].name)? {
            return Ok(Some(UnitPlace {
                source,
                pou: Some(i),
            }));
        }
    }
    Ok(None)
}

/// Adds the names that a source shares, up to the first that is taken, whose unit is returned.
fn first_taken_of(
    alloc: Global,
    names: &mut Names,
    source: usize,
    unit: &Unit,
) -> Result<Option<UnitPlace>, AllocError>
    ensures { IfOk result (λ place. AddedPous place
        (first_taken_of source (map folded names.old) (view_unit unit.now)) (map folded names.new)
        (map folded names.old ++ global_words (view_unit unit.now) ++ pou_words (view_unit unit.now))) }
{
    let globals = declared_in(alloc, &unit.globals)?;
    if one_taken(alloc, names, &globals)? {
        return Ok(Some(UnitPlace { source, pou: None }));
    }
    let place = first_taken_pou(alloc, names, source, &unit.pous)?;
    Ok(place)
}

/// The first unit, in order of text, that declares a name which an earlier declaration of all sources has, or a standard block.
pub fn first_taken(alloc: Global, units: &[Unit]) -> Result<Option<UnitPlace>, AllocError>
    ensures { IfOk result (λ place. place ≡ first_taken (map view_unit units.now)) }
{
    let mut names = Names::new(alloc);
    for i in 0..units.len() {
        let found = first_taken_of(alloc, &mut names, i, &units[i])?;
        if found.is_some() {
            return Ok(found);
        }
    }
    Ok(None)
}

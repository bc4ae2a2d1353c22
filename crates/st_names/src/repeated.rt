//! Names that are given or taken twice.

ghost use Rattle.std.specs.Prelude.{◌≡◌, IfOk, map};
ghost use Rattle.plant_types.specs.Words.{folded};
ghost use Rattle.st_tree.specs.View.{view_argument};
ghost use Rattle.st_names.specs.DeclaredNames.{declared_words};
ghost use Rattle.st_names.specs.Taken.{is_among, repeats};
ghost use Rattle.st_names.specs.Known.{given_inputs, taken_outputs};
ghost use Rattle.st_names.specs.Asked.{Added};
ghost use Rattle.std.specs.Prelude.{◌++◌, ◌∷◌, []};

use crate::declared::Declared;
use base_words::Names;
use plant_types::Text;
use st_tree::Argument;
use std::alloc::{AllocError, Global};

/// Adds a name. True if it was there already.
pub fn add_name(alloc: Global, names: &mut Names, name: &Text) -> Result<bool, AllocError>
    ensures { IfOk result (λ there. Added there (is_among (map folded names.old) (folded name.now))
        (map folded names.new) (map folded names.old ++ folded name.now ∷ [])) }
{
    let added = names.add(alloc, name.as_str())?;
    Ok(!added)
}

/// Whether a name is declared twice.
#[tactic(auto, using(crate::proofs::Twice::repeats_first))]
pub fn repeats(alloc: Global, list: &[Declared<'_>]) -> Result<bool, AllocError>
    ensures { IfOk result (λ repeat. repeat ≡ repeats (declared_words list.now)) }
{
    let mut names = Names::new(alloc);
    for declared in list {
        if add_name(alloc, &mut names, declared.name())? {
            return Ok(true);
        }
    }
    Ok(false)
}

/// Whether arguments give an input twice.
#[tactic(auto, using(crate::proofs::Twice::repeats_first))]
pub fn inputs_repeat(alloc: Global, arguments: &[Argument<Text>]) -> Result<bool, AllocError>
    ensures { IfOk result (λ repeat. repeat ≡ repeats (given_inputs (map view_argument arguments.now))) }
{
    let mut names = Names::new(alloc);
    for argument in arguments {
        if let Argument::Input(name, _) = argument {
            if add_name(alloc, &mut names, name)? {
                return Ok(true);
            }
        }
    }
    Ok(false)
}

/// Whether arguments take an output twice.
#[tactic(auto, using(crate::proofs::Twice::repeats_first))]
pub fn outputs_repeat(alloc: Global, arguments: &[Argument<Text>]) -> Result<bool, AllocError>
    ensures { IfOk result (λ repeat. repeat
        ≡ repeats (taken_outputs (map view_argument arguments.now))) }
{
    let mut names = Names::new(alloc);
    for argument in arguments {
        if let Argument::Output(name, _) = argument {
            if add_name(alloc, &mut names, name)? {
                return Ok(true);
            }
        }
    }
    Ok(false)
}

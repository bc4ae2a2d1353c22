//! Two sources by the same numbers of words and of paths.

ghost use Rattle.std.specs.Prelude.{ℕ, List, Option, IfOk, nat_eq};
ghost use Rattle.std.specs.HashMap.{get, hash_map_len};
ghost use Rattle.logic_source.specs.Source.{Source};
ghost use Rattle.logic_carry.specs.Shapes.{IsSourceShape};
ghost use Rattle.logic_carry.specs.Paths.{AreNumbered};
ghost use Rattle.logic_carry.specs.Lists.{IsListing as IsNumbered};
ghost use Rattle.logic_carry.specs.Both.{AreBoth, IsListed};

use crate::lists::{Listed, SourceShape, StandardAt, ValueAt, list_source};
use std::alloc::{AllocError, Global};
use std::collections::HashMap;

/// All values and all standard blocks of a source in order, each with the number of its path.
#[derive(Drop)]
pub struct SourceList {
    pub values: Vec<ValueAt>,
    pub standards: Vec<StandardAt>,
}

/// Those of an old source and of a new one. The numbers of paths are below the number of paths.
#[derive(Drop)]
pub struct Both {
    pub old: SourceList,
    pub new: SourceList,
    pub paths: usize,
}

/// Lists a source by a table of paths, which grows.
fn listed_on(
    alloc: Global,
    numbers: HashMap<u128, usize>,
    shape: &SourceShape,
) -> Result<Listed, AllocError>
    requires { AreNumbered (get nat_eq numbers) (hash_map_len numbers) }
    ensures numbered { IfOk result IsNumbered }
    ensures listed { IfOk result (λ listed. (words : List ℕ → Option ℕ) (source : Source)
        → IsSourceShape words shape.now source → IsListed words (get nat_eq numbers) listed source) }
{
    let mut listed = Listed {
        numbers,
        values: Vec::new(alloc),
        standards: Vec::new(alloc),
    };
    list_source(shape, &mut listed)?;
    Ok(listed)
}

/// Lists an old source and a new one that have the same numbers of words.
pub fn both_of(alloc: Global, old: &SourceShape, new: &SourceShape) -> Result<Both, AllocError>
    ensures { IfOk result (λ both. (words : List ℕ → Option ℕ) (before after : Source)
        → IsSourceShape words old.now before → IsSourceShape words new.now after
        → AreBoth words both before after) }
{
    let first = listed_on(alloc, HashMap::new(alloc), old)?;
    let Listed {
        numbers,
        values,
        standards,
    } = first;
    let second = listed_on(alloc, numbers, new)?;
    let paths = second.numbers.len() + 1;
    let old = SourceList { values, standards };
    let Listed {
        numbers: _,
        values,
        standards,
    } = second;
    let new = SourceList { values, standards };
    Ok(Both { old, new, paths })
}

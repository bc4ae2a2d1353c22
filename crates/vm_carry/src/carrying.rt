//! The cells of a plant that was changed while it ran.

ghost use Rattle.std.specs.Prelude.{◌≡◌, IfOk};
ghost use Rattle.logic_source.specs.Worlds.{World};
ghost use Rattle.logic_source.specs.Layout.{IsDistinctlyNamed};
ghost use Rattle.logic_source.specs.Carried.{carried};
ghost use Rattle.logic_carry.specs.Stands.{StandFor};
ghost use Rattle.logic_carry.specs.Both.{ArePair};

use crate::shapes::shape_of_source;
use base_words::Names;
use logic_carry::{Both, both_of, clocks_after, values_after};
use logic_cells::Cells;
use std::alloc::{AllocError, Global};
use vm_logic::Framed;

/// The names of a plant are distinct. It does nothing.
fn are_distinct(framed: &Framed)
    ensures { IsDistinctlyNamed framed.now }
{
    let _programs = framed.programs();
}

/// An old plant and a new one by the same numbers of words and of paths.
fn pair_of(alloc: Global, old: &Framed, new: &Framed) -> Result<Both, AllocError>
    ensures { IfOk result (λ both. ArePair both old.now new.now) }
{
    are_distinct(old);
    are_distinct(new);
    let mut names = Names::new(alloc);
    let before = shape_of_source(alloc, &mut names, old)?;
    let after = shape_of_source(alloc, &mut names, new)?;
    let both = both_of(alloc, &before, &after)?;
    Ok(both)
}

/// The cells of a plant after it was changed, by those of the old one: where these stand for a world, they stand for the one that goes over from it.
/// A variable of equal path and kind keeps its value, an element of an array if the bounds are equal too, and a standard block of equal path and type
/// what its calls left; all else is as before the new plant's first scan. Fails if memory is refused; nothing is changed.
pub fn carry(alloc: Global, old: &Framed, cells: &Cells, new: &Framed) -> Result<Cells, AllocError>
    ensures { IfOk result (λ after. (w : World) → StandFor old.now cells.now w
        → StandFor new.now after (carried old.now new.now w)) }
{
    let both = pair_of(alloc, old, new)?;
    let here = new.opening(alloc)?;
    let values = values_after(alloc, &both, cells.as_slice(), here.as_slice())?;
    let clocks = clocks_after(alloc, &both, cells.clocks(), here.clocks())?;
    Ok(Cells::new(values, clocks))
}

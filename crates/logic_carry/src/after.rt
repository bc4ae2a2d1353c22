//! The cells of a new source, by those of an old one.

ghost use Rattle.std.specs.Prelude.{IfOk};
ghost use Rattle.logic_carry.specs.Both.{CarriesValues, CarriesClocks};

use crate::both::Both;
use crate::copies::{carried_clocks, carried_values};
use crate::kept::{kept_calls, kept_values, places_of, standard_paths, value_paths};
use logic_cells::Clock;
use std::alloc::{AllocError, Global};

/// The values of a new source, by those of the old one and those before the new one's first scan.
pub fn values_after(
    alloc: Global,
    both: &Both,
    before: &[i64],
    here: &[i64],
) -> Result<Vec<i64>, AllocError>
    ensures { IfOk result (λ after. CarriesValues both.now before.now here.now after.items) }
{
    let paths = value_paths(alloc, &both.old.values)?;
    let places = places_of(alloc, both.paths, &paths)?;
    let kept = kept_values(alloc, &both.old.values, &places, &both.new.values)?;
    let after = carried_values(alloc, before, here, &kept)?;
    Ok(after)
}

/// The clocks of a new source, by those of the old one and those before the new one's first scan.
pub fn clocks_after(
    alloc: Global,
    both: &Both,
    before: &[Clock],
    here: &[Clock],
) -> Result<Vec<Clock>, AllocError>
    ensures { IfOk result (λ after. CarriesClocks both.now before.now here.now after.items) }
{
    let paths = standard_paths(alloc, &both.old.standards)?;
    let places = places_of(alloc, both.paths, &paths)?;
    let kept = kept_calls(alloc, &both.old.standards, &places, &both.new.standards)?;
    let after = carried_clocks(alloc, before, here, &kept)?;
    Ok(after)
}

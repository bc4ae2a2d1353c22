//! The store of a plant's cells after the plant was changed while it runs.
//!
//! The server makes the store of a level's jobs anew in each scan, so none stands where a reload comes. This is for hosts that keep one from scan to scan.

ghost use Rattle.std.specs.Prelude.{◌≡◌, [], false, length, replicate, IfOk};
ghost use Rattle.logic_source.specs.Worlds.{World};
ghost use Rattle.logic_source.specs.Carried.{carried};
ghost use Rattle.vm_carry.specs.Stands.{StandFor};

use level_jobs::Store;
use logic_cells::Cells;
use std::alloc::{AllocError, Global};
use vm_carry::{Framed, carry};

/// A copy of the cells of a store.
fn cells_of(alloc: Global, store: &Store) -> Result<Cells, AllocError>
    ensures { IfOk result (λ cells. cells ≡ store.now.cells) }
{
    let values = Vec::from_slice(alloc, store.values())?;
    let clocks = Vec::from_slice(alloc, store.clocks())?;
    Ok(Cells::new(values, clocks))
}

/// The store of a plant after it was changed, by that of the old one: its cells go over as by `carry`, no program is faulted, the moment stays, and
/// no job is out. The cells have to be those of the old plant. Fails if memory is refused; the old store stays as it is.
pub fn carry_store(
    alloc: Global,
    old: &Framed,
    store: &Store,
    new: &Framed,
) -> Result<Store, AllocError>
    ensures cells { IfOk result (λ after. (w : World) → StandFor old.now store.now.cells w
        → StandFor new.now after.cells (carried old.now new.now w)) }
    ensures faulted { IfOk result (λ after. after.faulted ≡ replicate (length new.now.programs) false) }
    ensures moment { IfOk result (λ after. after.moment ≡ store.now.moment) }
    ensures out { IfOk result (λ after. after.out ≡ []) }
{
    let cells = cells_of(alloc, store)?;
    let carried = carry(alloc, old, &cells, new)?;
    let faulted = vec![in alloc; false; new.programs().len()]?;
    Ok(Store::of(alloc, carried, faulted, store.moment()))
}

//! The plan of codes, read off their parts of the cells.

ghost use Rattle.std.specs.Prelude.{◌≡◌, ◌<◌, ◌^◌, ℕ, List, Some, length, map, get_or, slice_get, IfOk};
ghost use Rattle.acc_vm.specs.Codes.{PlainCode};
ghost use Rattle.vm_slices.specs.Parts.{IsPartOf};
ghost use Rattle.level_plan.specs.Accesses.{StaysWithin};
ghost use Rattle.level_runs.specs.Accesses.{AreGlobalsOf, ArePartsOf, IsAccessOf};
ghost use Rattle.level_runs.specs.Plans.{IsPlanOf};

use level_plan::{Access, Extent, Levels, plan};
use std::alloc::{AllocError, Global};
use vm_slices::Part;

/// The globals among slots, each in an extent of its own.
fn globals_among(alloc: Global, slots: &[u32], globals: usize) -> Result<Vec<Extent>, AllocError>
    ensures { IfOk result (λ extents. AreGlobalsOf globals slots.now extents.items) }
{
    let mut extents = Vec::new(alloc);
    for slot in slots {
        if (*slot as usize) < globals {
            extents.push(Extent {
                first: *slot,
                count: 1,
            })?;
        }
    }
    Ok(extents)
}

/// The slots at places of a list.
fn slots_at(alloc: Global, slots: &[u32], places: &[u32]) -> Result<Vec<u32>, AllocError>
    requires { (i p : ℕ) → slice_get places.now i ≡ Some p → p < length slots.now }
    ensures { IfOk result (λ found. found.items ≡ map (λ p. get_or slots.now p 0) places.now) }
{
    let mut found = Vec::with_capacity(alloc, places.len())?;
    for place in places {
        found.push(slots[*place as usize])?;
    }
    Ok(found)
}

/// What a code does to so many globals, by its part. One that it writes is told among those that it reads too: this changes no level.
fn access_of(alloc: Global, part: &Part, globals: usize) -> Result<Access, AllocError>
    ensures within { IfOk result (λ access. StaysWithin globals access) }
    ensures tells { IfOk result (λ access. (whole : PlainCode) → IsPartOf whole part.now
        → IsAccessOf globals whole.instrs access) }
{
    let slots = part.slots();
    let written = slots_at(alloc, slots, part.written())?;
    Ok(Access {
        reads: globals_among(alloc, slots, globals)?,
        writes: globals_among(alloc, &written, globals)?,
    })
}

/// The levels of codes, by their parts and the number of globals, which come first among the slots. It takes time in proportion to the globals and to
/// the slots of all parts together.
pub fn plan_of(alloc: Global, parts: &[Part], globals: usize) -> Result<Levels, AllocError>
    requires { length parts.now < 2 ^ 32 }
    ensures { IfOk result (λ levels. (codes : List PlainCode) → ArePartsOf codes parts.now
        → IsPlanOf globals codes levels) }
{
    let mut accesses = Vec::with_capacity(alloc, parts.len())?;
    for part in parts {
        accesses.push(access_of(alloc, part, globals)?)?;
    }
    plan(alloc, accesses.as_slice(), globals)
}

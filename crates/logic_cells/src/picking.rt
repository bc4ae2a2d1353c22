//! Values and clocks that are picked out of all.

ghost use Rattle.std.specs.Prelude.{◌≡◌, ◌<◌, ℕ, pos, [], Some, map, length, slice_get, slice_index_or, OnOk};
ghost use Rattle.logic_cells.specs.declared.clock.Standard.{Standard};
ghost use Rattle.logic_cells.specs.Clocks.{clock_of};

use crate::clock::{Clock, Standard};
use std::alloc::AllocError;

/// Becomes the values of slots in a row of all values.
#[tactic(auto, using(crate::proofs::Picked::picked_more))]
pub(crate) fn pick_values(
    picked: &mut Vec<i64>,
    slots: &[u32],
    values: &[i64],
) -> Result<(), AllocError>
    requires { (i s : ℕ) → slice_get slots.now i ≡ Some s → s < length values.now }
    ensures { OnOk result (picked.new.items ≡ map (λ s. slice_index_or values.now s (pos 0)) slots.now) }
{
    if picked.len() != slots.len() {
        picked.clear();
        picked.resize(slots.len(), 0)?;
    }
    for (i, slot) in slots.iter().enumerate() {
        picked[i] = values[*slot as usize];
    }
    Ok(())
}

/// The clock of a number in a row of them.
#[tactic(auto, using(crate::proofs::Picked::any_default))]
fn picked_clock(clocks: &[Clock], number: u32) -> Clock
    requires { number < length clocks.now }
    ensures { result ≡ slice_index_or clocks.now number (clock_of Standard.Ton []) }
{
    clocks[number as usize]
}

/// Becomes the clocks of numbers in a row of all clocks.
#[tactic(auto, using(crate::proofs::Picked::picked_more))]
pub(crate) fn pick_clocks(
    picked: &mut Vec<Clock>,
    numbers: &[u32],
    clocks: &[Clock],
) -> Result<(), AllocError>
    requires { (i k : ℕ) → slice_get numbers.now i ≡ Some k → k < length clocks.now }
    ensures { OnOk result
        (picked.new.items
        ≡ map (λ k. slice_index_or clocks.now k (clock_of Standard.Ton [])) numbers.now) }
{
    if picked.len() != numbers.len() {
        picked.clear();
        picked.resize(numbers.len(), Clock::new(Standard::Ton))?;
    }
    for (i, number) in numbers.iter().enumerate() {
        picked[i] = picked_clock(clocks, *number);
    }
    Ok(())
}

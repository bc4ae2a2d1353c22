//! Cells after what goes over was carried to them.

ghost use Rattle.std.specs.Prelude.{◌≡◌, ◌<◌, IfOk, get_or, length, pos};
ghost use Rattle.logic_carry.specs.Keeping.{carried_one, AreCarried};

use crate::kept::place_of;
use logic_cells::Clock;
use std::alloc::{AllocError, Global};

/// The old value of a number, or else the one at a place here.
fn carried_value(before: &[i64], here: &[i64], place: usize, kept: Option<usize>) -> i64
    requires { place < length here.now }
    ensures { result ≡ carried_one before.now (get_or here.now place (pos 0)) kept }
{
    match kept {
        None => here[place],
        Some(number) => match before.get(number) {
            Some(value) => *value,
            None => here[place],
        },
    }
}

/// The old clock of a number, or else the one that is here.
fn carried_clock(before: &[Clock], here: Clock, kept: Option<usize>) -> Clock
    ensures { result ≡ carried_one before.now here kept }
{
    match kept {
        None => here,
        Some(number) => match before.get(number) {
            Some(clock) => *clock,
            None => here,
        },
    }
}

/// Values after the old ones of these numbers were carried to them.
pub fn carried_values(
    alloc: Global,
    before: &[i64],
    here: &[i64],
    kept: &[Option<usize>],
) -> Result<Vec<i64>, AllocError>
    ensures { IfOk result (λ after. AreCarried before.now here.now kept.now (length here.now)
        after.items) }
{
    let mut after = Vec::with_capacity(alloc, here.len())?;
    for number in 0..here.len() {
        let old = place_of(kept, number);
        let value = carried_value(before, here, number, old);
        after.push(value)?;
    }
    Ok(after)
}

/// Clocks after the old ones of these numbers were carried to them.
pub fn carried_clocks(
    alloc: Global,
    before: &[Clock],
    here: &[Clock],
    kept: &[Option<usize>],
) -> Result<Vec<Clock>, AllocError>
    ensures { IfOk result (λ after. AreCarried before.now here.now kept.now (length here.now)
        after.items) }
{
    let mut after = Vec::with_capacity(alloc, here.len())?;
    for number in 0..here.len() {
        let old = place_of(kept, number);
        after.push(carried_clock(before, here[number], old))?;
    }
    Ok(after)
}

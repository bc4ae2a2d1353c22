//! Copies of instances.

ghost use Rattle.std.specs.Prelude.{◌≡◌, IfOk};

use crate::frame::Seat;
use std::alloc::{AllocError, Global};

/// The same instances in the same order.
pub fn copy_seats(alloc: Global, seats: &[Seat]) -> Result<Vec<Seat>, AllocError>
    ensures { IfOk result (λ copies. copies.items ≡ seats.now) }
{
    let mut copies = Vec::with_capacity(alloc, seats.len())?;
    for seat in seats {
        copies.push(Seat {
            name: seat.name.copy(alloc)?,
            of: seat.of,
            values: seat.values,
            clocks: seat.clocks,
            paths: seat.paths,
            is_called: seat.is_called,
        })?;
    }
    Ok(copies)
}

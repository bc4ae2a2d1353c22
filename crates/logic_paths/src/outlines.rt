//! What is kept of frames.

ghost use Rattle.std.specs.Prelude.{◌≡◌, IfOk, map};
ghost use Rattle.logic_paths.specs.Outlines.{AreOutlines, seats_in};

use logic_walk::{Frame, Seat, copy_seats};
use std::alloc::{AllocError, Global};

/// The instances of a frame, in order.
pub struct Outline {
    pub seats: Vec<Seat>,
}

impl Drop for Outline {
    fn drop(self) {
        let Outline { seats: _ } = self;
    }
}

/// The outlines of frames, in the same order.
pub fn outlines_of(alloc: Global, frames: &[Frame]) -> Result<Vec<Outline>, AllocError>
    ensures { IfOk result (λ outlines. AreOutlines frames.now outlines.items) }
{
    let mut outlines = Vec::with_capacity(alloc, frames.len())?;
    for frame in frames {
        outlines.push(Outline {
            seats: copy_seats(alloc, &frame.seats)?,
        })?;
    }
    Ok(outlines)
}

/// The same outlines in the same order.
pub fn copy_outlines(alloc: Global, outlines: &[Outline]) -> Result<Vec<Outline>, AllocError>
    ensures { IfOk result (λ copies. map seats_in copies.items ≡ map seats_in outlines.now) }
{
    let mut copies = Vec::with_capacity(alloc, outlines.len())?;
    for outline in outlines {
        copies.push(Outline {
            seats: copy_seats(alloc, &outline.seats)?,
        })?;
    }
    Ok(copies)
}

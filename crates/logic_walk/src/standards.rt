//! Lists the standard blocks of a routine.

ghost use Rattle.std.specs.Prelude.{◌≡◌, ◌≤◌, ◌++◌, length, IfOk};
ghost use Rattle.logic_walk.specs.Standards.{frame_standards, seats_standards, ClocksAreCounted};

use crate::frame::{Frame, Seat, SeatOf};
use logic_cells::Standard;
use std::alloc::AllocError;

/// Appends the standard blocks of the frame of a number among so many first ones.
#[cycle(push)]
fn push_within(
    frames: &[Frame],
    limit: usize,
    k: usize,
    standards: &mut Vec<Standard>,
) -> Result<(), AllocError>
    requires there { limit ≤ length frames.now }
    requires counted { ClocksAreCounted frames.now }
    ensures { IfOk result (λ _. standards.new.items
        ≡ standards.old.items ++ frame_standards frames.now limit k) }
{
    if k < limit {
        let frame = &frames[k];
        if frame.clocks > 0 {
            push_seats(frames, k, &frame.seats, standards)?;
        }
    }
    Ok(())
}

/// Appends the standard blocks of instances.
#[cycle(push)]
fn push_seats(
    frames: &[Frame],
    limit: usize,
    seats: &[Seat],
    standards: &mut Vec<Standard>,
) -> Result<(), AllocError>
    requires there { limit ≤ length frames.now }
    requires counted { ClocksAreCounted frames.now }
    ensures { IfOk result (λ _. standards.new.items
        ≡ standards.old.items ++ seats_standards (frame_standards frames.now limit) seats.now) }
{
    for seat in seats {
        match seat.of {
            SeatOf::Standard(standard) => standards.push(standard)?,
            SeatOf::Frame(k) => push_within(frames, limit, k, standards)?,
        }
    }
    Ok(())
}

/// Appends the standard blocks of the frame of a number, instance by instance, nested ones too, as the clocks of its cells lie. An instance without
/// any is skipped by the mark of its frame. Fails if memory is refused; what was appended then is of no use. A frame that isn't there has none.
pub fn push_standards(
    frames: &[Frame],
    k: usize,
    standards: &mut Vec<Standard>,
) -> Result<(), AllocError>
    requires { ClocksAreCounted frames.now }
    ensures { IfOk result (λ _. standards.new.items
        ≡ standards.old.items ++ frame_standards frames.now (length frames.now) k) }
{
    push_within(frames, frames.len(), k, standards)
}

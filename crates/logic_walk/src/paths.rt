//! Writes the path of a number as text.

ghost use Rattle.std.specs.Prelude.{◌≡◌, ◌<◌, ◌≤◌, ◌++◌, [], length, codes, slice_index_or, string_bytes, IfOk};
ghost use Rattle.logic_walk.specs.Frames.{AreInTurn, frame_paths};
ghost use Rattle.logic_walk.specs.Paths.{path_suffix, begins_by, last_by};

use crate::frame::{Frame, Seat, SeatOf};
use plant_types::Text;
use std::alloc::AllocError;

/// Whether an instance is of a frame and called, and its path numbers begin at the given one or before it.
fn begins_by(seat: &Seat, path: u32) -> bool
    ensures { result ≡ begins_by seat.now path }
{
    match seat.of {
        SeatOf::Frame(_) => seat.is_called && seat.paths <= path,
        SeatOf::Standard(_) => false,
    }
}

/// The number of the last such instance; 0 if there is none.
fn last_by(seats: &[Seat], path: u32) -> usize
    ensures { result ≡ last_by seats.now path 0 0 }
{
    let mut found = 0;
    for i in 0..seats.len() {
        if begins_by(&seats[i], path) {
            found = i;
        }
    }
    found
}

/// Appends a point and a name.
fn push_name(name: &Text, text: &mut String) -> Result<(), AllocError>
    ensures { IfOk result (λ _. string_bytes text.new ≡ string_bytes text.old ++ codes "." ++ name.now) }
{
    text.push_str(".")?;
    text.push_str(name.as_str())
}

/// Appends the path of a number below the frame of a number among so many first ones.
fn push_within(
    frames: &[Frame],
    limit: usize,
    k: usize,
    path: u32,
    text: &mut String,
) -> Result<(), AllocError>
    requires there { limit ≤ length frames.now }
    requires in_turn { AreInTurn frames.now }
    requires path { path < length (frame_paths frames.now limit k) }
    ensures { IfOk result (λ _. string_bytes text.new
        ≡ string_bytes text.old
        ++ path_suffix (slice_index_or (frame_paths frames.now limit k) path [])) }
{
    let frame = &frames[k];
    if path == 0 {
        return Ok(());
    }
    let seats = frame.seats.as_slice();
    let seat = &seats[last_by(seats, path)];
    push_name(&seat.name, text)?;
    match seat.of {
        SeatOf::Frame(below) => push_within(frames, k, below, path - seat.paths, text),
        SeatOf::Standard(_) => Ok(()),
    }
}

/// Appends the path of a number below the frame of a number, from the frame down: a point and the name of each instance on the way, and nothing for
/// the frame itself. Fails if memory is refused; what was appended then is of no use.
pub fn push_path(frames: &[Frame], k: usize, path: u32, text: &mut String) -> Result<(), AllocError>
    requires in_turn { AreInTurn frames.now }
    requires path { path < length (frame_paths frames.now (length frames.now) k) }
    ensures { IfOk result (λ _. string_bytes text.new
        ≡ string_bytes text.old
        ++ path_suffix (slice_index_or (frame_paths frames.now (length frames.now) k) path [])) }
{
    push_within(frames, frames.len(), k, path, text)
}

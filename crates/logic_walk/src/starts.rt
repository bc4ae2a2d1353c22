//! Assigns the initial values of a routine, and of the instances below it.

ghost use Rattle.std.specs.Prelude.{◌≡◌, ◌≤◌, ◌+◌, length};
ghost use Rattle.logic_walk.specs.Starts.{frame_begun, seats_begun, StartsAreMarked};
ghost use Rattle.logic_walk.specs.Walks.{HasRoom};

use crate::frame::{Base, Frame, Seat, SeatOf};
use crate::walk::Walk;
use crate::walker::run_body;
use logic_cells::Cells;

#[cycle(start)]
fn start_within(
    frames: &[Frame],
    limit: usize,
    k: usize,
    globals: usize,
    base: Base,
    cells: &mut Cells,
)
    requires there { limit ≤ length frames.now }
    requires marked { StartsAreMarked frames.now }
    requires room { HasRoom base limit }
    ensures { cells.new ≡ frame_begun globals frames.now limit k base cells.old }
{
    if k < limit {
        let frame = &frames[k];
        if frame.has_starts {
            let alone = Walk {
                frames: &[],
                limit: 0,
                seats: &[],
                globals,
                base,
                moment: 0,
            };
            let _ended = run_body(&alone, &frame.starts, cells);
            start_seats(frames, k, &frame.seats, globals, base, cells);
        }
    }
}

#[cycle(start)]
fn start_seats(
    frames: &[Frame],
    limit: usize,
    seats: &[Seat],
    globals: usize,
    base: Base,
    cells: &mut Cells,
)
    requires there { limit ≤ length frames.now }
    requires marked { StartsAreMarked frames.now }
    requires room { HasRoom base (limit + 1) }
    ensures { cells.new ≡ seats_begun (frame_begun globals frames.now limit) seats.now base cells.old }
{
    for seat in seats {
        if let SeatOf::Frame(k) = seat.of {
            let inside = Base {
                values: base.values + seat.values as u128,
                clocks: base.clocks + seat.clocks as u128,
            };
            start_within(frames, limit, k, globals, inside, cells);
        }
    }
}

/// Assigns the initial values of the frame of a number, whose values and clocks begin at the given numbers, and then those of its instances
/// in turn, nested ones too. An instance with nothing to assign is skipped by the mark of its frame. It allocates nothing. A frame that isn't
/// there does nothing.
pub fn start_frame(
    frames: &[Frame],
    globals: usize,
    k: usize,
    values: usize,
    clocks: usize,
    cells: &mut Cells,
)
    requires { StartsAreMarked frames.now }
    ensures { cells.new
        ≡ frame_begun globals frames.now (length frames.now) k
        (record { values = values; clocks = clocks }) cells.old }
{
    let base = Base {
        values: values as u128,
        clocks: clocks as u128,
    };
    start_within(frames, frames.len(), k, globals, base, cells);
}

//! Counts the paths below a routine.

ghost use Rattle.std.specs.Prelude.{◌≡◌, ℕ, length, List, [], ◌++◌, ◌∷◌};
ghost use Rattle.plant_types.specs.Values.{Path};
ghost use Rattle.logic_walk.specs.Frames.{routine_paths, paths_below};
ghost use Rattle.vm_sizes.specs.Counts.{capped, paths_at};

use crate::capping::add;
use crate::counts::Count;
use logic_walk::{Seat, SeatOf};

/// The paths of the frame of a number, by a table; 0 past its end.
fn paths_at(table: &[Count], k: usize) -> usize
    ensures { result ≡ paths_at table.now k }
{
    match table.get(k) {
        Some(count) => count.paths,
        None => 0,
    }
}

fn paths_below(table: &[Count], seat: &Seat) -> usize
    ensures { (paths : ℕ → List Path) → ((k : ℕ) → capped (length (paths k)) ≡ paths_at table.now k)
        → result ≡ capped (length (paths_below paths seat.now)) }
{
    if !seat.is_called {
        return 0;
    }
    match seat.of {
        SeatOf::Standard(_) => 0,
        SeatOf::Frame(k) => paths_at(table, k),
    }
}

/// The paths of a routine, by its instances and the counts of the frames before its own.
pub(crate) fn routine_paths(table: &[Count], seats: &[Seat]) -> usize
    ensures { (paths : ℕ → List Path) → ((k : ℕ) → capped (length (paths k)) ≡ paths_at table.now k)
        → result ≡ capped (length (routine_paths paths seats.now)) }
{
    let mut total = 1;
    for seat in seats {
        total = add(total, paths_below(table, seat));
    }
    total
}

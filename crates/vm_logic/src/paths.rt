//! Where the path numbers of each program begin, and which program has a path.

ghost use Rattle.std.specs.Prelude.{◌≡◌, ◌+◌, ◌^◌, ◌≤◌, ◌<◌, get_or, length, IfOk};
ghost use Rattle.std.specs.List.{sum_by};
ghost use Rattle.logic_source.specs.Source.{source_of};
ghost use Rattle.logic_source.specs.Blocks.{AreBelow};
ghost use Rattle.logic_frames.specs.Frames.{IsFrames};
ghost use Rattle.vm_logic.specs.Sound.{IsSound};
ghost use Rattle.vm_logic.specs.Bases.{numbers_in, seat_count, stopped_paths, ArePathsCounted, program_paths_base, AreBases};

use logic_frames::frames_have_paths;
use logic_source::Logic;
use logic_walk::{Frame, Seat, SeatOf};
use std::alloc::{AllocError, Global};

/// The sum, up to where counts stop.
fn add(a: u32, b: u32) -> u32
    ensures { result ≡ stopped_paths (a + b) }
{
    a.saturating_add(b)
}

/// How many paths an instance adds, by the counts of the frames.
fn seat_count(counts: &[u32], seat: &Seat) -> u32
    ensures { result ≡ seat_count (numbers_in counts.now) seat.now }
{
    if !seat.is_called {
        return 0;
    }
    match seat.of {
        SeatOf::Standard(_) => 0,
        SeatOf::Frame(number) => match counts.get(number) {
            Some(count) => *count,
            None => 0,
        },
    }
}

/// How many paths a routine has, its own among them, by the counts of the frames, up to where counts stop.
fn routine_count(counts: &[u32], seats: &[Seat]) -> u32
    ensures { result ≡ stopped_paths (1 + sum_by (seat_count (numbers_in counts.now)) seats.now) }
{
    let mut total = 1;
    for seat in seats {
        total = add(total, seat_count(counts, seat));
    }
    total
}

/// How many paths each frame has, up to where counts stop.
fn count_frames(alloc: Global, frames: &[Frame]) -> Result<Vec<u32>, AllocError>
    ensures { IfOk result (λ counts. ArePathsCounted frames.now (length frames.now) counts.items) }
{
    let mut counts = Vec::new(alloc);
    for frame in frames {
        let count = routine_count(&counts, &frame.seats);
        counts.push(count)?;
    }
    Ok(counts)
}

/// The number of the first path of each program, and behind them the number of all paths. No count stops that is needed here: a program has at most
/// one path more than its size.
pub fn path_bases(
    alloc: Global,
    logic: &Logic,
    order: &[usize],
    frames: &[Frame],
) -> Result<Vec<u32>, AllocError>
    requires frames { IsFrames (source_of logic.now) order.now frames.now }
    requires below { AreBelow (source_of logic.now).blocks order.now }
    requires sound { IsSound (source_of logic.now) }
    ensures bases { IfOk result (λ row. AreBases (program_paths_base (source_of logic.now))
        (length (source_of logic.now).programs) row.items) }
    ensures fit { IfOk result (λ _. program_paths_base (source_of logic.now)
        (length (source_of logic.now).programs) < 2 ^ 32) }
{
    frames_have_paths();
    let counts = count_frames(alloc, frames)?;
    let mut row = Vec::new(alloc);
    let mut at = 0;
    row.push(at)?;
    let mut place = order.len();
    for _program in &logic.programs {
        at = add(at, counts[place]);
        row.push(at)?;
        place += 1;
    }
    Ok(row)
}

/// The number of the program that has the path of a number, where the bases of so many programs' paths are given, and behind them the
/// number of all paths.
pub fn program_of(bases: &[u32], programs: usize, path: u32) -> usize
    requires long { length bases.now ≡ programs + 1 }
    requires begins { get_or bases.now 0 0 ≤ path }
    requires within { path < get_or bases.now programs 0 }
    ensures there { result < programs }
    ensures begins { get_or bases.now result 0 ≤ path }
    ensures ends { path < get_or bases.now (result + 1) 0 }
{
    let mut program = 0;
    while bases[program + 1] <= path {
        program += 1;
    }
    program
}

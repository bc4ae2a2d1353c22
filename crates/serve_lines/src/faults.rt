//! FAULT lines, written into the room of a text.

ghost use Rattle.std.specs.Prelude.{◌≡◌, ◌+◌, ◌≤◌, ◌++◌, [], ◌∷◌, length, take, codes, decimal};
ghost use Rattle.plant_types.specs.Values.{trap_text};
ghost use Rattle.serve_lines.specs.Placing.{IsPlaced, IsShort};

use crate::placing::{place_part, place_slice, place_text};
use itoa::Buffer;
use plant_types::Trap;

/// A trap's word between a space and LF, at the start of sixteen bytes, and how long it is.
#[inline(always)]
fn trap_word(trap: Trap) -> (&'static [u8], usize)
    ensures text { take result.1 result.0.now ≡ 32 ∷ trap_text trap ++ 10 ∷ [] }
    ensures bytes { length result.0.now ≡ 16 }
    ensures size { result.1 ≤ 16 }
{
    match trap {
        Trap::Overflow => (b" OVERFLOW\n      ", 10),
        Trap::DivZero => (b" DIVZERO\n       ", 9),
        Trap::Index => (b" INDEX\n         ", 7),
    }
}

/// Puts a trap's word between a space and LF at a place that has room for 16 bytes, and returns the place after it.
#[inline(always)]
fn place_trap(row: &mut [u8], at: usize, trap: Trap) -> usize
    requires { at + 16 ≤ length row.old }
    ensures placed { IsPlaced row.old row.new at (32 ∷ trap_text trap ++ 10 ∷ []) result }
    ensures place { result ≤ at + 16 }
{
    let (bytes, size) = trap_word(trap);
    place_part::<16>(row, at, bytes, size)
}

/// Puts a statement's number after a space, a trap's word after another, and LF at a place that has room for 27 bytes, and returns the place
/// after them.
#[inline(always)]
pub(crate) fn place_stop(row: &mut [u8], at: usize, statement: u32, trap: Trap) -> usize
    requires { at + 27 ≤ length row.old }
    ensures placed { IsPlaced row.old row.new at
        (32 ∷ decimal statement ++ (32 ∷ trap_text trap ++ 10 ∷ [])) result }
    ensures place { result ≤ at + 27 }
{
    let mut number = Buffer::new();
    let apart = place_slice(row, at, b" ");
    let counted = place_text(row, apart, number.format(statement).as_bytes());
    place_trap(row, counted, trap)
}

/// Puts what a FAULT line says before its statement at a place, and returns the place after it.
#[inline(always)]
pub(crate) fn place_path(row: &mut [u8], at: usize, moment: &[u8], path: &[u8]) -> usize
    requires room { at + 96 ≤ length row.old }
    requires short { IsShort moment.now path.now }
    ensures placed { IsPlaced row.old row.new at (codes "FAULT " ++ (moment.now ++ (32 ∷ path.now)))
        result }
    ensures place { result ≤ at + 63 }
{
    let named = place_slice(row, at, b"FAULT ");
    let timed = place_text(row, named, moment);
    let apart = place_slice(row, timed, b" ");
    place_text(row, apart, path)
}

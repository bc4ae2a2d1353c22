//! OUT lines, written into the room of a text.

ghost use Rattle.std.specs.Prelude.{◌≡◌, ◌+◌, ◌≤◌, ◌++◌, [], ◌∷◌, length, take, codes, decimal, IfOk};
ghost use Rattle.plant_types.specs.declared.values.Value.TheVariants as value;
ghost use Rattle.serve_lines.specs.Lines.{out_front, out_line, value_text};
ghost use Rattle.serve_lines.specs.Placing.{IsPlaced, IsPut, IsShort};

use crate::placing::{make_room, place_digits, place_part, place_slice, place_text};
use itoa::Buffer;
use plant_types::Value;
use std::alloc::AllocError;
use std::marker::Model;

/// What the OUT lines of one moment begin with, made once for all of them. Contracts see the moment.
#[derive(Drop)]
pub struct OutFront {
    moment: u64,
    bytes: [u8; 32],
    size: usize,
}

impl Model for OutFront {
    ghost use Rattle.std.specs.Prelude.{ℕ};
    ghost use Rattle.serve_lines.specs.Placing.{IsOutFront};

    ghost Value = { ℕ };

    ghost view = { λ f. f.moment };

    ghost invariant = { λ f. IsOutFront f.moment f.bytes f.size };
}

impl OutFront {
    /// What the OUT lines of a moment begin with. The moment is given with its digits.
    pub fn new(moment: u64, digits: &str) -> OutFront
        requires { digits.now ≡ decimal moment }
        ensures { result ≡ moment }
    {
        let mut bytes = [b' '; 32];
        let size = place_digits(&mut bytes, b"OUT ", digits.as_bytes());
        OutFront {
            moment,
            bytes,
            size,
        }
    }

    /// Puts it at a place that has room for 32 bytes, and returns the place after it.
    #[inline(always)]
    fn place(&self, row: &mut [u8], at: usize) -> usize
        requires { at + 32 ≤ length row.old }
        ensures placed { IsPlaced row.old row.new at (out_front self.now) result }
        ensures place { result ≤ at + 32 }
    {
        place_part::<32>(row, at, &self.bytes, self.size)
    }
}

/// A truth value's text between a space and LF, at the start of eight bytes, and how long it is.
#[inline(always)]
fn truth_text(truth: bool) -> (&'static [u8], usize)
    ensures text { take result.1 result.0.now ≡ 32 ∷ value_text (value.Bool truth) ++ 10 ∷ [] }
    ensures bytes { length result.0.now ≡ 8 }
    ensures size { result.1 ≤ 8 }
{
    if truth {
        (b" TRUE\n  ", 6)
    } else {
        (b" FALSE\n ", 7)
    }
}

/// Puts a truth value's text between a space and LF at a place that has room for 8 bytes, and returns the place after it.
#[inline(always)]
fn place_truth(row: &mut [u8], at: usize, truth: bool) -> usize
    requires { at + 8 ≤ length row.old }
    ensures placed { IsPlaced row.old row.new at (32 ∷ value_text (value.Bool truth) ++ 10 ∷ []) result }
    ensures place { result ≤ at + 8 }
{
    let (bytes, size) = truth_text(truth);
    place_part::<8>(row, at, bytes, size)
}

/// Puts digits between a space and LF at a place that has room for 22 bytes, and returns the place after them.
#[inline(always)]
fn place_number(row: &mut [u8], at: usize, digits: &[u8]) -> usize
    requires room { at + 22 ≤ length row.old }
    requires size { length digits.now ≤ 20 }
    ensures placed { IsPlaced row.old row.new at (32 ∷ digits.now ++ 10 ∷ []) result }
    ensures place { result ≤ at + 22 }
{
    let apart = place_slice(row, at, b" ");
    let last = place_text(row, apart, digits);
    place_slice(row, last, b"\n")
}

/// Puts a value's text between a space and LF at a place that has room for 22 bytes, and returns the place after it.
#[inline(always)]
fn place_value(row: &mut [u8], at: usize, value: Value) -> usize
    requires { at + 22 ≤ length row.old }
    ensures placed { IsPlaced row.old row.new at (32 ∷ value_text value ++ 10 ∷ []) result }
    ensures place { result ≤ at + 22 }
{
    let mut shown = Buffer::new();
    match value {
        Value::Bool(truth) => place_truth(row, at, truth),
        Value::Dint(number) => place_number(row, at, shown.format(number).as_bytes()),
        Value::Time(number) => place_number(row, at, shown.format(number).as_bytes()),
    }
}

/// Puts an OUT line at a place that has room for its name and 64 bytes, and returns the place after it.
#[inline(always)]
fn place_line(row: &mut [u8], at: usize, front: &OutFront, name: &[u8], value: Value) -> usize
    requires { at + length name.now + 64 ≤ length row.old }
    ensures placed { IsPlaced row.old row.new at (out_line front.now name.now value) result }
    ensures within { result ≤ length row.new }
{
    let timed = front.place(row, at);
    let named = place_text(row, timed, name);
    place_value(row, named, value)
}

/// Puts `OUT MOMENT NAME VALUE` after the first `at` bytes of a text, and returns the place after it; what is beyond that is room for more. So the
/// lines of many outputs are written one after another, and the text is cut after the last.
pub fn put_out(
    text: &mut Vec<u8>,
    at: usize,
    front: &OutFront,
    name: &str,
    value: Value,
) -> Result<usize, AllocError>
    requires { at ≤ length text.old.items }
    ensures { IfOk result (λ end. IsPut text.old.items text.new.items at
        (out_line front.now name.now value) end) }
{
    let name = name.as_bytes();
    make_room(text, at, name)?;
    Ok(place_line(text.as_mut_slice(), at, front, name, value))
}

/// Puts an OUT line at a place, and returns the place after it.
#[inline(always)]
pub(crate) fn place_out(
    row: &mut [u8],
    at: usize,
    moment: &[u8],
    name: &[u8],
    value: Value,
) -> usize
    requires room { at + 96 ≤ length row.old }
    requires short { IsShort moment.now name.now }
    ensures { IsPlaced row.old row.new at
        (codes "OUT " ++ (moment.now ++ (32 ∷ (name.now ++ (32 ∷ value_text value ++ 10 ∷ [])))))
        result }
{
    let kind = place_slice(row, at, b"OUT ");
    let timed = place_text(row, kind, moment);
    let apart = place_slice(row, timed, b" ");
    let named = place_text(row, apart, name);
    place_value(row, named, value)
}

//! Lines, written into the room of a text by copies of a fixed size: no copy asks for memory, and the compiler knows how long each is.

ghost use Rattle.std.specs.Prelude.{◌≡◌, ◌+◌, ◌≤◌, ◌++◌, ◌<◌, [], ◌∷◌, length, take, codes, true, OnOk, OnErr, IfOk};
ghost use Rattle.alarm_machine.specs.Codes.{code_text};
ghost use Rattle.serve_lines.specs.Lines.{alarm_front, alarm_line};
ghost use Rattle.serve_lines.specs.Placing.{IsPlaced, IsPut, IsShort, IsOpened};

use alarm_machine::{Change, Code};
use itoa::Buffer;
use std::alloc::AllocError;
use std::marker::Model;
use std::simd::Simd;

/// How many bytes of room are made at a time, beside those for the tag of the line that has none.
const ROOM: usize = 1_024;

/// How many bytes of room a short line has that is alone.
const LINE: usize = 96;

/// How many bytes the moment of a short line has at most.
const MOMENT: usize = 20;

/// How many bytes the tag or the name of a short line has at most.
const NAME: usize = 36;

/// Puts the first N bytes of a text at a place, by one load and one store, and returns the place after them.
#[inline(always)]
fn place_front<const N: usize>(row: &mut [u8], at: usize, bytes: &[u8]) -> usize
    requires bytes { N ≤ length bytes.now }
    requires room { at + N ≤ length row.old }
    ensures { IsPlaced row.old row.new at (take N bytes.now) result }
{
    Simd::<u8, N>::from_slice(bytes).copy_to_slice(&mut row[at..]);
    at + N
}

/// Puts the first `size` bytes of a text at a place that has room for N, and returns the place after them.
#[inline(always)]
pub(crate) fn place_part<const N: usize>(
    row: &mut [u8],
    at: usize,
    bytes: &[u8],
    size: usize,
) -> usize
    requires bytes { N ≤ length bytes.now }
    requires room { at + N ≤ length row.old }
    requires size { size ≤ N }
    ensures placed { IsPlaced row.old row.new at (take size bytes.now) result }
    ensures place { result ≡ at + size }
{
    place_front::<N>(row, at, bytes);
    at + size
}

/// Puts a text of N to 2 N bytes at a place, by copies of its first N bytes and of its last, and returns the place after it.
#[inline(always)]
fn place_ends<const N: usize>(row: &mut [u8], at: usize, bytes: &[u8]) -> usize
    requires room { at + length bytes.now ≤ length row.old }
    requires covered { (N ≤ length bytes.now) × (length bytes.now ≤ N + N) }
    ensures { IsPlaced row.old row.new at bytes.now result }
{
    let last = bytes.len() - N;
    place_front::<N>(row, at, bytes);
    place_front::<N>(row, at + last, &bytes[last..])
}

/// Puts a text at a place, and returns the place after it.
#[inline(always)]
pub(crate) fn place_slice(row: &mut [u8], at: usize, bytes: &[u8]) -> usize
    requires { at + length bytes.now ≤ length row.old }
    ensures { IsPlaced row.old row.new at bytes.now result }
{
    let end = at + bytes.len();
    row[at..end].copy_from_slice(bytes);
    end
}

/// Puts a text of 1 to 7 bytes at a place, and returns the place after it.
#[inline(always)]
fn place_few(row: &mut [u8], at: usize, bytes: &[u8]) -> usize
    requires room { at + length bytes.now ≤ length row.old }
    requires size { (1 ≤ length bytes.now) × (length bytes.now < 8) }
    ensures { IsPlaced row.old row.new at bytes.now result }
{
    let size = bytes.len();
    if size < 2 {
        place_ends::<1>(row, at, bytes)
    } else if size < 4 {
        place_ends::<2>(row, at, bytes)
    } else {
        place_ends::<4>(row, at, bytes)
    }
}

/// Puts a text at a place, one of 1 to 32 bytes without a call, and returns the place after it.
#[inline(always)]
pub(crate) fn place_text(row: &mut [u8], at: usize, bytes: &[u8]) -> usize
    requires { at + length bytes.now ≤ length row.old }
    ensures { IsPlaced row.old row.new at bytes.now result }
{
    let size = bytes.len();
    if size == 0 || 32 < size {
        place_slice(row, at, bytes)
    } else if size < 8 {
        place_few(row, at, bytes)
    } else if size < 16 {
        place_ends::<8>(row, at, bytes)
    } else {
        place_ends::<16>(row, at, bytes)
    }
}

/// What the ALARM lines of one moment begin with, made once for all of them. Contracts see the moment.
#[derive(Drop)]
pub struct AlarmFront {
    moment: u64,
    bytes: [u8; 32],
    size: usize,
}

impl Model for AlarmFront {
    ghost use Rattle.std.specs.Prelude.{ℕ};
    ghost use Rattle.serve_lines.specs.Placing.{IsFront};

    ghost Value = { ℕ };

    ghost view = { λ f. f.moment };

    ghost invariant = { λ f. IsFront f.moment f.bytes f.size };
}

/// Puts a line's name with its space, digits and a space at the start of a text that has room, and returns the place after them.
#[inline(always)]
pub(crate) fn place_digits(row: &mut [u8], name: &[u8], digits: &[u8]) -> usize
    requires { length name.now + length digits.now + 1 ≤ length row.old }
    ensures { IsPlaced row.old row.new 0 (name.now ++ (digits.now ++ 32 ∷ [])) result }
{
    let named = place_slice(row, 0, name);
    let timed = place_text(row, named, digits);
    place_slice(row, timed, b" ")
}

impl AlarmFront {
    /// What the ALARM lines of a moment begin with.
    pub fn new(moment: u64) -> AlarmFront
        ensures { result ≡ moment }
    {
        let mut digits = Buffer::new();
        let digits = digits.format(moment).as_bytes();
        let mut bytes = [b' '; 32];
        let size = place_digits(&mut bytes, b"ALARM ", digits);
        AlarmFront {
            moment,
            bytes,
            size,
        }
    }

    /// Puts it at a place that has room for 32 bytes, and returns the place after it.
    #[inline(always)]
    fn place(&self, row: &mut [u8], at: usize) -> usize
        requires { at + 32 ≤ length row.old }
        ensures placed { IsPlaced row.old row.new at (alarm_front self.now) result }
        ensures place { result ≤ at + 32 }
    {
        place_part::<32>(row, at, &self.bytes, self.size)
    }
}

/// A code's text between two spaces, at the start of sixteen bytes, and how long it is.
#[inline(always)]
fn from_text(code: Code) -> (&'static [u8], usize)
    ensures text { take result.1 result.0.now ≡ 32 ∷ code_text code ++ 32 ∷ [] }
    ensures bytes { length result.0.now ≡ 16 }
    ensures size { result.1 ≤ 16 }
{
    match code {
        Code::Norm => (b" NORM           ", 6),
        Code::Unack => (b" UNACK          ", 7),
        Code::Acked => (b" ACKED          ", 7),
        Code::Rtnun => (b" RTNUN          ", 7),
        Code::Latun => (b" LATUN          ", 7),
        Code::Latak => (b" LATAK          ", 7),
        Code::Shelved => (b" SHELVED        ", 9),
        Code::Suppr => (b" SUPPR          ", 7),
        Code::Oos => (b" OOS            ", 5),
    }
}

/// A code's text and LF, at the start of sixteen bytes, and how long it is.
#[inline(always)]
fn to_text(code: Code) -> (&'static [u8], usize)
    ensures text { take result.1 result.0.now ≡ code_text code ++ 10 ∷ [] }
    ensures bytes { length result.0.now ≡ 16 }
    ensures size { result.1 ≤ 16 }
{
    match code {
        Code::Norm => (b"NORM\n           ", 5),
        Code::Unack => (b"UNACK\n          ", 6),
        Code::Acked => (b"ACKED\n          ", 6),
        Code::Rtnun => (b"RTNUN\n          ", 6),
        Code::Latun => (b"LATUN\n          ", 6),
        Code::Latak => (b"LATAK\n          ", 6),
        Code::Shelved => (b"SHELVED\n        ", 8),
        Code::Suppr => (b"SUPPR\n          ", 6),
        Code::Oos => (b"OOS\n            ", 4),
    }
}

/// Puts a code's text between two spaces at a place that has room for 16 bytes, and returns the place after it.
#[inline(always)]
fn place_from(row: &mut [u8], at: usize, code: Code) -> usize
    requires { at + 16 ≤ length row.old }
    ensures placed { IsPlaced row.old row.new at (32 ∷ code_text code ++ 32 ∷ []) result }
    ensures place { result ≤ at + 16 }
{
    let (bytes, size) = from_text(code);
    place_part::<16>(row, at, bytes, size)
}

/// Puts a code's text and LF at a place that has room for 16 bytes, and returns the place after it.
#[inline(always)]
fn place_to(row: &mut [u8], at: usize, code: Code) -> usize
    requires { at + 16 ≤ length row.old }
    ensures placed { IsPlaced row.old row.new at (code_text code ++ 10 ∷ []) result }
    ensures place { result ≤ at + 16 }
{
    let (bytes, size) = to_text(code);
    place_part::<16>(row, at, bytes, size)
}

/// Puts an ALARM line at a place that has room for its tag and 64 bytes, and returns the place after it.
#[inline(always)]
fn place_alarm(row: &mut [u8], at: usize, front: &AlarmFront, tag: &[u8], change: Change) -> usize
    requires { at + length tag.now + 64 ≤ length row.old }
    ensures placed { IsPlaced row.old row.new at (alarm_line front.now tag.now change) result }
    ensures within { result ≤ length row.new }
{
    let named = front.place(row, at);
    let tagged = place_text(row, named, tag);
    let left = place_from(row, tagged, change.from());
    place_to(row, left, change.to())
}

/// Makes room in a text after its first `at` bytes for a tag and 64 bytes, if there is none. Where memory is refused the first bytes stay.
#[inline(always)]
pub(crate) fn make_room(text: &mut Vec<u8>, at: usize, tag: &[u8]) -> Result<(), AllocError>
    requires { at ≤ length text.old.items }
    ensures first { take at text.new.items ≡ take at text.old.items }
    ensures room { OnOk result (at + length tag.now + 64 ≤ length text.new.items) }
{
    let room = text.len() - at;
    if 64 <= room && tag.len() <= room - 64 {
        return Ok(());
    }
    text.extend_from_slice(tag)?;
    text.resize(text.len() + ROOM, 0)
}

/// Puts `ALARM MOMENT TAG FROM TO` after the first `at` bytes of a text, and returns the place after it; what is beyond that is room for more. So the
/// lines of many changes are written one after another, and the text is cut after the last.
pub fn put_alarm(
    text: &mut Vec<u8>,
    at: usize,
    front: &AlarmFront,
    tag: &str,
    change: Change,
) -> Result<usize, AllocError>
    requires { at ≤ length text.old.items }
    ensures { IfOk result (λ end. IsPut text.old.items text.new.items at
        (alarm_line front.now tag.now change) end) }
{
    let tag = tag.as_bytes();
    make_room(text, at, tag)?;
    Ok(place_alarm(text.as_mut_slice(), at, front, tag, change))
}

/// Whether a line with this moment and this name is short: then 96 bytes hold it, and each copy of its parts.
#[inline(always)]
pub(crate) fn is_short(moment: &[u8], name: &[u8]) -> bool
    ensures { result ≡ true → IsShort moment.now name.now }
{
    moment.len() <= MOMENT && name.len() <= NAME
}

/// Makes room for a short line after a text. Where memory is refused the text is unchanged.
#[inline(always)]
pub(crate) fn open_line(text: &mut Vec<u8>) -> Result<(), AllocError>
    ensures ok { OnOk result (IsOpened text.old.items text.new.items) }
    ensures err { OnErr result (text.new.items ≡ text.old.items) }
{
    text.resize(text.len() + LINE, 0)
}

/// Puts an ALARM line at a place, and returns the place after it.
#[inline(always)]
pub(crate) fn place_change(
    row: &mut [u8],
    at: usize,
    moment: &[u8],
    tag: &[u8],
    from: Code,
    to: Code,
) -> usize
    requires room { at + 96 ≤ length row.old }
    requires short { IsShort moment.now tag.now }
    ensures { IsPlaced row.old row.new at
        (codes "ALARM "
        ++ (moment.now
        ++ (32 ∷ (tag.now ++ ((32 ∷ (code_text from ++ 32 ∷ [])) ++ (code_text to ++ 10 ∷ []))))))
        result }
{
    let named = place_slice(row, at, b"ALARM ");
    let timed = place_text(row, named, moment);
    let apart = place_slice(row, timed, b" ");
    let tagged = place_text(row, apart, tag);
    let left = place_from(row, tagged, from);
    place_to(row, left, to)
}

/// Puts a DONE line at a place, and returns the place after it.
#[inline(always)]
pub(crate) fn place_done(row: &mut [u8], at: usize, moment: &[u8], lines: &[u8]) -> usize
    requires room { at + 96 ≤ length row.old }
    requires short { IsShort moment.now lines.now }
    ensures { IsPlaced row.old row.new at
        (codes "DONE " ++ (moment.now ++ (32 ∷ (lines.now ++ 10 ∷ [])))) result }
{
    let named = place_slice(row, at, b"DONE ");
    let timed = place_text(row, named, moment);
    let apart = place_slice(row, timed, b" ");
    let counted = place_text(row, apart, lines);
    place_slice(row, counted, b"\n")
}

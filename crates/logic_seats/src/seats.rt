//! Where the instances of a routine lie.

ghost use Rattle.std.specs.Prelude.{◌≡◌, ◌==◌, ◌||◌, not, length, IfOk};
ghost use Rattle.base_words.specs.Names.{is_among};
ghost use Rattle.logic_seats.specs.Seats.{Fits, plus, extent_called, extent_by, starts_by, any_starts, seated_by, seat_by, seats_by, ends_by};

use crate::called::is_among;
use base_words::Names;
use logic_cells::Standard;
use logic_source::{BlockRef, Instance};
use logic_walk::{Seat, SeatOf};
use st_tree::Stmt;
use std::alloc::{AllocError, Global};

/// How many values, clocks and path numbers something has.
#[derive(Clone, Copy, Drop)]
pub struct Extent {
    pub values: usize,
    pub clocks: usize,
    pub paths: u32,
}

/// What an instance of a block type has, the place of its frame, and whether it has initial values below it.
#[derive(Clone, Copy, Drop)]
pub struct Callee {
    pub extent: Extent,
    pub place: usize,
    pub has_starts: bool,
}

/// How many values, clocks and path numbers two things have together: from an instance's first ones on, where the next instance's begin.
fn plus(a: Extent, b: Extent) -> Extent
    requires { Fits (plus a b) }
    ensures { result ≡ plus a b }
{
    Extent {
        values: a.values + b.values,
        clocks: a.clocks + b.clocks,
        paths: a.paths + b.paths,
    }
}

fn extent_by(table: &[Callee], block: BlockRef) -> Extent
    ensures { result ≡ extent_by table.now block }
{
    match block {
        BlockRef::Ton | BlockRef::Tof => Extent {
            values: 2,
            clocks: 1,
            paths: 0,
        },
        BlockRef::RTrig => Extent {
            values: 1,
            clocks: 1,
            paths: 0,
        },
        BlockRef::Declared(number) => match table.get(number) {
            Some(callee) => callee.extent,
            None => Extent {
                values: 0,
                clocks: 0,
                paths: 0,
            },
        },
    }
}

/// What an instance adds to its routine: what its block has, path numbers only if the routine calls it.
fn extent_called(is_called: bool, extent: Extent) -> Extent
    ensures { result ≡ extent_called is_called extent }
{
    if is_called {
        extent
    } else {
        Extent {
            values: extent.values,
            clocks: extent.clocks,
            paths: 0,
        }
    }
}

/// What the seat of an instance of a block is of.
fn seated_by(table: &[Callee], block: BlockRef) -> SeatOf
    ensures { result ≡ seated_by table.now block }
{
    match block {
        BlockRef::Ton => SeatOf::Standard(Standard::Ton),
        BlockRef::Tof => SeatOf::Standard(Standard::Tof),
        BlockRef::RTrig => SeatOf::Standard(Standard::RTrig),
        BlockRef::Declared(number) => match table.get(number) {
            Some(callee) => SeatOf::Frame(callee.place),
            None => SeatOf::Frame(0),
        },
    }
}

/// Whether an instance of a block has initial values below it.
fn starts_by(table: &[Callee], block: BlockRef) -> bool
    ensures { result ≡ starts_by table.now block }
{
    match block {
        BlockRef::Ton | BlockRef::Tof | BlockRef::RTrig => false,
        BlockRef::Declared(number) => match table.get(number) {
            Some(callee) => callee.has_starts,
            None => false,
        },
    }
}

/// Whether one of the instances has initial values below it.
fn any_starts(table: &[Callee], list: &[Instance]) -> bool
    ensures { result ≡ any_starts table.now list.now }
{
    for instance in list {
        if starts_by(table, instance.of) {
            return true;
        }
    }
    false
}

/// Whether a routine with these initial values and instances has initial values, or one of its instances has some below it.
pub fn has_starts(table: &[Callee], starts: &[Stmt<usize>], list: &[Instance]) -> bool
    ensures { result ≡ (not (length starts.now == 0) || any_starts table.now list.now) }
{
    !starts.is_empty() || any_starts(table, list)
}

/// The seat of an instance.
fn seat_by(
    alloc: Global,
    table: &[Callee],
    is_called: bool,
    at: Extent,
    instance: &Instance,
) -> Result<Seat, AllocError>
    ensures { IfOk result (λ seat. seat ≡ seat_by table.now is_called at instance.now) }
{
    Ok(Seat {
        name: instance.name.copy(alloc)?,
        of: seated_by(table, instance.of),
        values: at.values,
        clocks: at.clocks,
        paths: at.paths,
        is_called,
    })
}

/// The seats of a routine's instances one after another, by the names of those that it calls, and where the last ends: numbers that must fit their
/// types.
pub fn seats_by(
    alloc: Global,
    table: &[Callee],
    called: &Names,
    first: Extent,
    list: &[Instance],
) -> Result<(Vec<Seat>, Extent), AllocError>
    requires { Fits (ends_by table.now (is_among called.now) first list.now) }
    ensures seats { IfOk result (λ made. made.0.items
        ≡ seats_by table.now (is_among called.now) first list.now) }
    ensures end { IfOk result (λ made. made.1 ≡ ends_by table.now (is_among called.now) first list.now) }
{
    let mut seats = Vec::new(alloc);
    let mut at = first;
    for instance in list {
        let is_called = is_among(called, &instance.name);
        let seat = seat_by(alloc, table, is_called, at, instance)?;
        seats.push(seat)?;
        at = plus(at, extent_called(is_called, extent_by(table, instance.of)));
    }
    Ok((seats, at))
}

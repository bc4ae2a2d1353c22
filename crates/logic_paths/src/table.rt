//! A table of frames of which the instances are left, and the texts of paths below a frame.

ghost use Rattle.std.specs.Prelude.{◌≡◌, ◌<◌, ◌≤◌, ◌++◌, [], length, codes, slice_index_or, string_bytes, IfOk};
ghost use Rattle.logic_walk.specs.Frames.{AreInTurn, frame_paths};
ghost use Rattle.logic_walk.specs.Paths.{path_suffix, begins_by, last_by};

use crate::outlines::{Outline, copy_outlines, outlines_of};
use base_trace::Shown;
use logic_walk::{Frame, Seat, SeatOf};
use plant_types::Text;
use std::alloc::{AllocError, Global};
use std::marker::Model;

/// A table of frames, of which the instances alone are left. Contracts see the frames.
pub struct SeatTable {
    frames: Shown<Vec<Frame>>,
    outlines: Vec<Outline>,
}

impl Drop for SeatTable {
    fn drop(self) {
        let SeatTable {
            frames: _,
            outlines: _,
        } = self;
    }
}

impl Model for SeatTable {
    ghost use Rattle.std.specs.Prelude.{List};
    ghost use Rattle.std.specs.Coded.{codes};
    ghost use Rattle.logic_walk.specs.declared.frame.Frame.{Frame};
    ghost use Rattle.logic_walk.specs.contracts.frame.Frame as frame;
    ghost use Rattle.logic_paths.specs.Outlines.{AreOutlines};

    ghost Value = { List Frame };

    ghost coded = { Prim.hlevel (codes, frame.the_row.coded) };

    ghost view = { λ table. table.frames.items };

    ghost invariant = { λ table. AreOutlines table.frames.items table.outlines.items };
}

impl SeatTable {
    /// The instances of frames, which aren't needed any more.
    pub fn of(alloc: Global, frames: &Vec<Frame>) -> Result<SeatTable, AllocError>
        ensures { IfOk result (λ table. table ≡ frames.now.items) }
    {
        let outlines = outlines_of(alloc, frames)?;
        Ok(SeatTable {
            frames: Shown::of(frames),
            outlines,
        })
    }

    /// The same table.
    pub fn copy(&self, alloc: Global) -> Result<SeatTable, AllocError>
        ensures { IfOk result (λ copy. copy ≡ self.now) }
    {
        let outlines = copy_outlines(alloc, &self.outlines)?;
        Ok(SeatTable {
            frames: self.frames.again(),
            outlines,
        })
    }

    /// Appends the path of a number below the frame of a number, from the frame down: a point and the name of each instance on the way, and
    /// nothing for the frame itself. Fails if memory was refused; what was appended then is of no use.
    pub fn push_path(&self, k: usize, path: u32, text: &mut String) -> Result<(), AllocError>
        requires in_turn { AreInTurn self.now }
        requires path { path < length (frame_paths self.now (length self.now) k) }
        ensures { IfOk result (λ _. string_bytes text.new
            ≡ string_bytes text.old
            ++ path_suffix (slice_index_or (frame_paths self.now (length self.now) k) path [])) }
    {
        push_within(self, self.outlines.len(), k, path, text)
    }
}

/// Whether an instance is of a frame and called, and its path numbers begin at the given one or before it.
fn begins_by(seat: &Seat, path: u32) -> bool
    ensures { result ≡ begins_by seat.now path }
{
    match seat.of {
        SeatOf::Frame(_) => seat.is_called && seat.paths <= path,
        SeatOf::Standard(_) => false,
    }
}

/// The number of the last such instance; 0 if there is none.
fn last_by(seats: &[Seat], path: u32) -> usize
    ensures { result ≡ last_by seats.now path 0 0 }
{
    let mut found = 0;
    for i in 0..seats.len() {
        if begins_by(&seats[i], path) {
            found = i;
        }
    }
    found
}

/// Appends a point and a name.
fn push_name(name: &Text, text: &mut String) -> Result<(), AllocError>
    ensures { IfOk result (λ _. string_bytes text.new ≡ string_bytes text.old ++ codes "." ++ name.now) }
{
    text.push_str(".")?;
    text.push_str(name.as_str())
}

/// Appends the path of a number below the frame of a number among so many first ones.
fn push_within(
    table: &SeatTable,
    limit: usize,
    k: usize,
    path: u32,
    text: &mut String,
) -> Result<(), AllocError>
    requires there { limit ≤ length table.now }
    requires in_turn { AreInTurn table.now }
    requires path { path < length (frame_paths table.now limit k) }
    ensures { IfOk result (λ _. string_bytes text.new
        ≡ string_bytes text.old
        ++ path_suffix (slice_index_or (frame_paths table.now limit k) path [])) }
{
    let outline = &table.outlines[k];
    if path == 0 {
        return Ok(());
    }
    let seats = outline.seats.as_slice();
    let seat = &seats[last_by(seats, path)];
    push_name(&seat.name, text)?;
    match seat.of {
        SeatOf::Frame(below) => push_within(table, k, below, path - seat.paths, text),
        SeatOf::Standard(_) => Ok(()),
    }
}

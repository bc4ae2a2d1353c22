//! What a walk is given.

ghost use Rattle.std.specs.Prelude.{◌≤◌, ◌+◌, length};
ghost use Rattle.logic_walk.specs.Frames.{AreInTurn, AreInTurn-prop, InTurn, InTurn-prop, frame_paths};
ghost use Rattle.logic_walk.specs.Walks.{HasRoom};

use crate::frame::{Base, Frame, Seat};

/// What the walk of a routine is given: the frames, and how many first ones the routine may call; its instances; the number of globals; where
/// its values and clocks begin; and the moment of the scan, in milliseconds.
#[derive(Drop)]
pub(crate) struct Walk<'a> {
    pub(crate) frames: &'a [Frame],
    pub(crate) limit: usize,
    pub(crate) seats: &'a [Seat],
    pub(crate) globals: usize,
    pub(crate) base: Base,
    pub(crate) moment: u64,
    ghost there: { limit ≤ length frames.now },
    ghost in_turn: { AreInTurn frames.now } by { AreInTurn-prop frames.now },
    ghost own: { InTurn (frame_paths frames.now limit) seats.now } by { InTurn-prop _ _ },
    ghost room: { HasRoom base (limit + 1) },
}

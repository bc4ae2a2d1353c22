//! Where the code of a frame, of a routine and of a program is laid out.

use logic_walk::{Base, Frame, Seat};
use vm_sizes::Count;

/// A program to be compiled: how many values the globals are, its frame's number, where its values and its clocks begin, and what is told as its cost.
#[derive(Clone, Copy, Drop)]
pub struct PlacedProgram {
    pub globals: usize,
    pub first: usize,
    pub values: usize,
    pub clocks: usize,
    pub cost: u64,
}

/// The frame of a number among so many first ones: the frames, the counts of the first ones, and how many these are; its number; the number of
/// globals; where its values and clocks begin; and the number of its first path.
#[derive(Clone, Copy, Drop)]
pub(crate) struct PlacedFrame<'a> {
    pub(crate) frames: &'a [Frame],
    pub(crate) table: &'a [Count],
    pub(crate) limit: usize,
    pub(crate) number: usize,
    pub(crate) globals: usize,
    pub(crate) base: Base,
    pub(crate) path: u32,
}

/// A routine at a base: the frames, the counts of those before the routine's own, and how many these are; its instances; the number of
/// globals; where its values and clocks begin; and the number of its path.
#[derive(Drop)]
pub(crate) struct PlacedRoutine<'a> {
    pub(crate) frames: &'a [Frame],
    pub(crate) table: &'a [Count],
    pub(crate) limit: usize,
    pub(crate) seats: &'a [Seat],
    pub(crate) globals: usize,
    pub(crate) base: Base,
    pub(crate) path: u32,
}

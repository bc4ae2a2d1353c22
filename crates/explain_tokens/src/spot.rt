//! What is wrong, and in which file.

use crate::cause::Cause;

/// A file of a plant.
#[derive(Clone, Copy, PartialEq, Eq, Drop)]
pub enum FileOf {
    /// The plant file.
    Plant,
    /// A source, by its number in the plant file, from 0.
    Source(usize),
    /// The alarm database.
    Alarms,
}

/// What is wrong in a file of a plant.
#[derive(Drop)]
pub struct Spot {
    pub file: FileOf,
    pub cause: Cause,
}

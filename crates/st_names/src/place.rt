//! Where a fault of names or kinds is reported.

/// A unit: the globals of a source, or one of its function blocks and programs.
#[derive(Clone, Copy, Drop)]
pub struct UnitPlace {
    /// The source, counted from 0.
    pub source: usize,
    /// The block or program, counted from 0 in its source; `None` for the globals.
    pub pou: Option<usize>,
}

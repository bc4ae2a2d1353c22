//! What isn't known of sources of which a part can't be read.

use crate::trees::Source;
use st_parser::Unit;
use std::alloc::Global;

/// What the trees of sources may lack.
#[derive(Drop)]
pub struct Unknown {
    /// Whether there may be globals that aren't in the trees.
    pub globals: bool,
    /// Whether there may be blocks that aren't in the trees.
    pub blocks: bool,
    /// The numbers of the sources whose blocks and programs may have declarations that aren't in the trees.
    pub owners: Vec<usize>,
}

impl Unknown {
    /// Nothing is unknown.
    pub fn nothing(alloc: Global) -> Unknown {
        Unknown {
            globals: false,
            blocks: false,
            owners: Vec::new(alloc),
        }
    }

    /// Whether the blocks and programs of the source of a number may have declarations that aren't in the trees.
    pub fn has_owner(&self, source: usize) -> bool {
        self.owners.contains(&source)
    }
}

/// Sources with their units, and what isn't known of them.
#[derive(Clone, Copy, Drop)]
pub struct Parsed<'t> {
    pub sources: &'t [Source<'t>],
    pub units: &'t [Unit],
    pub unknown: &'t Unknown,
}

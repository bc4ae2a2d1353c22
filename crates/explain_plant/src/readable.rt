//! What of a plant's sources can be read, where a part of them can't.

use explain_files::Mark;
use explain_sources::{ReadUnit, ReadUnits};
use explain_trees::{Parsed, Source, Unknown, sources_of, units_of};
use st_parser::Unit;
use std::alloc::{AllocError, Global};

/// The blocks, programs and sections of globals of a plant that can be read, each as a source by itself.
#[derive(Drop)]
pub struct Readable<'t> {
    sources: Vec<Source<'t>>,
    pub units: Vec<Unit>,
    /// Of each the number of its source, and whether it isn't certain which FORs stand around its statements.
    origins: Vec<(usize, bool)>,
    /// The bytes around what can't be read, by the numbers of their sources.
    gaps: Vec<(usize, Mark)>,
    pub unknown: Unknown,
}

impl<'t> Readable<'t> {
    /// Nothing yet, of a plant whose sources are all there, or not.
    pub fn new(alloc: Global, are_all: bool) -> Readable<'t> {
        Readable {
            sources: Vec::new(alloc),
            units: Vec::new(alloc),
            origins: Vec::new(alloc),
            gaps: Vec::new(alloc),
            unknown: Unknown {
                globals: !are_all,
                blocks: !are_all,
                owners: Vec::new(alloc),
            },
        }
    }

    /// All sources of a plant that are right, each by itself, with their units; no units where one isn't spelled as the grammar says.
    pub fn of_right(
        alloc: Global,
        texts: &[(&'t str, &'t [u8])],
    ) -> Result<Readable<'t>, AllocError> {
        let sources = sources_of(alloc, texts)?;
        let units = units_of(alloc, sources.as_slice())?;
        Ok(Readable {
            sources,
            units,
            origins: Vec::new(alloc),
            gaps: Vec::new(alloc),
            unknown: Unknown::nothing(alloc),
        })
    }

    /// Adds the bytes around what can't be read in the source of a number.
    fn add_gaps(&mut self, number: usize, gaps: Vec<Mark>) -> Result<(), AllocError> {
        for gap in gaps {
            self.gaps.push((number, gap))?;
        }
        Ok(())
    }

    /// Adds a unit of the source of a number.
    fn add_unit(
        &mut self,
        number: usize,
        (name, text): (&'t str, &'t [u8]),
        unit: ReadUnit,
    ) -> Result<(), AllocError> {
        if unit.lacks {
            self.unknown.owners.push(self.units.len())?;
        }
        self.origins.push((number, unit.blurs_loops))?;
        self.units.push(unit.tree)?;
        let tokens = unit.tokens;
        self.sources.push(Source { name, text, tokens })?;
        Ok(())
    }

    /// Adds the units that can be read of the source of a number.
    pub fn add(
        &mut self,
        number: usize,
        source: (&'t str, &'t [u8]),
        units: ReadUnits,
    ) -> Result<(), AllocError> {
        let unknown = &mut self.unknown;
        unknown.globals = unknown.globals || units.lacks_globals;
        unknown.blocks = unknown.blocks || units.lacks_blocks;
        self.add_gaps(number, units.gaps)?;
        for unit in units.list {
            self.add_unit(number, source, unit)?;
        }
        Ok(())
    }

    /// All that can be read.
    pub fn parsed(&self) -> Parsed<'_> {
        Parsed {
            sources: self.sources.as_slice(),
            units: self.units.as_slice(),
            unknown: &self.unknown,
        }
    }

    /// The number of the source of a unit, and whether it isn't certain which FORs stand around the unit's statements.
    pub fn origin(&self, unit: usize) -> (usize, bool) {
        self.origins.get(unit).copied().unwrap_or((unit, true))
    }

    /// Whether bytes of the source of a number touch those around what can't be read.
    pub fn has_gap(&self, number: usize, mark: Option<Mark>) -> bool {
        let (from, until) = mark.unwrap_or((0, 0));
        let mut gaps = self.gaps.iter();
        gaps.any(|(source, gap)| *source == number && gap.0 <= until && from <= gap.1)
    }
}

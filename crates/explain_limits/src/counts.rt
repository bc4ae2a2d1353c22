//! What blocks and programs count: each block once, after those of which it has instances.

use crate::measures::{Measure, length_of, standard_slots};
use crate::weights::{Scale, Weight};
use base_words::Names;
use explain_trees::{DeclaredName, Form, mark_of};
use st_names::{Declared, declared_in};
use st_parser::{Pou, SectionKind, Sort};
use std::alloc::{AllocError, Global};

/// How deep a function block may be at most.
const MOST_DEEP: u64 = 16;

/// The function blocks of a plant, how deep each is as far as that is known, and what each counts.
#[derive(Drop)]
pub struct Counts<'t> {
    alloc: Global,
    measure: Measure,
    names: Names,
    /// In the order of the names.
    blocks: Vec<&'t Pou>,
    depths: Vec<u64>,
    /// 0 for one that isn't counted yet.
    counts: Vec<u64>,
}

impl<'t> Counts<'t> {
    /// What the function blocks count that entries declare, and how deep they are, up to one more than is allowed.
    pub fn of(
        alloc: Global,
        entries: &[DeclaredName<'t>],
        measure: Measure,
    ) -> Result<Counts<'t>, AllocError> {
        let mut counts = Counts {
            alloc,
            measure,
            names: Names::new(alloc),
            blocks: Vec::new(alloc),
            depths: Vec::new(alloc),
            counts: Vec::new(alloc),
        };
        counts.add_blocks(entries)?;
        for _ in 0..MOST_DEEP {
            counts.deepen(entries);
        }
        for depth in 1..MOST_DEEP + 1 {
            counts.count_at(depth)?;
        }
        Ok(counts)
    }

    /// Adds the blocks of entries, each 1 deep.
    fn add_blocks(&mut self, entries: &[DeclaredName<'t>]) -> Result<(), AllocError> {
        for entry in entries {
            if let Form::Block(pou) = &entry.form {
                if self.names.add(self.alloc, pou.name.as_str())? {
                    self.blocks.push(*pou)?;
                    self.depths.push(1)?;
                    self.counts.push(0)?;
                }
            }
        }
        Ok(())
    }

    /// How deep the block is of which an entry declares an instance; 0 for other entries.
    fn depth_in(&self, entry: &DeclaredName<'_>) -> u64 {
        let Some(word) = entry.block() else {
            return 0;
        };
        if standard_slots(word).is_some() {
            return 1;
        }
        let number = self.names.find(word.as_str());
        number.map_or(0, |number| self.depths.get(number).copied().unwrap_or(0))
    }

    /// Makes each block deeper by one than each instance that it declares.
    fn deepen(&mut self, entries: &[DeclaredName<'t>]) {
        for entry in entries {
            let depth = self.depth_in(entry).saturating_add(1);
            if let Some(number) = self.names.find(entry.owner) {
                if let Some(known) = self.depths.get_mut(number) {
                    *known = depth.max(*known);
                }
            }
        }
    }

    /// The first entry by which a block has an instance that is as deep as one may be.
    pub fn deepest<'a>(&self, entries: &'a [DeclaredName<'t>]) -> Option<&'a DeclaredName<'t>> {
        for entry in entries {
            let is_held = self.names.find(entry.owner).is_some();
            if is_held && self.depth_in(entry) == MOST_DEEP {
                return Some(entry);
            }
        }
        None
    }

    /// Counts the blocks that are so deep.
    fn count_at(&mut self, depth: u64) -> Result<(), AllocError> {
        for number in 0..self.blocks.len() {
            if self.depths.get(number).copied() != Some(depth) {
                continue;
            }
            let Some(pou) = self.blocks.get(number).copied() else {
                continue;
            };
            let count = self.of_pou(pou)?.total;
            if let Some(known) = self.counts.get_mut(number) {
                *known = count;
            }
        }
        Ok(())
    }

    /// What a declared name counts: a variable 1, an array its elements, an instance what its block does.
    pub fn of_name(&self, declared: &Declared<'_>) -> u64 {
        let word = match declared.sort() {
            Sort::Kind(_) => return 1,
            Sort::Array(bounds, _) => return length_of(*bounds),
            Sort::Block(word) => word,
        };
        match standard_slots(word) {
            Some(slots) if self.measure == Measure::Slots => return slots,
            Some(_) => return 1,
            None => {}
        }
        let number = self.names.find(word.as_str());
        number.map_or(0, |number| self.counts.get(number).copied().unwrap_or(0))
    }

    /// The slots of declared names, and the name that has most of them.
    fn slots(&self, list: &[Declared<'_>]) -> Weight {
        let mut slots = Weight::of(0);
        let mut most = 1;
        for declared in list {
            if matches!(declared.section(), SectionKind::External) {
                continue;
            }
            let each = self.of_name(declared);
            slots.total = slots.total.saturating_add(each);
            if each > most {
                most = each;
                slots.part = Some((mark_of(declared.name()), each));
            }
        }
        slots
    }

    /// By what a body is weighed that has these names.
    fn scale(&self, list: &[Declared<'_>]) -> Result<Scale, AllocError> {
        let mut scale = Scale {
            measure: self.measure,
            names: Names::new(self.alloc),
            counts: Vec::new(self.alloc),
        };
        for declared in list {
            if scale.names.add(self.alloc, declared.name().as_str())? {
                scale.counts.push(self.of_name(declared))?;
            }
        }
        Ok(scale)
    }

    /// What a block or a program counts.
    pub fn of_pou(&self, pou: &Pou) -> Result<Weight, AllocError> {
        let list = declared_in(self.alloc, &pou.sections)?;
        match self.measure {
            Measure::Slots => Ok(self.slots(list.as_slice())),
            Measure::Size | Measure::Cost => Ok(self.scale(list.as_slice())?.of_stmts(&pou.body)),
            _ => Ok(Weight::of(1)),
        }
    }
}

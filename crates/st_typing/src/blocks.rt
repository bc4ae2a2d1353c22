//! The function blocks of all sources, and where each is declared.

ghost use Rattle.std.specs.Prelude.{◌≡◌, ◌++◌, IfOk, map, flat_map};
ghost use Rattle.st_names.specs.Units.{view_section, view_pou, view_unit};
ghost use Rattle.st_typing.specs.Blocks.{section_types, block_of, blocks_among, blocks_of, places_among, block_places};

use st_blocks::Block;
use st_names::{Pou, PouKind, Section, Sort, Unit, UnitPlace};
use std::alloc::{AllocError, Global};

/// Function blocks in order of text, and where each is declared.
pub struct Blocks<'a> {
    pub blocks: Vec<Block<'a>>,
    pub places: Vec<UnitPlace>,
}

impl Drop for Blocks<'_> {
    fn drop(self) {
        let Blocks {
            blocks: _,
            places: _,
        } = self;
    }
}

/// Adds the block types that a section's declarations name.
fn push_types<'a>(section: &'a Section, words: &mut Vec<&'a str>) -> Result<(), AllocError>
    ensures { IfOk result (λ _. map (λ word. word.now) words.new.items
        ≡ map (λ word. word.now) words.old.items ++ section_types (view_section section.now)) }
{
    for declaration in &section.declarations {
        match &declaration.sort {
            Sort::Block(word) => words.push(word.as_str())?,
            Sort::Kind(_) | Sort::Array(_, _) => {}
        }
    }
    Ok(())
}

/// A function block with the block types that its declarations name.
fn block_of<'a>(alloc: Global, pou: &'a Pou) -> Result<Block<'a>, AllocError>
    ensures { IfOk result (λ block. block ≡ block_of (view_pou pou.now)) }
{
    let mut words = Vec::new(alloc);
    for section in &pou.sections {
        push_types(section, &mut words)?;
    }
    Ok(Block::new(pou.name.as_str(), words))
}

/// Adds the function blocks of a source.
fn push_blocks<'a>(
    alloc: Global,
    source: usize,
    pous: &'a [Pou],
    list: &mut Blocks<'a>,
) -> Result<(), AllocError>
    ensures blocks { IfOk result (λ _. list.new.blocks.items
        ≡ list.old.blocks.items ++ blocks_among (map view_pou pous.now)) }
    ensures places { IfOk result (λ _. list.new.places.items
        ≡ list.old.places.items ++ places_among source 0 (map view_pou pous.now)) }
{
    for (number, pou) in pous.iter().enumerate() {
        if let PouKind::Block = pou.kind {
            list.blocks.push(block_of(alloc, pou)?)?;
            list.places.push(UnitPlace {
                source,
                pou: Some(number),
            })?;
        }
    }
    Ok(())
}

/// The function blocks of all sources.
pub fn blocks_of<'a>(alloc: Global, units: &'a [Unit]) -> Result<Blocks<'a>, AllocError>
    ensures blocks { IfOk result (λ list. list.blocks.items ≡ blocks_of (map view_unit units.now)) }
    ensures places { IfOk result (λ list. list.places.items ≡ block_places 0 (map view_unit units.now)) }
{
    let mut list = Blocks {
        blocks: Vec::new(alloc),
        places: Vec::new(alloc),
    };
    for (source, unit) in units.iter().enumerate() {
        push_blocks(alloc, source, &unit.pous, &mut list)?;
    }
    Ok(list)
}

//! Function blocks that hold themselves (C8).

use crate::trees::Trees;
use base_words::Names;
use plant_types::{Text, same_word};
use st_names::declared_in;
use st_parser::{Pou, Sort};
use std::alloc::AllocError;

/// Blocks behind so many aren't looked at.
const MOST_BLOCKS: usize = 4_096;

/// Adds the words of the blocks of which a block declares an instance, but for those that are there.
fn add_held<'t>(
    plant: &Trees<'t>,
    pou: &'t Pou,
    names: &mut Names,
    words: &mut Vec<&'t Text>,
) -> Result<(), AllocError> {
    let list = declared_in(plant.alloc, &pou.sections)?;
    for declared in &list {
        if let Sort::Block(word) = declared.sort() {
            if names.add(plant.alloc, word.as_str())? {
                words.push(word)?;
            }
        }
    }
    Ok(())
}

/// Whether instances of a block lead to the block of a name; and how many blocks were looked at for this.
pub fn leads_back<'t>(
    plant: &Trees<'t>,
    word: &'t Text,
    name: &str,
) -> Result<(bool, usize), AllocError> {
    let mut names = Names::new(plant.alloc);
    let mut words = Vec::new(plant.alloc);
    words.push(word)?;
    for number in 0..MOST_BLOCKS {
        let Some(word) = words.get(number).copied() else {
            return Ok((false, number));
        };
        if same_word(word.as_bytes(), name.as_bytes()) {
            return Ok((true, number));
        }
        if let Some(pou) = plant.block(word) {
            add_held(plant, pou, &mut names, &mut words)?;
        }
    }
    Ok((false, MOST_BLOCKS))
}

//! How a plant is refused, as the table says it.

use plant_config::{ConfigFault, Limit};
use plant_types::Text;
use std::alloc::{AllocError, Global};

/// The two parts of words around their first blank.
fn cut(words: &str) -> (&str, &str) {
    match words.split_once(" ") {
        Some(parts) => parts,
        None => (words, ""),
    }
}

fn number(word: &str) -> usize {
    word.parse::<usize>().unwrap_or(0)
}

/// The limit of a name; for another word that on areas.
fn limit(word: &str) -> Limit {
    for limit in [
        Limit::Text,
        Limit::Consoles,
        Limit::Turns,
        Limit::BlockDepth,
        Limit::Programs,
        Limit::Elements,
        Limit::Slots,
        Limit::Size,
        Limit::Cost,
        Limit::Alarms,
    ] {
        if limit.name() == word {
            return limit;
        }
    }
    Limit::Areas
}

/// A fault at a line and a column of a source.
fn at_place(alloc: Global, words: &str, is_spelling: bool) -> Result<ConfigFault, AllocError> {
    let (file, place) = cut(words);
    let (line, column) = cut(place);
    let file = Text::from_str(alloc, file)?;
    let (line, column) = (number(line), number(column));
    if is_spelling {
        return Ok(ConfigFault::Spelling { file, line, column });
    }
    Ok(ConfigFault::Grammar { file, line, column })
}

fn in_unit(alloc: Global, rule: &str, words: &str) -> Result<ConfigFault, AllocError> {
    let (file, unit) = cut(words);
    let file = Text::from_str(alloc, file)?;
    let unit = Text::from_str(alloc, unit)?;
    match rule.as_bytes() {
        b"C6" => Ok(ConfigFault::Name { file, unit }),
        b"C7" => Ok(ConfigFault::Kind { file, unit }),
        b"C8" => Ok(ConfigFault::HoldsItself { file, unit }),
        _ => Ok(ConfigFault::Constant { file, unit }),
    }
}

/// Whether a refusal's line, without its `CONFIG`, is of a plant file that is wrong or of rows of alarms that are: then what was found wrong comes with the fault.
pub fn is_of_tables(line: &str) -> bool {
    let (rule, _) = cut(line);
    matches!(
        rule.as_bytes(),
        b"C1" | b"C2" | b"C11" | b"C12" | b"C13" | b"C14"
    )
}

/// The fault of a refusal's line, without its `CONFIG`, that isn't of a table.
pub fn fault_of(alloc: Global, line: &str) -> Result<ConfigFault, AllocError> {
    let (rule, words) = cut(line);
    match rule.as_bytes() {
        b"C3" => Ok(ConfigFault::Epoch),
        b"C4" => at_place(alloc, words, true),
        b"C5" => at_place(alloc, words, false),
        b"C10" => Ok(ConfigFault::Limit(limit(words))),
        _ => in_unit(alloc, rule, words),
    }
}

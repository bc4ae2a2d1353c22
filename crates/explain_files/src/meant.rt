//! Names of files that one which isn't there may be meant as.

use std::alloc::{AllocError, Global};

/// A name in small letters.
fn small(alloc: Global, name: &str) -> Result<String, AllocError> {
    name.chars()
        .map(|letter| letter.to_ascii_lowercase())
        .collect(alloc)
}

/// Names of more bytes aren't mended.
const LONGEST: usize = 40;

/// A name with the letter of a number, from 0, behind the next one; the name itself where there is no next.
fn changed_about(alloc: Global, name: &str, number: usize) -> Result<String, AllocError> {
    let (mut changed, mut kept, mut at) = (String::new(alloc), None, 0usize);
    for letter in name.chars() {
        if at == number {
            kept = Some(letter);
        } else {
            changed.push(letter)?;
            if let Some(letter) = kept {
                changed.push(letter)?;
                kept = None;
            }
        }
        at = at.saturating_add(1);
    }
    if let Some(letter) = kept {
        changed.push(letter)?;
    }
    Ok(changed)
}

/// A name without the letter of a number, from 0.
fn without_one(alloc: Global, name: &str, number: usize) -> Result<String, AllocError> {
    let (mut rest, mut at) = (String::new(alloc), 0usize);
    for letter in name.chars() {
        if at != number {
            rest.push(letter)?;
        }
        at = at.saturating_add(1);
    }
    Ok(rest)
}

/// Adds a name without its folder, and with two letters changed about, or one left out.
fn add_slips(alloc: Global, name: &str, names: &mut Vec<String>) -> Result<(), AllocError> {
    let behind = name.as_bytes().iter().rev().position(|byte| *byte == b'/');
    let folder = name.len().saturating_sub(behind.unwrap_or(name.len()));
    let file = name.get(folder..).unwrap_or(name);
    names.push(String::from_str(alloc, file)?)?;
    if name.len() <= LONGEST {
        for number in 0..name.len() {
            names.push(changed_about(alloc, name, number)?)?;
            names.push(without_one(alloc, name, number)?)?;
        }
    }
    Ok(())
}

/// Adds a name with an 's' more before its ending, and with one less where it has one there.
fn add_plurals(
    alloc: Global,
    (stem, ending): (&str, &str),
    names: &mut Vec<String>,
) -> Result<(), AllocError> {
    names.push(format!(in alloc; "{stem}s.{ending}")?)?;
    if let Some(shorter) = stem.strip_suffix("s") {
        names.push(format!(in alloc; "{shorter}.{ending}")?)?;
    }
    Ok(())
}

/// Adds a name with each ending.
fn add_endings(alloc: Global, bare: &str, names: &mut Vec<String>) -> Result<(), AllocError> {
    names.push(format!(in alloc; "{bare}.st")?)?;
    names.push(format!(in alloc; "{bare}.csv")?)?;
    Ok(())
}

/// Adds the names that a name without blanks beside it may be meant as.
fn add_near(alloc: Global, bare: &str, names: &mut Vec<String>) -> Result<(), AllocError> {
    names.push(String::from_str(alloc, bare)?)?;
    names.push(small(alloc, bare)?)?;
    match bare.split_once(".") {
        Some(parts) => add_plurals(alloc, parts, names)?,
        None => add_endings(alloc, bare, names)?,
    }
    add_slips(alloc, bare, names)
}

/// Names that a name may be meant as: without blanks beside it, in small letters, with an ending, or with an 's' more or less before its ending; without its
/// folder, with two letters changed about, or without one of them.
pub fn names_near(alloc: Global, name: &str) -> Result<Vec<String>, AllocError> {
    let mut names = Vec::new(alloc);
    add_near(alloc, name.trim(), &mut names)?;
    Ok(names)
}

//! What the check of a plant's sources answers.

use st_lexer::{LexFault, lex};
use st_names::UnitPlace;
use st_parser::{ParseFault, Unit, parse};
use st_typing::{TypeFault, check};
use std::alloc::{AllocError, Global};
use try_text::{File, Page};

/// The unit that a text spells, if it spells one.
fn unit_of(alloc: Global, text: &[u8]) -> Result<Option<Unit>, AllocError> {
    let tokens = match lex(alloc, text) {
        Ok(tokens) => tokens,
        Err(LexFault::Bad { .. }) => return Ok(None),
        Err(LexFault::Memory) => return Err(AllocError),
    };
    match parse(alloc, text, tokens.as_slice()) {
        Ok(unit) => Ok(Some(unit)),
        Err(ParseFault::At { .. }) => Ok(None),
        Err(ParseFault::Memory) => Err(AllocError),
    }
}

/// The units of the sources, up to the first that has none.
fn units_of(alloc: Global, files: &[File], given: &str) -> Result<Vec<Unit>, AllocError> {
    let mut units = Vec::new(alloc);
    for file in files {
        let text = file.text(alloc, given)?;
        match unit_of(alloc, text.as_slice())? {
            Some(unit) => units.push(unit)?,
            None => return Ok(units),
        }
    }
    Ok(units)
}

/// The name of a unit: `VAR_GLOBAL`, or the block's or program's.
fn unit_name<'a>(units: &'a [Unit], place: UnitPlace) -> &'a str {
    let (Some(unit), Some(number)) = (units.get(place.source), place.pou) else {
        return "VAR_GLOBAL";
    };
    match unit.pous.get(number) {
        Some(pou) => pou.name.as_str(),
        None => "VAR_GLOBAL",
    }
}

/// Adds the line of a fault in a unit.
fn push_place(page: &mut Page, files: &[File], units: &[Unit], number: &str, place: UnitPlace) {
    page.add(number);
    match files.get(place.source) {
        Some(file) => page.word(file.name.as_str()),
        None => page.word("?"),
    }
    page.word(unit_name(units, place));
}

/// Adds the line of a fault.
fn push_fault(page: &mut Page, files: &[File], units: &[Unit], fault: TypeFault) {
    match fault {
        TypeFault::Memory => page.refuse(),
        TypeFault::Name(place) => push_place(page, files, units, "C6", place),
        TypeFault::Kind(place) => push_place(page, files, units, "C7", place),
        TypeFault::HoldsItself(place) => push_place(page, files, units, "C8", place),
        TypeFault::Constant(place) => push_place(page, files, units, "C9", place),
        TypeFault::Turns => page.add("C10 TURNS"),
        TypeFault::BlockDepth => page.add("C10 BLOCK_DEPTH"),
        TypeFault::Programs => page.add("C10 PROGRAMS"),
        TypeFault::Elements => page.add("C10 ELEMENTS"),
    }
}

/// Adds what the check of units answers, of which there may be fewer than sources.
fn push_checked(alloc: Global, page: &mut Page, files: &[File], units: Vec<Unit>) {
    if let Some(file) = files.get(units.len()) {
        page.add("NO UNIT");
        return page.word(file.name.as_str());
    }
    match check(alloc, units) {
        Ok(_) => page.add("OK"),
        Err(mistyped) => push_fault(page, files, mistyped.units.as_slice(), mistyped.fault),
    }
}

/// Adds what the check of sources answers, with a line in place of `..`.
pub fn push_judged(alloc: Global, page: &mut Page, files: &[File], given: &str) {
    match units_of(alloc, files, given) {
        Ok(units) => push_checked(alloc, page, files, units),
        Err(_) => page.refuse(),
    }
}

//! The statement of a line FAULT.

use crate::routines::statements_of;
use crate::sources::{Found, Source, routine_at, sources_of};
use explain_places::shown;
use explain_tokens::{FileOf, Spot, cause_at, sign_at, span_of, word_at};
use plant_folder::PlantTexts;
use st_lexer::Token;
use std::alloc::{AllocError, Global};

/// Where it stands how statements trap.
const TRAPS: &str = "docs/LANGUAGE.md, \"Traps\"";

/// What a line FAULT says.
#[derive(Clone, Copy, Drop)]
struct Told<'a> {
    path: &'a str,
    /// The statement, from 1.
    statement: usize,
    trap: &'a str,
}

/// What a line FAULT says; `None` of another line.
fn read(line: &str) -> Option<Told<'_>> {
    let mut words = line.split(" ");
    if words.next()? != "FAULT" {
        return None;
    }
    let _moment = words.next()?;
    let path = words.next()?;
    let statement = words.next()?.parse::<usize>().ok()?;
    let trap = words.next()?;
    Some(Told {
        path,
        statement,
        trap,
    })
}

/// The number of the token behind what a trap of a statement may be in: its `;`, or the keyword that ends its head.
fn end_of(tokens: &[Token], first: usize) -> usize {
    (first..tokens.len())
        .find(|number| matches!(sign_at(tokens, *number), ";" | "THEN" | "OF" | "DO"))
        .unwrap_or(tokens.len())
}

/// Where in a statement a trap is, by the sign of its first token.
fn place_in(sign: &str) -> &'static str {
    match sign {
        "IF" => " in a condition of this IF or of its ELSIF",
        "CASE" => " in what this CASE asks",
        _ => "",
    }
}

/// What a trap is.
fn reason(trap: &str) -> &'static str {
    match trap {
        "DIVZERO" => "divides by 0",
        "INDEX" => "has an index outside its array",
        _ => "has a result beyond the range of its kind",
    }
}

/// What is said of a statement that trapped.
fn said(
    alloc: Global,
    source: &Source<'_>,
    found: Found,
    told: Told<'_>,
    first: usize,
) -> Result<String, AllocError> {
    let tokens = source.tokens.as_slice();
    let unit = word_at(source.text, tokens, found.routine.name);
    let (number, reason) = (told.statement, reason(told.trap));
    let place = place_in(sign_at(tokens, first));
    format!(in alloc; "statement {number} of {unit} {reason}{place}")
}

/// The statement of a line FAULT; `None` where the sources have none.
fn spot_of_fault(
    alloc: Global,
    sources: &[Source<'_>],
    told: Told<'_>,
) -> Result<Option<Spot>, AllocError> {
    let Some(found) = routine_at(sources, told.path) else {
        return Ok(None);
    };
    let Some(source) = sources.get(found.source) else {
        return Ok(None);
    };
    let tokens = source.tokens.as_slice();
    let starts = statements_of(alloc, tokens, found.routine)?;
    let Some(first) = starts.get(told.statement.wrapping_sub(1)).copied() else {
        return Ok(None);
    };
    let said = said(alloc, source, found, told, first)?;
    let mark = span_of(source.text, tokens, first, end_of(tokens, first));
    Ok(Some(Spot {
        file: FileOf::Source(found.source),
        cause: cause_at(mark, said, TRAPS),
    }))
}

/// What a person is told of a line `FAULT MOMENT PATH STATEMENT KIND` by the texts of a plant: the file, line and column of the statement, and the
/// line that stands there. Nothing of another line, or where the texts have no such statement.
pub fn told_of_fault(
    alloc: Global,
    texts: &PlantTexts<'_>,
    line: &str,
) -> Result<String, AllocError> {
    let Some(told) = read(line) else {
        return Ok(String::new(alloc));
    };
    let sources = sources_of(alloc, texts.sources)?;
    match spot_of_fault(alloc, sources.as_slice(), told)? {
        Some(spot) => shown(alloc, texts, "alarms", &spot),
        None => Ok(String::new(alloc)),
    }
}

//! All sources are looked through for what is past a limit: FORs (C10 TURNS), arrays (C10 ELEMENTS), instances (C10 BLOCK_DEPTH), or what `totals` finds.

use crate::counts::Counts;
use crate::measures::{Measure, length_of};
use crate::totals::too_much;
use explain_tokens::{Cause, cause_at, sign_at, span_of};
use explain_trees::{
    DeclaredName, Form, Source, Step, entries_of, filled, mark_of, sources_of, steps_of, units_of,
};
use st_parser::{Pou, SectionKind, Sort, Unit};
use std::alloc::{AllocError, Global};

/// Where the limits of the language stand.
pub const LIMITS: &str = "docs/LANGUAGE.md, \"Limits (this profile)\"";

/// What is said of a source, by its number from 0.
pub type Found = (usize, Cause);

/// The bytes of a FOR and its bounds, by the byte of its variable.
pub fn for_mark(source: &Source<'_>, at: usize) -> (usize, usize) {
    let tokens = source.tokens.as_slice();
    let variable = tokens.iter().position(|token| token.from >= at);
    let variable = variable.unwrap_or(0);
    for number in variable..tokens.len() {
        if matches!(sign_at(tokens, number), "BY" | "DO") {
            return span_of(source.text, tokens, variable.saturating_sub(1), number);
        }
    }
    span_of(
        source.text,
        tokens,
        variable.saturating_sub(1),
        tokens.len(),
    )
}

/// Adds the FORs of a block or a program, of the source of a number, that have too many turns.
fn add_long_fors(
    alloc: Global,
    (number, source): (usize, &Source<'_>),
    pou: &Pou,
    found: &mut Vec<Found>,
) -> Result<(), AllocError> {
    for step in steps_of(alloc, &pou.body)? {
        let Step::For(variable, from, to, by) = step else {
            continue;
        };
        let turns = Measure::Turns.turns(from, to, by);
        if turns > Measure::Turns.most() {
            let text = "this FOR has % turns, and at most 10000 are allowed";
            let turns = turns.to_string(alloc)?;
            let said = filled(alloc, &[text], "", &[turns.as_str()])?;
            let mark = for_mark(source, variable.at() as usize);
            found.push((number, cause_at(mark, said, LIMITS)))?;
        }
    }
    Ok(())
}

/// All FORs that have too many turns, in order of text.
pub fn long_fors(
    alloc: Global,
    sources: &[Source<'_>],
    entries: &[DeclaredName<'_>],
) -> Result<Vec<Found>, AllocError> {
    let mut found = Vec::new(alloc);
    for entry in entries {
        if let (Form::Block(pou) | Form::Program(pou), Some(source)) = (
            &entry.form,
            sources.get(entry.source),
        ) {
            add_long_fors(alloc, (entry.source, source), pou, &mut found)?;
        }
    }
    Ok(found)
}

/// All arrays that have too many elements, in order of text; those of VAR_EXTERNAL are their globals' again.
fn long_arrays(alloc: Global, entries: &[DeclaredName<'_>]) -> Result<Vec<Found>, AllocError> {
    let mut found = Vec::new(alloc);
    for entry in entries {
        let (Form::Declared(declared), Some(Sort::Array(bounds, _))) = (&entry.form, entry.sort())
        else {
            continue;
        };
        let length = length_of(*bounds);
        let is_external = matches!(declared.section(), SectionKind::External);
        if length > Measure::Elements.most() && !is_external {
            let text = "this array has % elements, and at most 4096 are allowed";
            let length = length.to_string(alloc)?;
            let said = filled(alloc, &[text], "", &[length.as_str()])?;
            found.push((entry.source, cause_at(mark_of(entry.name), said, LIMITS)))?;
        }
    }
    Ok(found)
}

/// The instance by which a function block is too deep (C10 BLOCK_DEPTH); `None` where none is found.
fn too_deep(alloc: Global, entries: &[DeclaredName<'_>]) -> Result<Option<Found>, AllocError> {
    let counts = Counts::of(alloc, entries, Measure::Depth)?;
    let Some(entry) = counts.deepest(entries) else {
        return Ok(None);
    };
    let block = entry.block().map_or("", |word| word.as_str());
    let text =
        "@ is 16 deep already, the most that is allowed, and '%', which has an instance of it here, is one deeper";
    let said = filled(alloc, &[text], block, &[entry.owner])?;
    Ok(Some((entry.source, cause_at(mark_of(entry.name), said, LIMITS))))
}

/// All FORs that have too many turns, and then all arrays that have too many elements, of sources with their units.
pub fn too_long(
    alloc: Global,
    sources: &[Source<'_>],
    units: &[Unit],
) -> Result<Vec<Found>, AllocError> {
    let entries = entries_of(alloc, units)?;
    let mut found = long_fors(alloc, sources, entries.as_slice())?;
    for array in long_arrays(alloc, entries.as_slice())? {
        found.push(array)?;
    }
    Ok(found)
}

/// What there is, in a list.
fn listed(alloc: Global, one: Option<Found>) -> Result<Vec<Found>, AllocError> {
    let mut found = Vec::new(alloc);
    match one {
        Some(one) => found.push(one)?,
        None => {}
    }
    Ok(found)
}

/// With what sources are past a limit, by their units and by the names that these declare.
fn past_in(
    alloc: Global,
    sources: &[Source<'_>],
    (units, entries): (&[Unit], &[DeclaredName<'_>]),
    measure: Measure,
) -> Result<Vec<Found>, AllocError> {
    match measure {
        Measure::Turns => too_long(alloc, sources, units),
        Measure::Elements => long_arrays(alloc, entries),
        Measure::Depth => listed(alloc, too_deep(alloc, entries)?),
        _ => listed(alloc, too_much(alloc, sources, entries, measure)?),
    }
}

/// With what read sources are past a limit.
fn past(alloc: Global, sources: &[Source<'_>], measure: Measure) -> Result<Vec<Found>, AllocError> {
    let units = units_of(alloc, sources)?;
    let entries = entries_of(alloc, units.as_slice())?;
    let past = past_in(
        alloc,
        sources,
        (units.as_slice(), entries.as_slice()),
        measure,
    );
    drop(entries);
    drop(units);
    past
}

/// With what the sources of a plant are past a limit, in order of text: all FORs with too many turns and then all arrays with too many elements, all these
/// arrays, else one place. None where a source isn't spelled as the grammar says.
pub fn where_past<'a>(
    alloc: Global,
    texts: &[(&'a str, &'a [u8])],
    measure: Measure,
) -> Result<Vec<Found>, AllocError> {
    let sources = sources_of(alloc, texts)?;
    let past = past(alloc, sources.as_slice(), measure);
    drop(sources);
    past
}

//! The program with which the sources are past a limit (C10 PROGRAMS, SLOTS, SIZE, COST).

use crate::counts::Counts;
use crate::limits::{Found, LIMITS, for_mark};
use crate::measures::Measure;
use crate::weights::Weight;
use explain_tokens::cause_at;
use explain_trees::{DeclaredName, Form, Source, filled, mark_of};
use std::alloc::{AllocError, Global};

/// Where it stands what programs cost.
const COSTS: &str = "docs/LANGUAGE.md, \"To read C10 COST\"";

/// What is said first where there are too many slots.
const SLOTS: &str =
    "there are % variables and standard blocks, in each instance anew, and at most 65536 are allowed: with ";

/// A program, or a global, and what it counts.
type Counted<'a, 't> = (&'a DeclaredName<'t>, Weight);

/// What is counted: globals, if they are, and then programs, in order of text.
fn counted<'a, 't>(
    alloc: Global,
    entries: &'a [DeclaredName<'t>],
    measure: Measure,
) -> Result<Vec<Counted<'a, 't>>, AllocError> {
    let counts = Counts::of(alloc, entries, measure)?;
    let mut list = Vec::new(alloc);
    for entry in entries {
        match &entry.form {
            Form::Declared(declared) if measure == Measure::Slots && entry.owner.is_empty() => {
                list.push((entry, Weight::of(counts.of_name(declared))))?;
            }
            _ => {}
        }
    }
    for entry in entries {
        if let Form::Program(pou) = &entry.form {
            list.push((entry, counts.of_pou(pou)?))?;
        }
    }
    Ok(list)
}

/// A count as it is written; of one that is beyond what is counted that it is.
fn written(alloc: Global, count: u64) -> Result<String, AllocError> {
    if count == u64::MAX {
        return String::from_str(alloc, "more than 18446744073709551614");
    }
    count.to_string(alloc)
}

/// Where the part of a program that counts most stands, what is said of it, and its number; the program's name and nothing where no part stands out.
fn told_part(
    measure: Measure,
    source: &Source<'_>,
    (entry, weight): Counted<'_, '_>,
) -> ((usize, usize), &'static str, u64) {
    match (measure, weight.around, weight.part) {
        (Measure::Cost, Some((at, times)), _) => {
            let said = ": the body of this FOR runs % times, with all that it calls";
            (for_mark(source, at), said, times)
        }
        (_, _, Some((mark, count))) if count > 1 => {
            let said = match measure {
                Measure::Slots => "; this instance has % of them",
                Measure::Size => "; this call has % of it",
                _ => "; this call costs %",
            };
            (mark, said, count)
        }
        _ => (mark_of(entry.name), "", 0),
    }
}

/// What is said of what there is in all, and of the program, or the global, with which that is past a limit.
fn texts_of(measure: Measure, entry: &DeclaredName<'_>) -> [&'static str; 2] {
    match measure {
        Measure::Programs => [
            "there are % programs, and at most 512 are allowed: with ",
            "this one they are too many",
        ],
        Measure::Slots if entry.is_global(None) => [SLOTS, "this global they are too many"],
        Measure::Slots => [SLOTS, "the program '%', which has %, they are too many"],
        Measure::Size => [
            "the programs together have the size %, and at most 1000000 is allowed: with ",
            "the program '%', which has %, they are too large",
        ],
        _ => [
            "a scan of the program '%' costs %",
            ", and at most 2000000 is allowed",
        ],
    }
}

/// Counts as they are written.
#[derive(Drop)]
struct Numbers {
    total: String,
    own: String,
    part: String,
}

impl Numbers {
    /// What there is in all, in a program or a global, and in a part of it.
    fn of(alloc: Global, [total, own, part]: [u64; 3]) -> Result<Numbers, AllocError> {
        let total = written(alloc, total)?;
        let own = written(alloc, own)?;
        let part = written(alloc, part)?;
        Ok(Numbers { total, own, part })
    }
}

/// What is said of a program, or a global, that is past a limit, by what there is in all, and where most of what it counts stands.
fn told(
    alloc: Global,
    source: &Source<'_>,
    measure: Measure,
    (entry, weight): Counted<'_, '_>,
    total: u64,
) -> Result<Found, AllocError> {
    let (mark, part, count) = told_part(measure, source, (entry, weight));
    let [text, more] = texts_of(measure, entry);
    let numbers = Numbers::of(alloc, [total, weight.total, count])?;
    let words = [
        numbers.total.as_str(),
        entry.name.as_str(),
        numbers.own.as_str(),
        numbers.part.as_str(),
    ];
    let words = words
        .get(usize::from(measure == Measure::Cost)..)
        .unwrap_or(&[]);
    let said = filled(alloc, &[text, more, part], "", words);
    drop(numbers);
    let said = said?;
    let page = if measure == Measure::Cost {
        COSTS
    } else {
        LIMITS
    };
    Ok((entry.source, cause_at(mark, said, page)))
}

/// The program with which the sources are past a limit, alone by its cost, or with all before it; where the globals alone have too many slots, the global. None
/// where there is none.
pub fn too_much(
    alloc: Global,
    sources: &[Source<'_>],
    entries: &[DeclaredName<'_>],
    measure: Measure,
) -> Result<Option<Found>, AllocError> {
    let (mut total, mut past) = (0u64, None);
    for counted in counted(alloc, entries, measure)? {
        total = total.saturating_add(counted.1.total);
        let reached = match measure {
            Measure::Cost => counted.1.total,
            _ => total,
        };
        if past.is_none() && reached > measure.most() {
            past = Some(counted);
        }
    }
    let Some(past) = past else {
        return Ok(None);
    };
    match sources.get(past.0.source) {
        Some(source) => Ok(Some(told(alloc, source, measure, past, total)?)),
        None => Ok(None),
    }
}

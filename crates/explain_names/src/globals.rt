//! Why a name in the alarm database is no BOOL global's (C14).

use crate::hints::near_globals;
use crate::slips::{Said, plain, question_or_nothing};
use crate::uses::is_assigned;
use explain_trees::{DeclaredName, entries_of, filled, kind_text};
use plant_types::{Kind, same_word};
use st_parser::{Sort, Unit};
use std::alloc::{AllocError, Global};

/// What is said behind a name that no global has, and that no block or program has for itself: where a body assigns it, its declaration is missing.
fn beside<'t>(
    alloc: Global,
    entries: &[DeclaredName<'t>],
    units: &[Unit],
    name: &'t str,
) -> Result<Said<'t>, AllocError> {
    if same_word(name.as_bytes(), b"FALSE") {
        return Ok(plain("; where nothing suppresses the alarm the field is empty"));
    }
    if is_assigned(alloc, units, name)? {
        return Ok(plain("; its declaration is missing: VAR_GLOBAL hasn't it"));
    }
    let near = near_globals(entries, name, Some(Kind::Bool));
    Ok(question_or_nothing(near.likely()))
}

/// The block or program that has a name for itself, the first in order of text; empty if none has.
fn owner_of<'t>(entries: &[DeclaredName<'t>], name: &str) -> &'t str {
    let mut entries = entries.iter();
    let owned = entries.find(|entry| !entry.owner.is_empty() && entry.is_called(name));
    owned.map_or("", |entry| entry.owner)
}

/// What the global of a name is declared as; `None` if there is none.
fn sort_of<'t>(entries: &[DeclaredName<'t>], name: &str) -> Option<&'t Sort> {
    let mut entries = entries.iter();
    let global = entries.find(|entry| entry.is_global(None) && entry.is_called(name))?;
    global.sort()
}

/// Why a name is no BOOL global's, in a plant of units.
pub fn no_bool_global<'t>(
    alloc: Global,
    units: &'t [Unit],
    name: &'t str,
) -> Result<String, AllocError> {
    let entries = entries_of(alloc, units)?;
    let entries = entries.as_slice();
    match sort_of(entries, name) {
        Some(Sort::Kind(kind)) => {
            let said = "@ is a %, and an alarm watches BOOL globals";
            return filled(alloc, &[said], name, &[kind_text(*kind)]);
        }
        Some(Sort::Array(_, _)) => {
            let said = "@ is an array, and an alarm watches BOOL globals: assign an element to one";
            return filled(alloc, &[said], name, &[]);
        }
        Some(Sort::Block(_)) | None => {}
    }
    let owner = owner_of(entries, name);
    if !owner.is_empty() {
        let said = "@ is a variable of % alone, and an alarm watches BOOL globals (VAR_GLOBAL)";
        return filled(alloc, &[said], name, &[owner]);
    }
    let (more, words) = beside(alloc, entries, units, name)?;
    filled(alloc, &["no BOOL global is called @", more], name, &words)
}

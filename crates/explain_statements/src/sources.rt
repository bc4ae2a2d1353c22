//! The sources of a plant with their tokens and routines.

use crate::routines::{Routine, block_of, routines_of};
use explain_tokens::{tokens_of, word_at};
use plant_types::same_word;
use st_lexer::Token;
use std::alloc::{AllocError, Global};

/// A source: its text, the text's tokens, and its blocks and programs.
#[derive(Drop)]
pub struct Source<'a> {
    pub name: &'a str,
    pub text: &'a [u8],
    pub tokens: Vec<Token>,
    pub routines: Vec<Routine>,
}

/// The sources of names and texts.
pub fn sources_of<'a>(
    alloc: Global,
    texts: &[(&'a str, &'a [u8])],
) -> Result<Vec<Source<'a>>, AllocError> {
    let mut sources = Vec::new(alloc);
    for text in texts {
        let tokens = tokens_of(alloc, text.1)?;
        let routines = routines_of(alloc, tokens.as_slice())?;
        sources.push(Source {
            name: text.0,
            text: text.1,
            tokens,
            routines,
        })?;
    }
    Ok(sources)
}

/// A block or a program, and the number of its source.
#[derive(Clone, Copy, Drop)]
pub struct Found {
    pub source: usize,
    pub routine: Routine,
}

/// The block or program of a name; `None` where the sources have none.
fn named(sources: &[Source<'_>], name: &str) -> Option<Found> {
    for (number, source) in sources.iter().enumerate() {
        for routine in &source.routines {
            let word = word_at(source.text, source.tokens.as_slice(), routine.name);
            if same_word(word.as_bytes(), name.as_bytes()) {
                return Some(Found {
                    source: number,
                    routine: *routine,
                });
            }
        }
    }
    None
}

/// The block of an instance that a routine declares; `None` where it declares none, or the sources haven't the block.
fn behind(sources: &[Source<'_>], found: Found, instance: &str) -> Option<Found> {
    let source = sources.get(found.source)?;
    let word = block_of(
        source.text,
        source.tokens.as_slice(),
        found.routine,
        instance,
    );
    named(sources, word)
}

/// The routine to which a path leads: the name of a program, and behind points those of instances; `None` where it leads to none.
pub fn routine_at(sources: &[Source<'_>], path: &str) -> Option<Found> {
    let mut found = None;
    for (number, name) in path.split(".").enumerate() {
        found = match found {
            Some(found) => Some(behind(sources, found, name)?),
            None if number == 0 => Some(named(sources, name)?),
            None => return None,
        };
    }
    found
}

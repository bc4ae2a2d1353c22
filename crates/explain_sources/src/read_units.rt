//! What of a source can be read, where a part of it can't.

use crate::holes::Lexed;
use explain_tokens::{TokenPlace, start_of};
use explain_words::{next_end, statement_start};
use st_lexer::Token;
use st_parser::Unit;
use std::alloc::{AllocError, Global};

/// A unit that was read, perhaps with something left out or put in: a block, a program or a section of globals, with its tree.
#[derive(Drop)]
pub struct ReadUnit {
    /// Its tokens, and among them those that were put in, which have no bytes.
    pub tokens: Vec<Token>,
    pub tree: Unit,
    /// Whether it isn't certain which FORs stand around its statements.
    pub blurs_loops: bool,
    /// Whether it may declare more than its tree has.
    pub lacks: bool,
}

/// The units of a source that can be read.
#[derive(Drop)]
pub struct ReadUnits {
    /// In order of text.
    pub list: Vec<ReadUnit>,
    /// The bytes around what can't be read, each time from one number to another.
    pub gaps: Vec<(usize, usize)>,
    /// Whether the source may have globals that none of these has.
    pub lacks_globals: bool,
    /// Whether the source may have blocks that are none of these.
    pub lacks_blocks: bool,
}

/// The number of the first of some tokens that begins at a byte, or behind it.
fn token_at(tokens: &[Token], at: usize) -> usize {
    let number = tokens.iter().position(|token| token.from >= at);
    number.unwrap_or(tokens.len())
}

impl ReadUnits {
    /// No units.
    pub(crate) fn none(alloc: Global) -> ReadUnits {
        ReadUnits {
            list: Vec::new(alloc),
            gaps: Vec::new(alloc),
            lacks_globals: false,
            lacks_blocks: false,
        }
    }

    /// Takes a unit, of which it may not be certain which FORs stand around its statements, and which may lack declarations.
    pub(crate) fn keep(
        &mut self,
        tokens: Vec<Token>,
        tree: Unit,
        (blurs_loops, lacks): (bool, bool),
    ) -> Result<(), AllocError> {
        let has_globals = !tree.globals.is_empty();
        self.lacks_globals = self.lacks_globals || lacks && has_globals;
        self.list.push(ReadUnit {
            tokens,
            tree,
            blurs_loops,
            lacks,
        })?;
        Ok(())
    }

    /// Notes that something can't be read that others may name.
    pub(crate) fn lose(&mut self) {
        self.lacks_globals = true;
        self.lacks_blocks = true;
    }

    /// Notes the statements and declarations among the tokens of a unit in which bytes begin no token; whether one of them is a declaration.
    pub(crate) fn add_holes(
        &mut self,
        lexed: &Lexed<'_>,
        tokens: &[Token],
    ) -> Result<bool, AllocError> {
        let (from, until) = match (tokens.first(), tokens.last()) {
            (Some(first), Some(last)) => (first.from, last.until),
            _ => return Ok(false),
        };
        let mut lacks = false;
        for hole in lexed.holes.as_slice() {
            if hole.1 < from || until < hole.0 {
                continue;
            }
            let place = TokenPlace::new(lexed.text, tokens, token_at(tokens, hole.0));
            let first = start_of(lexed.text, tokens, statement_start(place)).min(hole.0);
            self.gaps
                .push((first, next_end(place).mark().1.max(hole.1)))?;
            lacks = lacks || place.is_declared() || place.stand() == "head";
        }
        Ok(lacks)
    }
}

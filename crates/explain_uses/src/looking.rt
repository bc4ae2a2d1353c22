//! A walk over the sources of a plant.

use crate::comments::swallower;
use crate::found::{Found, Uses};
use crate::places::{Passed, Sought, place_of};
use base_words::Names;
use explain_tokens::tokens_of;
use explain_trees::{DeclaredName, Form, entries_of};
use plant_types::{Region, Text};
use st_lexer::Token;
use st_parser::{SectionKind, Unit};
use std::alloc::{AllocError, Global};

/// Nothing is done.
const UNUSED: Uses = Uses {
    is_read: false,
    is_assigned: false,
    is_called: false,
    writer: None,
    is_told: false,
};

/// The walk, and what it found so far.
#[derive(Drop)]
pub struct Looking<'p> {
    pub alloc: Global,
    pub sources: &'p [(&'p str, &'p [u8])],
    pub entries: &'p [DeclaredName<'p>],
    /// What is done with each entry.
    pub uses: Vec<Uses>,
    /// The names that all sources share, and the number of the entry of each.
    pub shared: Names,
    pub numbers: Vec<usize>,
    /// What the unit declares itself, and the number of the first entry of these.
    pub own: Names,
    pub first: usize,
    /// The addresses of inputs and outputs, and the name at each.
    pub addresses: Names,
    pub holders: Vec<&'p str>,
    /// The number of the source, from 0, its text, and its tokens where a place was sought among them.
    pub source: usize,
    pub text: &'p [u8],
    tokens: Vec<Token>,
    pub passed: Passed,
    /// How many programs have begun, and the number of the one that is gone through; 0 in a block.
    pub programs: usize,
    pub program: usize,
    pub found: Found,
}

impl<'p> Looking<'p> {
    /// What was allocated; where memory was refused, that is noted.
    pub fn got<T: Drop, E: Drop>(&mut self, outcome: Result<T, E>) -> Option<T> {
        self.found.got(outcome)
    }

    /// Keeps a warning at bytes of the source that is gone through.
    pub fn warn(&mut self, mark: (usize, usize), text: &str, told: (&str, &[&str])) {
        self.found.warn_in(Some(self.source), mark, text, told);
    }

    /// Keeps a warning at a literal or an operator of the body that is gone through: the one of a number, from 0, behind the name that was passed last.
    pub fn warn_behind(&mut self, sought: Sought, number: usize, text: &str) {
        if self.found.is_full() {
            return;
        }
        if self.tokens.is_empty() {
            let tokens = tokens_of(self.alloc, self.text);
            self.tokens = self.got(tokens).unwrap_or(Vec::new(self.alloc));
        }
        let mark = place_of(self.tokens.as_slice(), self.passed.at, sought, number);
        self.warn(mark, text, ("", &[]));
    }

    /// Goes past a name.
    pub fn pass(&mut self, name: &Text) {
        self.passed = Passed {
            at: name.at() as usize,
            literals: 0,
            divisions: 0,
        };
    }

    /// The number of the entry that a name means, in the unit that is gone through; `None` if there is none.
    pub fn find(&self, name: &str) -> Option<usize> {
        if let Some(own) = self.own.find(name) {
            let number = self.first.saturating_add(own);
            if let Some(Form::Declared(declared)) = self.entries.get(number).map(|own| &own.form) {
                if !matches!(declared.section(), SectionKind::External) {
                    return Some(number);
                }
            }
        }
        self.numbers.get(self.shared.find(name)?).copied()
    }

    /// Whether an entry, by its number, has an address in a region.
    pub fn is_in(&self, number: usize, region: Region) -> bool {
        match self.entries.get(number) {
            Some(entry) => entry.region() == Some(region),
            None => false,
        }
    }

    /// What is done with what a name means; `None` where it means nothing.
    pub fn uses_of(&mut self, name: &str) -> Option<&mut Uses> {
        let number = self.find(name)?;
        self.uses.get_mut(number)
    }

    /// Goes through a source: its comments, and its unit.
    fn go_through(&mut self, text: &'p [u8], unit: &'p Unit) {
        self.text = text;
        self.tokens = Vec::new(self.alloc);
        let comment = swallower(self.alloc, text);
        if let Some(Some(comment)) = self.got(comment) {
            let mark = comment.cause.mark.unwrap_or((0, 0));
            self.warn(mark, "%", ("", &[comment.cause.said.as_str()]));
            self.found.note_swallowed(comment.swallowed);
        }
        self.unit(unit);
    }
}

/// A walk over sources that has not begun.
fn begun<'p>(
    alloc: Global,
    sources: &'p [(&'p str, &'p [u8])],
    entries: &'p [DeclaredName<'p>],
) -> Result<Looking<'p>, AllocError> {
    Ok(Looking {
        alloc,
        sources,
        entries,
        uses: vec![in alloc; UNUSED; entries.len()]?,
        shared: Names::new(alloc),
        numbers: Vec::new(alloc),
        own: Names::new(alloc),
        first: 0,
        addresses: Names::new(alloc),
        holders: Vec::new(alloc),
        source: 0,
        text: b"",
        tokens: Vec::new(alloc),
        passed: Passed {
            at: 0,
            literals: 0,
            divisions: 0,
        },
        programs: 0,
        program: 0,
        found: Found::new(alloc),
    })
}

/// Goes through sources, whose units are well formed, until as many warnings are found as are told.
pub fn look(alloc: Global, sources: &[(&str, &[u8])], units: &[Unit]) -> Result<Found, AllocError> {
    let entries = entries_of(alloc, units)?;
    let mut looking = begun(alloc, sources, entries.as_slice())?;
    looking.share();
    for (number, unit) in units.iter().enumerate() {
        if let (Some(source), false) = (sources.get(number), looking.found.is_full()) {
            looking.source = number;
            looking.go_through(source.1, unit);
        }
    }
    looking.keep();
    Ok(looking.found)
}

//! The sources of a plant, and their trees.

use crate::entries::{DeclaredName, Form, entries_of};
use crate::unknown::{Parsed, Unknown};
use base_words::Names;
use explain_tokens::tokens_of;
use plant_types::Text;
use st_lexer::Token;
use st_names::{SharedNames, declared_in};
use st_parser::{ParseFault, Pou, SectionKind, Sort, Unit, parse};
use std::alloc::{AllocError, Global};

/// A source: its name, its text and the text's tokens.
#[derive(Drop)]
pub struct Source<'a> {
    pub name: &'a str,
    pub text: &'a [u8],
    pub tokens: Vec<Token>,
}

/// The sources of a plant, and the names that they declare.
#[derive(Drop)]
pub struct Trees<'t> {
    pub alloc: Global,
    pub sources: &'t [Source<'t>],
    pub units: &'t [Unit],
    pub unknown: &'t Unknown,
    pub shared: &'t SharedNames<'t>,
    /// The alarm database, as it is written.
    pub alarms: &'t [u8],
    /// The names of no source: it knows the blocks that are there from the start, and no other.
    standard: &'t SharedNames<'t>,
    pub entries: Vec<DeclaredName<'t>>,
    /// The names that all sources share.
    names: Names,
    /// Of each the number of its first entry, and whether it isn't certain what it is: it is declared again, or its declaration can't stand.
    firsts: Vec<(usize, bool)>,
}

/// The sources of texts with their tokens.
pub fn sources_of<'a>(
    alloc: Global,
    texts: &[(&'a str, &'a [u8])],
) -> Result<Vec<Source<'a>>, AllocError> {
    let mut sources = Vec::new(alloc);
    for source in texts {
        sources.push(Source {
            name: source.0,
            text: source.1,
            tokens: tokens_of(alloc, source.1)?,
        })?;
    }
    Ok(sources)
}

/// The unit of each source; none where one isn't spelled as the grammar says.
pub fn units_of(alloc: Global, sources: &[Source<'_>]) -> Result<Vec<Unit>, AllocError> {
    let mut units = Vec::new(alloc);
    for source in sources {
        match parse(alloc, source.text, source.tokens.as_slice()) {
            Ok(unit) => units.push(unit)?,
            Err(ParseFault::Memory) => return Err(AllocError),
            Err(ParseFault::At { .. }) => return Ok(Vec::new(alloc)),
        }
    }
    Ok(units)
}

/// The bytes of a name of a tree in its source.
pub fn mark_of(name: &Text) -> (usize, usize) {
    let at = name.at() as usize;
    (at, at.saturating_add(name.as_bytes().len()))
}

/// Whether it isn't certain which inputs and outputs a block has: it declares a name twice, or an instance or an array in the place of an input or an output.
fn is_mixed(alloc: Global, pou: &Pou) -> Result<bool, AllocError> {
    let mut names = Names::new(alloc);
    let list = declared_in(alloc, &pou.sections)?;
    for declared in &list {
        let is_new = names.add(alloc, declared.name().as_str())?;
        let is_member = matches!(declared.section(), SectionKind::Input | SectionKind::Output);
        let is_variable = matches!(declared.sort(), Sort::Kind(_));
        if !is_new || (is_member && !is_variable) {
            return Ok(true);
        }
    }
    Ok(false)
}

/// Whether it isn't certain what is declared first by an entry.
fn is_doubtful(
    alloc: Global,
    entry: &DeclaredName<'_>,
    unknown: &Unknown,
) -> Result<bool, AllocError> {
    match &entry.form {
        Form::Block(_) if unknown.has_owner(entry.source) => Ok(true),
        Form::Block(pou) => is_mixed(alloc, pou),
        Form::Program(_) => Ok(false),
        Form::Declared(declared) => Ok(matches!(declared.sort(), Sort::Block(_))),
    }
}

impl<'t> Trees<'t> {
    /// The trees of sources with their units, whose names are known, beside an alarm database.
    pub fn new(
        alloc: Global,
        parsed: Parsed<'t>,
        shared: &'t SharedNames<'t>,
        standard: &'t SharedNames<'t>,
        alarms: &'t [u8],
    ) -> Result<Trees<'t>, AllocError> {
        let mut trees = Trees {
            alloc,
            sources: parsed.sources,
            units: parsed.units,
            unknown: parsed.unknown,
            shared,
            standard,
            alarms,
            entries: entries_of(alloc, parsed.units)?,
            names: Names::new(alloc),
            firsts: Vec::new(alloc),
        };
        trees.find_firsts()?;
        Ok(trees)
    }

    /// Notes the first entry of each name that all sources share, and whether it is declared again.
    fn find_firsts(&mut self) -> Result<(), AllocError> {
        for (number, entry) in self.entries.iter().enumerate() {
            if !entry.owner.is_empty() {
                continue;
            }
            if self.names.add(self.alloc, entry.name.as_str())? {
                let is_doubtful = is_doubtful(self.alloc, entry, self.unknown)?;
                self.firsts.push((number, is_doubtful))?;
            } else if let Some(first) = self.names.find(entry.name.as_str()) {
                if let Some(known) = self.firsts.get_mut(first) {
                    known.1 = true;
                }
            }
        }
        Ok(())
    }

    /// The first entry of a name that all sources share; `None` if there is none.
    pub fn find(&self, name: &Text) -> Option<&DeclaredName<'t>> {
        let number = self.names.find(name.as_str())?;
        let first = self.firsts.get(number)?;
        self.entries.get(first.0)
    }

    /// Whether a name is declared first as that of a program.
    pub fn is_program(&self, name: &Text) -> bool {
        match self.find(name) {
            Some(entry) => matches!(&entry.form, Form::Program(_)),
            None => false,
        }
    }

    /// Whether it isn't certain what a name that all sources share is.
    pub fn doubts(&self, name: &Text) -> bool {
        let Some(number) = self.names.find(name.as_str()) else {
            return false;
        };
        matches!(self.firsts.get(number), Some((_, true)))
    }

    /// Whether a word is that of a block that is there from the start.
    pub fn is_standard(&self, word: &Text) -> bool {
        self.standard.is_block_type(word)
    }

    /// Whether a block that is there from the start has an input of a name, or an output.
    pub fn is_standard_member(&self, word: &Text, name: &Text, are_inputs: bool) -> bool {
        if are_inputs {
            self.standard.input(word, name).is_some()
        } else {
            self.standard.output(word, name).is_some()
        }
    }

    /// Whether a word is certainly that of a block, of which it is certain what it has.
    pub fn is_sure_block(&self, word: &Text) -> bool {
        self.is_standard(word) || (self.shared.is_block_type(word) && !self.doubts(word))
    }

    /// The function block of a name; `None` if the sources have none.
    pub fn block(&self, word: &Text) -> Option<&'t Pou> {
        match &self.find(word)?.form {
            Form::Block(pou) => Some(*pou),
            _ => None,
        }
    }
}

//! The names that sources declare.

use plant_types::{Kind, Region, Text, same_word};
use st_names::{Declared, declared_in, sort_kind};
use st_parser::{Pou, PouKind, Section, Sort, Unit};
use std::alloc::{AllocError, Global};

/// What a name is declared as.
#[derive(Drop)]
pub enum Form<'t> {
    Block(&'t Pou),
    Program(&'t Pou),
    /// A variable or an instance.
    Declared(Declared<'t>),
}

/// A name that a source declares.
#[derive(Drop)]
pub struct DeclaredName<'t> {
    /// The number of its source, from 0.
    pub source: usize,
    /// The block or program that has it for itself; empty where all sources share it.
    pub owner: &'t str,
    pub name: &'t Text,
    pub form: Form<'t>,
}

impl<'t> DeclaredName<'t> {
    /// What it is declared as; `None` of a block or a program.
    pub fn sort(&self) -> Option<&'t Sort> {
        match &self.form {
            Form::Declared(declared) => Some(declared.sort()),
            _ => None,
        }
    }

    /// Whether it is a global of a kind, or of any where none is given.
    pub fn is_global(&self, kind: Option<Kind>) -> bool {
        match self.sort() {
            Some(sort) if self.owner.is_empty() => kind.is_none() || sort_kind(sort) == kind,
            _ => false,
        }
    }

    /// The region of its address, where it has one.
    pub fn region(&self) -> Option<Region> {
        match &self.form {
            Form::Declared(declared) => declared.region(),
            _ => None,
        }
    }

    /// The word of the block of which it is an instance; `None` where it is none.
    pub fn block(&self) -> Option<&'t Text> {
        match self.sort()? {
            Sort::Block(word) => Some(word),
            Sort::Kind(_) | Sort::Array(_, _) => None,
        }
    }

    /// Whether it has a name.
    pub fn is_called(&self, name: &str) -> bool {
        same_word(self.name.as_bytes(), name.as_bytes())
    }
}

/// Adds what sections declare.
fn add_declared<'t>(
    alloc: Global,
    entries: &mut Vec<DeclaredName<'t>>,
    (source, owner): (usize, &'t str),
    sections: &'t [Section],
) -> Result<(), AllocError> {
    let list = declared_in(alloc, sections)?;
    for declared in &list {
        entries.push(DeclaredName {
            source,
            owner,
            name: declared.name(),
            form: Form::Declared(declared.copy()),
        })?;
    }
    Ok(())
}

/// Adds a block or a program, and what it declares.
fn add_pou<'t>(
    alloc: Global,
    entries: &mut Vec<DeclaredName<'t>>,
    source: usize,
    pou: &'t Pou,
) -> Result<(), AllocError> {
    entries.push(DeclaredName {
        source,
        owner: "",
        name: &pou.name,
        form: match pou.kind {
            PouKind::Block => Form::Block(pou),
            PouKind::Program => Form::Program(pou),
        },
    })?;
    add_declared(alloc, entries, (source, pou.name.as_str()), &pou.sections)
}

/// The names that units declare, in order of text.
pub fn entries_of<'t>(
    alloc: Global,
    units: &'t [Unit],
) -> Result<Vec<DeclaredName<'t>>, AllocError> {
    let mut entries = Vec::new(alloc);
    for (source, unit) in units.iter().enumerate() {
        add_declared(alloc, &mut entries, (source, ""), &unit.globals)?;
        for pou in &unit.pous {
            add_pou(alloc, &mut entries, source, pou)?;
        }
    }
    Ok(entries)
}

//! The names of a unit.

use crate::trees::Trees;
use base_words::Names;
use plant_types::{Kind, Text};
use st_names::{BodyScope, Declared, Scope, sort_array, sort_kind};
use st_parser::{Section, SectionKind, Sort};
use std::alloc::AllocError;

/// The name of a kind.
pub fn kind_text(kind: Kind) -> &'static str {
    match kind {
        Kind::Bool => "BOOL",
        Kind::Dint => "DINT",
        Kind::Time => "TIME",
    }
}

/// A block, a program, or the globals of a source.
#[derive(Drop)]
pub struct Body<'t> {
    pub plant: &'t Trees<'t>,
    pub name: &'t str,
    pub scope: BodyScope<'t>,
    /// Its own names of which it isn't certain what they are.
    doubts: Names,
    /// Whether it may declare more.
    is_open: bool,
}

/// Whether it isn't certain what a declared name is: the block of an instance isn't there, or the instance or the array can't stand there, or a VAR_EXTERNAL
/// isn't declared as its global is.
fn is_doubtful(plant: &Trees<'_>, scope: &BodyScope<'_>, declared: &Declared<'_>) -> bool {
    match (declared.sort(), declared.section()) {
        (Sort::Block(word), SectionKind::Local) => !plant.is_sure_block(word),
        (Sort::Block(_), _) => true,
        (sort, SectionKind::External) => {
            let name = declared.name();
            let is_same = scope.global_kind(name) == sort_kind(sort)
                && scope.global_array(name) == sort_array(sort);
            scope.is_global(name) && (!is_same || plant.doubts(name))
        }
        (Sort::Array(_, _), SectionKind::Input | SectionKind::Output) => true,
        _ => false,
    }
}

/// The names of a unit's own of which it isn't certain what they are: those that it declares twice too.
fn doubts_of(plant: &Trees<'_>, scope: &BodyScope<'_>) -> Result<Names, AllocError> {
    let mut names = Names::new(plant.alloc);
    let mut doubts = Names::new(plant.alloc);
    for declared in scope.declared() {
        let name = declared.name().as_str();
        let is_new = names.add(plant.alloc, name)?;
        if !is_new || is_doubtful(plant, scope, declared) {
            doubts.add(plant.alloc, name)?;
        }
    }
    Ok(doubts)
}

impl<'t> Body<'t> {
    /// The unit of a name that declares these sections itself, or more, where it is open.
    pub fn new(
        plant: &'t Trees<'t>,
        name: &'t str,
        sections: &'t [Section],
        is_open: bool,
    ) -> Result<Body<'t>, AllocError> {
        let scope = BodyScope::new(plant.alloc, plant.shared, sections)?;
        let doubts = doubts_of(plant, &scope)?;
        Ok(Body {
            plant,
            name,
            scope,
            doubts,
            is_open,
        })
    }

    /// Whether it isn't certain what a name is.
    pub fn doubts(&self, name: &Text) -> bool {
        if self.doubts.find(name.as_str()).is_some() {
            return true;
        }
        match self.scope.find(name) {
            Some(declared) if !matches!(declared.section(), SectionKind::Global) => false,
            _ if self.is_open => true,
            None if self.plant.unknown.globals => true,
            _ => self.plant.doubts(name),
        }
    }

    /// The block's word of the instance of a name; `None` where the name isn't that of an instance.
    pub fn block_word(&self, name: &Text) -> Option<&'t Text> {
        match self.scope.find(name)?.sort() {
            Sort::Block(word) => Some(word),
            Sort::Kind(_) | Sort::Array(_, _) => None,
        }
    }
}

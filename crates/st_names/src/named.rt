//! What a name that all sources share stands for.

ghost use Rattle.std.specs.Prelude.{◌≡◌, IfOk, map, filter};
ghost use Rattle.st_parser.specs.Units.{view_pou};
ghost use Rattle.st_names.specs.DeclaredNames.{sort_kind, sort_array};

use crate::declared::Declared;
use crate::table::NameTable;
use plant_types::{Bounds, Kind};
use st_parser::Sort;

/// The inputs and outputs of a function block, each with its kind; an instance or an array in their place has none.
pub struct Members {
    pub inputs: NameTable<Option<Kind>>,
    pub outputs: NameTable<Option<Kind>>,
}

impl Drop for Members {
    fn drop(self) {
        let Members {
            inputs: _,
            outputs: _,
        } = self;
    }
}

/// What a name that all sources share stands for.
#[derive(Drop)]
pub enum Named<'a> {
    Global(Declared<'a>),
    Block(Members),
    Program,
}

/// The kind of a variable; an instance and an array have none.
pub fn sort_kind(sort: &Sort) -> Option<Kind>
    ensures { result ≡ sort_kind sort.now }
{
    match sort {
        Sort::Kind(kind) => Some(*kind),
        Sort::Block(_) | Sort::Array(_, _) => None,
    }
}

/// The bounds of an array, and the kind of its elements; a variable and an instance have none.
pub fn sort_array(sort: &Sort) -> Option<(Bounds, Kind)>
    ensures { result ≡ sort_array sort.now }
{
    match sort {
        Sort::Array(bounds, kind) => Some((*bounds, *kind)),
        Sort::Kind(_) | Sort::Block(_) => None,
    }
}

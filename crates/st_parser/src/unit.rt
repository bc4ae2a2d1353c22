//! A unit: what a source declares. Names are as they are spelled.

use plant_types::{Bounds, Kind, Region, Text};
use st_tree::{Expr, Stmt};

/// What variables are declared as: variables of a kind, instances of a block type, or arrays with these bounds of elements of a kind.
#[derive(Drop)]
pub enum Sort {
    Kind(Kind),
    Block(Text),
    Array(Bounds, Kind),
}

/// Variables that are declared together.
pub struct Declaration {
    /// In the order of the text, at least one.
    pub names: Vec<Text>,
    /// The region of the variable's address, for one global with an address.
    pub region: Option<Region>,
    pub sort: Sort,
    /// The initial value of each, if one is written.
    pub initial: Option<Expr<Text>>,
}

impl Drop for Declaration {
    fn drop(self) {
        let Declaration {
            names: _,
            region: _,
            sort: _,
            initial: _,
        } = self;
    }
}

/// What a section of declarations is for (IEC 61131-3).
#[derive(Clone, Copy, Drop)]
pub enum SectionKind {
    /// `VAR_GLOBAL`
    Global,
    /// `VAR`
    Local,
    /// `VAR_INPUT`
    Input,
    /// `VAR_OUTPUT`
    Output,
    /// `VAR_EXTERNAL`
    External,
}

/// A section of declarations.
pub struct Section {
    pub kind: SectionKind,
    /// In the order of the text.
    pub declarations: Vec<Declaration>,
}

impl Drop for Section {
    fn drop(self) {
        let Section {
            kind: _,
            declarations: _,
        } = self;
    }
}

/// What a program organisation unit is (IEC 61131-3).
#[derive(Clone, Copy, Drop)]
pub enum PouKind {
    Block,
    Program,
}

/// A function block or a program: a program organisation unit (IEC 61131-3).
pub struct Pou {
    pub kind: PouKind,
    pub name: Text,
    /// In the order of the text.
    pub sections: Vec<Section>,
    pub body: Vec<Stmt<Text>>,
}

impl Drop for Pou {
    fn drop(self) {
        let Pou {
            kind: _,
            name: _,
            sections: _,
            body: _,
        } = self;
    }
}

/// A source: its sections of global variables, then its function blocks and programs.
pub struct Unit {
    /// In the order of the text, each `SectionKind::Global`.
    pub globals: Vec<Section>,
    /// In the order of the text.
    pub pous: Vec<Pou>,
}

impl Drop for Unit {
    fn drop(self) {
        let Unit {
            globals: _,
            pous: _,
        } = self;
    }
}

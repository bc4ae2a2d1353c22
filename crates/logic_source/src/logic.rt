//! A source that was parsed: global variables, programs and block types.

ghost use Rattle.std.specs.Prelude.{◌≡◌, ◌<◌, ◌^◌};
ghost use Rattle.plant_types.specs.Values.{row_length};
ghost use Rattle.logic_source.specs.Source.{row_cells};

use plant_types::{Bounds, Kind, Region, Text};
use st_tree::Stmt;

/// The global variables, the programs and the block types of a plant.
pub struct Logic {
    /// In order of declaration.
    pub globals: Vec<Variable>,
    /// The global arrays, in order of declaration.
    pub rows: Vec<Row>,
    /// An assignment for each initial value that is written for a global.
    pub starts: Vec<Stmt<Text>>,
    /// In order of text.
    pub programs: Vec<Routine>,
    /// The block types that are declared, in order of text. Their numbers count from 0.
    pub blocks: Vec<Routine>,
}

impl Drop for Logic {
    fn drop(self) {
        let Logic {
            globals: _,
            rows: _,
            starts: _,
            programs: _,
            blocks: _,
        } = self;
    }
}

/// A global variable, with its name as declared.
pub struct Variable {
    pub name: Text,
    /// The region of its address; `None` for a variable without an address.
    pub region: Option<Region>,
    pub kind: Kind,
}

impl Drop for Variable {
    fn drop(self) {
        let Variable {
            name: _,
            region: _,
            kind: _,
        } = self;
    }
}

/// A routine's own variable, with its name as declared.
pub struct Local {
    pub name: Text,
    pub kind: Kind,
}

impl Drop for Local {
    fn drop(self) {
        let Local { name: _, kind: _ } = self;
    }
}

/// An array (IEC 61131-3), with its name as declared.
pub struct Row {
    pub name: Text,
    /// That of each element.
    pub kind: Kind,
    pub bounds: Bounds,
}

impl Drop for Row {
    fn drop(self) {
        let Row {
            name: _,
            kind: _,
            bounds: _,
        } = self;
    }
}

impl Row {
    /// How many elements it has: an index from the low bound to the high one each.
    pub fn elements(&self) -> usize
        ensures { result ≡ row_length self.now.bounds }
    {
        self.bounds.high.abs_diff(self.bounds.low) as usize + 1
    }
}

/// How many cells arrays have together: one for each element. There are no more than a number has room for.
pub fn row_cells(rows: &[Row]) -> usize
    requires { row_cells rows.now < 2 ^ 64 }
    ensures { result ≡ row_cells rows.now }
{
    let mut total = 0;
    for row in rows {
        total += row.elements();
    }
    total
}

/// What an instance is of: a standard block (IEC 61131-3), or the declared block type of a number.
#[derive(Clone, Copy, Drop)]
pub enum BlockRef {
    /// The on-delay timer `TON`.
    Ton,
    /// The off-delay timer `TOF`.
    Tof,
    /// The edge detector `R_TRIG`.
    RTrig,
    /// The declared block type of a number, from 0 in order of text.
    Declared(usize),
}

/// An instance, with its name as declared.
pub struct Instance {
    pub name: Text,
    pub of: BlockRef,
}

impl Drop for Instance {
    fn drop(self) {
        let Instance { name: _, of: _ } = self;
    }
}

/// A routine: a program or a block type (IEC 61131-3), with its name as declared.
pub struct Routine {
    pub name: Text,
    /// Its own variables in order of declaration: those of VAR, VAR_INPUT and VAR_OUTPUT.
    pub locals: Vec<Local>,
    /// Its own arrays, in order of declaration.
    pub rows: Vec<Row>,
    /// Its instances in order of declaration.
    pub instances: Vec<Instance>,
    /// An assignment for each initial value that is written for one of its own variables.
    pub starts: Vec<Stmt<Text>>,
    pub body: Vec<Stmt<Text>>,
}

impl Drop for Routine {
    fn drop(self) {
        let Routine {
            name: _,
            locals: _,
            rows: _,
            instances: _,
            starts: _,
            body: _,
        } = self;
    }
}

//! The bodies of routines, and where the instances in them lie.

use logic_cells::Standard;
use plant_types::Text;
use st_tree::Stmt;

/// What an instance is of: a standard block, or the frame of a number in the table.
#[derive(Clone, Copy, Drop)]
pub enum SeatOf {
    Standard(Standard),
    Frame(usize),
}

/// An instance of a block in a routine: its name as declared, how far its first value, its first clock and its first path number are from
/// those of the routine, and whether the routine calls it.
pub struct Seat {
    pub name: Text,
    pub of: SeatOf,
    pub values: usize,
    pub clocks: usize,
    pub paths: u32,
    pub is_called: bool,
}

impl Drop for Seat {
    fn drop(self) {
        let Seat {
            name: _,
            of: _,
            values: _,
            clocks: _,
            paths: _,
            is_called: _,
        } = self;
    }
}

/// A program or a block type: its instances in order of declaration, the statements that assign its initial values, and its body; whether it
/// assigns an initial value, or an instance below it does; and how many standard blocks it has, nested ones too.
pub struct Frame {
    pub seats: Vec<Seat>,
    pub starts: Vec<Stmt<usize>>,
    pub body: Vec<Stmt<usize>>,
    pub has_starts: bool,
    pub clocks: usize,
}

impl Drop for Frame {
    fn drop(self) {
        let Frame {
            seats: _,
            starts: _,
            body: _,
            has_starts: _,
            clocks: _,
        } = self;
    }
}

/// Where the values and the clocks of the instance that runs begin in the cells.
#[derive(Clone, Copy, Drop)]
pub struct Base {
    pub values: u128,
    pub clocks: u128,
}

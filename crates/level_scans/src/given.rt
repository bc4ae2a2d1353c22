//! What a scan's programs are given, and what they change.

use crate::levels::Levelled;
use crate::workspace::Workspace;
use logic_cells::Cells;
use plant_types::{Place, Trap};
use vm_carry::Framed;

/// What a scan's programs are given.
#[derive(Clone, Copy)]
pub struct ScanGiven<'a> {
    /// The programs.
    pub framed: &'a Framed,
    /// Their levels, if these were made.
    pub levels: &'a Option<Levelled>,
    /// The moment of the scan, in milliseconds.
    pub moment: u64,
}

/// What a scan's programs are given that run level by level.
#[derive(Clone, Copy)]
pub struct LevelsGiven<'a> {
    /// The programs.
    pub framed: &'a Framed,
    /// Their levels.
    pub levelled: &'a Levelled,
    /// The moment of the scan, in milliseconds.
    pub moment: u64,
}

/// What a scan's programs change.
#[derive(Drop)]
pub struct ScanChanged<'a> {
    /// The values of the variables, by number, and the clocks of standard blocks.
    pub cells: &'a mut Cells,
    /// For each program whether it is faulted.
    pub faulted: &'a mut Vec<bool>,
    /// The faults in program order, in place of those listed before.
    pub faults: &'a mut Vec<(Place, Trap)>,
    /// Memory for the runs.
    pub space: &'a mut Workspace,
}

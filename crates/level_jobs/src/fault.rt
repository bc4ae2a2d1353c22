//! Where a program trapped.

use logic_cells::Stop;

/// A program's run trapped: the program's number, from 0 on, and where with which trap.
#[derive(Clone, Copy, Drop)]
pub struct ProgramFault {
    pub program: u32,
    pub stop: Stop,
}

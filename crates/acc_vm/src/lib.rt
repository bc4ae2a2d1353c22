//! A machine that runs the code of a program: instructions on an accumulator, a stack of whole numbers and cells.
//!
//! What an instruction does is `act` of `specs/Machine.antt`; a run goes on until the end or a trap, or until its fuel is used up. What is kept
//! of code, and when it is sound, is in `specs/Codes.antt`: sound code ends from any cells within the fuel of its cost, and is never stuck.
//!
//! Layer vm_: it must not know alarms, files or threads.
#![tactic(auto)]

mod arrays;
mod clocks;
mod code;
mod flat;
mod flat_instr;
mod instr;
mod own;
mod run;
mod step;

pub use code::Code;
pub use flat_instr::{FlatInstr, flat_instrs};
pub use instr::{Instr, Named, Operation, Row};
pub use own::{Own, Shared};

//! Where the statements of a plant's sources stand, for people: a FAULT names a statement by its number, and a person looks for its line.
//!
//! The number of a statement is its place among the statements of its body, in the order of their first tokens, from 1. So it is found from the tokens of a
//! source that is spelled as the grammar says, and no tree is read. `told_of_fault` shows the statement of a line FAULT, `statement_table` tells the line of
//! each statement of all blocks and programs. No clause says which line it is; that is tried on examples.
//!
//! Layer explain_: it must not know events or commands.
#![tactic(auto)]

mod fault;
mod routines;
mod sources;
mod table;

pub use fault::told_of_fault;
pub use table::statement_table;

//! The order of block types: which of them hold themselves, which are too deep, and an order in which each stands after those that it
//! declares.
//!
//! What is meant is defined on names alone, without letter case. The code gives each name a number once, the place of the first block
//! type that has it.
//!
//! Layer st_: it must not know cells, code, alarms or files.
#![tactic(auto)]

mod blocks;
mod components;
mod faults;
mod holders;
mod laws;
mod levels;
mod names;
mod order;
mod search;
mod word;

pub use blocks::Block;
pub use faults::NestingFault;
pub use laws::{deeper_where_chain, levels_show_depth, one_nesting_fault, sound_or_not};
pub use order::order_blocks;

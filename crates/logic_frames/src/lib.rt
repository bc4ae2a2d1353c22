//! The frames of a source: the bodies of its block types and programs over numbers, as `logic_walk` runs them.
//!
//! The table has a frame for each block type, in an order in which each stands after those that it declares, and then a frame for each
//! program. A block type of which programs have no instance, directly or through other block types, has an empty frame, and nothing of it is
//! counted: an instance of it could have more values than any memory. One of which programs have instances, but whose calls no program comes
//! to, has no body, and no paths below it.
//!
//! A name becomes a number: a global's is its place among the globals, and those of a routine's own variables follow; an instance's
//! is its place among the routine's; an input's or output's is 0 or 1 of a standard block, or the place of the block type's own variable.
//! `frames_agree` says that frames over cells do what the source does in a world, and `frames_begin` that their initial values are the source's.
//! `frames_have_paths` and `frames_have_standards` say that the paths and the standard blocks of a program's frame are the program's.
//!
//! Layer logic_: it must not know instructions, alarms, files or threads.
#![tactic(auto)]

mod frames;
mod laws;
mod names;
mod reached;
mod resolve;
mod scope;

pub use frames::{frames_of, start_of};
pub use laws::{
    fitting_names_are_known, frames_agree, frames_begin, frames_have_paths, frames_have_standards,
    instances_have_numbers, typed_names_are_known, variables_have_numbers,
};

//! What goes over from one source to another when a plant is changed while it runs, by numbers.
//!
//! Each word has a number, whatever its letter case, and each path has one, by that of the path that it goes on from and that of its first
//! name's word. Two sources that share these tables have one number for one path, so that what goes over is found without a look at names.
//!
//! Layer logic_: it must not know instructions, alarms, files or threads.
#![tactic(auto)]

mod after;
mod both;
mod copies;
mod kept;
mod lists;
mod marks;
mod paths;
mod words;

pub use after::{clocks_after, values_after};
pub use both::{Both, SourceList, both_of};
pub use lists::{Program, SourceShape, StandardAt, TypeTable, ValueAt};
pub use marks::marks_of;
pub use words::{
    NamedInstance, Own, OwnRow, Shape, globals_of, own_of, parts_of, rows_of, word_number,
};

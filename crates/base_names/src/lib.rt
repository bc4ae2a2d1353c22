//! Lists of names of which each is kept once, however often it stands in a list.
//!
//! Layer base_: it must not know sources, alarms or files.
#![tactic(auto)]

mod names;

pub use names::NameList;

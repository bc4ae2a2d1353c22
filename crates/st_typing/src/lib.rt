//! Checks a plant's sources: names, kinds, blocks, constants and limits.
//!
//! Each rule is defined over the names in the text. `check` reports the first rule, in their order, that is broken, at the first unit, in
//! order of text, that breaks it.
//!
//! Layer st_: it must not know cells, code, alarms or files.
#![tactic(auto)]

mod blocks;
mod checking;
mod constants;
mod fault;
mod kinds;
mod laws;
mod limits;
mod typed;

pub use checking::check;
pub use constants::for_turns;
pub use fault::{Mistyped, TypeFault};
pub use laws::{one_type_fault, spelled_globals_stand, typed_or_not};
pub use st_names::{Declared, Pou, PouKind, Section, SectionKind, Sort, Unit, declared_in};
pub use typed::Typed;

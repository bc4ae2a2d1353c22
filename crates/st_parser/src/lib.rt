//! The parser of Structured Text: `parse` returns the unit that tokens spell; where they spell none, it names the token at which it stopped.
//!
//! Contracts speak of a unit as a `PlainUnit`: its sections of globals, then its blocks and programs with plain bodies. They speak of a text's tokens as lexemes.
//!
//! Layer st_: it must not know cells, code, alarms or files.
#![tactic(auto)]

mod calls;
mod declare;
mod fault;
mod labels;
mod stmt;
mod unit;
mod units;

pub use fault::ParseFault;
pub use unit::{Declaration, Pou, PouKind, Section, SectionKind, Sort, Unit};
pub use units::{one_unit, parse};

//! What each name of a plant's sources stands for, and which units use a name that isn't there or take one twice.
//!
//! Layer st_: it must not know cells, code, alarms or files.
#![tactic(auto)]

mod body;
mod declared;
mod first;
mod gather;
mod known;
mod misnamed;
mod named;
mod place;
mod repeated;
mod rules;
mod scope;
mod shared;
mod standard;
mod table;
mod taken;

pub use body::BodyScope;
pub use declared::{Declared, declared_in};
pub use first::{Judge, first_unit};
pub use known::body_known;
pub use misnamed::first_misnamed;
pub use named::{sort_array, sort_kind};
pub use place::UnitPlace;
pub use rules::{StatementRule, every};
pub use scope::Scope;
pub use shared::SharedNames;
pub use st_parser::{Declaration, Pou, PouKind, Section, SectionKind, Sort, Unit};

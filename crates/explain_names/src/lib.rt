//! The names that may be meant by one that a plant's sources don't have: what is said beside it.
//!
//! `variable_hint` tells of a name that a unit hasn't: that its declaration is missing, where it is used so that it is no slip (`uses`); else a question for the
//! name that is likely meant (`slips`), or what is there of nearly this name, or who has it for itself (`owners`), or the constant that it stands for (`words`).
//! `type_hint` tells of a word in the place of a block or a kind, `members_of` of an input or an output that a block hasn't, and `no_bool_global` of an alarm's
//! condition that isn't a BOOL global. A name is proposed only where it is nearly surely the one that is meant, since with another one the plant may be accepted.
//! No clause says so; that is tried on examples.
//!
//! Layer explain_: it must not know events or commands.
#![tactic(auto)]

mod dialects;
mod globals;
mod hints;
mod members;
mod owners;
mod slips;
mod uses;
mod words;

pub use dialects::type_hint;
pub use globals::no_bool_global;
pub use hints::{Behind, Wanted, nearest_global, variable_hint};
pub use members::{Member, members_of, other_use};

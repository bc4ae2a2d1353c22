//! The trees of a plant's sources for those who tell people what is wrong in them: which names there are, and where each word stands.
//!
//! `entries_of` lists the names that sources declare, `Trees` finds those that all share, a `Body` has the names of a unit. Where a name is declared twice,
//! or what it is declared as isn't there, it isn't certain what it is, and they say so; and so where a part of the text can't be read (`Unknown`). `steps_of` lists the statements of a body in order of text. A `Cursor`
//! goes along the tokens of a source beside its tree, and so knows where literals and operators stand. `Told` keeps the mistakes that are found, and which
//! comes first.
//!
//! Layer explain_: it must not know events or commands.
#![tactic(auto)]

mod body;
mod circles;
mod cursor;
mod entries;
mod steps;
mod texts;
mod told;
mod trees;
mod unknown;

pub use body::{Body, kind_text};
pub use circles::leads_back;
pub use cursor::{Cursor, Sought};
pub use entries::{DeclaredName, Form, entries_of};
pub use steps::{Step, steps_of};
pub use texts::filled;
pub use told::{BrokenRule, Mistake, Told};
pub use trees::{Source, Trees, mark_of, sources_of, units_of};
pub use unknown::{Parsed, Unknown};

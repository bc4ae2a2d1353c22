//! What the bodies of well-formed sources do with their variables, and what is nearly surely a mistake there, told from their trees for people.
//!
//! `look` walks each body once, until as many warnings are found as are told, while there are trees: what it found holds nothing of them. Who has the alarms
//! notes there what they read, and `end` then tells of globals and blocks. No tokens are made of a source, but of one with a warning at a literal or an
//! operator, which have no place in a tree. A walk doesn't fail: where memory is refused it tells no more, and `end` fails. No clause says that what is told is
//! a mistake; that is tried on examples.
//!
//! Layer explain_: it must not know events or commands.
#![tactic(auto)]

mod bodies;
mod comments;
mod found;
mod looking;
mod places;
mod units;

pub use comments::{OpenComment, swallower};
pub use found::{Found, Warning};
pub use looking::look;

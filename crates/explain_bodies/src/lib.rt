//! What is wrong in the units of a plant's sources (C6 to C9), told from their trees for people.
//!
//! `mistakes` reads each source once and walks each unit once, in order of text, with the names and kinds by which st_names and st_tree judge. It tells each
//! mistake at its place: the name that isn't there, and a near one that fits; the kind that is wanted and the one that is found; what isn't constant. Where a
//! name isn't there, or may mean one thing or another, the kind of what it is part of isn't known, and nothing is told of that: so a mistake that is told
//! is there for itself. A walk doesn't fail: where memory is refused it tells no more, and `mistakes` fails at its end. No clause says that what is told is
//! right; that is tried on examples.
//!
//! Layer explain_: it must not know events or commands.
#![tactic(auto)]

mod arrays;
mod declarations;
mod expressions;
mod kinds;
mod part;
mod statements;
mod teller;
mod walk;

pub use explain_trees::{BrokenRule, Mistake};
pub use walk::mistakes;

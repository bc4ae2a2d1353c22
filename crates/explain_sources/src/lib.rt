//! All that is wrong in the spelling and the grammar of a source (C4, C5), in one go.
//!
//! What begins no token is told by what stands beside it (explain_words). Of a token with which no source can go on, the tokens before it tell where it stands (`TokenPlace`), and
//! tables say what is wrong there (`rules`, and for words of other dialects explain_words). Then its unit is read on behind it: the statement or the declaration is left out, or what is missing is
//! put in, and the unit is read anew. So each further cause stands behind the one before it, in tokens that are those of the source. Where it isn't certain how
//! to go on, the rest of the unit isn't read. What a byte that begins no token leads to isn't told again.
//!
//! The units that can be read then, perhaps with something left out or put in, are kept with their trees (`ReadUnits`), for what else is wrong in them.
//!
//! No clause says what is told; that is tried on examples.
//!
//! Layer explain_: it must not know events or commands.
#![tactic(auto)]

mod grammar;
mod holes;
mod mend;
mod read_units;
mod rules;
mod told;

pub use grammar::ungrammatical;
pub use read_units::{ReadUnit, ReadUnits};
pub use told::{Budget, ToldSource, tell};

//! With what the sources of a refused plant are past a limit of their own: the FORs with too many turns, the arrays with too many elements, the instance that
//! makes blocks too deep, the program that is one too many, or the program with which variables, size or cost are past their limit, how many these are, and
//! where most of them stand.
//!
//! It reads each source once, and counts over the trees. What it finds is a sentence for a person, and tried on examples.
//!
//! Layer explain_: it must not know events or commands.
#![tactic(auto)]

mod counts;
mod limits;
mod measures;
mod totals;
mod weights;

pub use limits::{too_long, where_past};
pub use measures::Measure;

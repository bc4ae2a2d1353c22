//! Names that are found without a look at each and without memory, in any letter case or in their own. They lie one behind another in one text.
//!
//! Contracts see `Names` as the list of its names as they were added, each without another that is the same word, and a `Table` as such a list and
//! whether letter case has a meaning in it.
//!
//! Layer base_: it must not know sources, alarms or files.
#![tactic(auto)]

mod chains;
mod names;
mod table;
mod texts;

pub use names::Names;
pub use table::{Case, Table};

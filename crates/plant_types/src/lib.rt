//! The values, places, names and lists of a plant that all other crates use.
//!
//! Contracts see each of these types as plain data: a text as its bytes, a list as its items, a pair as a name and the value given for it.
//!
//! Layer base_: it must not know sources, alarms or files.
#![tactic(auto)]

mod items;
mod pair;
mod text;
mod values;
mod words;

pub use items::Items;
pub use pair::Pair;
pub use text::Text;
pub use values::{Bounds, Given, Kind, Place, Region, Trap, Value, fitted};
pub use words::{is_name, is_name_byte, is_tag, same_word};

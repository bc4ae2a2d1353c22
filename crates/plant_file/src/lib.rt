//! What a plant file says: `plant.toml` is read as a TOML document and judged key by key, by the rules of this profile.
//!
//! Limits on the numbers of areas, sources and consoles are no part of it: a caller has to look at them later than at some other
//! faults.
//!
//! A refusal carries what was found wrong, for a person: where bytes are no document, and each key, console and item of a list that isn't right. Contracts see
//! that it is refused, and not these.
//!
//! Layer plant_: it must not know events or commands.
#![tactic(auto)]

mod console;
mod fault;
mod file;
mod mistakes;
mod reading;
mod table;
mod texts;
mod unread;

pub use console::ListedConsole;
pub use fault::PlantFileFault;
pub use file::PlantFile;
pub use mistakes::{Mistake, Mistakes, Why};
pub use reading::read;
pub use texts::TextSet;
pub use unread::Unread;

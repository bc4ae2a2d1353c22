//! The sources of a plant: the units that they spell, or the first fault among them.
//!
//! Layer st_: it must not know cells, code, alarms or files.
#![tactic(auto)]

mod fault;
mod laws;
mod names;
mod reading;
mod threads;

pub use fault::SourceFault;
pub use laws::{one_answer, spelled_or_stopped};
pub use names::unit_name;
pub use reading::units;
pub use st_names::UnitPlace;
pub use threads::units_in_threads;

//! A plant as it is configured: its plant file, its sources and its alarm database, read and judged.
//!
//! Layer plant_: it must not know events or commands.
#![tactic(auto)]

mod alarms;
mod epoch;
mod fault;
mod files;
mod laws;
mod limits;
mod observer;
mod orderers;
mod plant;
mod rows;
mod running;
mod spelling;
mod told;

pub use fault::{ConfigFault, Limit};
pub use files::Files;
pub use laws::{accepted_or_refused, one_plant, one_refusal};
pub use observer::{Nobody, Observer};
pub use plant::Plant;
pub use rows::AlarmRow;
pub use st_parser::Unit;
pub use told::RowMistakes;
pub use vm_logic::Variable;

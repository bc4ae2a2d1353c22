//! The events of a plant, and its history: the events so far, as contracts see them.
//!
//! An event is a scan with its image, an operator's order, or a reload, which changes the plant. A history takes no memory: its events are for contracts alone.
//!
//! Layer engine_: it must not know the bytes of commands, or what people are told.
#![tactic(auto)]

mod event;
mod history;

pub use event::Event;
pub use history::History;
pub use plant_config::{AlarmRow, ConfigFault, Files, Limit, Plant, Variable};

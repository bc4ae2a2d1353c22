//! The engine of a plant: one event, a scan, an order or a reload, is one step of the system.
//!
//! Contracts see an engine as the plant with which it began, its history, its room for more rows of the journal, and how many rows have names that are kept apart from the plant. All else that it keeps is what the system, a
//! fold over that history, has, and the journal, the rows that its events added; of the events themselves it keeps the number alone. An event is
//! first made ready, which may be refused and changes nothing but the room, and then committed, which allocates nothing and can't fail.
//!
//! The programs of a scan are run by any crew: what follows from a scan is the same for each.
//!
//! Layer engine_: it must not know the bytes of commands, or what people are told.
#![tactic(auto)]

mod engine;
mod journal;
mod laws;
mod reload;

pub use alarm_bank::Summary;
pub use alarm_machine::{AlarmState, Change, Code, OrderFault, Verb};
pub use alarm_orders::Order;
pub use base_stamps::Epoch;
pub use crew::{Alone, Crew, CrewFault};
pub use engine::Engine;
pub use engine_system::{
    AlarmRow, ConfigFault, EngineFault, Event, Files, Limit, Plant, Prepared, PreparedOrder, Reply,
    Report, Variable, news_of, opening_state,
};
pub use journal_core::{Entry, Log, Row};
pub use laws::{
    event_keeps_plant, lawful_history_is_short, lawful_history_keeps_consoles_and_epoch,
    lawful_history_stays_in_range, outputs_are_worth_their_numbers, system_keeps_its_plant,
};
pub use plant_file::ListedConsole;
pub use plant_types::{Given, Items, Kind, Pair, Place, Region, Text, Trap, Value};
pub use reload::{PreparedReload, ReloadRefused, Reloaded};
pub use slice_store::{Done, Job, Start};

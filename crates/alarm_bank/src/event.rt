//! What happens to the alarms of a plant.

use crate::rows::NewAlarm;
use alarm_machine::Verb;
use plant_types::Items;

/// An event: a scan, which gives each alarm its condition and suppression, an order to one alarm, or a reload, which puts the alarms of another plant in the place
/// of all. Alarms are numbered from 0.
#[derive(Drop)]
pub enum BankEvent {
    Scan {
        /// In milliseconds.
        moment: u64,
        /// The condition of each alarm.
        conds: Items<bool>,
        /// The suppression of each alarm.
        sups: Items<bool>,
    },
    Order {
        alarm: u32,
        verb: Verb,
    },
    Reload(Items<NewAlarm>),
}

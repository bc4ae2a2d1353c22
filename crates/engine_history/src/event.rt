//! What happens to a plant.

use alarm_orders::Order;
use base_trace::Shown;
use plant_config::Plant;
use plant_types::{Items, Value};

/// One event of the history.
#[derive(Drop)]
pub enum Event {
    /// A scan: its image, inputs by number, and its moment in milliseconds.
    Scan(Items<(u32, Value)>, u64),
    /// An order, from the console of a number.
    Order(u32, Order),
    /// A reload: this plant takes the place of the present one. The event has no bytes of it.
    Reload(Shown<Plant>),
}

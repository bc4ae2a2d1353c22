//! An operator's order.

ghost use Rattle.std.specs.Prelude.{◌≡◌};
ghost use Rattle.alarm_orders.specs.Orders.{order_with};

use alarm_machine::Verb;

/// What an operator asks: a verb, the number of an alarm, or of a program for a restart, `None` for one that isn't there; and for which plant.
#[derive(Clone, Copy, Drop)]
pub struct Order {
    pub verb: Verb,
    pub target: Option<u32>,
    /// How often the plant had been replaced, as far as the order's maker knew: the numbers of alarms and programs are of that plant.
    pub plant: u32,
}

impl Order {
    /// The order of a verb for a target, of the plant after so many reloads.
    pub fn of(verb: Verb, target: Option<u32>, plant: u32) -> Order
        ensures { result ≡ order_with verb target plant }
    {
        Order {
            verb,
            target,
            plant,
        }
    }
}

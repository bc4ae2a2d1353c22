//! How the orders that wait are taken and answered.

ghost use Rattle.std.specs.Prelude.{◌≡◌, ◌≤◌, ◌*◌, length};
ghost use Rattle.console_orders.specs.Turns.{TookOne, TookPart, TookParts, UnlessRefused, is_refused};

use crate::recording::{NotTaken, Recording};
use alarm_orders::Order;
use console_link::Lane;
use engine_system::Reply;
use std::alloc::Global;

/// How many orders of one console a turn takes at most.
const MOST_ORDERS: u32 = 64;

/// What was taken of one console, or of several.
#[derive(Clone, Copy, Drop)]
pub struct TakenOrders {
    /// How many orders.
    pub taken: u32,
    /// Whether memory was refused for an order, or the history is full.
    pub stopped: bool,
}

/// Takes the order that waits first at a console and answers it, where there is one and a place for its answer; tells whether it did. The order
/// stays in its ring where it is refused as an event.
fn take_order<T: Recording<H>, H>(
    rt: &H,
    alloc: Global,
    recorder: &mut T,
    lane: &mut Lane<Order, Reply>,
) -> Result<bool, NotTaken>
    ensures plant { T.plant_of recorder.new ≡ T.plant_of recorder.old }
    ensures share { T.parts_of recorder.new ≡ T.parts_of recorder.old }
    ensures log { T.log_of recorder.new ≡ T.log_of recorder.old }
    ensures took { TookOne (T.plant_of recorder.old) lane.old lane.new (T.history_of recorder.old)
        (T.history_of recorder.new) result }
    ensures refused { UnlessRefused (T.shows_all recorder.old) (T.shows_all recorder.new)
        (T.refusals_of recorder.old) (T.refusals_of recorder.new) (is_refused result) }
{
    let Some(order) = lane.waiting() else {
        return Ok(false);
    };
    let reply = recorder.order(rt, alloc, lane.number(), order)?;
    lane.take(reply);
    Ok(true)
}

/// Takes and answers the orders that wait at a console, at most 64.
fn take_part<T: Recording<H>, H>(
    rt: &H,
    alloc: Global,
    recorder: &mut T,
    lane: &mut Lane<Order, Reply>,
) -> TakenOrders
    ensures plant { T.plant_of recorder.new ≡ T.plant_of recorder.old }
    ensures share { T.parts_of recorder.new ≡ T.parts_of recorder.old }
    ensures log { T.log_of recorder.new ≡ T.log_of recorder.old }
    ensures part { TookPart (T.plant_of recorder.old) lane.old lane.new (T.history_of recorder.old)
        (T.history_of recorder.new) result.taken result.stopped }
    ensures refused { UnlessRefused (T.shows_all recorder.old) (T.shows_all recorder.new)
        (T.refusals_of recorder.old) (T.refusals_of recorder.new) result.stopped }
{
    let mut taken = 0u32;
    for _ in 0..MOST_ORDERS {
        match take_order(rt, alloc, recorder, lane) {
            Ok(true) => taken += 1,
            Ok(false) => {
                return TakenOrders {
                    taken,
                    stopped: false,
                };
            }
            Err(NotTaken) => {
                return TakenOrders {
                    taken,
                    stopped: true,
                };
            }
        }
    }
    TakenOrders {
        taken,
        stopped: false,
    }
}

/// Takes and answers the orders that wait, console by console, until it is stopped.
pub fn take_parts<T: Recording<H>, H>(
    rt: &H,
    alloc: Global,
    recorder: &mut T,
    lanes: &mut [Lane<Order, Reply>],
) -> TakenOrders
    requires { length lanes.old ≤ 32 }
    ensures plant { T.plant_of recorder.new ≡ T.plant_of recorder.old }
    ensures share { T.parts_of recorder.new ≡ T.parts_of recorder.old }
    ensures log { T.log_of recorder.new ≡ T.log_of recorder.old }
    ensures parts { TookParts (T.plant_of recorder.old) lanes.old lanes.new (T.history_of recorder.old)
        (T.history_of recorder.new) result.taken result.stopped }
    ensures refused { UnlessRefused (T.shows_all recorder.old) (T.shows_all recorder.new)
        (T.refusals_of recorder.old) (T.refusals_of recorder.new) result.stopped }
    ensures most { result.taken ≤ 64 * length lanes.old }
{
    let Some((lane, others)) = lanes.split_first_mut() else {
        return TakenOrders {
            taken: 0,
            stopped: false,
        };
    };
    let part = take_part(rt, alloc, recorder, lane);
    if part.stopped {
        return part;
    }
    let rest = take_parts(rt, alloc, recorder, others);
    TakenOrders {
        taken: part.taken + rest.taken,
        stopped: rest.stopped,
    }
}

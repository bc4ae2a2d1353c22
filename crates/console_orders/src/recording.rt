//! Where orders become events.

ghost use Rattle.std.specs.Prelude.{◌≡◌, ℕ, List, ◌++◌, [], ◌∷◌, IfOk, OnOk, OnErr};
ghost use Rattle.console_orders.specs.Turns.{UnlessRefused, is_refused};
ghost use Rattle.engine_system.specs.Event.{Event};
ghost use Rattle.engine_system.specs.Event.TheVariants as event;
ghost use Rattle.engine_system.specs.Plants.{PlainPlant};
ghost use Rattle.engine_system.specs.System.{system, reply_to};
ghost use Rattle.logbook.specs.Pages.{Book};

use alarm_orders::Order;
use engine_system::Reply;
use std::alloc::Global;

/// An order that is no event: memory was refused for it, or the history is full. Which of the two isn't told: the number of events says
/// whether the history is full.
#[derive(Clone, Copy, Drop)]
pub struct NotTaken;

/// What makes orders events of the history of a plant. `H` is the handle that it is lent.
pub trait Recording<H> {
    /// The plant.
    ghost plant_of: { Self → PlainPlant };

    /// The events so far.
    ghost history_of: { Self → List Event };

    /// The parts that it holds of the ledger that counts the events. No order changes them.
    ghost parts_of: { Self → ℕ };

    /// The log in which the boards are marked that show the events. No order changes which it is.
    ghost log_of: { Self → Book };

    /// How often it refused an order as an event, or to show one on the boards.
    ghost refusals_of: { Self → ℕ };

    /// Whether the boards show all events.
    ghost shows_all: { Self → Type 0 };

    /// Makes an order of the console of a number the next event, and gives its reply. It is refused where memory is, and where the history is full; that leaves
    /// the history as it was, and is counted. An order whose reply refuses it is an event.
    fn order(
        &mut self,
        rt: &H,
        alloc: Global,
        console: u32,
        order: Order,
    ) -> Result<Reply, NotTaken>
        ensures plant { plant_of self.new ≡ plant_of self.old }
        ensures ok { OnOk result
            (history_of self.new ≡ history_of self.old ++ event.Order console order ∷ []) }
        ensures reply { IfOk result (λ r. r
            ≡ reply_to (system (plant_of self.old) (history_of self.old)) console order) }
        ensures kept { OnErr result (history_of self.new ≡ history_of self.old) }
        ensures parts { parts_of self.new ≡ parts_of self.old }
        ensures log { log_of self.new ≡ log_of self.old }
        ensures refused { UnlessRefused (shows_all self.old) (shows_all self.new) (refusals_of self.old)
            (refusals_of self.new) (is_refused result) };
}

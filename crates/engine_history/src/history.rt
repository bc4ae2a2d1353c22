//! The events so far: contracts see them all, and the code keeps how many they are.

ghost use Rattle.std.specs.Prelude.{◌≡◌, ◌<◌, ◌++◌, [], ◌∷◌, length};

use crate::event::Event;
use base_trace::Trace;
use std::marker::Model;

/// The events so far. No event is stored, and none takes memory: what became of them is kept by who adds them. Contracts see the list of them.
pub struct History {
    events: Trace<Event>,
    count: usize,
}

impl Drop for History {
    fn drop(self) {
        let History {
            events: _,
            count: _,
        } = self;
    }
}

impl Model for History {
    ghost use Rattle.std.specs.Prelude.{◌≡◌, List, length};
    ghost use Rattle.std.specs.Coded.{coded_list};
    ghost use Rattle.engine_history.specs.contracts.event.Event as event_row;
    ghost use Rattle.engine_history.specs.declared.event.Event.{Event};

    ghost Value = { List Event };

    ghost coded = { coded_list event_row.the_row.coded };

    ghost view = { λ h. h.events };

    ghost invariant = { λ h. h.count ≡ length h.events };
}

impl History {
    /// A history without events.
    pub fn new() -> History
        ensures { result ≡ [] }
    {
        History {
            events: Trace::new(),
            count: 0,
        }
    }

    /// How many events there are.
    pub fn len(&self) -> usize
        ensures { result ≡ length self.now }
    {
        self.count
    }

    /// Adds an event.
    pub fn push(&mut self, event: &Event)
        requires { length self.old < 18446744073709551615 }
        ensures { self.new ≡ self.old ++ event.now ∷ [] }
    {
        self.events = self.events.then(event);
        self.count += 1;
    }
}

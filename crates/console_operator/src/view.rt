//! A view of the board.
ghost use Rattle.std.specs.Prelude.{◌≡◌};
ghost use Rattle.console_boards.specs.Stories.{seen_events};
ghost use Rattle.console_operator.specs.Sights.{looked_at, reloads_shown, state_shown};
ghost use Rattle.console_operator.specs.Consoles.{HasLeft};

use crate::console::Console;
use alarm_machine::AlarmState;

/// A view of the board, as it was when the console looked. While it is held, the owner can publish once; the next time it waits until the view is
/// dropped.
pub struct BoardView<'a, O, R> {
    pub(crate) console: &'a mut Console<O, R>,
}

impl<O, R> Drop for BoardView<'_, O, R> {
    fn drop(self)
        ensures { HasLeft self.entry.console.now self.exit.0.now }
    {
        let Self { console } = self;
        console.leave();
    }
}

impl<O, R> BoardView<'_, O, R> {
    /// The state of the alarm of a number; `None` where it isn't there.
    pub fn state(&self, alarm: u32) -> Option<AlarmState>
        ensures { result ≡ state_shown alarm (looked_at self.now.console.now.sight) }
    {
        self.console.sight.state(alarm)
    }

    /// How many events it shows the effect of.
    pub fn events(&self) -> u64
        ensures { result ≡ seen_events (looked_at self.now.console.now.sight) }
    {
        self.console.sight.events()
    }

    /// How many reloads are among them: an order by what the view shows is for the plant of this number. At most 4,294,967,295 are told.
    pub fn reloads(&self) -> u32
        ensures { result ≡ reloads_shown (looked_at self.now.console.now.sight) }
    {
        self.console.sight.reloads()
    }
}

//! What is read of a board.
ghost use Rattle.std.specs.Prelude.{◌≡◌, true, length, min};
ghost use Rattle.console_boards.specs.Stories.{shown, is_lawful};
ghost use Rattle.console_boards.specs.Replies.{after, allows, state_at};
ghost use Rattle.console_boards.specs.Counts.{orders_counted, reloads_in};

use super::Board;
use crate::tally::tally_of;
use alarm_bank::Annunciator;
use alarm_machine::AlarmState;

impl Board {
    /// The alarms after all entries, each of which might come after those before it.
    pub fn panel(&self) -> &Annunciator
        ensures shown { result.now ≡ (shown after self.now.opening.value self.now.list).panel }
        ensures lawful { is_lawful after allows self.now.opening.value self.now.list ≡ true }
    {
        &self.panel
    }

    /// The state of the alarm of a number; `None` where it isn't there.
    pub fn state(&self, alarm: u32) -> Option<AlarmState>
        ensures { result ≡ state_at alarm (shown after self.now.opening.value self.now.list) }
    {
        let found = self.panel.alarms().get(alarm as usize)?;
        Some(found.state())
    }

    /// How many entries there are.
    pub fn events(&self) -> u64
        ensures { result ≡ length self.now.list }
    {
        self.events
    }

    /// How many of the entries are reloads; 4,294,967,295 where there are more.
    pub fn reloads(&self) -> u32
        ensures { result ≡ min (reloads_in self.now.list) 4294967295 }
    {
        self.reloads.min(u64::from(u32::MAX)) as u32
    }

    /// How many of the entries are orders of the console of a number; `None` where the board doesn't count this console.
    pub fn orders(&self, console: u32) -> Option<u64>
        ensures { result ≡ orders_counted console self.now.opening.value.consoles self.now.list }
    {
        Some(tally_of(self.tallies.as_slice(), console)?.orders)
    }
}

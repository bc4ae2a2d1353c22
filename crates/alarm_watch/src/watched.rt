//! The conditions and suppressions of alarms, by the values of globals.

ghost use Rattle.std.specs.Prelude.{◌≡◌};
ghost use Rattle.plant_types.specs.Values.{is_true};
ghost use Rattle.logic_cells.specs.Cells.{value_at};
ghost use Rattle.alarm_watch.specs.Watched.{suppression};

use alarm_bank::Signals;
use logic_cells::Cells;

/// The globals that an alarm watches: its condition, and what suppresses it.
#[derive(Clone, Copy, Drop)]
pub struct Watch {
    pub condition: u32,
    pub suppress: Option<u32>,
}

/// The conditions and suppressions of alarms, by the values of their globals.
#[derive(Clone, Copy)]
pub struct Watched<'a> {
    /// What each alarm watches.
    pub watches: &'a [Watch],
    /// The values of the variables, by number, and the clocks of standard blocks.
    pub cells: &'a Cells,
}

/// The number that a global holds; 0 if there is no such global.
pub fn value_at(cells: &Cells, global: u32) -> i64
    ensures { result ≡ value_at cells.now global }
{
    number_at(cells, global as usize)
}

/// The number at a place of cells; 0 if there is none.
pub fn number_at(cells: &Cells, slot: usize) -> i64
    ensures { result ≡ value_at cells.now slot }
{
    if slot < cells.len() {
        cells.get(slot)
    } else {
        0
    }
}

fn is_set(cells: &Cells, global: u32) -> bool
    ensures { result ≡ is_true (value_at cells.now global) }
{
    value_at(cells, global) != 0
}

fn is_suppressed(cells: &Cells, watch: &Watch) -> bool
    ensures { result ≡ suppression (value_at cells.now) watch.now.suppress }
{
    match watch.suppress {
        None => false,
        Some(global) => is_set(cells, global),
    }
}

impl<'a> Signals for Watched<'a> {
    ghost use Rattle.logic_cells.specs.Cells.{value_at};
    ghost use Rattle.alarm_watch.specs.Watched.{watched_conditions, watched_suppressions};

    ghost conditions = { λ w. watched_conditions (value_at w.cells.now) w.watches.now };

    ghost suppressions = { λ w. watched_suppressions (value_at w.cells.now) w.watches.now };

    fn condition(&self, alarm: u32) -> bool {
        is_set(self.cells, self.watches[alarm as usize].condition)
    }

    fn suppression(&self, alarm: u32) -> bool {
        is_suppressed(self.cells, &self.watches[alarm as usize])
    }
}

//! What all alarms watch, and the alarms that a scan moves.

ghost use Rattle.std.specs.Prelude.{◌≡◌, ◌<◌, ◌≤◌, ◌^◌, ℕ, true, false, Some, length, map, slice_get, IfOk, OnOk};
ghost use Rattle.logic_cells.specs.Cells.{value_at};
ghost use Rattle.alarm_watch.specs.Chains.{condition_keys, suppress_keys, ChangesAreMarked};
ghost use Rattle.alarm_watch.specs.Watched.{AreWatchedMoves, watched_conditions, Follow};
ghost use Rattle.alarm_delays.specs.Delays.{after_conditions, after_met};

use crate::chains::{Ranges, chains_of, mark_changed, ranges_of};
use crate::watched::{Watch, Watched};
use alarm_bank::{Bank, Marks};
use alarm_delays::{Delays, Listed};
use logic_cells::Cells;
use std::alloc::{AllocError, Global};
use std::marker::Model;

/// What each alarm watches, in the order of the alarms, and by each global the alarms that watch it.
pub struct Watches {
    watches: Vec<Watch>,
    conditions: Ranges,
    suppressions: Ranges,
}

impl Drop for Watches {
    fn drop(self) {
        let Watches {
            watches: _,
            conditions: _,
            suppressions: _,
        } = self;
    }
}

impl Model for Watches {
    ghost use Rattle.std.specs.Prelude.{List};
    ghost use Rattle.alarm_watch.specs.declared.watched.Watch.{Watch};
    ghost use Rattle.alarm_watch.specs.Chains.{IsIndex};

    ghost Value = { List Watch };

    ghost view = { λ w. w.watches.items };

    ghost invariant = { λ w. IsIndex w.watches.items w.conditions.starts.items w.conditions.alarms.items w.suppressions.starts.items w.suppressions.alarms.items };
}

/// The global of each alarm's condition.
fn condition_keys(alloc: Global, watches: &[Watch]) -> Result<Vec<Option<u32>>, AllocError>
    ensures { IfOk result (λ keys. keys.items ≡ condition_keys watches.now) }
{
    let mut keys = Vec::new(alloc);
    for watch in watches {
        keys.push(Some(watch.condition))?;
    }
    Ok(keys)
}

/// The global that suppresses each alarm, if it has one.
fn suppress_keys(alloc: Global, watches: &[Watch]) -> Result<Vec<Option<u32>>, AllocError>
    ensures { IfOk result (λ keys. keys.items ≡ suppress_keys watches.now) }
{
    let mut keys = Vec::new(alloc);
    for watch in watches {
        keys.push(watch.suppress)?;
    }
    Ok(keys)
}

/// Sets all marks, unless the alarms follow what they watch; then those that are set stay.
fn mark_all_unless(follows: bool, marks: &mut Marks)
    ensures size { length marks.new ≡ length marks.old }
    ensures kept { (n : ℕ) → slice_get marks.new n ≡ Some false → slice_get marks.old n ≡ Some false }
    ensures all { follows ≡ false → (n : ℕ) → slice_get marks.new n ≡ Some false → ⊥ }
{
    if follows {
        return;
    }
    for at in 0..marks.len() {
        marks.set(at);
    }
}

/// What the last scan left.
#[derive(Clone, Copy)]
pub struct LastScan<'a> {
    /// The alarms.
    pub bank: &'a Bank,
    /// Their delays, and since when their conditions have been met.
    pub delays: &'a Delays,
    /// Whether there was a scan: then the alarms follow the cells.
    pub follows: bool,
    /// The values of the variables, by number, and the clocks of standard blocks.
    pub cells: &'a Cells,
}

impl Watches {
    /// Makes an index of what each alarm watches.
    pub fn new(alloc: Global, watches: Vec<Watch>) -> Result<Watches, AllocError>
        requires { length watches.items < 2 ^ 32 }
        ensures { IfOk result (λ made. made ≡ watches.items) }
    {
        let keys = condition_keys(alloc, watches.as_slice())?;
        let conditions = ranges_of(alloc, &chains_of(alloc, keys.as_slice())?)?;
        let keys = suppress_keys(alloc, watches.as_slice())?;
        let suppressions = ranges_of(alloc, &chains_of(alloc, keys.as_slice())?)?;
        Ok(Watches {
            watches,
            conditions,
            suppressions,
        })
    }

    /// Marks the alarms one of whose globals holds another number in other cells.
    fn mark(&self, before: &Cells, now: &Cells, marks: &mut Marks)
        requires { length marks.old ≡ length self.now }
        ensures size { length marks.new ≡ length marks.old }
        ensures conditions { ChangesAreMarked (condition_keys self.now) (value_at before.now)
            (value_at now.now) marks.new }
        ensures suppressions { ChangesAreMarked (suppress_keys self.now) (value_at before.now)
            (value_at now.now) marks.new }
    {
        mark_changed(&self.conditions, &self.suppressions, before, now, marks);
    }

    /// Lists the alarms that a scan moves, and the changes of their codes, as `Bank::list_moved` does, by the conditions that count; and the alarms
    /// whose conditions may have changed, for `Delays::apply`. `now` is what the scan's programs leave. Where the alarms follow the cells, it looks
    /// only at the alarms one of whose globals changed and at those that come to count by time alone, or at all if a shelf ends. The marks are for
    /// their room.
    pub fn list_moved(
        &self,
        alloc: Global,
        last: &LastScan<'_>,
        now: &Cells,
        moment: u64,
        marks: &mut Marks,
        listed: &mut Listed,
    ) -> Result<(), AllocError>
        requires later { last.now.delays.now.last ≤ moment }
        requires each { length last.now.bank.now.alarms ≡ length self.now }
        requires delays { length last.now.delays.now.delays ≡ length self.now }
        requires follow { last.now.follows ≡ true
            → Follow (value_at last.now.cells.now) self.now last.now.delays.now
            last.now.bank.now.alarms }
        ensures moved { OnOk result
            (AreWatchedMoves (value_at now.now) moment self.now last.now.delays.now
            last.now.bank.now.alarms listed.new.moves) }
        ensures met { OnOk result
            (after_met listed.new.met.items moment listed.new.moves.moved.items last.now.delays.now
            ≡ after_conditions (watched_conditions (value_at now.now) self.now) moment
            last.now.delays.now) }
    {
        let LastScan {
            bank,
            delays,
            follows,
            cells,
        } = *last;
        let watches = self.watches.as_slice();
        let signals = Watched {
            watches,
            cells: now,
        };
        marks.clear(alloc, watches.len())?;
        self.mark(cells, now, marks);
        mark_all_unless(follows, marks);
        if follows && delays.is_plain() {
            delays.list_plain(bank, &signals, moment, marks, listed)?;
            return Ok(());
        }
        delays.list_moved(bank, &signals, moment, marks, listed)?;
        Ok(())
    }
}

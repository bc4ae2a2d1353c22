//! How many alarms of each area and priority have each code.

ghost use Rattle.std.specs.Prelude.{◌≡◌, ◌*◌, ◌^◌, ◌<◌, ◌≤◌, length, All, IfOk, Some, slice_get};
ghost use Rattle.std.specs.Option.{option_map};
ghost use Rattle.alarm_counts.specs.Counts.{cell, count_of, with_code, HasCell, AreCounts};

use crate::counted::Counted;
use alarm_machine::Code;
use std::alloc::{AllocError, Global};
use std::marker::Model;

/// How many alarms of each area and priority have each code, kept as the codes change. Contracts see the alarms as they are counted, in
/// order.
pub struct Summary {
    rows: Vec<Counted>,
    counts: Vec<u32>,
}

impl Drop for Summary {
    fn drop(self) {
        let Summary { rows: _, counts: _ } = self;
    }
}

impl Model for Summary {
    ghost use Rattle.std.specs.Prelude.{List};
    ghost use Rattle.alarm_counts.specs.declared.counted.Counted.{Counted};
    ghost use Rattle.alarm_counts.specs.Counts.{AreCounts};

    ghost Value = { List Counted };

    ghost view = { λ s. s.rows.items };

    ghost invariant = { λ s. AreCounts s.rows.items s.counts.items };
}

/// Where the count of an area, a priority and a code is kept.
fn cell(area: u32, priority: u32, code: Code) -> usize
    requires { 1 ≤ priority }
    ensures { result ≡ cell area priority code }
{
    area as usize * 36 + (priority as usize - 1) * 9 + code.rank() as usize
}

/// The counts of alarms of so many areas.
fn tallied(alloc: Global, areas: u32, rows: &[Counted]) -> Result<Vec<u32>, AllocError>
    requires kept { All (HasCell (36 * areas)) rows.now }
    requires few { length rows.now < 2 ^ 32 }
    ensures { IfOk result (λ counts. AreCounts rows.now counts.items) }
{
    let mut counts = vec![in alloc; 0u32; areas as usize * 36]?;
    for row in rows {
        let at = cell(row.area, row.priority, row.code);
        counts[at] += 1;
    }
    Ok(counts)
}

impl Summary {
    /// The summary of alarms of so many areas.
    pub fn new(alloc: Global, areas: u32, rows: Vec<Counted>) -> Result<Summary, AllocError>
        requires kept { All (HasCell (36 * areas)) rows.items }
        requires few { length rows.items < 2 ^ 32 }
        ensures { IfOk result (λ summary. summary ≡ rows.items) }
    {
        let counts = tallied(alloc, areas, rows.as_slice())?;
        Ok(Summary { rows, counts })
    }

    /// How many alarms of this area and this priority have this code now; 0 for an area or a priority that isn't there.
    pub fn count(&self, area: u32, priority: u32, code: Code) -> u32
        ensures { result ≡ count_of area priority code self.now }
    {
        let counts = &self.counts;
        if priority == 0 || 4 < priority {
            return 0;
        }
        match counts.get(cell(area, priority, code)) {
            Some(count) => *count,
            None => 0,
        }
    }

    /// The area of the alarm of a number, from 0.
    pub fn area(&self, at: usize) -> u32
        requires { at < length self.now }
        ensures { option_map (λ row. row.area) (slice_get self.now at) ≡ Some result }
    {
        self.rows[at].area
    }

    /// Gives the alarm of a number, from 0, another code.
    pub fn put(&mut self, at: usize, code: Code)
        requires { at < length self.old }
        ensures { self.new ≡ with_code at code self.old }
    {
        let row = self.rows[at];
        let from = cell(row.area, row.priority, row.code);
        let to = cell(row.area, row.priority, code);
        self.rows[at].code = code;
        self.counts[from] -= 1;
        self.counts[to] += 1;
    }
}

//! Where a job starts.

ghost use Rattle.std.specs.Prelude.{◌≡◌, ◌↔◌, IsTrue};
ghost use Rattle.std.specs.Arc.{arc_value};
ghost use Rattle.slice_store.specs.Starts.{Begun, CanRun, HasNumber, part_of};

use crate::parts::Parts;
use logic_cells::Cells;
use std::marker::Model;
use std::mem::swap;
use std::sync::Arc;
use vm_slices::{Part, same_cells};

/// Where a job starts: its number, which is 1 more than its program's, the moment in milliseconds, and the cells of its program's part as they
/// were. It holds the list of all parts, of which its own is the one of its number: so all starts share one owners' count.
pub struct Start {
    number: u32,
    parts: Arc<Parts>,
    moment: u64,
    cells: Cells,
}

impl Drop for Start {
    fn drop(self) {
        let Start {
            number: _,
            parts: _,
            moment: _,
            cells: _,
        } = self;
    }
}

impl Model for Start {
    ghost use Rattle.std.specs.Arc.{arc_value};
    ghost use Rattle.slice_store.specs.Starts.{Begun, CanRun, HasNumber, part_of};

    ghost Value = { Begun };

    ghost view = { λ s. record { number = s.number; part = part_of (arc_value s.parts) s.number; moment = s.moment; cells = s.cells } };

    ghost invariant = { λ s. HasNumber (arc_value s.parts) s.number × CanRun (record { number = s.number; part = part_of (arc_value s.parts) s.number; moment = s.moment; cells = s.cells }) };
}

impl Start {
    /// A start of a number, with the cells of the part of that number at a moment.
    pub(crate) fn new(number: u32, parts: Arc<Parts>, moment: u64, cells: Cells) -> Start
        requires there { HasNumber (arc_value parts) number }
        requires runs { CanRun
            (record
            { number = number; part = part_of (arc_value parts) number; moment = moment; cells = cells }) }
        ensures { result
            ≡ record
            { number = number; part = part_of (arc_value parts) number; moment = moment; cells = cells } }
    {
        Start {
            number,
            parts,
            moment,
            cells,
        }
    }

    /// The job's number: 1 more than its program's.
    pub fn number(&self) -> u32
        ensures { result ≡ self.now.number }
    {
        self.number
    }

    /// The part of the job's program. It fits the cells.
    pub fn part(&self) -> &Part
        ensures is { result.now ≡ self.now.part }
        ensures runs { CanRun self.now }
    {
        self.parts.numbered(self.number)
    }

    /// The moment of the run, in milliseconds.
    pub fn moment(&self) -> u64
        ensures { result ≡ self.now.moment }
    {
        self.moment
    }

    /// The part's cells as they were.
    pub fn cells(&self) -> &Cells
        ensures { result.now ≡ self.now.cells }
    {
        &self.cells
    }

    /// Becomes another start, and leaves its earlier cells in the place of those that it takes. It copies none of them.
    pub(crate) fn renew(&mut self, number: u32, parts: Arc<Parts>, moment: u64, cells: &mut Cells)
        requires there { HasNumber (arc_value parts) number }
        requires runs { CanRun
            (record {
              number = number;
              part = part_of (arc_value parts) number;
              moment = moment;
              cells = cells.old;
            }) }
        ensures { self.new
            ≡ record {
              number = number;
              part = part_of (arc_value parts) number;
              moment = moment;
              cells = cells.old;
            } }
    {
        self.number = number;
        self.parts = parts;
        self.moment = moment;
        swap(&mut self.cells, cells);
    }

    /// Whether another start is the same.
    pub fn same(&self, other: &Start) -> bool
        ensures { IsTrue result ↔ (self.now ≡ other.now) }
    {
        self.number == other.number
            && self.moment == other.moment
            && same_cells(&self.cells, &other.cells)
            && self.part().same(other.part())
    }
}

//! The values of variables, and the clocks of standard blocks' instances.

ghost use Rattle.std.specs.Prelude.{◌≡◌, ◌<◌, ◌==◌, ℕ, Some, pos, length, slice_index_or, slice_get, slice_set, IfOk, OnOk};
ghost use Rattle.std_blocks.specs.Calls.{call};
ghost use Rattle.logic_cells.specs.Cells.{zero_cells, value_at, assigned, clocked, picked};

use crate::clock::{Clock, Standard, new_clocks};
use crate::picking::{pick_clocks, pick_values};
use std::alloc::{AllocError, Global};
use std::marker::Model;

/// The values of variables, and the clocks of standard blocks' instances, in a row each. A BOOL is 0 or 1, a TIME is in milliseconds.
/// Contracts see both lists.
pub struct Cells {
    values: Vec<i64>,
    clocks: Vec<Clock>,
}

impl Drop for Cells {
    fn drop(self) {
        let Cells {
            values: _,
            clocks: _,
        } = self;
    }
}

impl Model for Cells {
    ghost use Rattle.logic_cells.specs.Cells.{PlainCells};

    ghost Value = { PlainCells };

    ghost view = { λ cells. record { values = cells.values.items; clocks = cells.clocks.items } };
}

impl Cells {
    /// Cells of FALSE and 0, so many, and a clock before its first call for each of the given standard blocks.
    pub fn zeros(alloc: Global, values: usize, standards: &[Standard]) -> Result<Cells, AllocError>
        ensures { IfOk result (λ cells. cells ≡ zero_cells values standards.now) }
    {
        let clocks = new_clocks(alloc, standards)?;
        let values = vec![in alloc; 0; values]?;
        Ok(Cells::new(values, clocks))
    }

    /// Cells with the given values and clocks.
    pub fn new(values: Vec<i64>, clocks: Vec<Clock>) -> Cells
        ensures { result ≡ record { values = values.items; clocks = clocks.items } }
    {
        Cells { values, clocks }
    }

    /// The values and the clocks. It copies nothing.
    pub fn into_parts(self) -> (Vec<i64>, Vec<Clock>)
        ensures values { result.0.items ≡ self.values }
        ensures clocks { result.1.items ≡ self.clocks }
    {
        let Cells { values, clocks } = self;
        (values, clocks)
    }

    /// The number of values.
    pub fn len(&self) -> usize
        ensures { result ≡ length self.now.values }
    {
        self.values.len()
    }

    /// Whether there are no values.
    pub fn is_empty(&self) -> bool
        ensures { result ≡ (length self.now.values == 0) }
    {
        self.values.is_empty()
    }

    /// The value of a number, from 0.
    pub fn get(&self, slot: usize) -> i64
        requires { slot < length self.now.values }
        ensures { result ≡ slice_index_or self.now.values slot (pos 0) }
    {
        self.values[slot]
    }

    /// Assigns the value of a number.
    pub fn set(&mut self, slot: usize, value: i64)
        requires { slot < length self.old.values }
        ensures { self.new ≡ assigned self.old slot value }
    {
        self.values[slot] = value;
    }

    /// The values as a slice.
    pub fn as_slice(&self) -> &[i64]
        ensures { result.now ≡ self.now.values }
    {
        self.values.as_slice()
    }

    /// The clocks as a slice.
    pub fn clocks(&self) -> &[Clock]
        ensures { result.now ≡ self.now.clocks }
    {
        self.clocks.as_slice()
    }

    /// The number of clocks.
    pub fn clock_count(&self) -> usize
        ensures { result ≡ length self.now.clocks }
    {
        self.clocks.len()
    }

    /// The clock of a number, from 0, if there is one.
    pub fn clock(&self, slot: usize) -> Option<Clock>
        ensures { result ≡ slice_get self.now.clocks slot }
    {
        self.clocks.get(slot).copied()
    }

    /// Calls the clock of a number with IN (or CLK) and PT at a moment, PT and the moment in milliseconds; does nothing if there is none.
    pub fn call(&mut self, slot: usize, input: bool, pt: i64, moment: u64)
        ensures { self.new ≡ clocked self.old slot (call input pt moment) }
    {
        if slot < self.clocks.len() {
            let mut clock = self.clocks[slot];
            clock.call(input, pt, moment);
            self.clocks[slot] = clock;
        }
    }

    /// A copy of the cells.
    pub fn copy(&self, alloc: Global) -> Result<Cells, AllocError>
        ensures { IfOk result (λ copy. copy ≡ self.now) }
    {
        let values = Vec::from_slice(alloc, self.values.as_slice())?;
        let clocks = Vec::from_slice(alloc, self.clocks.as_slice())?;
        Ok(Cells { values, clocks })
    }

    /// Copies the values and clocks of other cells, as many as these. It allocates nothing.
    pub fn copy_from(&mut self, other: &Cells)
        requires values { length self.old.values ≡ length other.now.values }
        requires clocks { length self.old.clocks ≡ length other.now.clocks }
        ensures { self.new ≡ other.now }
    {
        self.values.copy_from_slice(other.values.as_slice());
        self.clocks.copy_from_slice(other.clocks.as_slice());
    }

    /// Becomes the values of slots among all cells, and the clocks of numbers. It allocates nothing where it has as many.
    pub fn pick(
        &mut self,
        slots: &[u32],
        numbers: &[u32],
        values: &[i64],
        clocks: &[Clock],
    ) -> Result<(), AllocError>
        requires slots { (i s : ℕ) → slice_get slots.now i ≡ Some s → s < length values.now }
        requires clocks { (i k : ℕ) → slice_get numbers.now i ≡ Some k → k < length clocks.now }
        ensures { OnOk result
            (self.new
            ≡ picked slots.now numbers.now (record { values = values.now; clocks = clocks.now })) }
    {
        pick_values(&mut self.values, slots, values)?;
        pick_clocks(&mut self.clocks, numbers, clocks)
    }
}

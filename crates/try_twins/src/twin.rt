ghost use Rattle.std.specs.Prelude.{◌≡◌, ◌<◌, length, IfOk, OnOk, OnErr};
ghost use Rattle.vm_logic.specs.Runs.{HasCells};

use level_scans::carry_store;
use logic_cells::{Cells, Clock};
use slice_store::Store;
use std::alloc::{AllocError, Global};
use try_walks::Walker;
use vm_logic::{Framed, Stack, Walked, run, standing_cells_are_there};

/// Cells for each of the two ways in which the programs of a source run, and memory for the runs.
#[derive(Drop)]
pub struct Twin {
    /// The source, as it is walked.
    walker: Walker,
    /// What the walks have left.
    pub walked: Cells,
    /// What the runs of the codes have left.
    pub ran: Cells,
    /// Memory for these runs.
    stack: Stack,
}

/// Gives the value of a number, if there is one.
pub fn set(cells: &mut Cells, number: usize, value: i64)
    ensures values { length cells.new.values ≡ length cells.old.values }
    ensures clocks { length cells.new.clocks ≡ length cells.old.clocks }
{
    if number < cells.len() {
        cells.set(number, value);
    }
}

/// Whether the outputs of two lists of standard blocks show the same.
fn show_alike(one: &[Clock], other: &[Clock]) -> bool {
    if one.len() != other.len() {
        return false;
    }
    for (a, b) in one.iter().zip(other) {
        if a.q != b.q || a.et != b.et {
            return false;
        }
    }
    true
}

/// The cells of another source, by those of an old one, by way of a store of them: what is in both goes over. Where there aren't as many as before its
/// first scan, those of that.
fn carried(alloc: Global, old: &Framed, cells: &Cells, new: &Framed) -> Result<Cells, AllocError>
    ensures { IfOk result (HasCells new.now) }
{
    standing_cells_are_there();
    let store = Store::new(alloc, cells, &[], 0)?;
    let (after, _) = carry_store(alloc, old, &store, new)?.into_parts();
    let opening = new.opening(alloc)?;
    if after.as_slice().len() == opening.as_slice().len()
        && after.clocks().len() == opening.clocks().len()
    {
        Ok(after)
    } else {
        Ok(opening)
    }
}

impl Twin {
    /// Cells before the first scan. The walker is to be of the same source.
    pub fn new(alloc: Global, framed: &Framed, walker: Walker) -> Result<Twin, AllocError>
        ensures { IfOk result (λ twin. HasCells framed.now twin.ran) }
    {
        standing_cells_are_there();
        let stack = Stack::new(alloc);
        let walked = framed.opening(alloc)?;
        Ok(Twin {
            ran: framed.opening(alloc)?,
            walker,
            walked,
            stack,
        })
    }

    /// Goes on with another source in the place of the old one, in both ways: what is in both goes over. The walker is to be of that source. Fails if
    /// memory is refused; what the runs of the codes have left is then as before.
    pub fn go_on(
        &mut self,
        alloc: Global,
        old: &Framed,
        new: &Framed,
        walker: Walker,
    ) -> Result<(), AllocError>
        ensures ok { OnOk result (HasCells new.now self.new.ran) }
        ensures err { OnErr result (self.new.ran ≡ self.old.ran) }
    {
        let walked = carried(alloc, old, &self.walked, new)?;
        let ran = carried(alloc, old, &self.ran, new)?;
        self.walker = walker;
        self.walked = walked;
        self.ran = ran;
        Ok(())
    }

    /// Gives the global of a number a value, for both ways. It does nothing if there is no such global.
    pub fn set(&mut self, global: usize, value: i64)
        ensures values { length self.new.ran.values ≡ length self.old.ran.values }
        ensures clocks { length self.new.ran.clocks ≡ length self.old.ran.clocks }
    {
        set(&mut self.walked, global, value);
        set(&mut self.ran, global, value);
    }

    /// Runs the program of a number, from 0, in both ways. Tells how it ended, if it ended alike: at the same place, with the same trap; `None`
    /// otherwise, and where the walker has no such program. The moment is that of the scan, in milliseconds.
    pub fn run(
        &mut self,
        framed: &Framed,
        program: u32,
        moment: u64,
    ) -> Result<Option<Walked>, AllocError>
        requires there { program < length framed.now.programs }
        requires cells { HasCells framed.now self.old.ran }
        ensures { HasCells framed.now self.new.ran }
    {
        let ran = run(framed, program, &mut self.stack, &mut self.ran, moment)?;
        if !self.walker.has(program) {
            return Ok(None);
        }
        let walked = self.walker.walk(program, &mut self.walked, moment);
        Ok(if walked == ran { Some(walked) } else { None })
    }

    /// Whether both ways have left the same values, and standard blocks that show the same.
    pub fn is_alike(&self) -> bool {
        self.walked.as_slice() == self.ran.as_slice()
            && show_alike(self.walked.clocks(), self.ran.clocks())
    }
}

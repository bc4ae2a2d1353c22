//! Jobs, and their runs that ended.

ghost use Rattle.std.specs.Prelude.{◌≡◌, ◌+◌, ◌*◌, ◌-◌, ◌<◌, ◌≤◌, List, length, IfErr};
ghost use Rattle.std.specs.Arc.{arc_value};
ghost use Rattle.plant_types.specs.Values.{Path};
ghost use Rattle.logic_cells.specs.Runs.{ended};
ghost use Rattle.acc_vm.specs.Machine.{Over};
ghost use Rattle.acc_vm.specs.Codes.{SameShape, run_of};
ghost use Rattle.slice_store.specs.Ready.{IsReadyJob};
ghost use Rattle.logic_cells.specs.Cells.{PlainCells};
ghost use Rattle.vm_slices.specs.Parts.{IsPart, HasPart};
ghost use Rattle.slice_store.specs.Starts.{Gives};
ghost use Rattle.slice_store.specs.Level.{PutsPart, Takes};

use crate::start::Start;
use acc_vm::{Code, Own, Shared};
use crew::Work;
use logic_cells::{Cells, Clock, Stop};
use std::marker::Model;
use std::sync::Arc;
use std::sync::atomic::{AtomicI64, Ordering};
use vm_slices::{Part, put_clocks};

/// What a job has: where it starts, room for cells and a stack of its own, what it costs, and room for how its run ends; and
/// what was read of the run. It lies in a place of its own, so that it isn't copied where the job, its run or their memory is handed on.
#[derive(Drop)]
pub(crate) struct Run {
    pub(crate) start: Arc<Start>,
    pub(crate) cells: Cells,
    pub(crate) stack: Vec<i64>,
    pub(crate) cost: u64,
    pub(crate) result: Result<(), Stop>,
    pub(crate) read: AtomicI64,
}

/// A job, which contracts see as its start. It owns the stack of its run, and room for cells: who runs it copies those of its start into that.
pub struct Job {
    run: Box<Run>,
}

impl Drop for Job {
    fn drop(self) {
        let Job { run: _ } = self;
    }
}

impl Model for Job {
    ghost use Rattle.std.specs.Arc.{arc_value};
    ghost use Rattle.slice_store.specs.Starts.{Begun};
    ghost use Rattle.slice_store.specs.Ready.{IsReadyJob};

    ghost Value = { Begun };

    ghost view = { λ j. arc_value j.run.value.start };

    ghost invariant = { λ j. IsReadyJob (arc_value j.run.value.start) j.run.value.cells j.run.value.stack.items };
}

/// A job's run that ended, which contracts see as its start: the code gives the result from it. It has the job's stack still, whose memory
/// serves a later job.
pub struct Done {
    run: Box<Run>,
}

impl Drop for Done {
    fn drop(self) {
        let Done { run: _ } = self;
    }
}

impl Model for Done {
    ghost use Rattle.std.specs.Arc.{arc_value};
    ghost use Rattle.slice_store.specs.Starts.{Begun, Gives};

    ghost Value = { Begun };

    ghost view = { λ d. arc_value d.run.value.start };

    ghost invariant = { λ d. Gives (arc_value d.run.value.start) d.run.value.result d.run.value.cells };
}

/// Runs code over cells at a moment, with memory for its stack, and tells how many instructions it did.
fn run_in(
    code: &Code,
    stack: &mut [i64],
    cells: &mut Cells,
    moment: u64,
) -> (Result<(), Stop>, u128)
    requires values { code.now.values ≤ length cells.old.values }
    requires clocks { code.now.clocks ≤ length cells.old.clocks }
    requires room { code.now.stack ≤ length stack.old }
    ensures ran { (names : List Path)
        → run_of moment names code.now cells.old
        ≡ Over (ended names result.0 cells.new) (4 * code.now.cost + 4 - result.1) }
    ensures path { IfErr result.0 (λ stop. stop.place.path < code.now.paths) }
    ensures shape { SameShape cells.new cells.old }
{
    let mut own = Own { cells, stack };
    code.run_counted(&mut own, &Shared, moment)
}

/// Runs a start's code over its cells, with memory for its stack.
fn run_from(start: &Start, stack: &mut [i64], cells: &mut Cells) -> Result<(), Stop>
    requires cells { cells.old ≡ start.now.cells }
    requires room { start.now.part.code.stack ≤ length stack.old }
    ensures { Gives start.now result cells.new }
{
    let (result, _) = run_in(start.part().code(), stack, cells, start.moment());
    result
}

/// Puts into all values and clocks those that a part's code wrote, and its clocks, as they were left in the part's cells.
fn put_part(part: &Part, left: &Cells, values: &mut [i64], clocks: &mut [Clock])
    requires part { IsPart part.now }
    requires inside { HasPart part.now (record { values = values.old; clocks = clocks.old }) }
    requires values { length left.now.values ≡ length part.now.slots }
    requires clocks { length left.now.clocks ≡ length part.now.clocks }
    ensures { PutsPart part.now left.now (record { values = values.old; clocks = clocks.old })
        (record { values = values.new; clocks = clocks.new }) }
{
    part.put_written(left, values);
    put_clocks(part.clocks(), left.clocks(), clocks);
}

impl Job {
    /// The job that starts where a run says, and has as many cells as there and words for the stack of its run.
    pub(crate) fn new(run: Box<Run>) -> Job
        requires { IsReadyJob (arc_value run.value.start) run.value.cells run.value.stack.items }
        ensures { result ≡ arc_value run.value.start }
    {
        Job { run }
    }
}

/// A job is its start, and so is a run of it.
impl Work<Start, Done> for Job {
    ghost start_of = { λ job. job };

    ghost ended_from = { λ done. done };

    ghost number_of = { λ start. start.number };

    fn number(&self) -> u32 {
        self.run.start.number()
    }

    fn cost(&self) -> u64 {
        self.run.cost
    }

    fn start(&self) -> &Arc<Start> {
        &self.run.start
    }

    /// Runs the job. It allocates nothing.
    fn run(self) -> Done {
        let Job { mut run } = self;
        let Run {
            start,
            cells,
            stack,
            cost: _,
            result,
            read: _,
        } = &mut *run;
        cells.copy_from(start.cells());
        *result = run_from(start, stack.as_mut_slice(), cells);
        Done { run }
    }

    fn is_run_of(ended: &Done, start: &Start) -> bool {
        ended.run.start.same(start)
    }

    /// It keeps what it read, since a compiler leaves out what is read for nothing.
    fn fetch(ended: &Done) {
        ended.run.read.store(ended.read(), Ordering::SeqCst);
    }
}

impl Done {
    /// Where the job started.
    pub fn start(&self) -> &Arc<Start>
        ensures { arc_value result.now ≡ self.now }
    {
        &self.run.start
    }

    /// The job's number: 1 more than its program's.
    pub fn number(&self) -> u32
        ensures { result ≡ self.now.number }
    {
        self.run.start.number()
    }

    /// How the run ended: a trap has the number of its path and of the statement there.
    pub fn ran(&self) -> Result<(), Stop>
        ensures { (after : PlainCells) × Gives self.now result after }
    {
        self.run.result
    }

    /// Puts into all values and clocks what the run's program wrote, and its clocks, and flags the program where the run trapped.
    pub(crate) fn take_into(&self, values: &mut [i64], clocks: &mut [Clock], faulted: &mut [bool])
        requires inside { HasPart self.now.part (record { values = values.old; clocks = clocks.old }) }
        requires numbered { (0 < self.now.number) × (self.now.number ≤ length faulted.old) }
        ensures { Takes self.now (record { values = values.old; clocks = clocks.old }) faulted.old
            (record { values = values.new; clocks = clocks.new }) faulted.new }
    {
        let Run {
            start,
            cells,
            stack: _,
            cost: _,
            result,
            read: _,
        } = &*self.run;
        put_part(start.part(), cells, values, clocks);
        let program = start.number() as usize - 1;
        faulted[program] = result.is_err();
    }

    /// One number of what a store takes of the run: the values that its program wrote, and its clocks.
    fn read(&self) -> i64 {
        let Run {
            start,
            cells,
            stack: _,
            cost: _,
            result,
            read: _,
        } = &*self.run;
        let mut all = i64::from(result.is_err()) ^ start.part().read_written(cells);
        for clock in cells.clocks() {
            all ^= clock.et;
        }
        all
    }

    /// The memory of the run, for a later job.
    pub(crate) fn into_run(self) -> Box<Run> {
        let Done { run } = self;
        run
    }
}

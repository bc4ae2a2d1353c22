//! The store that jobs are split from and gathered into.

ghost use Rattle.std.specs.Prelude.{◌≡◌, ◌+◌, ◌<◌, ◌^◌, ℕ, [], length, false, slice_index, slice_index_or, IsTrue, OnOk, IfOk, IfErr};
ghost use Rattle.std.specs.Arc.{arc_value};
ghost use Rattle.slice_store.specs.Level.{TakesRuns, AreJobsOf, AreRunsFrom};
ghost use Rattle.crew.specs.Runs.{AreNumbered, IsEachOnce};
ghost use Rattle.vm_slices.specs.Parts.{HasPart};
ghost use Rattle.slice_store.specs.Splits.{CanSplit, AreJobsBefore, SameStore, begun};
ghost use Rattle.slice_store.specs.Fits.{IsMisfit};
ghost use Rattle.slice_store.specs.Starts.{HasNumber, part_of};
ghost use Rattle.slice_store.specs.Ready.{IsReadyJob};

use crate::done::{Done, Job, Run};
use crate::matching::match_up;
use crate::misfit::Misfit;
use crate::parts::Parts;
use crate::reserve::Reserve;
use crate::start::Start;
use crew::{Begun, Work, begin_ticks, starts_of};
use level_plan::Levels;
use logic_cells::{Cells, Clock};
use std::alloc::{AllocError, Global};
use std::marker::Model;
use std::mem::replace;
use std::sync::Arc;
use std::sync::atomic::AtomicI64;

/// The values and clocks of all programs, which programs are faulted, and a scan's moment, in milliseconds; and the starts of the jobs that
/// are out. Contracts see these. Jobs take the memory of earlier ones from a reserve.
pub struct Store {
    values: Vec<i64>,
    clocks: Vec<Clock>,
    faulted: Vec<bool>,
    moment: u64,
    out: Vec<Begun<Start>>,
    ticks: Vec<bool>,
    reserve: Reserve,
}

impl Drop for Store {
    fn drop(self) {
        let Store {
            values: _,
            clocks: _,
            faulted: _,
            moment: _,
            out: _,
            ticks: _,
            reserve: _,
        } = self;
    }
}

impl Model for Store {
    ghost use Rattle.slice_store.specs.Level.{Stored, IsReady};

    ghost Value = { Stored };

    ghost view = { λ s. record { cells = record { values = s.values.items; clocks = s.clocks.items }; faulted = s.faulted.items; moment = s.moment; out = s.out.items } };

    ghost invariant = { λ s. IsReady (record { values = s.values.items; clocks = s.clocks.items }) s.faulted.items s.moment s.out.items s.ticks.items };
}

/// Puts into all values and clocks what each run's program wrote, and flags each that trapped.
fn take_all(values: &mut [i64], clocks: &mut [Clock], faulted: &mut [bool], runs: &[Done])
    requires { (moment : ℕ)
        × AreJobsOf (record { values = values.old; clocks = clocks.old }) (length faulted.old) moment
        runs.now }
    ensures { TakesRuns (record { values = values.old; clocks = clocks.old }) faulted.old runs.now
        (record { values = values.new; clocks = clocks.new }) faulted.new }
{
    for done in runs {
        done.take_into(values, clocks, faulted);
    }
}

/// Where the job of a number starts, with the cells of its part.
fn start_of(number: u32, parts: &Arc<Parts>, moment: u64, cells: Cells) -> Result<Start, AllocError>
    requires there { HasNumber (arc_value parts.now) number }
    requires values { length cells.values ≡ length (part_of (arc_value parts.now) number).slots }
    requires clocks { length cells.clocks ≡ length (part_of (arc_value parts.now) number).clocks }
    ensures { IfOk result (λ start. start
        ≡ record
        { number = number; part = part_of (arc_value parts.now) number; moment = moment; cells = cells }) }
{
    let _code = parts.numbered(number).code();
    let parts = Arc::try_clone(parts)?;
    Ok(Start::new(number, parts, moment, cells))
}

/// Starts in the place of an earlier start, whose cells it leaves in the place of those that it takes, and tells whether it could: not where somebody
/// else holds that start too; then nothing changes.
fn renewed(
    place: &mut Arc<Start>,
    number: u32,
    parts: &Arc<Parts>,
    moment: u64,
    cells: &mut Cells,
) -> Result<bool, AllocError>
    requires there { HasNumber (arc_value parts.now) number }
    requires values { length cells.old.values ≡ length (part_of (arc_value parts.now) number).slots }
    requires clocks { length cells.old.clocks ≡ length (part_of (arc_value parts.now) number).clocks }
    ensures put { IfOk result (λ could. IsTrue could
        → arc_value place.new
        ≡ record {
          number = number;
          part = part_of (arc_value parts.now) number;
          moment = moment;
          cells =
              cells.old;
        }) }
    ensures kept { IfOk result (λ could. could ≡ false → cells.new ≡ cells.old) }
{
    let _code = parts.numbered(number).code();
    let parts = Arc::try_clone(parts)?;
    match Arc::get_mut(place) {
        Some(there) => {
            there.renew(number, parts, moment, cells);
            Ok(true)
        }
        None => Ok(false),
    }
}

/// A start that threads may share.
fn shared_start(alloc: Global, start: Start) -> Result<Arc<Start>, AllocError>
    ensures { IfOk result (λ shared. arc_value shared ≡ start) }
{
    let Ok(start) = Arc::new(alloc, start) else {
        return Err(AllocError);
    };
    Ok(start)
}

fn no_cells(alloc: Global) -> Cells {
    Cells::new(Vec::new(alloc), Vec::new(alloc))
}

/// Starts in the place of an earlier start where nobody else holds that, and else in a new one. It takes the cells, and leaves some for their memory.
fn put_start(
    alloc: Global,
    place: &mut Arc<Start>,
    number: u32,
    parts: &Arc<Parts>,
    moment: u64,
    cells: &mut Cells,
) -> Result<(), AllocError>
    requires there { HasNumber (arc_value parts.now) number }
    requires values { length cells.old.values ≡ length (part_of (arc_value parts.now) number).slots }
    requires clocks { length cells.old.clocks ≡ length (part_of (arc_value parts.now) number).clocks }
    ensures { OnOk result
        (arc_value place.new
        ≡ record {
          number = number;
          part = part_of (arc_value parts.now) number;
          moment = moment;
          cells =
              cells.old;
        }) }
{
    if renewed(place, number, parts, moment, cells)? {
        return Ok(());
    }
    let taken = replace(cells, no_cells(alloc));
    let start = start_of(number, parts, moment, taken)?;
    *place = shared_start(alloc, start)?;
    Ok(())
}

/// Gives a run as many cells as its start has, the words of stack that its code needs, in its own room where that serves, and what it costs.
fn make_ready(alloc: Global, run: &mut Run) -> Result<(), AllocError>
    ensures ready { OnOk result
        (IsReadyJob (arc_value run.new.start) run.new.cells run.new.stack.items) }
    ensures start { arc_value run.new.start ≡ arc_value run.old.start }
{
    let Run {
        start,
        cells,
        stack,
        cost,
        result: _,
        read: _,
    } = run;
    let begun = start.cells();
    if cells.len() != begun.len() || cells.clock_count() != begun.clock_count() {
        *cells = begun.copy(alloc)?;
    }
    let code = start.part().code();
    *cost = code.cost();
    let words = code.stack();
    if stack.len() < words {
        stack.resize(words, 0)?;
    }
    Ok(())
}

impl Store {
    /// A store of the values and clocks of all programs, and of which programs are faulted, at a moment in milliseconds. No job is out. It
    /// allocates nothing.
    pub fn of(alloc: Global, cells: Cells, faulted: Vec<bool>, moment: u64) -> Store
        ensures { result ≡ record { cells = cells; faulted = faulted.items; moment = moment; out = [] } }
    {
        let (values, clocks) = cells.into_parts();
        Store {
            values,
            clocks,
            faulted,
            moment,
            out: Vec::new(alloc),
            ticks: Vec::new(alloc),
            reserve: Reserve::new(alloc),
        }
    }

    /// A store that holds a copy of the values and clocks of all programs, and of which programs are faulted, at a moment in milliseconds. No job is
    /// out.
    pub fn new(
        alloc: Global,
        cells: &Cells,
        faulted: &[bool],
        moment: u64,
    ) -> Result<Store, AllocError>
        ensures { IfOk result (λ store. store
            ≡ record { cells = cells.now; faulted = faulted.now; moment = moment; out = [] }) }
    {
        let copy = cells.copy(alloc)?;
        let flags = Vec::from_slice(alloc, faulted)?;
        Ok(Store::of(alloc, copy, flags, moment))
    }

    /// Lends the store memory of earlier jobs.
    pub fn lend(&mut self, reserve: Reserve)
        ensures { self.new ≡ self.old }
    {
        self.reserve = reserve;
    }

    /// Takes back what the store was lent, with the memory of the jobs that were gathered since.
    pub fn take_back(&mut self, alloc: Global) -> Reserve
        ensures { self.new ≡ self.old }
    {
        replace(&mut self.reserve, Reserve::new(alloc))
    }

    /// The values and clocks of all programs, and which programs are faulted. It copies nothing.
    pub fn into_parts(self) -> (Cells, Vec<bool>)
        ensures cells { result.0 ≡ self.cells }
        ensures faulted { result.1.items ≡ self.faulted }
    {
        let Store {
            values,
            clocks,
            faulted,
            moment: _,
            out,
            ticks,
            reserve,
        } = self;
        drop(out);
        drop(ticks);
        drop(reserve);
        (Cells::new(values, clocks), faulted)
    }

    /// The values of all programs.
    pub fn values(&self) -> &[i64]
        ensures { result.now ≡ self.now.cells.values }
    {
        self.values.as_slice()
    }

    /// The clocks of all programs.
    pub fn clocks(&self) -> &[Clock]
        ensures { result.now ≡ self.now.cells.clocks }
    {
        self.clocks.as_slice()
    }

    /// Whether a program is faulted.
    pub fn is_faulted(&self, program: usize) -> bool
        requires { program < length self.now.faulted }
        ensures { result ≡ slice_index_or self.now.faulted program false }
    {
        self.faulted[program]
    }

    /// The moment of the scan, in milliseconds.
    pub fn moment(&self) -> u64
        ensures { result ≡ self.now.moment }
    {
        self.moment
    }

    /// Whether a program is in a level and isn't faulted.
    fn is_chosen(&self, levels: &Levels, level: u32, program: usize) -> bool
        requires levelled { program < length levels.now }
        requires few { program < 2 ^ 32 }
        requires flagged { program < length self.now.faulted }
        ensures level { IsTrue result → slice_index levels.now program ≡ level }
        ensures sound { IsTrue result → slice_index_or self.now.faulted program false ≡ false }
        ensures chosen { slice_index levels.now program ≡ level
            → slice_index_or self.now.faulted program false ≡ false → IsTrue result }
    {
        levels.of(program as u32) == level && !self.is_faulted(program)
    }

    /// The job of a number, from the cells and at the moment of the store, in memory of its own.
    fn begin_anew(&self, alloc: Global, number: u32, parts: &Arc<Parts>) -> Result<Job, AllocError>
        requires there { HasNumber (arc_value parts.now) number }
        requires inside { HasPart (part_of (arc_value parts.now) number) self.now.cells }
        ensures { IfOk result (λ job. job
            ≡ begun number (part_of (arc_value parts.now) number) self.now.moment self.now.cells) }
    {
        let part = parts.numbered(number);
        let mut cells = no_cells(alloc);
        part.load(self.values(), self.clocks(), &mut cells)?;
        let start = start_of(number, parts, self.moment(), cells)?;
        let start = shared_start(alloc, start)?;
        let run = Run {
            start,
            cells: no_cells(alloc),
            stack: Vec::new(alloc),
            cost: 0,
            result: Ok(()),
            read: AtomicI64::new(0),
        };
        let mut run = Box::new(alloc, run)?;
        make_ready(alloc, &mut run)?;
        Ok(Job::new(run))
    }

    /// The job of a number, from the cells and at the moment of the store, in the memory of an earlier one.
    fn begin_again(
        &self,
        alloc: Global,
        earlier: Box<Run>,
        number: u32,
        parts: &Arc<Parts>,
    ) -> Result<Job, AllocError>
        requires there { HasNumber (arc_value parts.now) number }
        requires inside { HasPart (part_of (arc_value parts.now) number) self.now.cells }
        ensures { IfOk result (λ job. job
            ≡ begun number (part_of (arc_value parts.now) number) self.now.moment self.now.cells) }
    {
        let part = parts.numbered(number);
        let mut run = earlier;
        let Run {
            start,
            cells,
            stack: _,
            cost: _,
            result: _,
            read: _,
        } = &mut *run;
        part.load(self.values(), self.clocks(), cells)?;
        put_start(alloc, start, number, parts, self.moment(), cells)?;
        make_ready(alloc, &mut run)?;
        Ok(Job::new(run))
    }

    /// The job of a program, from the cells and at the moment of the store, in the memory of an earlier one if there is one.
    fn begin_program(
        &self,
        alloc: Global,
        reserve: &mut Reserve,
        number: u32,
        parts: &Arc<Parts>,
    ) -> Result<Job, AllocError>
        requires there { HasNumber (arc_value parts.now) number }
        requires inside { HasPart (part_of (arc_value parts.now) number) self.now.cells }
        ensures { IfOk result (λ job. job
            ≡ begun number (part_of (arc_value parts.now) number) self.now.moment self.now.cells) }
    {
        match reserve.take(number)? {
            Some(run) => self.begin_again(alloc, run, number, parts),
            None => self.begin_anew(alloc, number, parts),
        }
    }

    /// The jobs of a level's programs that aren't faulted, in program order, in the memory of earlier ones.
    fn begin_level(
        &self,
        alloc: Global,
        reserve: &mut Reserve,
        parts: &Arc<Parts>,
        levels: &Levels,
        level: u32,
    ) -> Result<Vec<Job>, AllocError>
        requires { CanSplit (arc_value parts.now) levels.now level self.now.cells
            (length self.now.faulted) }
        ensures { IfOk result (λ jobs. AreJobsBefore (arc_value parts.now) levels.now level self.now
            (length (arc_value parts.now)) jobs.items) }
    {
        let many = parts.count();
        let mut jobs = Vec::with_capacity(alloc, many)?;
        for p in 0..many {
            if self.is_chosen(levels, level, p) {
                let job = self.begin_program(alloc, reserve, p as u32 + 1, parts)?;
                jobs.push(job)?;
            }
        }
        Ok(jobs)
    }

    /// Begins a level: a job for each program of it that isn't faulted, in program order, from the cells and at the moment of the store, in the
    /// memory of earlier jobs. No list of what is out is kept, so who begins knows what `take_in` wants to know.
    pub fn begin(
        &mut self,
        alloc: Global,
        parts: &Arc<Parts>,
        levels: &Levels,
        level: u32,
    ) -> Result<Vec<Job>, AllocError>
        requires { CanSplit (arc_value parts.now) levels.now level self.old.cells
            (length self.old.faulted) }
        ensures jobs { IfOk result (λ jobs. AreJobsBefore (arc_value parts.now) levels.now level self.old
            (length (arc_value parts.now)) jobs.items) }
        ensures of_cells { IfOk result (λ jobs. AreJobsOf self.old.cells (length self.old.faulted)
            self.old.moment jobs.items) }
        ensures numbered { IfOk result (λ jobs. AreNumbered (λ s. s.number) jobs.items) }
        ensures same { self.new ≡ self.old }
    {
        let mut reserve = self.take_back(alloc);
        let begun = self.begin_level(alloc, &mut reserve, parts, levels, level);
        self.lend(reserve);
        begun
    }

    /// Splits a level: begins it, and keeps a list of the jobs that are out, in memory of earlier lists. All jobs that were out have been gathered.
    /// Fails if memory was refused; then none is out.
    #[tactic(auto, using(crate::proofs::Splitting::ready_out, crate::proofs::Ticks::all_out))]
    pub fn split(
        &mut self,
        alloc: Global,
        parts: &Arc<Parts>,
        levels: &Levels,
        level: u32,
    ) -> Result<Vec<Job>, AllocError>
        requires gathered { self.old.out ≡ [] }
        requires programs { CanSplit (arc_value parts.now) levels.now level self.old.cells
            (length self.old.faulted) }
        ensures jobs { IfOk result (λ jobs. AreJobsBefore (arc_value parts.now) levels.now level self.old
            (length (arc_value parts.now)) jobs.items) }
        ensures numbered { IfOk result (λ jobs. AreNumbered (λ s. s.number) jobs.items) }
        ensures out { IfOk result (λ jobs. self.new.out ≡ jobs.items) }
        ensures refused { IfErr result (λ e. self.new.out ≡ []) }
        ensures same { SameStore self.new self.old }
    {
        let jobs = self.begin(alloc, parts, levels, level)?;
        let room = self.reserve.take_out(alloc);
        let out = starts_of::<Job, Start, Done>(jobs.as_slice(), room)?;
        let mut ticks = self.reserve.take_ticks(alloc);
        begin_ticks(out.as_slice(), &mut ticks)?;
        self.out = out;
        self.ticks = ticks;
        Ok(jobs)
    }

    /// Takes in runs of which the caller knows that they are one for each job of some that begin from this store. It compares none, and allocates
    /// nothing.
    pub fn take_in(&mut self, runs: Vec<Done>)
        requires gathered { self.old.out ≡ [] }
        requires runs { AreRunsFrom self.old runs.items }
        ensures taken { TakesRuns self.old.cells self.old.faulted runs.items self.new.cells
            self.new.faulted }
        ensures gathered { self.new.out ≡ [] }
        ensures moment { self.new.moment ≡ self.old.moment }
    {
        take_all(
            self.values.as_mut_slice(),
            self.clocks.as_mut_slice(),
            self.faulted.as_mut_slice(),
            &runs,
        );
        self.reserve.keep_all(runs);
    }

    /// Takes in one run for each job that is out, in any order. After a misfit the store isn't used again. It allocates nothing.
    pub fn gather(&mut self, runs: Vec<Done>) -> Result<(), Misfit>
        ensures fits { OnOk result
            (IsEachOnce self.old.out runs.items
            × TakesRuns self.old.cells self.old.faulted runs.items self.new.cells self.new.faulted) }
        ensures after { OnOk result ((self.new.out ≡ []) × (self.new.moment ≡ self.old.moment)) }
        ensures misfit { IfErr result (λ e. IsMisfit self.old.out runs.items e) }
    {
        let fits = match_up(&self.out, &runs, self.ticks.as_mut_slice());
        if fits.is_ok() {
            take_all(
                self.values.as_mut_slice(),
                self.clocks.as_mut_slice(),
                self.faulted.as_mut_slice(),
                &runs,
            );
        }
        self.reserve.keep_lists(&mut self.out, &mut self.ticks);
        self.reserve.keep_all(runs);
        fits
    }
}

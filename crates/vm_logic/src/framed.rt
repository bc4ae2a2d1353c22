//! The logic of a plant, made ready to run.

ghost use Rattle.std.specs.Prelude.{◌≡◌, ◌<◌, ◌≤◌, ◌+◌, ◌*◌, ◌^◌, ◌++◌, [], IfErr, IfOk, IfSome, MatchResult, get_or, length, map, slice_index_or, string_bytes};
ghost use Rattle.logic_source.specs.Source.{global_cells, source_of};
ghost use Rattle.logic_source.specs.Names.{find_global};
ghost use Rattle.logic_source.specs.Units.{source_in};
ghost use Rattle.logic_source.specs.Blocks.{AreBelow, HasItsTypes};
ghost use Rattle.logic_source.specs.Layout.{IsDistinctlyNamed};
ghost use Rattle.logic_source.specs.Worlds.{World, opening, run_program};
ghost use Rattle.logic_source.specs.Paths.{paths_of, path_text};
ghost use Rattle.logic_limits.specs.Counts.{program_costs};
ghost use Rattle.logic_limits.specs.Limits.{KeepsLimits, IsLimitFault};
ghost use Rattle.logic_frames.specs.Frames.{IsFrames};
ghost use Rattle.logic_frames.specs.Small.{IsSmall};
ghost use Rattle.logic_frames.specs.Stands.{StandFor};
ghost use Rattle.vm_programs.specs.Codes.{AreCodes};
ghost use Rattle.vm_logic.specs.Framed.{HasStart, IsLaid, all_standards};
ghost use Rattle.vm_logic.specs.Kept.{IsKept};
ghost use Rattle.vm_logic.specs.Headings.{heading_of, view_heading, AreDeclared};
ghost use Rattle.vm_logic.specs.Sound.{IsSound};
ghost use Rattle.logic_source.specs.Seats.{program_values_base};
ghost use Rattle.vm_logic.specs.Bases.{AreBases, program_paths_base};
ghost use Rattle.vm_logic.specs.Runs.{Agree, HasCells, IsProgramCode, IsWithin, TakesInstructions, paths_in, ran, walked_by};

use crate::headings::{Heading, copy_headings, copy_rows, copy_variables, headings_of};
use crate::names::global_names;
use crate::opening::start_programs;
use crate::paths::{path_bases, program_of};
use crate::standards::{Standards, standards_of};
use crate::values::value_bases;
use crate::walking::Walked;
use acc_vm::Code;
use base_trace::Shown;
use base_words::Names;
use logic_cells::{Cells, Stop};
use logic_frames::{
    frames_agree, frames_begin, frames_have_paths, frames_of, start_of, typed_names_are_known,
};
use logic_limits::{LimitFault, block_type_counts, limits};
use logic_paths::SeatTable;
use logic_source::{Logic, Row, Typed, Variable, logic_of, order_is_of_source};
use logic_walk::{Frame, start_frame};
use plant_types::Place;
use std::alloc::{AllocError, Global};
use std::marker::Model;
use vm_programs::{Stack, codes_of, copy_codes, run_code_counted};

/// The source of well-formed units that keeps the limits, made ready to run: the code of each program, the cells before the first scan, the
/// declarations of globals, programs and block types, and what the paths of traps need. Contracts see the source; its statements take no
/// memory any more.
pub struct Framed {
    logic: Shown<Logic>,
    order: Shown<Vec<usize>>,
    values: Shown<Vec<usize>>,
    clocks: Shown<Vec<usize>>,
    frames: SeatTable,
    /// The number of the first program's frame.
    first: usize,
    globals: Vec<Variable>,
    rows: Vec<Row>,
    programs: Vec<Heading>,
    blocks: Vec<Heading>,
    names: Names,
    cells: Cells,
    /// How many cells the globals have: the number of the first program's first value.
    begin: usize,
    paths: Vec<u32>,
    codes: Vec<Code>,
}

impl Drop for Framed {
    fn drop(self) {
        let Framed {
            logic: _,
            order: _,
            values: _,
            clocks: _,
            frames: _,
            first: _,
            globals: _,
            rows: _,
            programs: _,
            blocks: _,
            names: _,
            cells: _,
            begin: _,
            paths: _,
            codes: _,
        } = self;
    }
}

impl Model for Framed {
    ghost use Rattle.logic_source.specs.Source.{Source, source_of};
    ghost use Rattle.logic_source.specs.Code.{source_code};

    ghost Value = { Source };

    ghost coded = { source_code };

    ghost use Rattle.vm_logic.specs.Framed.{IsFramed};
    ghost use Rattle.vm_logic.specs.Kept.{IsKept};
    ghost use Rattle.vm_logic.specs.Headings.{AreDeclared};

    ghost view = { λ framed. source_of framed.logic };

    ghost invariant = { λ framed. IsFramed (source_of framed.logic) framed.order.items framed.frames framed.names framed.values.items framed.clocks.items framed.paths.items framed.codes.items × IsKept (source_of framed.logic) framed.order.items framed.first framed.globals.items framed.programs.items framed.cells framed.begin × AreDeclared (source_of framed.logic) framed.rows.items framed.blocks.items };
}

/// What is made of a source, so that its programs can get their codes.
#[derive(Drop)]
struct Made {
    frames: Vec<Frame>,
    start: Vec<Frame>,
    names: Names,
    standards: Standards,
    values: Vec<usize>,
    paths: Vec<u32>,
}

/// What is kept of a source whose programs can get their codes: all but these.
#[derive(Drop)]
struct Laid {
    seats: SeatTable,
    globals: Vec<Variable>,
    rows: Vec<Row>,
    programs: Vec<Heading>,
    blocks: Vec<Heading>,
    names: Names,
    cells: Cells,
    values: Vec<usize>,
    clocks: Vec<usize>,
    paths: Vec<u32>,
}

/// The frame of a source's initial values, in a table of its own.
fn start_table(alloc: Global, logic: &Logic) -> Result<Vec<Frame>, AllocError>
    requires named { IsDistinctlyNamed (source_of logic.now) }
    requires small { IsSmall (source_of logic.now) }
    ensures { IfOk result (λ start. HasStart (source_of logic.now) start.items) }
{
    let mut start = Vec::new(alloc);
    start.push(start_of(alloc, logic)?)?;
    Ok(start)
}

/// The frames of a source, and the table of its initial values.
fn tables_of(
    alloc: Global,
    logic: &Logic,
    order: &[usize],
) -> Result<(Vec<Frame>, Vec<Frame>), AllocError>
    requires below { AreBelow (source_of logic.now).blocks order.now }
    requires types { HasItsTypes (source_of logic.now) }
    requires named { IsDistinctlyNamed (source_of logic.now) }
    requires small { IsSmall (source_of logic.now) }
    ensures frames { IfOk result (λ tables. IsFrames (source_of logic.now) order.now tables.0.items) }
    ensures start { IfOk result (λ tables. HasStart (source_of logic.now) tables.1.items) }
{
    let start = start_table(alloc, logic)?;
    Ok((frames_of(alloc, logic, order)?, start))
}

/// What is made of a sound source.
fn made_of(alloc: Global, logic: &Logic, order: &[usize]) -> Result<Made, AllocError>
    requires sound { IsSound (source_of logic.now) }
    requires below { AreBelow (source_of logic.now).blocks order.now }
    ensures laid { IfOk result (λ m. IsLaid (source_of logic.now) order.now m.frames.items m.names
        m.values.items m.standards.bases.items m.paths.items) }
    ensures start { IfOk result (λ m. HasStart (source_of logic.now) m.start.items) }
    ensures standards { IfOk result (λ m. m.standards.list.items ≡ all_standards (source_of logic.now)) }
{
    block_type_counts();
    let values = value_bases(alloc, logic, order)?;
    let (frames, start) = tables_of(alloc, logic, order)?;
    let paths = path_bases(alloc, logic, order, &frames)?;
    let standards = standards_of(alloc, logic, order, &frames)?;
    Ok(Made {
        names: global_names(alloc, &logic.globals)?,
        frames,
        start,
        standards,
        values,
        paths,
    })
}

/// The cells before the first scan, by what is made of a source.
fn opened(alloc: Global, logic: &Logic, order: &[usize], made: &Made) -> Result<Cells, AllocError>
    requires laid { IsLaid (source_of logic.now) order.now made.now.frames.items made.now.names
        made.now.values.items made.now.standards.bases.items made.now.paths.items }
    requires start { HasStart (source_of logic.now) made.now.start.items }
    requires standards { made.now.standards.list.items ≡ all_standards (source_of logic.now) }
    ensures { IfOk result (λ cells. StandFor (source_of logic.now) cells
        (opening (source_of logic.now))) }
{
    frames_begin();
    typed_names_are_known();
    let all = made.values[logic.programs.len()];
    let mut cells = Cells::zeros(alloc, all, &made.standards.list)?;
    start_frame(&made.start, made.values[0], 0, 0, 0, &mut cells);
    start_programs(
        logic,
        order,
        &made.frames,
        &made.values,
        &made.standards.bases,
        &mut cells,
    );
    Ok(cells)
}

/// What is kept of a sound source, and the frames that its codes are made of.
fn laid_of(alloc: Global, logic: &Logic, order: &[usize]) -> Result<(Laid, Vec<Frame>), AllocError>
    requires sound { IsSound (source_of logic.now) }
    requires below { AreBelow (source_of logic.now).blocks order.now }
    ensures seats { IfOk result (λ m. m.0.seats ≡ m.1.items) }
    ensures laid { IfOk result (λ m. IsLaid (source_of logic.now) order.now m.1.items m.0.names
        m.0.values.items m.0.clocks.items m.0.paths.items) }
    ensures kept { IfOk result (λ m. IsKept (source_of logic.now) order.now (length order.now)
        m.0.globals.items m.0.programs.items m.0.cells (global_cells (source_of logic.now))) }
    ensures declared { IfOk result (λ m. AreDeclared (source_of logic.now) m.0.rows.items
        m.0.blocks.items) }
{
    let globals = copy_variables(alloc, &logic.globals)?;
    let rows = copy_rows(alloc, &logic.rows)?;
    let programs = headings_of(alloc, &logic.programs)?;
    let blocks = headings_of(alloc, &logic.blocks)?;
    let made = made_of(alloc, logic, order)?;
    let cells = opened(alloc, logic, order, &made)?;
    let seats = SeatTable::of(alloc, &made.frames)?;
    let Made {
        frames,
        names,
        standards,
        values,
        paths,
        ..
    } = made;
    let laid = Laid {
        seats,
        globals,
        rows,
        programs,
        blocks,
        names,
        cells,
        values,
        clocks: standards.bases,
        paths,
    };
    Ok((laid, frames))
}

/// The codes of the programs of a source, by what is kept of it and what its programs cost. Its frames are let go.
fn codes_in(
    alloc: Global,
    logic: &Shown<Logic>,
    order: &[usize],
    laid: &Laid,
    frames: Vec<Frame>,
    costs: &[u64],
) -> Result<Vec<Code>, AllocError>
    requires laid { IsLaid (source_of logic.now) order.now frames.items laid.now.names
        laid.now.values.items laid.now.clocks.items laid.now.paths.items }
    requires globals { laid.now.globals.items ≡ (source_of logic.now).globals }
    requires costs { costs.now ≡ program_costs (source_of logic.now) }
    ensures { IfOk result (λ codes. AreCodes frames.items (global_cells (source_of logic.now))
        (length order.now) laid.now.values.items laid.now.clocks.items
        (program_costs (source_of logic.now)) codes.items) }
{
    block_type_counts();
    typed_names_are_known();
    let codes = codes_of(
        alloc,
        frames,
        laid.values[0],
        order.len(),
        &laid.values,
        &laid.clocks,
        costs,
    )?;
    Ok(codes)
}

/// How many cells the globals of a source have, by where the values of its programs begin.
fn global_cells(logic: &Shown<Logic>, values: &Vec<usize>) -> usize
    requires { AreBases (program_values_base (source_of logic.now))
        (length (source_of logic.now).programs) values.now.items }
    ensures { result ≡ global_cells (source_of logic.now) }
{
    values[0]
}

/// A source made ready to run, by what is kept of it, by its frames, which are let go, and by what its programs cost.
fn framed_by(
    alloc: Global,
    logic: Shown<Logic>,
    order: &Vec<usize>,
    laid: Laid,
    frames: Vec<Frame>,
    costs: &[u64],
) -> Result<Framed, AllocError>
    requires seats { laid.seats ≡ frames.items }
    requires laid { IsLaid (source_of logic) order.now.items frames.items laid.names laid.values.items
        laid.clocks.items laid.paths.items }
    requires kept { IsKept (source_of logic) order.now.items (length order.now.items) laid.globals.items
        laid.programs.items laid.cells (global_cells (source_of logic)) }
    requires declared { AreDeclared (source_of logic) laid.rows.items laid.blocks.items }
    requires costs { costs.now ≡ program_costs (source_of logic) }
    ensures { IfOk result (λ framed. framed ≡ source_of logic) }
{
    let begin = global_cells(&logic, &laid.values);
    let codes = codes_in(alloc, &logic, order, &laid, frames, costs)?;
    let Laid {
        seats,
        globals,
        rows,
        programs,
        blocks,
        names,
        cells,
        values,
        clocks,
        paths,
    } = laid;
    Ok(Framed {
        logic,
        order: Shown::of(order),
        values: Shown::of(&values),
        clocks: Shown::of(&clocks),
        frames: seats,
        first: order.len(),
        globals,
        rows,
        programs,
        blocks,
        names,
        cells,
        begin,
        paths,
        codes,
    })
}

/// A sound source made ready to run, by what its programs cost. Its statements are let go as soon as it has its frames, and these as its programs get
/// their codes: nothing of either is kept.
fn ready(
    alloc: Global,
    logic: Logic,
    order: &Vec<usize>,
    costs: &[u64],
) -> Result<Framed, AllocError>
    requires sound { IsSound (source_of logic) }
    requires below { AreBelow (source_of logic).blocks order.now.items }
    requires costs { costs.now ≡ program_costs (source_of logic) }
    ensures { IfOk result (λ framed. framed ≡ source_of logic) }
{
    let shown = Shown::of(&logic);
    let made = laid_of(alloc, &logic, order);
    drop(logic);
    let (laid, frames) = made?;
    framed_by(alloc, shown, order, laid, frames, costs)
}

/// A source made ready to run, if it keeps the limits; else the first limit that it is past, or `Memory` where memory was refused.
fn judged(alloc: Global, logic: Logic, order: &Vec<usize>) -> Result<Framed, LimitFault>
    requires sound { KeepsLimits (source_of logic) → IsSound (source_of logic) }
    requires below { AreBelow (source_of logic).blocks order.now.items }
    ensures made { MatchResult result
        (λ framed. (framed ≡ source_of logic) × KeepsLimits (source_of logic))
        (IsLimitFault (source_of logic)) }
    ensures sound { IfOk result IsSound }
{
    match limits(alloc, &logic, order) {
        Ok(costs) => Ok(ready(alloc, logic, order, &costs)?),
        Err(fault) => {
            drop(logic);
            Err(fault)
        }
    }
}

/// How a run of the program whose first path has a number ends, by how the run of its frame ended.
pub fn walked(base: u32, ended: Result<(), Stop>) -> Walked
    requires { IfErr ended (λ stop. base + stop.place.path < 2 ^ 32) }
    ensures { result ≡ walked_by base ended }
{
    match ended {
        Ok(()) => Walked::Done,
        Err(stop) => {
            let place = Place {
                path: base + stop.place.path,
                statement: stop.place.statement,
            };
            Walked::Trapped(place, stop.trap)
        }
    }
}

impl Framed {
    /// Makes the logic of well-formed units ready to run. The units are let go.
    ///
    /// Fails with the first limit that it is past: `Slots`, `Size` or `Cost`; and with `Memory` where memory was refused.
    pub fn of(alloc: Global, typed: Typed) -> Result<Framed, LimitFault>
        ensures made { MatchResult result
            (λ framed. (framed ≡ source_in typed) × KeepsLimits (source_in typed))
            (IsLimitFault (source_in typed)) }
        ensures sound { IfOk result IsSound }
    {
        order_is_of_source();
        let (logic, order) = logic_of(alloc, typed)?;
        judged(alloc, logic, &order)
    }

    /// The same logic.
    pub fn copy(&self, alloc: Global) -> Result<Framed, AllocError>
        ensures { IfOk result (λ copy. copy ≡ self.now) }
    {
        Ok(Framed {
            frames: self.frames.copy(alloc)?,
            globals: copy_variables(alloc, &self.globals)?,
            rows: copy_rows(alloc, &self.rows)?,
            programs: copy_headings(alloc, &self.programs)?,
            blocks: copy_headings(alloc, &self.blocks)?,
            names: self.names.copy()?,
            cells: self.cells.copy(alloc)?,
            paths: Vec::from_slice(alloc, &self.paths)?,
            codes: copy_codes(alloc, &self.codes)?,
            first: self.first,
            begin: self.begin,
            logic: self.logic.again(),
            order: self.order.again(),
            values: self.values.again(),
            clocks: self.clocks.again(),
        })
    }

    /// The globals in order of declaration, numbered from 0, with their names as declared.
    pub fn globals(&self) -> &[Variable]
        ensures globals { result.now ≡ self.now.globals }
        ensures sound { IsSound self.now }
    {
        self.globals.as_slice()
    }

    /// How many cells the globals have, which are the first of all cells: one for each variable, and behind these one for each element of an array.
    pub fn global_cells(&self) -> usize
        ensures { result ≡ global_cells self.now }
    {
        self.begin
    }

    /// The global arrays in order of declaration, with their names as declared.
    pub fn rows(&self) -> &[Row]
        ensures { result.now ≡ self.now.rows }
    {
        self.rows.as_slice()
    }

    /// The programs in order of text, numbered from 0, with their names as declared, their variables, their arrays and their instances.
    pub fn programs(&self) -> &[Heading]
        ensures programs { map view_heading result.now ≡ map heading_of self.now.programs }
        ensures count { length result.now ≡ length self.now.programs }
        ensures sound { IsSound self.now }
    {
        self.programs.as_slice()
    }

    /// The block types by their numbers, with their names as declared, their variables, their arrays and their instances.
    pub fn blocks(&self) -> &[Heading]
        ensures { map view_heading result.now ≡ map heading_of self.now.blocks }
    {
        self.blocks.as_slice()
    }

    /// The number of the global of a name, letter case ignored; `None` if there is none. It takes no memory.
    pub fn find_global(&self, name: &str) -> Option<usize>
        ensures number { result ≡ find_global self.now.globals name.now }
        ensures within { IfSome result (λ number. number < length self.now.globals) }
    {
        self.names.find(name)
    }

    /// The cells before the first scan: each value is FALSE or 0, or the initial value that is written, and no standard block was called.
    pub fn opening(&self, alloc: Global) -> Result<Cells, AllocError>
        ensures { IfOk result (λ cells. StandFor self.now cells (opening self.now)) }
    {
        self.cells.copy(alloc)
    }

    /// Runs the code of the program of a number, as `run_counted` does.
    pub(crate) fn run_counted(
        &self,
        program: usize,
        stack: &mut Stack,
        cells: &mut Cells,
        moment: u64,
    ) -> Result<(Walked, u128), AllocError>
        requires there { program < length self.now.programs }
        requires cells { HasCells self.now cells.old }
        ensures ran { IfOk result (λ ended. (w : World) → StandFor self.now cells.old w
            → Agree self.now (run_program self.now program moment w) (ran self.now ended.0 cells.new)) }
        ensures within { IfOk result (λ ended. IsWithin self.now ended.0) }
        ensures shape { HasCells self.now cells.new }
        ensures count { IfOk result (λ ended. TakesInstructions self.now program moment cells.old
            ended.1) }
        ensures cost { IfOk result (λ ended. ended.1
            ≤ 4 * get_or (program_costs self.now) program 0 + 4) }
        ensures kept { IfErr result (λ _. cells.new ≡ cells.old) }
    {
        frames_agree();
        frames_have_paths();
        typed_names_are_known();
        let compiled = &self.codes[program];
        stack.reach(compiled.stack())?;
        let (ended, count) = run_code_counted(compiled, stack, cells, moment);
        Ok((walked(self.paths[program], ended), count))
    }

    /// The code of the program of a number, from 0. Beside the globals it names only values and clocks of the program. Its paths are those of the
    /// program, the program's own first: `path_base` tells which number that one has among all paths.
    pub fn code(&self, program: usize) -> &Code
        requires { program < length self.now.programs }
        ensures { IsProgramCode self.now program result.now }
    {
        frames_agree();
        frames_have_paths();
        typed_names_are_known();
        let code = &self.codes[program];
        let _instrs = code.instrs();
        code
    }

    /// What the program of a number costs, from 0, by the rule of the limit on a scan's steps: the program as it is written, whatever of it was
    /// folded.
    pub fn cost(&self, program: usize) -> u64
        requires { program < length self.now.programs }
        ensures { result ≡ get_or (program_costs self.now) program 0 }
    {
        self.code(program).cost()
    }

    /// The number that the first path of the program of a number has among all paths. The program's other paths follow it, and all these numbers
    /// are below 2^32.
    pub fn path_base(&self, program: usize) -> u32
        requires { program < length self.now.programs }
        ensures base { result ≡ program_paths_base self.now program }
        ensures fits { program_paths_base self.now program + length (paths_in self.now program)
            < 2 ^ 32 }
    {
        self.paths[program]
    }

    /// Adds the text of the path of a number: the names of the program and of the instances below it, as declared, with points between them. Fails if
    /// memory is refused; what was added then is of no use.
    pub fn push_path(&self, path: u32, text: &mut String) -> Result<(), AllocError>
        requires { path < length (paths_of self.now) }
        ensures { IfOk result (λ _. string_bytes text.new
            ≡ string_bytes text.old ++ path_text (slice_index_or (paths_of self.now) path [])) }
    {
        frames_have_paths();
        let programs = self.programs.as_slice();
        let program = program_of(&self.paths, programs.len(), path);
        text.push_str(programs[program].name.as_str())?;
        let below = path - self.paths[program];
        self.frames.push_path(self.first + program, below, text)
    }
}

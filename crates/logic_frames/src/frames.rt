//! The frames of a source.

ghost use Rattle.std.specs.Prelude.{◌≡◌, ◌<◌, ◌+◌, ◌^◌, ℕ, true, false, map, IfOk, length};
ghost use Rattle.std.specs.List.{All};
ghost use Rattle.st_tree.specs.Numbers.{count_body};
ghost use Rattle.st_tree.specs.View.{view_body};
ghost use Rattle.logic_source.specs.Source.{Source, own_cells, global_cells, view_routine, source_of};
ghost use Rattle.logic_source.specs.Paths.{is_called};
ghost use Rattle.logic_source.specs.Blocks.{AreBelow, DeclaresThere, HasItsTypes};
ghost use Rattle.logic_source.specs.Layout.{AreNamedApart, IsDistinctlyNamed};
ghost use Rattle.logic_frames.specs.Scoped.{AreArrays, AreInstances, AreMembers, AreVariables, IsNumberedIn, own_variables};
ghost use Rattle.logic_frames.specs.Reached.{flagged};
ghost use Rattle.logic_frames.specs.Small.{IsSmall};
ghost use Rattle.logic_frames.specs.Frames.{framed, IsBlank, IsFrames, IsStart};
ghost use Rattle.logic_seats.specs.Seats.{Fits, seats_by, ends_by};
ghost use Rattle.logic_frames.specs.Built.{first_of, AreOf, IsMeasured, IsSized, IsFitting, AllMade, AllBuilt, AllBegun, IsStartIn};

use crate::names::{
    Variables, global_variables, instances_of, member_variables, no_instances, no_variables,
    own_variables,
};
use crate::reached::{flagged, reached};
use crate::resolve::resolve_body;
use crate::scope::RoutineNames;
use logic_seats::{Callee, Extent, called_in, has_starts, seats_by};
use logic_source::{Logic, Routine, block_type_has_clocks, block_type_has_values, row_cells};
use logic_walk::{Frame, Seat};
use plant_types::Text;
use st_tree::Stmt;
use std::alloc::{AllocError, Global};

/// The extent of what has no value, no clock and no path.
const EMPTY_EXTENT: Extent = Extent {
    values: 0,
    clocks: 0,
    paths: 0,
};

/// The variables of each block type.
fn members_of(alloc: Global, blocks: &[Routine]) -> Result<Vec<Variables>, AllocError>
    requires { All AreNamedApart (map view_routine blocks.now) }
    ensures { IfOk result (λ members. AreMembers (map view_routine blocks.now) members.items) }
{
    let mut members = Vec::new(alloc);
    for block in blocks {
        members.push(member_variables(alloc, &block.locals)?)?;
    }
    Ok(members)
}

/// A body over numbers, its statements numbered from 1.
fn number_body(
    alloc: Global,
    scope: &RoutineNames<'_>,
    body: &[Stmt<Text>],
) -> Result<Vec<Stmt<usize>>, AllocError>
    requires { 1 + count_body (view_body body.now) < 2 ^ 32 }
    ensures { IfOk result (λ numbered. IsNumberedIn scope.now (view_body body.now)
        (view_body numbered.items)) }
{
    let mut number = 1;
    let resolved = resolve_body(alloc, scope, body, &mut number)?;
    Ok(resolved)
}

/// The statements that the frame of a routine has: those of its body, if something comes to call it.
fn statements_of(routine: &Routine, is_run: bool) -> &[Stmt<Text>]
    ensures { view_body result.now ≡ (framed is_run (view_routine routine.now)).body }
{
    if is_run { &routine.body } else { &[] }
}

/// The seats of a routine's instances, which know whether the routine calls them, and where the last of them ends. A routine that nothing comes to
/// call calls none.
fn seats_of(
    alloc: Global,
    table: &[Callee],
    routine: &Routine,
    is_run: bool,
) -> Result<(Vec<Seat>, Extent), AllocError>
    requires own { own_cells (view_routine routine.now) < 2 ^ 32 }
    requires seats { Fits
        (ends_by table.now (is_called (framed is_run (view_routine routine.now)))
        (first_of (view_routine routine.now)) (view_routine routine.now).instances) }
    ensures seats { IfOk result (λ made. made.0.items
        ≡ seats_by table.now (is_called (framed is_run (view_routine routine.now)))
        (first_of (view_routine routine.now)) (view_routine routine.now).instances) }
    ensures end { IfOk result (λ made. made.1
        ≡ ends_by table.now (is_called (framed is_run (view_routine routine.now)))
        (first_of (view_routine routine.now)) (view_routine routine.now).instances) }
{
    let called = called_in(alloc, statements_of(routine, is_run))?;
    let first = Extent {
        values: routine.locals.len() + row_cells(&routine.rows),
        clocks: 0,
        paths: 1,
    };
    seats_by(alloc, table, &called, first, &routine.instances)
}

/// The frame of a routine in the scope of its names, without its body if nothing comes to call it, and what it has.
fn frame_in(
    alloc: Global,
    scope: &RoutineNames<'_>,
    table: &[Callee],
    routine: &Routine,
    is_run: bool,
) -> Result<(Frame, Extent), AllocError>
    requires own { AreVariables (own_variables (view_routine routine.now).locals) scope.now.own.now }
    requires arrays { AreArrays (length (view_routine routine.now).locals)
        (view_routine routine.now).rows scope.now.own.now.arrays }
    requires instances { AreInstances (view_routine routine.now).instances scope.now.instances.now }
    requires fitting { IsFitting table.now (framed is_run (view_routine routine.now)) }
    ensures few { IfOk result (λ made. made.1.paths < 2 ^ 32) }
    ensures made { IfOk result (λ made. AllMade scope.now.globals.now scope.now.members.now table.now
        (framed is_run (view_routine routine.now)) made.0 made.1) }
{
    let statements = statements_of(routine, is_run);
    let (seats, end) = seats_of(alloc, table, routine, is_run)?;
    let starts = number_body(alloc, scope, &routine.starts)?;
    let body = number_body(alloc, scope, statements)?;
    let has_starts = has_starts(table, &starts, &routine.instances);
    let frame = Frame {
        seats,
        starts,
        body,
        has_starts,
        clocks: end.clocks,
    };
    Ok((frame, end))
}

/// The frame of a routine, without its body if nothing comes to call it, and what it has.
fn frame_of(
    alloc: Global,
    globals: &Variables,
    members: &[Variables],
    table: &[Callee],
    routine: &Routine,
    is_run: bool,
) -> Result<(Frame, Extent), AllocError>
    requires apart { AreNamedApart (view_routine routine.now) }
    requires fitting { IsFitting table.now (framed is_run (view_routine routine.now)) }
    ensures few { IfOk result (λ made. made.1.paths < 2 ^ 32) }
    ensures made { IfOk result (λ made. AllMade globals.now members.now table.now
        (framed is_run (view_routine routine.now)) made.0 made.1) }
{
    let own = own_variables(alloc, &routine.locals, &routine.rows)?;
    let instances = instances_of(alloc, &routine.instances)?;
    let scope = RoutineNames {
        globals,
        own: &own,
        instances: &instances,
        members,
    };
    frame_in(alloc, &scope, table, routine, is_run)
}

/// The frame of a block type, and what it has: nothing, if no program uses it.
fn frame_of_block(
    alloc: Global,
    globals: &Variables,
    members: &[Variables],
    table: &[Callee],
    block: &Routine,
    is_used: bool,
    is_run: bool,
) -> Result<(Frame, Extent), AllocError>
    requires apart { AreNamedApart (view_routine block.now) }
    requires fitting { is_used ≡ true → IsFitting table.now (framed is_run (view_routine block.now)) }
    ensures few { IfOk result (λ made. made.1.paths < 2 ^ 32) }
    ensures used { IfOk result (λ made. is_used ≡ true
        → AllMade globals.now members.now table.now (framed is_run (view_routine block.now)) made.0
        made.1) }
    ensures unused { IfOk result (λ made. is_used ≡ false → IsBlank made.0) }
{
    if is_used {
        return frame_of(alloc, globals, members, table, block, is_run);
    }
    let frame = Frame {
        seats: Vec::new(alloc),
        starts: Vec::new(alloc),
        body: Vec::new(alloc),
        has_starts: false,
        clocks: 0,
    };
    Ok((frame, EMPTY_EXTENT))
}

/// Room for what is known of so many block types.
fn make_table(alloc: Global, count: usize) -> Result<Vec<Callee>, AllocError>
    ensures { IfOk result (λ table. length table.items ≡ count) }
{
    let none = Callee {
        extent: EMPTY_EXTENT,
        place: 0,
        has_starts: false,
    };
    let table = vec![in alloc; none; count]?;
    Ok(table)
}

/// The frames of the block types in an order, and what is known of each.
fn frames_of_blocks(
    alloc: Global,
    blocks: &[Routine],
    globals: &Variables,
    members: &[Variables],
    order: &[usize],
    used: &[bool],
    run: &[bool],
) -> Result<(Vec<Frame>, Vec<Callee>), AllocError>
    requires below { AreBelow (map view_routine blocks.now) order.now }
    requires types { All (DeclaresThere (map view_routine blocks.now)) (map view_routine blocks.now) }
    requires apart { All AreNamedApart (map view_routine blocks.now) }
    requires measured { (source : Source) × (source.blocks ≡ map view_routine blocks.now)
        × IsMeasured source globals.now members.now used.now run.now }
    ensures built { IfOk result (λ made. AllBuilt globals.now members.now (map view_routine blocks.now)
        order.now used.now run.now (length order.now) made.0.items made.1.items) }
    ensures sized { IfOk result (λ made. (n : ℕ) → n < length blocks.now → flagged used.now n ≡ true
        → IsSized (map view_routine blocks.now) run.now made.1.items n) }
{
    block_type_has_values();
    block_type_has_clocks();
    let mut table = make_table(alloc, blocks.len())?;
    let mut frames = Vec::new(alloc);
    for number in order {
        let place = frames.len();
        let is_used = flagged(used, *number);
        let is_run = flagged(run, *number);
        let block = &blocks[*number];
        let (frame, extent) = frame_of_block(
            alloc, globals, members, &table, block, is_used, is_run,
        )?;
        let has_starts = frame.has_starts;
        table[*number] = Callee {
            extent,
            place,
            has_starts,
        };
        frames.push(frame)?;
    }
    Ok((frames, table))
}

/// Adds the frames of the programs, in order. Fails if memory is refused, and what is left then is of no use.
fn add_programs(
    alloc: Global,
    programs: &[Routine],
    globals: &Variables,
    members: &[Variables],
    table: &[Callee],
    frames: &mut Vec<Frame>,
) -> Result<(), AllocError>
    requires apart { All AreNamedApart (map view_routine programs.now) }
    requires fitting { All (IsFitting table.now) (map view_routine programs.now) }
    ensures { IfOk result (λ _. AllBegun globals.now members.now (map view_routine programs.now)
        table.now frames.old.items (length programs.now) frames.new.items) }
{
    for program in programs {
        let (frame, _) = frame_of(alloc, globals, members, table, program, true)?;
        frames.push(frame)?;
    }
    Ok(())
}

/// The variables of a source: the globals, with the global arrays, and those of each block type.
fn variables_of(alloc: Global, logic: &Logic) -> Result<(Variables, Vec<Variables>), AllocError>
    requires named { IsDistinctlyNamed (source_of logic.now) }
    requires few { global_cells (source_of logic.now) < 2 ^ 32 }
    ensures { IfOk result (λ known. AreOf (source_of logic.now) known.0 known.1.items) }
{
    let globals = global_variables(alloc, &logic.globals, &logic.rows)?;
    Ok((globals, members_of(alloc, logic.blocks.as_slice())?))
}

/// The frames of a source whose variables are known, as `frames_of` gives them.
fn frames_by(
    alloc: Global,
    logic: &Logic,
    order: &[usize],
    globals: &Variables,
    members: &[Variables],
) -> Result<Vec<Frame>, AllocError>
    requires below { AreBelow (source_of logic.now).blocks order.now }
    requires types { HasItsTypes (source_of logic.now) }
    requires named { IsDistinctlyNamed (source_of logic.now) }
    requires known { AreOf (source_of logic.now) globals.now members.now }
    requires small { IsSmall (source_of logic.now) }
    ensures { IfOk result (λ frames. IsFrames (source_of logic.now) order.now frames.items) }
{
    let blocks = logic.blocks.as_slice();
    let programs = logic.programs.as_slice();
    let used = reached(alloc, false, programs, blocks, order)?;
    let run = reached(alloc, true, programs, blocks, order)?;
    let (mut frames, table) = frames_of_blocks(
        alloc, blocks, globals, members, order, &used, &run,
    )?;
    add_programs(alloc, programs, globals, members, &table, &mut frames)?;
    Ok(frames)
}

/// The frames of a source: one for each block type in the order, and then one for each program, as `logic_walk` runs them. The order lists
/// each block type after those that it declares. Each body is gone through once, whatever the number of its instances.
///
/// Fails if memory is refused. The source must be small: no more of anything than its numbers have room for.
pub fn frames_of(alloc: Global, logic: &Logic, order: &[usize]) -> Result<Vec<Frame>, AllocError>
    requires below { AreBelow (source_of logic.now).blocks order.now }
    requires types { HasItsTypes (source_of logic.now) }
    requires named { IsDistinctlyNamed (source_of logic.now) }
    requires small { IsSmall (source_of logic.now) }
    ensures { IfOk result (λ frames. IsFrames (source_of logic.now) order.now frames.items) }
{
    let (globals, members) = variables_of(alloc, logic)?;
    frames_by(alloc, logic, order, &globals, &members)
}

/// The frame of initial values in the scope of their names.
fn start_in(
    alloc: Global,
    scope: &RoutineNames<'_>,
    starts: &[Stmt<Text>],
) -> Result<Frame, AllocError>
    requires { 1 + count_body (view_body starts.now) < 2 ^ 32 }
    ensures { IfOk result (λ frame. IsStartIn scope.now (view_body starts.now) frame) }
{
    let starts = number_body(alloc, scope, starts)?;
    let has_starts = !starts.is_empty();
    Ok(Frame {
        seats: Vec::new(alloc),
        starts,
        body: Vec::new(alloc),
        has_starts,
        clocks: 0,
    })
}

/// The frame of the initial values of a source whose variables are known.
fn start_by(
    alloc: Global,
    logic: &Logic,
    globals: &Variables,
    members: &[Variables],
) -> Result<Frame, AllocError>
    requires known { AreOf (source_of logic.now) globals.now members.now }
    requires few { 1 + count_body (source_of logic.now).starts < 2 ^ 32 }
    ensures { IfOk result (IsStart (source_of logic.now)) }
{
    let own = no_variables(alloc);
    let instances = no_instances(alloc);
    let scope = RoutineNames {
        globals,
        own: &own,
        instances: &instances,
        members,
    };
    start_in(alloc, &scope, &logic.starts)
}

/// The frame of the globals' initial values, as `logic_walk` assigns them.
pub fn start_of(alloc: Global, logic: &Logic) -> Result<Frame, AllocError>
    requires named { IsDistinctlyNamed (source_of logic.now) }
    requires cells { global_cells (source_of logic.now) < 2 ^ 32 }
    requires few { 1 + count_body (source_of logic.now).starts < 2 ^ 32 }
    ensures { IfOk result (IsStart (source_of logic.now)) }
{
    let (globals, members) = variables_of(alloc, logic)?;
    start_by(alloc, logic, &globals, &members)
}

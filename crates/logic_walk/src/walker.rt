//! Runs a frame over cells.

ghost use Rattle.std.specs.Prelude.{◌≡◌, ◌<◌, ◌<ℤ◌, pos, [], map, length, slice_get, IfErr};
ghost use Rattle.st_tree.specs.Plain.{call};
ghost use Rattle.st_tree.specs.View.{view_body, view_stmt, view_branches, view_choices, view_argument};
ghost use Rattle.st_tree.specs.Meaning.{run, run_all, turns, first_true, first_fit};
ghost use Rattle.st_tree.specs.Controls.{up, down, control_values};
ghost use Rattle.plant_types.specs.Values.{Path};
ghost use Rattle.logic_cells.specs.Runs.{ended};
ghost use Rattle.logic_walk.specs.Frames.{AreInTurn, frame_paths};
ghost use Rattle.logic_walk.specs.Walks.{HasRoom, called, under, run_frame, run_within, chosen};
ghost use Rattle.logic_walk.specs.Walk.{below, space, paths};

use crate::frame::{Base, Frame, SeatOf};
use crate::reading::{
    call_clock, give_outputs, in_statement, index_of, outcome, set_element, set_variable, step_of,
    take_inputs,
};
use crate::walk::Walk;
use logic_cells::{Cells, Stop};
use plant_types::Place;
use st_tree::{Argument, Branch, Choice, Span, Stmt, labels_fit, span_of};

/// Runs the frame of a number, at a base, among the first ones that the routine of a walk may call.
#[cycle(walk)]
fn run_within(walk: &Walk<'_>, k: usize, base: Base, cells: &mut Cells) -> Result<(), Stop>
    requires { HasRoom base walk.now.limit }
    ensures ran { ended (frame_paths walk.now.frames.now walk.now.limit k) result cells.new
        ≡ run_within walk.now.moment walk.now.globals walk.now.frames.now walk.now.limit k base
        cells.old }
    ensures path { IfErr result (λ stop. stop.place.path
        < length (frame_paths walk.now.frames.now walk.now.limit k)) }
{
    if k < walk.limit {
        let frame = &walk.frames[k];
        let inside = Walk {
            frames: walk.frames,
            limit: k,
            seats: &frame.seats,
            globals: walk.globals,
            base,
            moment: walk.moment,
        };
        run_body(&inside, &frame.body, cells)
    } else {
        Ok(())
    }
}

/// Runs the statements of a body one after another.
#[cycle(walk)]
pub(crate) fn run_body(walk: &Walk<'_>, body: &[Stmt<usize>], cells: &mut Cells) -> Result<(), Stop>
    ensures ran { ended (paths walk.now) result cells.new
        ≡ run_all (space walk.now) (view_body body.now) cells.old }
    ensures path { IfErr result (λ stop. stop.place.path < length (paths walk.now)) }
{
    for stmt in body {
        run_stmt(walk, stmt, cells)?;
    }
    Ok(())
}

#[cycle(walk)]
fn run_stmt(walk: &Walk<'_>, stmt: &Stmt<usize>, cells: &mut Cells) -> Result<(), Stop>
    ensures ran { ended (paths walk.now) result cells.new
        ≡ run (space walk.now) (view_stmt stmt.now) cells.old }
    ensures path { IfErr result (λ stop. stop.place.path < length (paths walk.now)) }
{
    let globals = walk.globals;
    let seats = walk.seats;
    let base = walk.base;
    match stmt {
        Stmt::Empty(_) => Ok(()),
        Stmt::Assign(number, slot, expr) => {
            let n = in_statement(*number, outcome(expr, globals, seats, base, cells))?;
            set_variable(cells, globals, base, *slot, n);
            Ok(())
        }
        Stmt::Store {
            number,
            array,
            bounds,
            index,
            value,
        } => {
            let at = index_of(index, *bounds, globals, seats, base, cells);
            let i = in_statement(*number, at)?;
            let n = in_statement(*number, outcome(value, globals, seats, base, cells))?;
            set_element(cells, globals, base, *array, *bounds, i, n);
            Ok(())
        }
        Stmt::Call(number, instance, arguments) => {
            run_call(walk, *number, *instance, arguments, cells)
        }
        Stmt::If(number, branches, last) => {
            if !run_first_true(walk, *number, branches, cells)? {
                run_body(walk, last, cells)?;
            }
            Ok(())
        }
        Stmt::Case(number, selector, choices, last) => {
            let n = in_statement(*number, outcome(selector, globals, seats, base, cells))?;
            if !run_first_fit(walk, n, choices, cells)? {
                run_body(walk, last, cells)?;
            }
            Ok(())
        }
        Stmt::For {
            number,
            variable,
            from,
            to,
            by,
            body,
        } => {
            let bounds = span_of(
                outcome(from, globals, seats, base, cells),
                outcome(to, globals, seats, base, cells),
                step_of(by, globals, seats, base, cells),
            );
            let span = in_statement(*number, bounds)?;
            run_turns(walk, *variable, span, body, cells)
        }
    }
}

/// Runs a call: takes the inputs, runs what is called, gives the outputs.
#[cycle(walk)]
fn run_call(
    walk: &Walk<'_>,
    number: u32,
    instance: usize,
    arguments: &[Argument<usize>],
    cells: &mut Cells,
) -> Result<(), Stop>
    ensures ran { ended (paths walk.now) result cells.new
        ≡ run (space walk.now) (call number instance (map view_argument arguments.now)) cells.old }
    ensures path { IfErr result (λ stop. stop.place.path < length (paths walk.now)) }
{
    let globals = walk.globals;
    let seats = walk.seats;
    let base = walk.base;
    match take_inputs(number, instance, arguments, globals, seats, base, cells) {
        Ok(()) => match run_called(walk, instance, cells) {
            Ok(()) => {
                give_outputs(instance, arguments, globals, seats, base, cells);
                Ok(())
            }
            Err(stop) => Err(stop),
        },
        Err(stop) => Err(stop),
    }
}

/// Runs what an instance is of. The path number of a trap below it goes on from the instance's.
#[cycle(walk)]
fn run_called(walk: &Walk<'_>, instance: usize, cells: &mut Cells) -> Result<(), Stop>
    ensures ran { ended (paths walk.now) result cells.new
        ≡ called walk.now.moment (below walk.now) (slice_get walk.now.seats.now instance)
        walk.now.base [] cells.old }
    ensures path { IfErr result (λ stop. stop.place.path < length (paths walk.now)) }
{
    match walk.seats.get(instance) {
        Some(seat) => match seat.of {
            SeatOf::Standard(standard) => {
                call_clock(cells, walk.base, seat, standard, walk.moment);
                Ok(())
            }
            SeatOf::Frame(k) => {
                if !seat.is_called {
                    return Ok(());
                }
                let inside = Base {
                    values: walk.base.values + seat.values as u128,
                    clocks: walk.base.clocks + seat.clocks as u128,
                };
                match run_within(walk, k, inside, cells) {
                    Ok(()) => Ok(()),
                    Err(stop) => Err(Stop {
                        place: Place {
                            path: seat.paths + stop.place.path,
                            statement: stop.place.statement,
                        },
                        trap: stop.trap,
                    }),
                }
            }
        },
        None => Ok(()),
    }
}

/// Runs the first branch whose test is TRUE. Returns whether there is one.
#[cycle(walk)]
fn run_first_true(
    walk: &Walk<'_>,
    statement: u32,
    branches: &[Branch<usize>],
    cells: &mut Cells,
) -> Result<bool, Stop>
    ensures ran { chosen (paths walk.now) result cells.new
        ≡ first_true (space walk.now) statement (view_branches branches.now) cells.old }
    ensures path { IfErr result (λ stop. stop.place.path < length (paths walk.now)) }
{
    for branch in branches {
        let test = outcome(&branch.test, walk.globals, walk.seats, walk.base, cells);
        if in_statement(statement, test)? != 0 {
            run_body(walk, &branch.body, cells)?;
            return Ok(true);
        }
    }
    Ok(false)
}

/// Runs the first choice with a label that fits the number. Returns whether there is one.
#[cycle(walk)]
fn run_first_fit(
    walk: &Walk<'_>,
    n: i64,
    choices: &[Choice<usize>],
    cells: &mut Cells,
) -> Result<bool, Stop>
    ensures ran { chosen (paths walk.now) result cells.new
        ≡ first_fit (space walk.now) n (view_choices choices.now) cells.old }
    ensures path { IfErr result (λ stop. stop.place.path < length (paths walk.now)) }
{
    for choice in choices {
        if labels_fit(n, &choice.labels) {
            run_body(walk, &choice.body, cells)?;
            return Ok(true);
        }
    }
    Ok(false)
}

/// Runs a body once for each value of its control variable; not at all if the step is 0.
#[cycle(walk)]
fn run_turns(
    walk: &Walk<'_>,
    slot: usize,
    span: Span,
    body: &[Stmt<usize>],
    cells: &mut Cells,
) -> Result<(), Stop>
    ensures ran { ended (paths walk.now) result cells.new
        ≡ turns (λ w n. (space walk.now).put w slot n)
        (run_all (space walk.now) (view_body body.now)) (control_values span) cells.old }
    ensures path { IfErr result (λ stop. stop.place.path < length (paths walk.now)) }
{
    if span.step > 0 {
        count_up(walk, slot, span.from, span.to, span.step, body, cells)
    } else if span.step < 0 {
        count_down(walk, slot, span.from, span.to, span.step, body, cells)
    } else {
        Ok(())
    }
}

/// Runs a body for each value from `from` by a step above 0, up to `to`.
#[cycle(walk)]
fn count_up(
    walk: &Walk<'_>,
    slot: usize,
    from: i64,
    to: i64,
    step: i64,
    body: &[Stmt<usize>],
    cells: &mut Cells,
) -> Result<(), Stop>
    requires { pos 0 <ℤ step }
    ensures ran { ended (paths walk.now) result cells.new
        ≡ turns (λ w n. (space walk.now).put w slot n)
        (run_all (space walk.now) (view_body body.now)) (up from to step) cells.old }
    ensures path { IfErr result (λ stop. stop.place.path < length (paths walk.now)) }
{
    let mut at = i128::from(from);
    while at <= i128::from(to) {
        set_variable(cells, walk.globals, walk.base, slot, at as i64);
        run_body(walk, body, cells)?;
        at += i128::from(step);
    }
    Ok(())
}

/// Runs a body for each value from `from` by a step below 0, down to `to`.
#[cycle(walk)]
fn count_down(
    walk: &Walk<'_>,
    slot: usize,
    from: i64,
    to: i64,
    step: i64,
    body: &[Stmt<usize>],
    cells: &mut Cells,
) -> Result<(), Stop>
    requires { step <ℤ pos 0 }
    ensures ran { ended (paths walk.now) result cells.new
        ≡ turns (λ w n. (space walk.now).put w slot n)
        (run_all (space walk.now) (view_body body.now)) (down from to step)
        cells.old }
    ensures path { IfErr result (λ stop. stop.place.path < length (paths walk.now)) }
{
    let mut at = i128::from(from);
    while i128::from(to) <= at {
        set_variable(cells, walk.globals, walk.base, slot, at as i64);
        run_body(walk, body, cells)?;
        at += i128::from(step);
    }
    Ok(())
}

/// Runs the frame of a number, whose values and clocks begin at the given numbers, over cells. It ends as the definition says, at every
/// path at which the frame may stand: a trap's path number is the number of one of the paths below the frame. What was assigned before a
/// trap stands. The moment is that of the scan, in milliseconds. It allocates nothing. A frame that isn't there does nothing.
pub fn walk_frame(
    frames: &[Frame],
    globals: usize,
    k: usize,
    values: usize,
    clocks: usize,
    cells: &mut Cells,
    moment: u64,
) -> Result<(), Stop>
    requires in_turn { AreInTurn frames.now }
    ensures ran { (path : Path)
        → under path (ended (frame_paths frames.now (length frames.now) k) result cells.new)
        ≡ run_frame moment globals frames.now (length frames.now) k
        (record { values = values; clocks = clocks }) path cells.old }
    ensures path { IfErr result (λ stop. stop.place.path
        < length (frame_paths frames.now (length frames.now) k)) }
{
    let base = Base {
        values: values as u128,
        clocks: clocks as u128,
    };
    let whole = Walk {
        frames,
        limit: frames.len(),
        seats: &[],
        globals,
        base,
        moment,
    };
    run_within(&whole, k, base, cells)
}

//! Reads and writes cells by the numbers of a body, and evaluates its expressions.

ghost use Rattle.std.specs.Prelude.{◌≡◌, ◌+◌, ◌-ℤ◌, nat_abs, nat_lt, if◌then◌else◌, [], ◌∷◌, map, slice_get, IfOk, IfErr};
ghost use Rattle.st_tree.specs.View.{view_expr, view_option, view_argument};
ghost use Rattle.st_tree.specs.Meaning.{outcome, index_of, step_of, take_inputs, give_outputs};
ghost use Rattle.plant_types.specs.Values.{is_true, indexed, row_place};
ghost use Rattle.std_blocks.specs.Calls.{call};
ghost use Rattle.logic_cells.specs.Cells.{value_at, assigned, clocked};
ghost use Rattle.logic_cells.specs.Clocks.{shown_by};
ghost use Rattle.logic_cells.specs.Runs.{ended};
ghost use Rattle.logic_walk.specs.Walks.{slot_of, member_slot, output_at, with_input, pt_of, still};

use crate::frame::{Base, Seat, SeatOf};
use logic_cells::{Cells, Standard, Stop};
use plant_types::{Bounds, Place, Trap};
use st_tree::{Argument, Expr, eval_binary, eval_unary};

/// The number that is so far from a base, if it is below a length.
fn slot_within(base: u128, offset: u128, len: usize) -> Option<usize>
    ensures { result ≡ if nat_lt (base + offset) len then Some (base + offset) else None }
{
    let len = len as u128;
    if base < len && offset < len - base {
        Some((base + offset) as usize)
    } else {
        None
    }
}

/// The value that is so far from a base, or 0 if there is none.
fn value_from(cells: &Cells, base: u128, offset: u128) -> i64
    ensures { result ≡ value_at cells.now (base + offset) }
{
    match slot_within(base, offset, cells.len()) {
        Some(slot) => cells.get(slot),
        None => 0,
    }
}

/// Assigns the value that is so far from a base; does nothing if there is none.
fn set_from(cells: &mut Cells, base: u128, offset: u128, value: i64)
    ensures { cells.new ≡ assigned cells.old (base + offset) value }
{
    if let Some(slot) = slot_within(base, offset, cells.len()) {
        cells.set(slot, value);
    }
}

fn variable(cells: &Cells, globals: usize, base: Base, variable: usize) -> i64
    ensures { result ≡ value_at cells.now (slot_of globals base variable) }
{
    if variable < globals {
        value_from(cells, variable as u128, 0)
    } else {
        value_from(cells, base.values, (variable - globals) as u128)
    }
}

pub(crate) fn set_variable(
    cells: &mut Cells,
    globals: usize,
    base: Base,
    variable: usize,
    value: i64,
)
    ensures { cells.new ≡ assigned cells.old (slot_of globals base variable) value }
{
    if variable < globals {
        set_from(cells, variable as u128, 0, value);
    } else {
        set_from(cells, base.values, (variable - globals) as u128, value);
    }
}

/// How far an index is from the low bound.
fn offset_of(bounds: Bounds, index: i64) -> u128
    ensures { result ≡ nat_abs (index -ℤ bounds.low) }
{
    (i128::from(index) - i128::from(bounds.low)).unsigned_abs()
}

fn element(
    cells: &Cells,
    globals: usize,
    base: Base,
    array: usize,
    bounds: Bounds,
    index: i64,
) -> i64
    ensures { result ≡ value_at cells.now (row_place (slot_of globals base array) bounds index) }
{
    let offset = offset_of(bounds, index);
    if array < globals {
        value_from(cells, array as u128, offset)
    } else {
        value_from(cells, base.values, (array - globals) as u128 + offset)
    }
}

pub(crate) fn set_element(
    cells: &mut Cells,
    globals: usize,
    base: Base,
    array: usize,
    bounds: Bounds,
    index: i64,
    value: i64,
)
    ensures { cells.new
        ≡ assigned cells.old (row_place (slot_of globals base array) bounds index) value }
{
    let offset = offset_of(bounds, index);
    if array < globals {
        set_from(cells, array as u128, offset, value);
    } else {
        set_from(
            cells,
            base.values,
            (array - globals) as u128 + offset,
            value,
        );
    }
}

/// An index that is tested: the error is `Index` for one outside the bounds.
fn tested(bounds: Bounds, index: i64) -> Result<i64, Trap>
    ensures { result ≡ indexed bounds index }
{
    if bounds.has_index(index) {
        Ok(index)
    } else {
        Err(Trap::Index)
    }
}

/// The value of an input or output of an instance that has a variable for it.
fn member(cells: &Cells, base: Base, seat: &Seat, name: usize) -> i64
    ensures { result ≡ value_at cells.now (member_slot base seat.now name) }
{
    value_from(cells, base.values, seat.values as u128 + name as u128)
}

/// What the clock of a standard block's instance shows: Q (0 or 1) for the output 0, ET for any other.
fn shown(cells: &Cells, base: Base, seat: &Seat, name: usize) -> i64
    ensures { result ≡ shown_by (slice_get cells.now.clocks (base.clocks + seat.now.clocks)) name }
{
    match slot_within(base.clocks, seat.clocks as u128, cells.clock_count()) {
        Some(slot) => match cells.clock(slot) {
            Some(clock) => {
                if name > 0 {
                    clock.et
                } else if clock.q {
                    1
                } else {
                    0
                }
            }
            None => 0,
        },
        None => 0,
    }
}

fn output(cells: &Cells, seats: &[Seat], base: Base, instance: usize, name: usize) -> i64
    ensures { result ≡ output_at (slice_get seats.now instance) base cells.now name }
{
    match seats.get(instance) {
        Some(seat) => match seat.of {
            SeatOf::Standard(_) => shown(cells, base, seat, name),
            SeatOf::Frame(_) => member(cells, base, seat, name),
        },
        None => 0,
    }
}

fn set_input(
    cells: &mut Cells,
    seats: &[Seat],
    base: Base,
    instance: usize,
    name: usize,
    value: i64,
)
    ensures { cells.new ≡ with_input (slice_get seats.now instance) base cells.old name value }
{
    if let Some(seat) = seats.get(instance) {
        set_from(
            cells,
            base.values,
            seat.values as u128 + name as u128,
            value,
        );
    }
}

/// Calls the clock of a standard block's instance with the values of its inputs.
pub(crate) fn call_clock(
    cells: &mut Cells,
    base: Base,
    seat: &Seat,
    standard: Standard,
    moment: u64,
)
    ensures { cells.new
        ≡ clocked cells.old (base.clocks + seat.now.clocks)
        (call (is_true (value_at cells.old (member_slot base seat.now 0)))
        (pt_of standard base seat.now cells.old) moment) }
{
    let input = member(cells, base, seat, 0) != 0;
    let pt = match standard {
        Standard::Ton | Standard::Tof => member(cells, base, seat, 1),
        Standard::RTrig => 0,
    };
    if let Some(slot) = slot_within(base.clocks, seat.clocks as u128, cells.clock_count()) {
        cells.call(slot, input, pt, moment);
    }
}

/// Evaluates an expression, its operands from the left.
pub(crate) fn outcome(
    expr: &Expr<usize>,
    globals: usize,
    seats: &[Seat],
    base: Base,
    cells: &Cells,
) -> Result<i64, Trap>
    ensures { result ≡ outcome (still globals seats.now base) cells.now (view_expr expr.now) }
{
    match expr {
        Expr::Literal(literal) => Ok(literal.worth()),
        Expr::Read(slot) => Ok(variable(cells, globals, base, *slot)),
        Expr::Output(instance, name) => Ok(output(cells, seats, base, *instance, *name)),
        Expr::Element(array, bounds, index) => {
            let i = tested(*bounds, outcome(index, globals, seats, base, cells)?)?;
            Ok(element(cells, globals, base, *array, *bounds, i))
        }
        Expr::Unary(op, a) => {
            let x = outcome(a, globals, seats, base, cells)?;
            eval_unary(*op, x)
        }
        Expr::Binary(op, a, b) => {
            let x = outcome(a, globals, seats, base, cells)?;
            let y = outcome(b, globals, seats, base, cells)?;
            eval_binary(*op, x, y)
        }
    }
}

/// Evaluates an index, and tests it.
pub(crate) fn index_of(
    index: &Expr<usize>,
    bounds: Bounds,
    globals: usize,
    seats: &[Seat],
    base: Base,
    cells: &Cells,
) -> Result<i64, Trap>
    ensures { result ≡ index_of (still globals seats.now base) cells.now bounds (view_expr index.now) }
{
    tested(bounds, outcome(index, globals, seats, base, cells)?)
}

/// Evaluates the step of a FOR, which is 1 where none is written.
pub(crate) fn step_of(
    by: &Option<Expr<usize>>,
    globals: usize,
    seats: &[Seat],
    base: Base,
    cells: &Cells,
) -> Result<i64, Trap>
    ensures { result ≡ step_of (still globals seats.now base) cells.now (view_option by.now) }
{
    match by {
        Some(by) => outcome(by, globals, seats, base, cells),
        None => Ok(1),
    }
}

/// Places a trap in the statement of a number of the frame that runs.
pub(crate) fn in_statement<T>(statement: u32, evaluated: Result<T, Trap>) -> Result<T, Stop>
    ensures ok { IfOk result (λ value. evaluated ≡ Ok value) }
    ensures err { IfErr result (λ stop. (stop.place ≡ record { path = 0; statement = statement })
        × (evaluated ≡ Err stop.trap)) }
{
    evaluated.map_err(|trap| Stop {
        place: Place { path: 0, statement },
        trap,
    })
}

/// Evaluates the inputs of a call and assigns them, one after another.
pub(crate) fn take_inputs(
    statement: u32,
    instance: usize,
    arguments: &[Argument<usize>],
    globals: usize,
    seats: &[Seat],
    base: Base,
    cells: &mut Cells,
) -> Result<(), Stop>
    ensures run { ended ([] ∷ []) result cells.new
        ≡ take_inputs (still globals seats.now base) statement instance (map view_argument arguments.now)
        cells.old }
    ensures path { IfErr result (λ stop. stop.place.path ≡ 0) }
{
    for argument in arguments {
        if let Argument::Input(name, expr) = argument {
            let value = in_statement(statement, outcome(expr, globals, seats, base, cells))?;
            set_input(cells, seats, base, instance, *name, value);
        }
    }
    Ok(())
}

/// Assigns the outputs of a call to variables, one after another.
pub(crate) fn give_outputs(
    instance: usize,
    arguments: &[Argument<usize>],
    globals: usize,
    seats: &[Seat],
    base: Base,
    cells: &mut Cells,
)
    ensures { cells.new
        ≡ give_outputs (still globals seats.now base) instance (map view_argument arguments.now)
        cells.old }
{
    for argument in arguments {
        if let Argument::Output(name, taker) = argument {
            let value = output(cells, seats, base, instance, *name);
            set_variable(cells, globals, base, *taker, value);
        }
    }
}

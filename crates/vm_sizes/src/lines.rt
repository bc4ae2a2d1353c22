//! Counts instructions. Each count is below 2^32, as callers know.

ghost use Rattle.std.specs.Prelude.{◌≡◌, ◌<◌, ◌^◌, ◌+◌, map, slice_get};
ghost use Rattle.st_tree.specs.View.{view_expr, view_argument, view_stmt, view_body, view_branches, view_choices};
ghost use Rattle.vm_sizes.specs.Sizes as sizes;
ghost use Rattle.vm_sizes.specs.Sizes.{entered};
ghost use Rattle.vm_sizes.specs.Counts.{lines_at};

use crate::counts::Count;
use crate::turns::frame_turns;
use logic_walk::{Seat, SeatOf};
use st_tree::{Argument, Branch, Choice, Expr, Stmt};

/// The instructions of an operator with its operands, by its right operand and the instructions of both.
fn binary_lines(right: &Expr<usize>, left: u32, lines: u32) -> u32
    requires { sizes.binary_lines (view_expr right.now) left lines < 2 ^ 32 }
    ensures { result ≡ sizes.binary_lines (view_expr right.now) left lines }
{
    match right {
        Expr::Literal(_) | Expr::Read(_) => left + 1,
        Expr::Output(_, _) | Expr::Element(_, _, _) | Expr::Unary(_, _) | Expr::Binary(_, _, _) =>
            left + lines + 2,
    }
}

/// The instructions of an expression.
pub fn expr_lines(expr: &Expr<usize>) -> u32
    requires { sizes.expr_lines (view_expr expr.now) < 2 ^ 32 }
    ensures { result ≡ sizes.expr_lines (view_expr expr.now) }
{
    match expr {
        Expr::Literal(_) | Expr::Read(_) | Expr::Output(_, _) => 1,
        Expr::Element(_, _, index) => expr_lines(index) + 1,
        Expr::Unary(_, a) => expr_lines(a) + 1,
        Expr::Binary(_, a, b) => {
            let left = expr_lines(a);
            let right = expr_lines(b);
            binary_lines(b, left, right)
        }
    }
}

/// The instructions that assign an input of an instance: one, if the instance is there.
fn put_lines(seats: &[Seat], instance: usize) -> u32
    ensures { result ≡ sizes.put_lines (slice_get seats.now instance) }
{
    match seats.get(instance) {
        Some(_) => 1,
        None => 0,
    }
}

/// The instructions that take the inputs of a call.
pub fn inputs_lines(seats: &[Seat], instance: usize, arguments: &[Argument<usize>]) -> u32
    requires { sizes.inputs_lines (slice_get seats.now instance) (map view_argument arguments.now)
        < 2 ^ 32 }
    ensures { result
        ≡ sizes.inputs_lines (slice_get seats.now instance) (map view_argument arguments.now) }
{
    let put = put_lines(seats, instance);
    let mut total = 0;
    for argument in arguments {
        if let Argument::Input(_, expr) = argument {
            total += expr_lines(expr) + put;
        }
    }
    total
}

/// The instructions that give the outputs of a call.
fn outputs_lines(arguments: &[Argument<usize>]) -> u32
    requires { sizes.outputs_lines (map view_argument arguments.now) < 2 ^ 32 }
    ensures { result ≡ sizes.outputs_lines (map view_argument arguments.now) }
{
    let mut total = 0;
    for argument in arguments {
        if let Argument::Output(_, _) = argument {
            total += 2;
        }
    }
    total
}

/// The instructions of the frame of a number, by a table; 0 past its end.
fn lines_at(table: &[Count], k: usize) -> u32
    ensures { result ≡ lines_at table.now k }
{
    match table.get(k) {
        Some(count) => count.lines,
        None => 0,
    }
}

/// The instructions of what an instance is of: two for a standard block.
fn entered_lines(table: &[Count], seats: &[Seat], instance: usize) -> u32
    ensures { result ≡ entered 2 (lines_at table.now) (slice_get seats.now instance) }
{
    match seats.get(instance) {
        Some(seat) => match seat.of {
            SeatOf::Standard(_) => 2,
            SeatOf::Frame(k) => {
                if seat.is_called {
                    lines_at(table, k)
                } else {
                    0
                }
            }
        },
        None => 0,
    }
}

fn call_lines(
    table: &[Count],
    seats: &[Seat],
    instance: usize,
    arguments: &[Argument<usize>],
) -> u32
    requires { sizes.inputs_lines (slice_get seats.now instance) (map view_argument arguments.now) +
        entered 2 (lines_at table.now) (slice_get seats.now instance) + sizes.outputs_lines
        (map view_argument arguments.now) < 2 ^ 32 }
    ensures { result
        ≡ sizes.inputs_lines (slice_get seats.now instance) (map view_argument arguments.now) + entered 2
        (lines_at table.now) (slice_get seats.now instance) + sizes.outputs_lines
        (map view_argument arguments.now) }
{
    let inputs = inputs_lines(seats, instance, arguments);
    let inside = entered_lines(table, seats, instance);
    inputs + inside + outputs_lines(arguments)
}

/// The instructions of a statement of a routine, by its instances and the counts of the frames before its own. A FOR of no turn has none.
#[cycle(lines)]
pub fn stmt_lines(table: &[Count], seats: &[Seat], stmt: &Stmt<usize>) -> u32
    requires { sizes.stmt_lines seats.now (lines_at table.now) (view_stmt stmt.now) < 2 ^ 32 }
    ensures { result ≡ sizes.stmt_lines seats.now (lines_at table.now) (view_stmt stmt.now) }
{
    match stmt {
        Stmt::Empty(_) => 0,
        Stmt::Assign(_, _, expr) => expr_lines(expr) + 1,
        Stmt::Store { index, value, .. } => expr_lines(index) + expr_lines(value) + 2,
        Stmt::Call(_, instance, arguments) => call_lines(table, seats, *instance, arguments),
        Stmt::If(_, branches, last) => {
            let otherwise = body_lines(table, seats, last);
            branches_lines(table, seats, branches, otherwise)
        }
        Stmt::Case(_, selector, choices, last) => {
            let selected = expr_lines(selector);
            let otherwise = body_lines(table, seats, last);
            selected + choices_lines(table, seats, choices, otherwise)
        }
        Stmt::For {
            from,
            to,
            by,
            body,
            ..
        } => {
            if frame_turns(from, to, by) > 0 {
                body_lines(table, seats, body) + 2
            } else {
                0
            }
        }
    }
}

/// The instructions of a body.
#[cycle(lines)]
pub fn body_lines(table: &[Count], seats: &[Seat], body: &[Stmt<usize>]) -> u32
    requires { sizes.body_lines seats.now (lines_at table.now) (view_body body.now) < 2 ^ 32 }
    ensures { result ≡ sizes.body_lines seats.now (lines_at table.now) (view_body body.now) }
{
    let mut total = 0;
    for stmt in body {
        total += stmt_lines(table, seats, stmt);
    }
    total
}

/// The instructions of the branches of an IF, and of what is done where none is taken.
#[cycle(lines)]
pub fn branches_lines(table: &[Count], seats: &[Seat], branches: &[Branch<usize>], last: u32) -> u32
    requires { sizes.branches_lines seats.now (lines_at table.now) (view_branches branches.now) last
        < 2 ^ 32 }
    ensures { result
        ≡ sizes.branches_lines seats.now (lines_at table.now) (view_branches branches.now) last }
{
    let mut total = 0;
    for branch in branches {
        let test = expr_lines(&branch.test);
        total += test + body_lines(table, seats, &branch.body) + 2;
    }
    total + last
}

/// The instructions of the choices of a CASE, and of what is done where none fits. A choice without a label has none.
#[cycle(lines)]
pub fn choices_lines(table: &[Count], seats: &[Seat], choices: &[Choice<usize>], last: u32) -> u32
    requires { sizes.choices_lines seats.now (lines_at table.now) (view_choices choices.now) last
        < 2 ^ 32 }
    ensures { result
        ≡ sizes.choices_lines seats.now (lines_at table.now) (view_choices choices.now) last }
{
    let mut total = 0;
    for choice in choices {
        if !choice.labels.is_empty() {
            let labels = choice.labels.len() as u32;
            total += labels + body_lines(table, seats, &choice.body) + 2;
        }
    }
    total + last
}

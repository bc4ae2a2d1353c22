//! Counts the words of stack.

ghost use Rattle.std.specs.Prelude.{◌≡◌, ℕ, max, map, slice_get};
ghost use Rattle.st_tree.specs.View.{view_expr, view_argument, view_stmt, view_body, view_branches, view_choices};
ghost use Rattle.vm_sizes.specs.Sizes as sizes;
ghost use Rattle.vm_sizes.specs.Sizes.{entered};
ghost use Rattle.vm_sizes.specs.Counts.{capped, words_at};

use crate::capping::add;
use crate::counts::Count;
use crate::turns::frame_turns;
use logic_walk::{Seat, SeatOf};
use st_tree::{Argument, Branch, Choice, Expr, Stmt};

/// The words of an operator with its operands, by its right operand and the words of both.
fn binary_words(right: &Expr<usize>, left: usize, words: usize) -> usize
    ensures { result ≡ capped (sizes.binary_words (view_expr right.now) left words) }
{
    match right {
        Expr::Literal(_) | Expr::Read(_) => left,
        Expr::Output(_, _) | Expr::Element(_, _, _) | Expr::Unary(_, _) | Expr::Binary(_, _, _) =>
            left.max(add(words, 1)),
    }
}

#[tactic(auto, using(crate::proofs::Stopping::binary_stops))]
fn expr_words(expr: &Expr<usize>) -> usize
    ensures { result ≡ capped (sizes.expr_words (view_expr expr.now)) }
{
    match expr {
        Expr::Literal(_) | Expr::Read(_) | Expr::Output(_, _) => 0,
        Expr::Element(_, _, index) => expr_words(index),
        Expr::Unary(_, a) => expr_words(a),
        Expr::Binary(_, a, b) => {
            let left = expr_words(a);
            let right = expr_words(b);
            binary_words(b, left, right)
        }
    }
}

fn inputs_words(arguments: &[Argument<usize>]) -> usize
    ensures { result ≡ capped (sizes.inputs_words (map view_argument arguments.now)) }
{
    let mut total: usize = 0;
    for argument in arguments {
        if let Argument::Input(_, expr) = argument {
            total = total.max(expr_words(expr));
        }
    }
    total
}

/// The words of the frame of a number, by a table; 0 past its end.
fn words_at(table: &[Count], k: usize) -> usize
    ensures { result ≡ words_at table.now k }
{
    match table.get(k) {
        Some(count) => count.words,
        None => 0,
    }
}

/// The words of what an instance is of: none for a standard block.
fn entered_words(table: &[Count], seats: &[Seat], instance: usize) -> usize
    ensures { result ≡ entered 0 (words_at table.now) (slice_get seats.now instance) }
{
    match seats.get(instance) {
        Some(seat) => match seat.of {
            SeatOf::Standard(_) => 0,
            SeatOf::Frame(k) => {
                if seat.is_called {
                    words_at(table, k)
                } else {
                    0
                }
            }
        },
        None => 0,
    }
}

/// The words of a FOR: none if it has no turn.
fn for_words(turns: u128, body: usize) -> usize
    ensures { result ≡ capped (sizes.for_words turns body) }
{
    if turns > 0 { add(2, body) } else { 0 }
}

/// The words of a statement of a routine, by its instances and the counts of the frames before its own.
#[cycle(words)]
#[tactic(auto, using(crate::proofs::Stopping::for_stops))]
fn stmt_words(table: &[Count], seats: &[Seat], stmt: &Stmt<usize>) -> usize
    ensures { result ≡ capped (sizes.stmt_words seats.now (words_at table.now) (view_stmt stmt.now)) }
{
    match stmt {
        Stmt::Empty(_) => 0,
        Stmt::Assign(_, _, expr) => expr_words(expr),
        Stmt::Store { index, value, .. } => expr_words(index).max(add(expr_words(value), 1)),
        Stmt::Call(_, instance, arguments) => {
            let inputs = inputs_words(arguments);
            inputs.max(entered_words(table, seats, *instance))
        }
        Stmt::If(_, branches, last) => {
            let inside = branches_words(table, seats, branches);
            inside.max(body_words(table, seats, last))
        }
        Stmt::Case(_, selector, choices, last) => {
            let selected = expr_words(selector);
            let inside = choices_words(table, seats, choices);
            let otherwise = body_words(table, seats, last);
            selected.max(inside.max(otherwise))
        }
        Stmt::For {
            from,
            to,
            by,
            body,
            ..
        } => {
            let inside = body_words(table, seats, body);
            for_words(frame_turns(from, to, by), inside)
        }
    }
}

#[cycle(words)]
pub(crate) fn body_words(table: &[Count], seats: &[Seat], body: &[Stmt<usize>]) -> usize
    ensures { result ≡ capped (sizes.body_words seats.now (words_at table.now) (view_body body.now)) }
{
    let mut total: usize = 0;
    for stmt in body {
        total = total.max(stmt_words(table, seats, stmt));
    }
    total
}

#[cycle(words)]
fn branches_words(table: &[Count], seats: &[Seat], branches: &[Branch<usize>]) -> usize
    ensures { result
        ≡ capped (sizes.branches_words seats.now (words_at table.now) (view_branches branches.now)) }
{
    let mut total: usize = 0;
    for branch in branches {
        let test = expr_words(&branch.test);
        let inside = body_words(table, seats, &branch.body);
        total = total.max(test.max(inside));
    }
    total
}

#[cycle(words)]
fn choices_words(table: &[Count], seats: &[Seat], choices: &[Choice<usize>]) -> usize
    ensures { result
        ≡ capped (sizes.choices_words seats.now (words_at table.now) (view_choices choices.now)) }
{
    let mut total: usize = 0;
    for choice in choices {
        total = total.max(body_words(table, seats, &choice.body));
    }
    total
}

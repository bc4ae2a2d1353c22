//! The turns of a FOR of constant bounds and step.

ghost use Rattle.std.specs.Prelude.{◌≡◌};
ghost use Rattle.st_tree.specs.View.{view_expr, view_option};
ghost use Rattle.vm_sizes.specs.Sizes.{number_of, constant_number, step_number, span_from, constant_span, turns_of, frame_turns};

use plant_types::Trap;
use st_tree::{Expr, Span, constant, count_turns};

/// The number of an outcome; `None` for a trap, and where there is no outcome.
fn number_of(outcome: Option<Result<i64, Trap>>) -> Option<i64>
    ensures { result ≡ number_of outcome }
{
    match outcome {
        Some(Ok(n)) => Some(n),
        Some(Err(_)) | None => None,
    }
}

/// The number that a constant expression gives; `None` where it traps, or isn't constant.
fn constant_number(expr: &Expr<usize>) -> Option<i64>
    ensures { result ≡ constant_number (view_expr expr.now) }
{
    number_of(constant(expr))
}

/// The step of a FOR, which is 1 where none is written.
fn step_number(by: &Option<Expr<usize>>) -> Option<i64>
    ensures { result ≡ step_number (view_option by.now) }
{
    match by {
        None => Some(1),
        Some(expr) => constant_number(expr),
    }
}

fn span_from(from: Option<i64>, to: Option<i64>, step: Option<i64>) -> Option<Span>
    ensures { result ≡ span_from from to step }
{
    Some(Span {
        from: from?,
        to: to?,
        step: step?,
    })
}

/// The span of a FOR; `None` where a bound or the step traps, or isn't constant.
pub fn constant_span(from: &Expr<usize>, to: &Expr<usize>, by: &Option<Expr<usize>>) -> Option<Span>
    ensures { result ≡ constant_span (view_expr from.now) (view_expr to.now) (view_option by.now) }
{
    span_from(constant_number(from), constant_number(to), step_number(by))
}

fn turns_of(span: Option<Span>) -> u128
    ensures { result ≡ turns_of span }
{
    match span {
        Some(span) => count_turns(span),
        None => 0,
    }
}

/// The turns of a FOR; 0 where a bound or the step traps, or isn't constant.
pub fn frame_turns(from: &Expr<usize>, to: &Expr<usize>, by: &Option<Expr<usize>>) -> u128
    ensures { result ≡ frame_turns (view_expr from.now) (view_expr to.now) (view_option by.now) }
{
    turns_of(constant_span(from, to, by))
}

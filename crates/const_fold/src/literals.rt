//! The literals that stand for operators on literals.

ghost use Rattle.std.specs.Prelude.{◌≡◌};
ghost use Rattle.st_tree.specs.View.{view_expr};
ghost use Rattle.const_fold.specs.Folding.{literal_in, literal_of, unary_literal, binary_literal, node_literal};

use plant_types::{Given, Kind, Trap, Value, fitted};
use st_tree::{Binary, Expr, Literal, Unary, binary_kind, eval_binary, eval_unary, unary_kind};

/// The literal that an expression is; `None` for any other expression.
fn literal_in<V>(expr: &Expr<V>) -> Option<Literal>
    ensures { result ≡ literal_in (view_expr expr.now) }
{
    match expr {
        Expr::Literal(literal) => Some(*literal),
        Expr::Read(_)
        | Expr::Output(_, _)
        | Expr::Element(_, _, _)
        | Expr::Unary(_, _)
        | Expr::Binary(_, _, _) => None,
    }
}

/// The literal of this kind for the outcome of an operator; `None` without a kind, for a trap, and for a number outside the kind's range.
fn literal_of(kind: Option<Kind>, outcome: Result<i64, Trap>) -> Option<Literal>
    ensures { result ≡ literal_of kind outcome }
{
    match (kind, outcome) {
        (Some(kind), Ok(n)) => {
            let value: Value = fitted(kind, Given::Whole(i128::from(n)))?;
            Some(Literal::Value(value))
        }
        _ => None,
    }
}

fn unary_literal(op: Unary, a: Literal) -> Option<Literal>
    ensures { result ≡ unary_literal op a }
{
    literal_of(unary_kind(op, a.kind()), eval_unary(op, a.worth()))
}

/// The literal for an operator on two literals.
fn binary_literal(op: Binary, a: Literal, b: Literal) -> Option<Literal>
    ensures { result ≡ binary_literal op a b }
{
    let kind = binary_kind(op, a.kind(), b.kind());
    literal_of(kind, eval_binary(op, a.worth(), b.worth()))
}

/// The literal for an operator whose operands are literals, of the kind of its result; `None` for one that traps or doesn't take its operands,
/// and for any other expression.
pub(crate) fn node_literal<V>(expr: &Expr<V>) -> Option<Literal>
    ensures { result ≡ node_literal (view_expr expr.now) }
{
    match expr {
        Expr::Literal(_) | Expr::Read(_) | Expr::Output(_, _) | Expr::Element(_, _, _) => None,
        Expr::Unary(op, a) => unary_literal(*op, literal_in(a)?),
        Expr::Binary(op, a, b) => {
            let left = literal_in(a)?;
            let right = literal_in(b)?;
            binary_literal(*op, left, right)
        }
    }
}

//! Constant expressions.

ghost use Rattle.std.specs.Prelude.{◌≡◌};
ghost use Rattle.st_tree.specs.View.{view_expr};
ghost use Rattle.st_tree.specs.Meaning.{literal_worth, then_one, then_two};
ghost use Rattle.st_tree.specs.Operators.{eval_unary, eval_binary};
ghost use Rattle.st_tree.specs.Constants.{constant_of};

use crate::operators::{eval_binary, eval_unary};
use crate::tree::{Binary, Expr, Literal, Unary};
use plant_types::Trap;

impl Literal {
    /// The literal's value as a whole number: 0 or 1 for a truth, milliseconds for a duration.
    pub fn worth(self) -> i64
        ensures { result ≡ literal_worth self }
    {
        match self {
            Literal::Integer(n) => n as i64,
            Literal::Value(value) => value.worth(),
        }
    }
}

/// The outcome of an operator, by that of its operand.
fn apply_unary(op: Unary, x: Result<i64, Trap>) -> Result<i64, Trap>
    ensures { result ≡ then_one x (eval_unary op) }
{
    eval_unary(op, x?)
}

/// The outcome of an operator, by those of its operands; the left operand's trap wins (this profile).
fn apply_binary(op: Binary, x: Result<i64, Trap>, y: Result<i64, Trap>) -> Result<i64, Trap>
    ensures { result ≡ then_two x y (eval_binary op) }
{
    eval_binary(op, x?, y?)
}

/// The outcome of a constant expression; `None` for one that reads a variable, an element or an output.
pub fn constant<V>(expr: &Expr<V>) -> Option<Result<i64, Trap>>
    ensures { result ≡ constant_of (view_expr expr.now) }
{
    match expr {
        Expr::Literal(literal) => Some(Ok(literal.worth())),
        Expr::Read(_) | Expr::Output(_, _) | Expr::Element(_, _, _) => None,
        Expr::Unary(op, a) => Some(apply_unary(*op, constant(a)?)),
        Expr::Binary(op, a, b) => {
            let left = constant(a)?;
            let right = constant(b)?;
            Some(apply_binary(*op, left, right))
        }
    }
}

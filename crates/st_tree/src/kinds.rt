//! The kinds of operands and of results.

ghost use Rattle.std.specs.Prelude.{◌≡◌, true};
ghost use Rattle.st_tree.specs.Kinds.{unary_kind, binary_kind, unary_result, binary_result, resolved_unary, resolved_binary, literal_kind, literal_in_range, literal_is_bit, is_bit};
ghost use Rattle.st_tree.specs.View.{view_expr};

use crate::tree::{Binary, Expr, Literal, Unary};
use plant_types::Kind;

impl Literal {
    /// The kind of the literal, whose value is always in the range of this kind: an integer is a DINT.
    pub fn kind(self) -> Kind
        ensures is { result ≡ literal_kind self }
        ensures in_range { literal_in_range self ≡ true }
    {
        match self {
            Literal::Integer(_) => Kind::Dint,
            Literal::Value(value) => value.kind(),
        }
    }

    /// Whether the literal is the integer 0 or 1.
    fn is_bit(self) -> bool
        ensures { result ≡ literal_is_bit self }
    {
        match self {
            Literal::Integer(n) => n == 0 || n == 1,
            Literal::Value(_) => false,
        }
    }
}

/// The kind of an operator's result, by the kind of its operand; `None` for an operand that it does not take (IEC 61131-3).
pub fn unary_kind(op: Unary, a: Kind) -> Option<Kind>
    ensures { result ≡ unary_kind op a }
{
    match (op, a) {
        (Unary::Not, Kind::Bool) => Some(Kind::Bool),
        (Unary::Negate, Kind::Dint) => Some(Kind::Dint),
        (Unary::Negate | Unary::NegateTime, Kind::Time) => Some(Kind::Time),
        _ => None,
    }
}

/// The kind of an operator's result, by the kinds of its operands; `None` for operands that it does not take (IEC 61131-3). BOOL has no order (this profile).
pub fn binary_kind(op: Binary, a: Kind, b: Kind) -> Option<Kind>
    ensures { result ≡ binary_kind op a b }
{
    match (op, a, b) {
        (Binary::And | Binary::Xor | Binary::Or, Kind::Bool, Kind::Bool) => Some(Kind::Bool),
        (Binary::Equal | Binary::Unequal, _, _) if a == b => Some(Kind::Bool),
        (
            Binary::Less | Binary::Greater | Binary::AtMost | Binary::AtLeast,
            Kind::Dint,
            Kind::Dint,
        ) => Some(Kind::Bool),
        (
            Binary::Less | Binary::Greater | Binary::AtMost | Binary::AtLeast,
            Kind::Time,
            Kind::Time,
        ) => Some(Kind::Bool),
        (
            Binary::Add | Binary::Subtract | Binary::Multiply | Binary::Divide | Binary::Mod,
            Kind::Dint,
            Kind::Dint,
        ) => Some(Kind::Dint),
        (
            Binary::Add | Binary::AddTime | Binary::Subtract | Binary::SubtractTime,
            Kind::Time,
            Kind::Time,
        ) => Some(Kind::Time),
        _ => None,
    }
}

/// The kind of an operator's result, for an operand that it takes.
pub fn unary_result(op: Unary, a: Kind) -> Kind
    ensures { result ≡ unary_result op a }
{
    match op {
        Unary::Not => Kind::Bool,
        Unary::Negate => a,
        Unary::NegateTime => Kind::Time,
    }
}

/// The kind of an operator's result, for operands that it takes, by the kind of the left one.
pub fn binary_result(op: Binary, a: Kind) -> Kind
    ensures { result ≡ binary_result op a }
{
    match op {
        Binary::Add | Binary::Subtract => a,
        Binary::AddTime | Binary::SubtractTime => Kind::Time,
        Binary::Multiply | Binary::Divide | Binary::Mod => Kind::Dint,
        _ => Kind::Bool,
    }
}

/// The operator for an operand of a kind: `-` becomes that of TIME for a TIME.
pub fn resolved_unary(op: Unary, a: Kind) -> Unary
    ensures { result ≡ resolved_unary op a }
{
    match (op, a) {
        (Unary::Negate, Kind::Time) => Unary::NegateTime,
        _ => op,
    }
}

/// The operator for a left operand of a kind: `+` and `-` become those of TIME for a TIME.
pub fn resolved_binary(op: Binary, a: Kind) -> Binary
    ensures { result ≡ resolved_binary op a }
{
    match (op, a) {
        (Binary::Add, Kind::Time) => Binary::AddTime,
        (Binary::Subtract, Kind::Time) => Binary::SubtractTime,
        _ => op,
    }
}

/// Whether an expression is just the integer 0 or 1, which may be assigned to a BOOL and is then FALSE or TRUE (this profile).
pub fn is_bit<V>(expr: &Expr<V>) -> bool
    ensures { result ≡ is_bit (view_expr expr.now) }
{
    match expr {
        Expr::Literal(literal) => literal.is_bit(),
        Expr::Read(_)
        | Expr::Output(_, _)
        | Expr::Element(_, _, _)
        | Expr::Unary(_, _)
        | Expr::Binary(_, _, _) => false,
    }
}

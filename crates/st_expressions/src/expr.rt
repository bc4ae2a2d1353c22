//! Expressions, by the levels of their operators.

ghost use Rattle.std.specs.Prelude.{◌≡◌, IfOk, Some, None, drop, ◌+◌, ◌-◌, ◌≤◌, ◌<◌, pos};
ghost use Rattle.std.proofs.Common.{neg_ℤ};
ghost use Rattle.st_tree.specs.Plain.{literal, element, binary};
ghost use Rattle.st_tree.specs.View.{view_expr};
ghost use Rattle.st_expressions.specs.Grammar.{level_of, top, in_parentheses, unknown_bounds};
ghost use Rattle.st_expressions.specs.Outcome.{Returns};
ghost use Rattle.st_expressions.specs.Reading.{operator_at, index_at, variable_at, reference_at, minus_at, operand as operand_at, prefixed as prefixed_at, chain as chain_at, climb, expression_at};

use crate::reader::Reader;
use crate::stop::ParseStop;
use plant_types::{Bounds, Text, Value};
use st_lexer::{Keyword, Symbol, TokenKind};
use st_tree::{Binary, Expr, Literal, Unary};
use std::alloc::{AllocError, Global};

/// How deep an expression may be (this profile).
const DEPTH: u32 = 128;

/// The level above that of each operator between operands.
const TOP: u32 = 8;

/// The greatest integer without a minus.
const GREATEST: u32 = 2147483647;

/// The greatest integer after a minus.
const GREATEST_NEGATIVE: u32 = 2147483648;

/// How tightly an operator binds, 1 the least (IEC 61131-3).
fn level(op: Binary) -> u32
    ensures found { result ≡ level_of op }
    ensures small { result < 8 }
{
    match op {
        Binary::Or => 1,
        Binary::Xor => 2,
        Binary::And => 3,
        Binary::Equal => 4,
        Binary::Unequal => 4,
        Binary::Less => 5,
        Binary::Greater => 5,
        Binary::AtMost => 5,
        Binary::AtLeast => 5,
        Binary::Add => 6,
        Binary::AddTime => 6,
        Binary::Subtract => 6,
        Binary::SubtractTime => 6,
        Binary::Multiply => 7,
        Binary::Divide => 7,
        Binary::Mod => 7,
    }
}

/// The next token's operator, if it is one that binds at least as tightly as the level.
fn next_operator(level_wanted: u32, reader: &Reader) -> Option<Binary>
    ensures { result ≡ operator_at level_wanted reader.now }
{
    let op = match reader.peek()? {
        TokenKind::Keyword(Keyword::Or) => Binary::Or,
        TokenKind::Keyword(Keyword::Xor) => Binary::Xor,
        TokenKind::Keyword(Keyword::And) => Binary::And,
        TokenKind::Symbol(Symbol::Ampersand) => Binary::And,
        TokenKind::Symbol(Symbol::Equal) => Binary::Equal,
        TokenKind::Symbol(Symbol::Unequal) => Binary::Unequal,
        TokenKind::Symbol(Symbol::Less) => Binary::Less,
        TokenKind::Symbol(Symbol::Greater) => Binary::Greater,
        TokenKind::Symbol(Symbol::AtMost) => Binary::AtMost,
        TokenKind::Symbol(Symbol::AtLeast) => Binary::AtLeast,
        TokenKind::Symbol(Symbol::Plus) => Binary::Add,
        TokenKind::Symbol(Symbol::Minus) => Binary::Subtract,
        TokenKind::Symbol(Symbol::Times) => Binary::Multiply,
        TokenKind::Symbol(Symbol::Divide) => Binary::Divide,
        TokenKind::Keyword(Keyword::Mod) => Binary::Mod,
        _ => return None,
    };
    if level_wanted <= level(op) {
        Some(op)
    } else {
        None
    }
}

/// The expression that an expression in parentheses is: an integer is then a DINT, and no longer 0 or 1 for a BOOL.
fn in_parentheses(expr: Expr<Text>) -> Expr<Text>
    ensures { view_expr result ≡ in_parentheses (view_expr expr) }
{
    match expr {
        Expr::Literal(Literal::Integer(n)) => Expr::Literal(Literal::Value(Value::Dint(n))),
        Expr::Literal(Literal::Value(value)) => Expr::Literal(Literal::Value(value)),
        Expr::Read(name) => Expr::Read(name),
        Expr::Output(instance, name) => Expr::Output(instance, name),
        Expr::Element(name, bounds, index) => Expr::Element(name, bounds, index),
        Expr::Unary(op, a) => Expr::Unary(op, a),
        Expr::Binary(op, a, b) => Expr::Binary(op, a, b),
    }
}

/// The bounds of an array where no declaration is known: 0 to 0.
pub fn unknown_bounds() -> Bounds
    ensures { result ≡ unknown_bounds }
{
    Bounds { low: 0, high: 0 }
}

/// The number that an integer after a minus stands for.
pub fn negated(n: u32) -> i32
    requires { n ≤ 2147483648 }
    ensures { result ≡ neg_ℤ (pos n) }
{
    (-i64::from(n)) as i32
}

/// Parses an expression.
pub fn expression(alloc: Global, reader: &mut Reader) -> Result<Expr<Text>, ParseStop>
    ensures { Returns (λ e. (view_expr e, reader.new)) result (expression_at reader.old) }
{
    let (expr, _depth) = climb(alloc, DEPTH, 0, reader)?;
    Ok(expr)
}

/// Parses an expression of operators that bind at least as tightly as the level, and returns it with its depth, which is at most the limit.
#[cycle(expr)]
fn climb(
    alloc: Global,
    limit: u32,
    level_wanted: u32,
    reader: &mut Reader,
) -> Result<(Expr<Text>, u32), ParseStop>
    ensures read { Returns (λ x. (view_expr x.0, x.1, reader.new)) result
        (climb limit level_wanted reader.old) }
    ensures deep { IfOk result (λ x. x.1 ≤ limit) }
{
    if limit == 0 {
        return Err(reader.stop());
    }
    let (left, depth) = operand(alloc, limit - 1, reader)?;
    chain(alloc, limit, level_wanted, left, depth, reader)
}

/// Parses the token that is this value, and returns it with its depth, 1.
fn leaf(value: Value, reader: &mut Reader) -> (Expr<Text>, u32)
    ensures tree { view_expr result.0 ≡ literal (Literal.Value value) }
    ensures deep { result.1 ≡ 1 }
    ensures read { reader.new ≡ drop 1 reader.old }
{
    reader.advance();
    (Expr::Literal(Literal::Value(value)), 1)
}

/// Parses an operand whose parts are at most `deeper` deep, and returns it with its depth.
#[cycle(expr)]
#[tactic(auto, unfolding(crate::specs::Reading::operand))]
fn operand(alloc: Global, deeper: u32, reader: &mut Reader) -> Result<(Expr<Text>, u32), ParseStop>
    requires { deeper < u32.MAX }
    ensures read { Returns (λ x. (view_expr x.0, x.1, reader.new)) result
        (operand_at (climb deeper) reader.old) }
    ensures deep { IfOk result (λ x. x.1 ≤ deeper + 1) }
{
    match reader.peek() {
        Some(TokenKind::Word) => {
            let word = reader.word(alloc)?;
            reference(alloc, word, deeper, reader)
        }
        Some(TokenKind::Keyword(Keyword::True)) => Ok(leaf(Value::Bool(true), reader)),
        Some(TokenKind::Keyword(Keyword::False)) => Ok(leaf(Value::Bool(false), reader)),
        Some(TokenKind::Truth(truth)) => Ok(leaf(Value::Bool(truth), reader)),
        Some(TokenKind::Dint(n)) => Ok(leaf(Value::Dint(n), reader)),
        Some(TokenKind::Duration(n)) => Ok(leaf(Value::Time(n), reader)),
        Some(TokenKind::Integer(n)) if n <= GREATEST => {
            reader.advance();
            Ok((Expr::Literal(Literal::Integer(n as i32)), 1))
        }
        Some(TokenKind::Keyword(Keyword::Not)) if deeper > 0 => {
            reader.advance();
            prefixed(alloc, Unary::Not, deeper, reader)
        }
        Some(TokenKind::Symbol(Symbol::Minus)) => {
            reader.advance();
            minus(alloc, deeper, reader)
        }
        Some(TokenKind::Symbol(Symbol::Open)) if deeper > 0 => {
            reader.advance();
            let (inner, depth) = climb(alloc, deeper, 0, reader)?;
            let inner = reader.symbol_after(inner, Symbol::Close)?;
            Ok((in_parentheses(inner), depth + 1))
        }
        _ => Err(reader.stop()),
    }
}

/// Parses the rest of a reference after its first word: a point and the name of an output, an index in brackets, or nothing.
#[cycle(expr)]
fn reference(
    alloc: Global,
    word: Text,
    deeper: u32,
    reader: &mut Reader,
) -> Result<(Expr<Text>, u32), ParseStop>
    requires { deeper < u32.MAX }
    ensures read { Returns (λ x. (view_expr x.0, x.1, reader.new)) result
        (reference_at (climb deeper) word reader.old) }
    ensures deep { IfOk result (λ x. x.1 ≤ deeper + 1) }
{
    if reader.is_symbol(Symbol::Point) {
        reader.advance();
        let output = reader.word(alloc)?;
        Ok((Expr::Output(word, output), 1))
    } else if reader.is_symbol(Symbol::OpenBracket) {
        indexed(alloc, word, deeper, reader)
    } else {
        Ok((Expr::Read(word), 1))
    }
}

/// Parses an index in its brackets, the first of which is next, after the name of an array. With no depth left it is the bracket that
/// does not fit.
#[cycle(expr)]
fn indexed(
    alloc: Global,
    word: Text,
    deeper: u32,
    reader: &mut Reader,
) -> Result<(Expr<Text>, u32), ParseStop>
    requires { deeper < u32.MAX }
    ensures read { Returns (λ x. (view_expr x.0, x.1, reader.new)) result
        (index_at (climb deeper) word (drop 1 reader.old)) }
    ensures deep { IfOk result (λ x. x.1 ≤ deeper + 1) }
{
    if deeper == 0 {
        return Err(reader.stop());
    }
    reader.advance();
    let (index, depth) = climb(alloc, deeper, 0, reader)?;
    let index = reader.symbol_after(index, Symbol::CloseBracket)?;
    Ok((element_of(alloc, word, index)?, depth + 1))
}

fn element_of(alloc: Global, name: Text, index: Expr<Text>) -> Result<Expr<Text>, AllocError>
    ensures { IfOk result (λ e. view_expr e ≡ element name unknown_bounds (view_expr index)) }
{
    match Box::new(alloc, index) {
        Ok(index) => Ok(Expr::Element(name, unknown_bounds(), index)),
        Err(failed) => {
            drop(name);
            Err(AllocError::from(failed))
        }
    }
}

/// Parses the operand after a minus. With an integer it is one literal.
#[cycle(expr)]
fn minus(alloc: Global, deeper: u32, reader: &mut Reader) -> Result<(Expr<Text>, u32), ParseStop>
    requires { deeper < u32.MAX }
    ensures read { Returns (λ x. (view_expr x.0, x.1, reader.new)) result
        (minus_at (climb deeper) reader.old) }
    ensures deep { IfOk result (λ x. x.1 ≤ deeper + 1) }
{
    match reader.peek() {
        Some(TokenKind::Integer(n)) => {
            if n > GREATEST_NEGATIVE {
                return Err(reader.stop());
            }
            reader.advance();
            Ok((Expr::Literal(Literal::Value(Value::Dint(negated(n)))), 1))
        }
        _ => prefixed(alloc, Unary::Negate, deeper, reader),
    }
}

/// Parses the operand after `NOT` or a minus.
#[cycle(expr)]
fn prefixed(
    alloc: Global,
    op: Unary,
    deeper: u32,
    reader: &mut Reader,
) -> Result<(Expr<Text>, u32), ParseStop>
    requires { deeper < u32.MAX }
    ensures read { Returns (λ x. (view_expr x.0, x.1, reader.new)) result
        (prefixed_at op (climb deeper top reader.old)) }
    ensures deep { IfOk result (λ x. x.1 ≤ deeper + 1) }
{
    let (inner, depth) = climb(alloc, deeper, TOP, reader)?;
    Ok((Expr::Unary(op, Box::new(alloc, inner)?), depth + 1))
}

/// An operator between its operands.
fn joined(
    alloc: Global,
    op: Binary,
    left: Expr<Text>,
    right: Expr<Text>,
) -> Result<Expr<Text>, AllocError>
    ensures { IfOk result (λ e. view_expr e ≡ binary op (view_expr left) (view_expr right)) }
{
    match Box::new(alloc, left) {
        Ok(left) => match Box::new(alloc, right) {
            Ok(right) => Ok(Expr::Binary(op, left, right)),
            Err(failed) => {
                drop(left);
                Err(AllocError::from(failed))
            }
        },
        Err(failed) => {
            drop(right);
            Err(AllocError::from(failed))
        }
    }
}

/// Parses the operators after an expression and their right operands, and groups them from the left.
#[cycle(expr)]
fn chain(
    alloc: Global,
    limit: u32,
    level_wanted: u32,
    first: Expr<Text>,
    first_depth: u32,
    reader: &mut Reader,
) -> Result<(Expr<Text>, u32), ParseStop>
    requires some { 0 < limit }
    requires fits { first_depth ≤ limit }
    ensures read { Returns (λ x. (view_expr x.0, x.1, reader.new)) result
        (chain_at (climb (limit - 1)) (limit - 1) level_wanted limit (view_expr first) first_depth
        reader.old) }
    ensures deep { IfOk result (λ x. x.1 ≤ limit) }
{
    let mut left = first;
    let mut depth = first_depth;
    // Each operator makes the tree one deeper.
    for _turn in 0..limit {
        let Some(op) = next_operator(level_wanted, reader) else {
            return Ok((left, depth));
        };
        if depth >= limit {
            drop(left);
            return Err(reader.stop());
        }
        reader.advance();
        let (right, right_depth) = match climb(alloc, limit - 1, level(op) + 1, reader) {
            Ok(found) => found,
            Err(stop) => {
                drop(left);
                return Err(stop);
            }
        };
        left = joined(alloc, op, left, right)?;
        depth = depth.max(right_depth) + 1;
    }
    drop(left);
    Err(reader.stop())
}

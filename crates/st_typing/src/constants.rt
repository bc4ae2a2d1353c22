//! Initial values, the order of bounds of arrays, and the control variables, bounds, steps and turns of FOR statements (C9, C10).

ghost use Rattle.std.specs.Prelude.{◌≡◌, IfOk, map, option_map, IfSome, ℕ, List};
ghost use Rattle.std.specs.List.{list_all};
ghost use Rattle.st_names.specs.SectionKind.{SectionKind};
ghost use Rattle.st_tree.specs.View.{view_expr, view_option, view_argument, view_stmt, view_body};
ghost use Rattle.st_tree.specs.Constants.{constant_of};
ghost use Rattle.st_tree.specs.Kinds.{KindsOf, resolved_expr, kind_in};
ghost use Rattle.st_tree.specs.Meaning.{then_one, then_two};
ghost use Rattle.st_tree.specs.Operators.{eval_unary, eval_binary};
ghost use Rattle.st_names.specs.Units.{view_declaration, view_section, view_pou};
ghost use Rattle.st_names.specs.DeclaredNames.{declared_together, declared_by, declared_in};
ghost use Rattle.st_typing.specs.Constants.{has_value, is_step, outputs_assign, stmt_assigns, never_assigns, turns_of, for_turns, meant_constant, bounds_allowed, is_initial, constant_step, in_order, sort_in_order, declared_constant, globals_inconstant, pou_inconstant, pou_long};

use plant_types::{Bounds, Kind, Text, Trap, same_word};
use st_names::{Declaration, Pou, Scope, Section, Sort, StatementRule, every};
use st_tree::{
    Argument, Binary, Expr, Stmt, Unary, binary_result, count_turns, eval_binary, eval_unary,
    resolved_binary, resolved_unary, span_of, unary_result,
};
use std::alloc::{AllocError, Global};

/// The most turns that a FOR may have (this profile).
const TURNS: u128 = 10000;

/// The outcome of an operator, by that of its operand.
fn apply_unary(op: Unary, x: Result<i64, Trap>) -> Result<i64, Trap>
    ensures { result ≡ then_one x (eval_unary op) }
{
    eval_unary(op, x?)
}

/// The outcome of an operator, by those of its operands; the left operand's trap wins (this profile).
fn apply_binary(op: Binary, x: Result<i64, Trap>, y: Result<i64, Trap>) -> Result<i64, Trap>
    ensures { result ≡ then_two x y (eval_binary op) }
{
    eval_binary(op, x?, y?)
}

/// The outcome of a constant expression and its kind, each operator being that of its operands' kind; `None` for an expression that reads
/// a variable, an output or an element.
fn kinded_constant(expr: &Expr<Text>) -> Option<(Result<i64, Trap>, Kind)>
    ensures outcome { (kinds : KindsOf (List ℕ))
        → option_map (λ r. r.0) result ≡ constant_of (resolved_expr kinds (view_expr expr.now)) }
    ensures kind { (kinds : KindsOf (List ℕ))
        → IfSome result (λ r. r.1 ≡ kind_in kinds (view_expr expr.now)) }
{
    match expr {
        Expr::Literal(literal) => Some((Ok(literal.worth()), literal.kind())),
        Expr::Read(_) | Expr::Output(_, _) | Expr::Element(_, _, _) => None,
        Expr::Unary(op, a) => {
            let (x, kind) = kinded_constant(a)?;
            let outcome = apply_unary(resolved_unary(*op, kind), x);
            Some((outcome, unary_result(*op, kind)))
        }
        Expr::Binary(op, a, b) => {
            let (x, kind) = kinded_constant(a)?;
            let (y, _) = kinded_constant(b)?;
            let outcome = apply_binary(resolved_binary(*op, kind), x, y);
            Some((outcome, binary_result(*op, kind)))
        }
    }
}

/// The outcome of a constant expression, as it is meant; `None` for one that reads a variable, an output or an element.
fn meant_constant(expr: &Expr<Text>) -> Option<Result<i64, Trap>>
    ensures { result ≡ meant_constant (view_expr expr.now) }
{
    match kinded_constant(expr) {
        Some((outcome, _)) => Some(outcome),
        None => None,
    }
}

/// The outcome of a constant step, which is 1 if none is written; `None` if it isn't constant.
fn constant_step(by: &Option<Expr<Text>>) -> Option<Result<i64, Trap>>
    ensures { result ≡ constant_step (view_option by.now) }
{
    match by {
        Some(by) => meant_constant(by),
        None => Some(Ok(1)),
    }
}

/// Whether a constant is there and doesn't trap.
fn has_value(outcome: Option<Result<i64, Trap>>) -> bool
    ensures { result ≡ has_value outcome }
{
    matches!(outcome, Some(Ok(_)))
}

/// Whether a constant is there, doesn't trap and isn't 0.
fn is_step(outcome: Option<Result<i64, Trap>>) -> bool
    ensures { result ≡ is_step outcome }
{
    match outcome {
        Some(Ok(n)) => n != 0,
        _ => false,
    }
}

/// Whether the bounds of a FOR are constant and don't trap, and neither does its step, which isn't 0.
fn bounds_allowed(from: &Expr<Text>, to: &Expr<Text>, by: &Option<Expr<Text>>) -> bool
    ensures { result ≡ bounds_allowed (view_expr from.now) (view_expr to.now) (view_option by.now) }
{
    has_value(meant_constant(from)) && has_value(meant_constant(to)) && is_step(constant_step(by))
}

/// Whether a call gives an output to a variable.
fn outputs_assign(variable: &Text, arguments: &[Argument<Text>]) -> bool
    ensures { result ≡ outputs_assign variable.now (map view_argument arguments.now) }
{
    for argument in arguments {
        if let Argument::Output(_, other) = argument {
            if same_word(variable.as_bytes(), other.as_bytes()) {
                return true;
            }
        }
    }
    false
}

/// Whether a statement itself assigns a variable, as the control variable of a FOR too.
fn stmt_assigns(variable: &Text, stmt: &Stmt<Text>) -> bool
    ensures { result ≡ stmt_assigns variable.now (view_stmt stmt.now) }
{
    match stmt {
        Stmt::Empty(_) | Stmt::Store { .. } | Stmt::If(_, _, _) | Stmt::Case(_, _, _, _) => false,
        Stmt::Assign(_, other, _) => same_word(variable.as_bytes(), other.as_bytes()),
        Stmt::Call(_, _, arguments) => outputs_assign(variable, arguments),
        Stmt::For {
            variable: other,
            ..
        } => same_word(variable.as_bytes(), other.as_bytes()),
    }
}

/// The number of turns of a FOR with constant bounds and step; 0 for any other.
fn turns_of(
    from: Option<Result<i64, Trap>>,
    to: Option<Result<i64, Trap>>,
    step: Option<Result<i64, Trap>>,
) -> u128
    ensures { result ≡ turns_of from to step }
{
    match (from, to, step) {
        (Some(from), Some(to), Some(step)) => match span_of(from, to, step) {
            Ok(span) => count_turns(span),
            Err(_) => 0,
        },
        _ => 0,
    }
}

/// The number of turns of a FOR, by its bounds and step as they are written; 0 where one of them isn't constant or traps.
pub fn for_turns(from: &Expr<Text>, to: &Expr<Text>, by: &Option<Expr<Text>>) -> u128
    ensures { result ≡ for_turns (view_expr from.now) (view_expr to.now) (view_option by.now) }
{
    turns_of(meant_constant(from), meant_constant(to), constant_step(by))
}

/// The rule that a statement doesn't assign a variable itself.
#[derive(Drop)]
struct Unassigned<'a> {
    variable: &'a Text,
}

impl<'a> StatementRule for Unassigned<'a> {
    ghost use Rattle.std.specs.Prelude.{not};
    ghost use Rattle.st_typing.specs.Constants.{stmt_assigns};

    ghost rule = { λ r s. not (stmt_assigns r.variable.now s) };

    fn keeps(&self, _alloc: Global, stmt: &Stmt<Text>) -> Result<bool, AllocError> {
        Ok(!stmt_assigns(self.variable, stmt))
    }
}

/// Whether no statement of a body assigns a variable.
fn never_assigns(alloc: Global, variable: &Text, body: &[Stmt<Text>]) -> Result<bool, AllocError>
    ensures { IfOk result (λ kept. kept ≡ never_assigns variable.now (view_body body.now)) }
{
    every(alloc, &Unassigned { variable }, body)
}

/// The rule that a FOR has a control variable that is allowed and not assigned inside it, and bounds and a step that are constant and allowed.
#[derive(Drop)]
struct Allowed<'a, S: Scope> {
    scope: &'a S,
}

impl<'a, S: Scope> StatementRule for Allowed<'a, S> {
    ghost use Rattle.st_typing.specs.Constants.{stmt_allowed};

    ghost rule = { λ r. stmt_allowed (S.own r.scope.now) };

    fn keeps(&self, alloc: Global, stmt: &Stmt<Text>) -> Result<bool, AllocError> {
        let Stmt::For {
            variable,
            from,
            to,
            by,
            body,
            ..
        } = stmt
        else {
            return Ok(true);
        };
        if !self.scope.is_control(variable) {
            return Ok(false);
        }
        if !bounds_allowed(from, to, by) {
            return Ok(false);
        }
        never_assigns(alloc, variable, body)
    }
}

/// The rule that a FOR has at most 10,000 turns.
#[derive(Drop)]
struct Short;

impl StatementRule for Short {
    ghost use Rattle.st_typing.specs.Constants.{stmt_short};

    ghost rule = { λ r. stmt_short };

    fn keeps(&self, _alloc: Global, stmt: &Stmt<Text>) -> Result<bool, AllocError> {
        Ok(match stmt {
            Stmt::For { from, to, by, .. } => for_turns(from, to, by) <= TURNS,
            _ => true,
        })
    }
}

/// Whether an initial value, if one is written, is constant and doesn't trap.
fn is_initial(initial: &Option<Expr<Text>>) -> bool
    ensures { result ≡ is_initial (option_map view_expr initial.now) }
{
    match initial {
        Some(expr) => has_value(meant_constant(expr)),
        None => true,
    }
}

/// Whether the low bound isn't above the high one.
fn in_order(bounds: Bounds) -> bool
    ensures { result ≡ in_order bounds }
{
    bounds.low <= bounds.high
}

/// Whether the low bound of an array isn't above its high one; what is no array has no bounds.
fn sort_in_order(sort: &Sort) -> bool
    ensures { result ≡ sort_in_order sort.now }
{
    match sort {
        Sort::Array(bounds, _) => in_order(*bounds),
        Sort::Kind(_) | Sort::Block(_) => true,
    }
}

/// Whether the initial value of each name of a declaration, if one is written, is constant and doesn't trap, and the low bound of an array
/// isn't above its high one.
fn declaration_constant(declaration: &Declaration) -> bool
    ensures { (section : SectionKind)
        → result
        ≡ list_all declared_constant (declared_together section (view_declaration declaration.now)) }
{
    let constant = is_initial(&declaration.initial) && sort_in_order(&declaration.sort);
    for _name in &declaration.names {
        if !constant {
            return false;
        }
    }
    true
}

/// Whether each initial value of a section is constant and doesn't trap, and the bounds of each array are in order.
fn section_constant(section: &Section) -> bool
    ensures { result ≡ list_all declared_constant (declared_by (view_section section.now)) }
{
    for declaration in &section.declarations {
        if !declaration_constant(declaration) {
            return false;
        }
    }
    true
}

/// Whether each initial value of sections is constant and doesn't trap, and the bounds of each array are in order.
fn sections_constant(sections: &[Section]) -> bool
    ensures { result ≡ list_all declared_constant (declared_in (map view_section sections.now)) }
{
    for section in sections {
        if !section_constant(section) {
            return false;
        }
    }
    true
}

/// Whether a global's initial value isn't constant or traps, or the low bound of a global array is above its high one.
pub fn globals_inconstant(sections: &[Section]) -> bool
    ensures { result ≡ globals_inconstant (map view_section sections.now) }
{
    !sections_constant(sections)
}

/// Whether a block or program has an initial value that isn't constant or traps, an array whose low bound is above its high one, or a FOR that isn't
/// allowed.
pub fn pou_inconstant<S: Scope>(alloc: Global, scope: &S, pou: &Pou) -> Result<bool, AllocError>
    requires { S.own scope.now ≡ declared_in (view_pou pou.now).sections }
    ensures { IfOk result (λ wrong. wrong ≡ pou_inconstant (view_pou pou.now)) }
{
    if !sections_constant(&pou.sections) {
        return Ok(true);
    }
    let allowed = every(alloc, &Allowed { scope }, &pou.body)?;
    Ok(!allowed)
}

/// Whether a FOR of a block or program has more than 10,000 turns.
pub fn pou_long(alloc: Global, pou: &Pou) -> Result<bool, AllocError>
    ensures { IfOk result (λ long. long ≡ pou_long (view_pou pou.now)) }
{
    let short = every(alloc, &Short, &pou.body)?;
    Ok(!short)
}

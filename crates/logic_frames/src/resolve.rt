//! Turns a body over names into one over numbers: it numbers the statements, and chooses the operators of TIME by the kinds of their
//! operands. Each function fails only if memory was refused.

ghost use Rattle.std.specs.Prelude.{◌≡◌, ◌<◌, ◌+◌, ◌^◌, IfOk, map};
ghost use Rattle.st_tree.specs.View.{view_expr, view_option, view_argument, view_stmt, view_body, view_branches, view_choices};
ghost use Rattle.st_tree.specs.Kinds.{kind_in, resolved_argument};
ghost use Rattle.st_tree.specs.Mapping.{mapped_argument};
ghost use Rattle.st_tree.specs.Plain.{store};
ghost use Rattle.st_tree.specs.Numbers.{count_stmt, count_body, count_branches, count_choices};
ghost use Rattle.logic_frames.specs.Scoped.{scope_kinds, mapping_of, flat_expr, flat_option, flat_argument, flat_stmt, flat_body, flat_branches, flat_choices};

use crate::scope::RoutineNames;
use plant_types::{Kind, Text};
use st_tree::{
    Argument, Branch, Choice, Expr, Stmt, binary_result, copy_labels, resolved_binary,
    resolved_unary, unary_result,
};
use std::alloc::{AllocError, Global};

/// Resolves an expression. Returns its kind too, which is right if its operators take their operands.
fn resolve_kinded(
    alloc: Global,
    scope: &RoutineNames<'_>,
    expr: &Expr<Text>,
) -> Result<(Expr<usize>, Kind), AllocError>
    ensures expr { IfOk result (λ r. view_expr r.0 ≡ flat_expr scope.now (view_expr expr.now)) }
    ensures kind { IfOk result (λ r. r.1 ≡ kind_in (scope_kinds scope.now) (view_expr expr.now)) }
{
    match expr {
        Expr::Literal(literal) => Ok((Expr::Literal(*literal), literal.kind())),
        Expr::Read(name) => {
            let number = scope.variable(name.as_str());
            Ok((Expr::Read(number), scope.kind(name.as_str())))
        }
        Expr::Output(instance, name) => {
            let own = scope.instance(instance.as_str());
            let output = scope.output(instance.as_str(), name.as_str());
            let kind = scope.output_kind(instance.as_str(), name.as_str());
            Ok((Expr::Output(own, output), kind))
        }
        Expr::Element(name, _, index) => {
            let (index, _) = resolve_kinded(alloc, scope, index)?;
            let index = Box::new(alloc, index)?;
            let array = scope.array(name.as_str());
            let bounds = scope.bounds(name.as_str());
            Ok((
                Expr::Element(array, bounds, index),
                scope.element_kind(name.as_str()),
            ))
        }
        Expr::Unary(op, a) => {
            let (a, kind) = resolve_kinded(alloc, scope, a)?;
            let a = Box::new(alloc, a)?;
            Ok((
                Expr::Unary(resolved_unary(*op, kind), a),
                unary_result(*op, kind),
            ))
        }
        Expr::Binary(op, a, b) => {
            let (a, kind) = resolve_kinded(alloc, scope, a)?;
            let (b, _) = resolve_kinded(alloc, scope, b)?;
            let a = Box::new(alloc, a)?;
            let b = Box::new(alloc, b)?;
            Ok((
                Expr::Binary(resolved_binary(*op, kind), a, b),
                binary_result(*op, kind),
            ))
        }
    }
}

fn resolve_expr(
    alloc: Global,
    scope: &RoutineNames<'_>,
    expr: &Expr<Text>,
) -> Result<Expr<usize>, AllocError>
    ensures { IfOk result (λ e. view_expr e ≡ flat_expr scope.now (view_expr expr.now)) }
{
    let (expr, _) = resolve_kinded(alloc, scope, expr)?;
    Ok(expr)
}

fn resolve_option(
    alloc: Global,
    scope: &RoutineNames<'_>,
    expr: &Option<Expr<Text>>,
) -> Result<Option<Expr<usize>>, AllocError>
    ensures { IfOk result (λ e. view_option e ≡ flat_option scope.now (view_option expr.now)) }
{
    match expr {
        Some(expr) => Ok(Some(resolve_expr(alloc, scope, expr)?)),
        None => Ok(None),
    }
}

/// Resolves the bounds and the step of a FOR.
fn resolve_range(
    alloc: Global,
    scope: &RoutineNames<'_>,
    from: &Expr<Text>,
    to: &Expr<Text>,
    by: &Option<Expr<Text>>,
) -> Result<(Expr<usize>, Expr<usize>, Option<Expr<usize>>), AllocError>
    ensures from { IfOk result (λ r. view_expr r.0 ≡ flat_expr scope.now (view_expr from.now)) }
    ensures to { IfOk result (λ r. view_expr r.1 ≡ flat_expr scope.now (view_expr to.now)) }
    ensures by { IfOk result (λ r. view_option r.2 ≡ flat_option scope.now (view_option by.now)) }
{
    let from = resolve_expr(alloc, scope, from)?;
    let to = resolve_expr(alloc, scope, to)?;
    Ok((from, to, resolve_option(alloc, scope, by)?))
}

fn resolve_argument(
    alloc: Global,
    scope: &RoutineNames<'_>,
    instance: &Text,
    argument: &Argument<Text>,
) -> Result<Argument<usize>, AllocError>
    ensures { IfOk result (λ a. view_argument a
        ≡ flat_argument scope.now instance.now (view_argument argument.now)) }
{
    match argument {
        Argument::Input(name, expr) => {
            let input = scope.input(instance.as_str(), name.as_str());
            Ok(Argument::Input(input, resolve_expr(alloc, scope, expr)?))
        }
        Argument::Output(name, variable) => {
            let output = scope.output(instance.as_str(), name.as_str());
            Ok(Argument::Output(output, scope.variable(variable.as_str())))
        }
    }
}

/// Resolves the arguments of a call of an instance, in their order.
fn resolve_arguments(
    alloc: Global,
    scope: &RoutineNames<'_>,
    instance: &Text,
    arguments: &[Argument<Text>],
) -> Result<Vec<Argument<usize>>, AllocError>
    ensures { IfOk result (λ r. map view_argument r.items
        ≡ map (mapped_argument (mapping_of scope.now) instance.now)
        (map (resolved_argument (scope_kinds scope.now)) (map view_argument arguments.now))) }
{
    let mut resolved = Vec::with_capacity(alloc, arguments.len())?;
    for argument in arguments {
        resolved.push(resolve_argument(alloc, scope, instance, argument)?)?;
    }
    Ok(resolved)
}

/// Takes the next statement's number, and counts it.
fn next_number(number: &mut u32) -> u32
    requires { number.old + 1 < 2 ^ 32 }
    ensures own { result ≡ number.old }
    ensures next { number.new ≡ number.old + 1 }
{
    let own = *number;
    *number += 1;
    own
}

/// Resolves an assignment to an element of an array, whose statement has this number.
fn resolve_store(
    alloc: Global,
    scope: &RoutineNames<'_>,
    number: u32,
    array: &Text,
    index: &Expr<Text>,
    value: &Expr<Text>,
) -> Result<Stmt<usize>, AllocError>
    ensures { IfOk result (λ s. view_stmt s
        ≡ store number ((mapping_of scope.now).array array.now)
        ((scope_kinds scope.now).bounds array.now) (flat_expr scope.now (view_expr index.now))
        (flat_expr scope.now (view_expr value.now))) }
{
    let index = resolve_expr(alloc, scope, index)?;
    let value = resolve_expr(alloc, scope, value)?;
    Ok(Stmt::Store {
        number,
        array: scope.array(array.as_str()),
        bounds: scope.bounds(array.as_str()),
        index,
        value,
    })
}

/// Resolves a statement. `number` is that of its first statement, and then that after its last.
#[cycle(resolve)]
fn resolve_stmt(
    alloc: Global,
    scope: &RoutineNames<'_>,
    stmt: &Stmt<Text>,
    number: &mut u32,
) -> Result<Stmt<usize>, AllocError>
    requires { number.old + count_stmt (view_stmt stmt.now) < 2 ^ 32 }
    ensures stmt { IfOk result (λ s. view_stmt s ≡ flat_stmt scope.now number.old (view_stmt stmt.now)) }
    ensures count { IfOk result (λ s. number.new ≡ number.old + count_stmt (view_stmt stmt.now)) }
{
    let own = next_number(number);
    match stmt {
        Stmt::Empty(_) => Ok(Stmt::Empty(own)),
        Stmt::Assign(_, variable, expr) => {
            let target = scope.variable(variable.as_str());
            Ok(Stmt::Assign(own, target, resolve_expr(alloc, scope, expr)?))
        }
        Stmt::Store {
            array,
            index,
            value,
            ..
        } => resolve_store(alloc, scope, own, array, index, value),
        Stmt::Call(_, instance, arguments) => {
            let called = scope.instance(instance.as_str());
            let arguments = resolve_arguments(alloc, scope, instance, arguments)?;
            Ok(Stmt::Call(own, called, arguments))
        }
        Stmt::If(_, branches, last) => {
            let branches = resolve_branches(alloc, scope, branches, number)?;
            Ok(Stmt::If(own, branches, resolve_body(alloc, scope, last, number)?))
        }
        Stmt::Case(_, selector, choices, last) => {
            let choices = resolve_choices(alloc, scope, choices, number)?;
            let last = resolve_body(alloc, scope, last, number)?;
            let selector = resolve_expr(alloc, scope, selector)?;
            Ok(Stmt::Case(own, selector, choices, last))
        }
        Stmt::For {
            variable,
            from,
            to,
            by,
            body,
            ..
        } => {
            let target = scope.variable(variable.as_str());
            let body = resolve_body(alloc, scope, body, number)?;
            let (from, to, by) = resolve_range(alloc, scope, from, to, by)?;
            Ok(Stmt::For {
                number: own,
                variable: target,
                from,
                to,
                by,
                body,
            })
        }
    }
}

#[cycle(resolve)]
fn resolve_branches(
    alloc: Global,
    scope: &RoutineNames<'_>,
    branches: &[Branch<Text>],
    number: &mut u32,
) -> Result<Vec<Branch<usize>>, AllocError>
    requires { number.old + count_branches (view_branches branches.now) < 2 ^ 32 }
    ensures branches { IfOk result (λ r. view_branches r.items
        ≡ flat_branches scope.now number.old (view_branches branches.now)) }
    ensures count { IfOk result (λ r. number.new
        ≡ number.old + count_branches (view_branches branches.now)) }
{
    let mut resolved = Vec::with_capacity(alloc, branches.len())?;
    for branch in branches {
        let body = resolve_body(alloc, scope, &branch.body, number)?;
        let test = resolve_expr(alloc, scope, &branch.test)?;
        resolved.push(Branch { test, body })?;
    }
    Ok(resolved)
}

/// Resolves the choices of a CASE, in their order.
#[cycle(resolve)]
fn resolve_choices(
    alloc: Global,
    scope: &RoutineNames<'_>,
    choices: &[Choice<Text>],
    number: &mut u32,
) -> Result<Vec<Choice<usize>>, AllocError>
    requires { number.old + count_choices (view_choices choices.now) < 2 ^ 32 }
    ensures choices { IfOk result (λ r. view_choices r.items
        ≡ flat_choices scope.now number.old (view_choices choices.now)) }
    ensures count { IfOk result (λ r. number.new
        ≡ number.old + count_choices (view_choices choices.now)) }
{
    let mut resolved = Vec::with_capacity(alloc, choices.len())?;
    for choice in choices {
        let labels = copy_labels(alloc, &choice.labels)?;
        let body = resolve_body(alloc, scope, &choice.body, number)?;
        resolved.push(Choice { labels, body })?;
    }
    Ok(resolved)
}

/// Resolves a body. `number` is that of its first statement, and then that after its last.
#[cycle(resolve)]
pub fn resolve_body(
    alloc: Global,
    scope: &RoutineNames<'_>,
    body: &[Stmt<Text>],
    number: &mut u32,
) -> Result<Vec<Stmt<usize>>, AllocError>
    requires { number.old + count_body (view_body body.now) < 2 ^ 32 }
    ensures body { IfOk result (λ r. view_body r.items
        ≡ flat_body scope.now number.old (view_body body.now)) }
    ensures count { IfOk result (λ r. number.new ≡ number.old + count_body (view_body body.now)) }
{
    let mut resolved = Vec::with_capacity(alloc, body.len())?;
    for stmt in body {
        resolved.push(resolve_stmt(alloc, scope, stmt, number)?)?;
    }
    Ok(resolved)
}

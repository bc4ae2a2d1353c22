//! Trees with what a pass puts in the places of their names and operators. Each function fails only where memory is refused.

ghost use Rattle.std.specs.Prelude.{◌≡◌, IfOk, map};
ghost use Rattle.st_tree.specs.Plain.{for_to};
ghost use Rattle.st_tree.specs.View.{view_expr, view_option, view_argument, view_stmt, view_body, view_branches, view_choices};
ghost use Rattle.st_tree.specs.Mapping.{mapped_expr, mapped_option, mapped_argument, mapped_stmt, mapped_body, mapped_branches, mapped_choices};

use crate::copy::copy_labels;
use crate::pass::Pass;
use crate::tree::{Argument, Branch, Choice, Expr, Stmt};
use std::alloc::{AllocError, Global};

/// The expression that a pass makes of an expression.
pub(crate) fn mapped_expr<V, W: Drop, P: Pass<V, W>>(
    alloc: Global,
    pass: &P,
    expr: &Expr<V>,
) -> Result<Expr<W>, AllocError>
    ensures { IfOk result (λ e. view_expr e ≡ mapped_expr (P.mapping pass.now) (view_expr expr.now)) }
{
    match expr {
        Expr::Literal(literal) => Ok(Expr::Literal(*literal)),
        Expr::Read(name) => Ok(Expr::Read(pass.variable(alloc, name)?)),
        Expr::Output(instance, name) => {
            let own = pass.instance(alloc, instance)?;
            Ok(Expr::Output(own, pass.output_name(alloc, instance, name)?))
        }
        Expr::Element(name, bounds, index) => {
            let array = pass.array(alloc, name)?;
            let index = Box::new(alloc, mapped_expr(alloc, pass, index)?)?;
            Ok(Expr::Element(array, *bounds, index))
        }
        Expr::Unary(op, a) => {
            let a = Box::new(alloc, mapped_expr(alloc, pass, a)?)?;
            pass.node(alloc, Expr::Unary(*op, a))
        }
        Expr::Binary(op, a, b) => {
            let left = Box::new(alloc, mapped_expr(alloc, pass, a)?)?;
            let right = Box::new(alloc, mapped_expr(alloc, pass, b)?)?;
            pass.node(alloc, Expr::Binary(*op, left, right))
        }
    }
}

/// The same of an expression, if there is one.
fn mapped_option<V, W: Drop, P: Pass<V, W>>(
    alloc: Global,
    pass: &P,
    expr: &Option<Expr<V>>,
) -> Result<Option<Expr<W>>, AllocError>
    ensures { IfOk result (λ e. view_option e
        ≡ mapped_option (P.mapping pass.now) (view_option expr.now)) }
{
    match expr {
        Some(expr) => Ok(Some(mapped_expr(alloc, pass, expr)?)),
        None => Ok(None),
    }
}

/// The first value, the bound and the step of a FOR.
type Bounds<V> = (Expr<V>, Expr<V>, Option<Expr<V>>);

/// What a pass makes of the first value, the bound and the step of a FOR.
fn mapped_bounds<V, W: Drop, P: Pass<V, W>>(
    alloc: Global,
    pass: &P,
    from: &Expr<V>,
    to: &Expr<V>,
    by: &Option<Expr<V>>,
) -> Result<Bounds<W>, AllocError>
    ensures from { IfOk result (λ b. view_expr b.0
        ≡ mapped_expr (P.mapping pass.now) (view_expr from.now)) }
    ensures to { IfOk result (λ b. view_expr b.1 ≡ mapped_expr (P.mapping pass.now) (view_expr to.now)) }
    ensures by { IfOk result (λ b. view_option b.2
        ≡ mapped_option (P.mapping pass.now) (view_option by.now)) }
{
    let from = mapped_expr(alloc, pass, from)?;
    let to = match mapped_expr(alloc, pass, to) {
        Ok(to) => to,
        Err(refused) => {
            drop(from);
            return Err(refused);
        }
    };
    match mapped_option(alloc, pass, by) {
        Ok(by) => Ok((from, to, by)),
        Err(refused) => {
            drop(from);
            drop(to);
            Err(refused)
        }
    }
}

fn for_of<W>(number: u32, variable: W, bounds: Bounds<W>, body: Vec<Stmt<W>>) -> Stmt<W>
    ensures { view_stmt result
        ≡ for_to number variable (view_expr bounds.0) (view_expr bounds.1) (view_option bounds.2)
        (view_body body.items) }
{
    let (from, to, by) = bounds;
    Stmt::For {
        number,
        variable,
        from,
        to,
        by,
        body,
    }
}

/// The argument that a pass makes of an argument of a call of an instance.
fn mapped_argument<V, W: Drop, P: Pass<V, W>>(
    alloc: Global,
    pass: &P,
    instance: &V,
    argument: &Argument<V>,
) -> Result<Argument<W>, AllocError>
    ensures { IfOk result (λ a. view_argument a
        ≡ mapped_argument (P.mapping pass.now) instance.now (view_argument argument.now)) }
{
    match argument {
        Argument::Input(name, expr) => {
            let name = pass.input_name(alloc, instance, name)?;
            Ok(Argument::Input(name, mapped_expr(alloc, pass, expr)?))
        }
        Argument::Output(name, variable) => {
            let name = pass.output_name(alloc, instance, name)?;
            Ok(Argument::Output(name, pass.variable(alloc, variable)?))
        }
    }
}

/// The same of each argument, in the same order.
fn mapped_arguments<V, W: Drop, P: Pass<V, W>>(
    alloc: Global,
    pass: &P,
    instance: &V,
    arguments: &[Argument<V>],
) -> Result<Vec<Argument<W>>, AllocError>
    ensures { IfOk result (λ r. map view_argument r.items
        ≡ map (mapped_argument (P.mapping pass.now) instance.now) (map view_argument arguments.now)) }
{
    let mut mapped = Vec::with_capacity(alloc, arguments.len())?;
    for argument in arguments {
        mapped.push(mapped_argument(alloc, pass, instance, argument)?)?;
    }
    Ok(mapped)
}

/// The statement that a pass makes of a statement.
#[cycle(map)]
fn mapped_stmt<V, W: Drop, P: Pass<V, W>>(
    alloc: Global,
    pass: &P,
    stmt: &Stmt<V>,
) -> Result<Stmt<W>, AllocError>
    ensures { IfOk result (λ s. view_stmt s ≡ mapped_stmt (P.mapping pass.now) (view_stmt stmt.now)) }
{
    match stmt {
        Stmt::Empty(number) => Ok(Stmt::Empty(*number)),
        Stmt::Assign(number, variable, expr) => {
            let variable = pass.variable(alloc, variable)?;
            Ok(Stmt::Assign(*number, variable, mapped_expr(alloc, pass, expr)?))
        }
        Stmt::Store {
            number,
            array,
            bounds,
            index,
            value,
        } => {
            let array = pass.array(alloc, array)?;
            let index = mapped_expr(alloc, pass, index)?;
            let value = mapped_expr(alloc, pass, value)?;
            Ok(Stmt::Store {
                number: *number,
                array,
                bounds: *bounds,
                index,
                value,
            })
        }
        Stmt::Call(number, instance, arguments) => {
            let own = pass.instance(alloc, instance)?;
            Ok(Stmt::Call(
                *number,
                own,
                mapped_arguments(alloc, pass, instance, arguments)?,
            ))
        }
        Stmt::If(number, branches, last) => {
            let branches = mapped_branches(alloc, pass, branches)?;
            match mapped_body(alloc, pass, last) {
                Ok(last) => Ok(Stmt::If(*number, branches, last)),
                Err(refused) => {
                    drop(branches);
                    Err(refused)
                }
            }
        }
        Stmt::Case(number, selector, choices, last) => {
            let selector = mapped_expr(alloc, pass, selector)?;
            let choices = match mapped_choices(alloc, pass, choices) {
                Ok(choices) => choices,
                Err(refused) => {
                    drop(selector);
                    return Err(refused);
                }
            };
            match mapped_body(alloc, pass, last) {
                Ok(last) => Ok(Stmt::Case(*number, selector, choices, last)),
                Err(refused) => {
                    drop(selector);
                    drop(choices);
                    Err(refused)
                }
            }
        }
        Stmt::For {
            number,
            variable,
            from,
            to,
            by,
            body,
        } => {
            let variable = pass.variable(alloc, variable)?;
            let bounds = mapped_bounds(alloc, pass, from, to, by)?;
            match mapped_body(alloc, pass, body) {
                Ok(body) => Ok(for_of(*number, variable, bounds, body)),
                Err(refused) => {
                    drop(variable);
                    drop(bounds);
                    Err(refused)
                }
            }
        }
    }
}

/// The same of each branch of an IF, in the same order.
#[cycle(map)]
fn mapped_branches<V, W: Drop, P: Pass<V, W>>(
    alloc: Global,
    pass: &P,
    branches: &[Branch<V>],
) -> Result<Vec<Branch<W>>, AllocError>
    ensures { IfOk result (λ r. view_branches r.items
        ≡ mapped_branches (P.mapping pass.now) (view_branches branches.now)) }
{
    let mut mapped = Vec::with_capacity(alloc, branches.len())?;
    for branch in branches {
        let test = mapped_expr(alloc, pass, &branch.test)?;
        let body = mapped_body(alloc, pass, &branch.body)?;
        mapped.push(Branch { test, body })?;
    }
    Ok(mapped)
}

/// The same of each choice of a CASE, in the same order.
#[cycle(map)]
fn mapped_choices<V, W: Drop, P: Pass<V, W>>(
    alloc: Global,
    pass: &P,
    choices: &[Choice<V>],
) -> Result<Vec<Choice<W>>, AllocError>
    ensures { IfOk result (λ r. view_choices r.items
        ≡ mapped_choices (P.mapping pass.now) (view_choices choices.now)) }
{
    let mut mapped = Vec::with_capacity(alloc, choices.len())?;
    for choice in choices {
        let labels = copy_labels(alloc, &choice.labels)?;
        let body = mapped_body(alloc, pass, &choice.body)?;
        mapped.push(Choice { labels, body })?;
    }
    Ok(mapped)
}

/// The same of each statement of a body, in the same order.
#[cycle(map)]
pub(crate) fn mapped_body<V, W: Drop, P: Pass<V, W>>(
    alloc: Global,
    pass: &P,
    body: &[Stmt<V>],
) -> Result<Vec<Stmt<W>>, AllocError>
    ensures { IfOk result (λ r. view_body r.items
        ≡ mapped_body (P.mapping pass.now) (view_body body.now)) }
{
    let mut mapped = Vec::with_capacity(alloc, body.len())?;
    for stmt in body {
        mapped.push(mapped_stmt(alloc, pass, stmt)?)?;
    }
    Ok(mapped)
}

//! The statements of a body, in order of text.

use plant_types::{Kind, Text};
use st_tree::{Argument, Branch, Choice, Expr, Stmt};
use std::alloc::{AllocError, Global};

/// A step of a walk over the statements of a body.
#[derive(Clone, Copy, Drop)]
pub enum Step<'t> {
    Assign(&'t Text, &'t Expr<Text>),
    /// An element of an array is assigned: the array, the index and the value.
    Store(&'t Text, &'t Expr<Text>, &'t Expr<Text>),
    Call(&'t Text, &'t [Argument<Text>]),
    /// The test of an IF, or the selector of a CASE, which has to be of a kind.
    Value(&'t Expr<Text>, Kind),
    /// The labels of the choice of a number, of these of a CASE.
    Labels(&'t [Choice<Text>], usize),
    /// A FOR: its variable, its bounds and its step.
    For(&'t Text, &'t Expr<Text>, &'t Expr<Text>, &'t Option<Expr<Text>>),
    /// A FOR ends.
    EndFor,
}

/// Adds the steps of branches.
#[cycle(steps)]
fn add_branches<'t>(
    branches: &'t [Branch<Text>],
    steps: &mut Vec<Step<'t>>,
) -> Result<(), AllocError> {
    for branch in branches {
        steps.push(Step::Value(&branch.test, Kind::Bool))?;
        add_steps(&branch.body, steps)?;
    }
    Ok(())
}

/// Adds the steps of choices.
#[cycle(steps)]
fn add_choices<'t>(
    choices: &'t [Choice<Text>],
    steps: &mut Vec<Step<'t>>,
) -> Result<(), AllocError> {
    for (number, choice) in choices.iter().enumerate() {
        steps.push(Step::Labels(choices, number))?;
        add_steps(&choice.body, steps)?;
    }
    Ok(())
}

/// Adds the steps of a statement.
#[cycle(steps)]
fn add_step<'t>(stmt: &'t Stmt<Text>, steps: &mut Vec<Step<'t>>) -> Result<(), AllocError> {
    match stmt {
        Stmt::Empty(_) => {}
        Stmt::Assign(_, name, expr) => steps.push(Step::Assign(name, expr))?,
        Stmt::Store {
            array,
            index,
            value,
            ..
        } => steps.push(Step::Store(array, index, value))?,
        Stmt::Call(_, instance, arguments) => steps.push(Step::Call(instance, arguments))?,
        Stmt::If(_, branches, last) => {
            add_branches(branches, steps)?;
            add_steps(last, steps)?;
        }
        Stmt::Case(_, selector, choices, last) => {
            steps.push(Step::Value(selector, Kind::Dint))?;
            add_choices(choices, steps)?;
            add_steps(last, steps)?;
        }
        Stmt::For {
            variable,
            from,
            to,
            by,
            body,
            ..
        } => {
            steps.push(Step::For(variable, from, to, by))?;
            add_steps(body, steps)?;
            steps.push(Step::EndFor)?;
        }
    }
    Ok(())
}

/// Adds the steps of statements.
#[cycle(steps)]
fn add_steps<'t>(stmts: &'t [Stmt<Text>], steps: &mut Vec<Step<'t>>) -> Result<(), AllocError> {
    for stmt in stmts {
        add_step(stmt, steps)?;
    }
    Ok(())
}

/// The steps of a body, in order of text.
pub fn steps_of<'t>(alloc: Global, body: &'t [Stmt<Text>]) -> Result<Vec<Step<'t>>, AllocError> {
    let mut steps = Vec::new(alloc);
    add_steps(body, &mut steps)?;
    Ok(steps)
}

//! A rule that each statement of a body keeps.

ghost use Rattle.std.specs.Prelude.{◌≡◌, Bool, IfOk};
ghost use Rattle.st_tree.specs.Plain.{PlainStmt};
ghost use Rattle.st_tree.specs.View.{view_stmt, view_body, view_branches, view_choices};
ghost use Rattle.st_tree.specs.Every.{every, every_inside, every_branch, every_choice};

use crate::tree::{Branch, Choice, Stmt};
use std::alloc::{AllocError, Global};

/// A rule of a statement by itself: of its own names and expressions, and not of the statements inside it.
pub trait Rule<V> {
    /// Whether a statement keeps the rule.
    ghost rule: { Self → PlainStmt V → Bool };

    /// Whether a statement keeps the rule, whatever is inside it.
    fn keeps(&self, alloc: Global, stmt: &Stmt<V>) -> Result<bool, AllocError>
        ensures { IfOk result (λ keeps. keeps ≡ rule self.now (view_stmt stmt.now)) };
}

#[cycle(every)]
fn every_inside<V, R: Rule<V>>(alloc: Global, rule: &R, stmt: &Stmt<V>) -> Result<bool, AllocError>
    ensures { IfOk result (λ keep. keep ≡ every_inside (R.rule rule.now) (view_stmt stmt.now)) }
{
    match stmt {
        Stmt::Empty(_) | Stmt::Assign(_, _, _) | Stmt::Store { .. } | Stmt::Call(_, _, _) => Ok(
            true,
        ),
        Stmt::If(_, branches, last) => {
            if !every_branch(alloc, rule, branches)? {
                return Ok(false);
            }
            every(alloc, rule, last)
        }
        Stmt::Case(_, _, choices, last) => {
            if !every_choice(alloc, rule, choices)? {
                return Ok(false);
            }
            every(alloc, rule, last)
        }
        Stmt::For { body, .. } => every(alloc, rule, body),
    }
}

#[cycle(every)]
fn every_branch<V, R: Rule<V>>(
    alloc: Global,
    rule: &R,
    branches: &[Branch<V>],
) -> Result<bool, AllocError>
    ensures { IfOk result (λ keep. keep ≡ every_branch (R.rule rule.now) (view_branches branches.now)) }
{
    for branch in branches {
        if !every(alloc, rule, &branch.body)? {
            return Ok(false);
        }
    }
    Ok(true)
}

#[cycle(every)]
fn every_choice<V, R: Rule<V>>(
    alloc: Global,
    rule: &R,
    choices: &[Choice<V>],
) -> Result<bool, AllocError>
    ensures { IfOk result (λ keep. keep ≡ every_choice (R.rule rule.now) (view_choices choices.now)) }
{
    for choice in choices {
        if !every(alloc, rule, &choice.body)? {
            return Ok(false);
        }
    }
    Ok(true)
}

/// Whether each statement of a body keeps a rule, and each statement inside one of them.
#[cycle(every)]
pub fn every<V, R: Rule<V>>(alloc: Global, rule: &R, body: &[Stmt<V>]) -> Result<bool, AllocError>
    ensures { IfOk result (λ keep. keep ≡ every (R.rule rule.now) (view_body body.now)) }
{
    for stmt in body {
        if !rule.keeps(alloc, stmt)? {
            return Ok(false);
        }
        if !every_inside(alloc, rule, stmt)? {
            return Ok(false);
        }
    }
    Ok(true)
}

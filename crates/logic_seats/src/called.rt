//! The instances that a body calls.

ghost use Rattle.std.specs.Prelude.{◌≡◌, ◌||◌, ℕ, List, IfOk};
ghost use Rattle.std.specs.List.{list_any};
ghost use Rattle.plant_types.specs.Words.{same_word};
ghost use Rattle.base_words.specs.Names.{is_among};
ghost use Rattle.st_tree.specs.View.{view_stmt, view_body, view_branches, view_choices};
ghost use Rattle.logic_source.specs.Paths.{called_in, called_in_stmt, called_in_branches, called_in_choices};

use base_words::Names;
use plant_types::Text;
use st_tree::{Branch, Choice, Stmt};
use std::alloc::{AllocError, Global};

/// Whether a name is among names, in any letter case.
pub fn is_among(names: &Names, name: &Text) -> bool
    ensures { result ≡ is_among names.now name.now }
{
    names.find(name.as_str()).is_some()
}

/// Adds a name.
fn add_name(alloc: Global, names: &mut Names, name: &Text) -> Result<(), AllocError>
    ensures { IfOk result (λ _. (n : List ℕ)
        → is_among names.new n ≡ (is_among names.old n || same_word n name.now)) }
{
    let _is_new = names.add(alloc, name.as_str())?;
    Ok(())
}

/// Adds the names of the instances that a statement calls.
#[cycle(calls)]
fn add_stmt(alloc: Global, names: &mut Names, stmt: &Stmt<Text>) -> Result<(), AllocError>
    ensures { IfOk result (λ _. (n : List ℕ)
        → is_among names.new n
        ≡ (is_among names.old n || list_any (same_word n) (called_in_stmt (view_stmt stmt.now)))) }
{
    match stmt {
        Stmt::Empty(_) | Stmt::Assign(_, _, _) | Stmt::Store { .. } => Ok(()),
        Stmt::Call(_, instance, _) => add_name(alloc, names, instance),
        Stmt::If(_, branches, last) => {
            add_branches(alloc, names, branches)?;
            add_body(alloc, names, last)
        }
        Stmt::Case(_, _, choices, last) => {
            add_choices(alloc, names, choices)?;
            add_body(alloc, names, last)
        }
        Stmt::For { body, .. } => add_body(alloc, names, body),
    }
}

/// Adds the names of the instances that the branches of an IF call.
#[cycle(calls)]
fn add_branches(
    alloc: Global,
    names: &mut Names,
    branches: &[Branch<Text>],
) -> Result<(), AllocError>
    ensures { IfOk result (λ _. (n : List ℕ)
        → is_among names.new n
        ≡ (is_among names.old n || list_any (same_word n)
        (called_in_branches (view_branches branches.now)))) }
{
    for branch in branches {
        add_body(alloc, names, &branch.body)?;
    }
    Ok(())
}

/// Adds the names of the instances that the choices of a CASE call.
#[cycle(calls)]
fn add_choices(alloc: Global, names: &mut Names, choices: &[Choice<Text>]) -> Result<(), AllocError>
    ensures { IfOk result (λ _. (n : List ℕ)
        → is_among names.new n
        ≡ (is_among names.old n || list_any (same_word n)
        (called_in_choices (view_choices choices.now)))) }
{
    for choice in choices {
        add_body(alloc, names, &choice.body)?;
    }
    Ok(())
}

/// Adds the names of the instances that a body calls.
#[cycle(calls)]
fn add_body(alloc: Global, names: &mut Names, body: &[Stmt<Text>]) -> Result<(), AllocError>
    ensures { IfOk result (λ _. (n : List ℕ)
        → is_among names.new n
        ≡ (is_among names.old n || list_any (same_word n) (called_in (view_body body.now)))) }
{
    for stmt in body {
        add_stmt(alloc, names, stmt)?;
    }
    Ok(())
}

/// The names of the instances that a body calls, each word once.
pub fn called_in(alloc: Global, body: &[Stmt<Text>]) -> Result<Names, AllocError>
    ensures { IfOk result (λ names. (n : List ℕ)
        → is_among names n ≡ list_any (same_word n) (called_in (view_body body.now))) }
{
    let mut names = Names::new(alloc);
    add_body(alloc, &mut names, body)?;
    Ok(names)
}

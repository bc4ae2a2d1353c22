//! Whether the names that units use are there.

ghost use Rattle.std.specs.Prelude.{◌≡◌, ◌&&◌, not, IfOk, map, option_map, is_some};
ghost use Rattle.std.specs.List.{list_all};
ghost use Rattle.st_tree.specs.View.{view_expr, view_option, view_argument, view_branches, view_body};
ghost use Rattle.st_parser.specs.Units.{view_declaration, view_section};
ghost use Rattle.st_names.specs.DeclaredNames.{declared_as, declared_together, declared_by, declared_in};
ghost use Rattle.st_names.specs.Every.{tests_of};
ghost use Rattle.st_names.specs.Scopes.{instance_type, is_external};
ghost use Rattle.st_names.specs.Known.{expr_known, option_known, argument_known, are_members, stmt_known, body_known, sort_known, declared_known};
ghost use Rattle.st_names.specs.Asked.{is_member_of, bounds_known, call_known};

use crate::repeated::{inputs_repeat, outputs_repeat};
use crate::rules::{StatementRule, every};
use crate::scope::Scope;
use plant_types::Text;
use st_parser::{Declaration, Section, SectionKind, Sort};
use st_tree::{Argument, Branch, Expr, Stmt};
use std::alloc::{AllocError, Global};

/// Whether each name that an expression reads is there.
fn expr_known<S: Scope>(scope: &S, expr: &Expr<Text>) -> bool
    ensures { result ≡ expr_known (S.units scope.now) (S.own scope.now) (view_expr expr.now) }
{
    match expr {
        Expr::Literal(_) => true,
        Expr::Read(name) => scope.is_named(name),
        Expr::Output(instance, name) => scope.has_output(instance, name),
        Expr::Element(name, _, index) => scope.is_named(name) && expr_known(scope, index),
        Expr::Unary(_, a) => expr_known(scope, a),
        Expr::Binary(_, a, b) => expr_known(scope, a) && expr_known(scope, b),
    }
}

fn option_known<S: Scope>(scope: &S, expr: &Option<Expr<Text>>) -> bool
    ensures { result ≡ option_known (S.units scope.now) (S.own scope.now) (view_option expr.now) }
{
    match expr {
        Some(expr) => expr_known(scope, expr),
        None => true,
    }
}

/// Whether the names in the tests of an IF are there.
fn tests_known<S: Scope>(scope: &S, branches: &[Branch<Text>]) -> bool
    ensures { result
        ≡ list_all (expr_known (S.units scope.now) (S.own scope.now))
        (tests_of (view_branches branches.now)) }
{
    for branch in branches {
        if !expr_known(scope, &branch.test) {
            return false;
        }
    }
    true
}

/// Whether the names in the arguments of a call are there, but for those of inputs and outputs.
fn arguments_known<S: Scope>(scope: &S, arguments: &[Argument<Text>]) -> bool
    ensures { result
        ≡ list_all (argument_known (S.units scope.now) (S.own scope.now))
        (map view_argument arguments.now) }
{
    for argument in arguments {
        let known = match argument {
            Argument::Input(_, expr) => expr_known(scope, expr),
            Argument::Output(_, variable) => scope.is_named(variable),
        };
        if !known {
            return false;
        }
    }
    true
}

/// Whether arguments are inputs and outputs of the block type of an instance.
fn each_is_member<S: Scope>(scope: &S, instance: &Text, arguments: &[Argument<Text>]) -> bool
    ensures { result
        ≡ list_all (is_member_of (S.units scope.now) (S.own scope.now) instance.now)
        (map view_argument arguments.now) }
{
    for argument in arguments {
        let is_member = match argument {
            Argument::Input(name, _) => scope.has_input(instance, name),
            Argument::Output(name, _) => scope.has_output(instance, name),
        };
        if !is_member {
            return false;
        }
    }
    true
}

/// Whether the arguments of a call are members of its block type, each given once.
#[tactic(auto, using(crate::proofs::Asked::no_instance, crate::proofs::Asked::of_instance))]
fn are_members<S: Scope>(
    alloc: Global,
    scope: &S,
    instance: &Text,
    arguments: &[Argument<Text>],
) -> Result<bool, AllocError>
    ensures { IfOk result (λ are. are
        ≡ are_members (instance_type (S.units scope.now) (S.own scope.now) instance.now)
        (map view_argument arguments.now)) }
{
    if !scope.is_instance(instance) {
        return Ok(true);
    }
    if !each_is_member(scope, instance, arguments) {
        return Ok(false);
    }
    if inputs_repeat(alloc, arguments)? {
        return Ok(false);
    }
    let repeat = outputs_repeat(alloc, arguments)?;
    Ok(!repeat)
}

/// Whether the names of a call are there.
fn call_known<S: Scope>(
    alloc: Global,
    scope: &S,
    instance: &Text,
    arguments: &[Argument<Text>],
) -> Result<bool, AllocError>
    ensures { IfOk result (λ known. known
        ≡ call_known (S.units scope.now) (S.own scope.now) instance.now
        (map view_argument arguments.now)) }
{
    if !scope.is_named(instance) {
        return Ok(false);
    }
    if !arguments_known(scope, arguments) {
        return Ok(false);
    }
    are_members(alloc, scope, instance, arguments)
}

/// Whether the names in the head of a FOR are there.
fn bounds_known<S: Scope>(
    scope: &S,
    variable: &Text,
    from: &Expr<Text>,
    to: &Expr<Text>,
    by: &Option<Expr<Text>>,
) -> bool
    ensures { result
        ≡ bounds_known (S.units scope.now) (S.own scope.now) variable.now (view_expr from.now)
        (view_expr to.now) (view_option by.now) }
{
    scope.is_named(variable)
        && expr_known(scope, from)
        && expr_known(scope, to)
        && option_known(scope, by)
}

/// The rule that the names of a statement are there.
#[derive(Drop)]
struct NamesKnown<'a, S> {
    scope: &'a S,
}

impl<'a, S: Scope> StatementRule for NamesKnown<'a, S> {
    ghost rule = { λ known. stmt_known (S.units known.scope.now) (S.own known.scope.now) };

    fn keeps(&self, alloc: Global, stmt: &Stmt<Text>) -> Result<bool, AllocError> {
        let scope = self.scope;
        match stmt {
            Stmt::Empty(_) => Ok(true),
            Stmt::Assign(_, variable, expr) => {
                Ok(scope.is_named(variable) && expr_known(scope, expr))
            }
            Stmt::Store {
                array,
                index,
                value,
                ..
            } => Ok(scope.is_named(array) && expr_known(scope, index) && expr_known(scope, value)),
            Stmt::Call(_, instance, arguments) => call_known(alloc, scope, instance, arguments),
            Stmt::If(_, branches, _) => Ok(tests_known(scope, branches)),
            Stmt::Case(_, selector, _, _) => Ok(expr_known(scope, selector)),
            Stmt::For {
                variable,
                from,
                to,
                by,
                ..
            } => Ok(bounds_known(scope, variable, from, to, by)),
        }
    }
}

/// Whether the names of a body are there.
pub fn body_known<S: Scope>(
    alloc: Global,
    scope: &S,
    body: &[Stmt<Text>],
) -> Result<bool, AllocError>
    ensures { IfOk result (λ known. known
        ≡ body_known (S.units scope.now) (S.own scope.now) (view_body body.now)) }
{
    let rule = NamesKnown { scope };
    every(alloc, &rule, body)
}

/// Whether the block type of a word is there; a kind is.
fn sort_known<S: Scope>(scope: &S, sort: &Sort) -> bool
    ensures { result ≡ sort_known (S.units scope.now) sort.now }
{
    match sort {
        Sort::Kind(_) | Sort::Array(_, _) => true,
        Sort::Block(word) => scope.is_block_type(word),
    }
}

/// Whether what a name of a declaration needs is there: the block type and the names in the initial value, which all its names share, and the
/// global of a `VAR_EXTERNAL`.
fn name_known<S: Scope>(
    scope: &S,
    section: SectionKind,
    declaration: &Declaration,
    typed: bool,
    initial: bool,
    name: &Text,
) -> bool
    requires typed { typed ≡ sort_known (S.units scope.now) declaration.now.sort }
    requires initial { initial
        ≡ option_known (S.units scope.now) (S.own scope.now)
        (option_map view_expr declaration.now.initial) }
    ensures { result
        ≡ declared_known (S.units scope.now) (S.own scope.now)
        (declared_as section (view_declaration declaration.now) name.now) }
{
    if !typed {
        return false;
    }
    if !initial {
        return false;
    }
    match section {
        SectionKind::External => scope.is_global(name),
        SectionKind::Global | SectionKind::Local | SectionKind::Input | SectionKind::Output => true,
    }
}

/// Whether what each name of a declaration needs is there.
fn declaration_known<S: Scope>(scope: &S, section: SectionKind, declaration: &Declaration) -> bool
    ensures { result
        ≡ list_all (declared_known (S.units scope.now) (S.own scope.now))
        (declared_together section (view_declaration declaration.now)) }
{
    let typed = sort_known(scope, &declaration.sort);
    let initial = option_known(scope, &declaration.initial);
    for name in &declaration.names {
        if !name_known(scope, section, declaration, typed, initial, name) {
            return false;
        }
    }
    true
}

/// Whether what each declaration of a section needs is there.
fn section_known<S: Scope>(scope: &S, section: &Section) -> bool
    ensures { result
        ≡ list_all (declared_known (S.units scope.now) (S.own scope.now))
        (declared_by (view_section section.now)) }
{
    for declaration in &section.declarations {
        if !declaration_known(scope, section.kind, declaration) {
            return false;
        }
    }
    true
}

/// Whether what each declaration of sections needs is there.
pub fn sections_known<S: Scope>(scope: &S, sections: &[Section]) -> bool
    ensures { result
        ≡ list_all (declared_known (S.units scope.now) (S.own scope.now))
        (declared_in (map view_section sections.now)) }
{
    for section in sections {
        if !section_known(scope, section) {
            return false;
        }
    }
    true
}

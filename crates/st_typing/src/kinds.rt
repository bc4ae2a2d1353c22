//! The kinds of what declarations and statements have (C7).

ghost use Rattle.std.specs.Prelude.{◌≡◌, ◌&&◌, [], IfOk, map, option_map};
ghost use Rattle.std.specs.List.{list_all};
ghost use Rattle.st_tree.specs.View.{view_expr, view_option, view_argument, view_branches};
ghost use Rattle.st_tree.specs.Kinds.{kind_of_expr, is_kind};
ghost use Rattle.st_tree.specs.Fits.{sorts_of, is_of, option_is_of, fits_option, takes, argument_fits};
ghost use Rattle.st_names.specs.Units.{view_declaration, view_section, view_pou};
ghost use Rattle.st_names.specs.DeclaredNames.{declared_as, declared_together, declared_by, declared_in, sort_kind};
ghost use Rattle.st_names.specs.Every.{tests_of};
ghost use Rattle.st_names.specs.Scopes.{element_kind};
ghost use Rattle.st_typing.specs.Kinds.{context_of, parts_fit, initial_fits, instance_fits, is_array, array_stands, declared_fits, is_global, globals_misfit, pou_misfit};

use plant_types::{Bounds, Kind, Text};
use st_names::{
    Declaration, Pou, Scope, Section, SectionKind, Sort, StatementRule, every, sort_kind,
};
use st_tree::{Argument, Branch, Expr, Stmt, binary_kind, is_bit, unary_kind};
use std::alloc::{AllocError, Global};

/// The kind of the elements of the array of a name; `None` if there is none of the name.
fn element_kind<S: Scope>(scope: &S, name: &Text) -> Option<Kind>
    ensures { result ≡ element_kind (S.units scope.now) (S.own scope.now) name.now }
{
    match scope.array(name) {
        Some((_, kind)) => Some(kind),
        None => None,
    }
}

/// The kind of an expression; `None` if an operator doesn't take its operands, an index isn't a DINT, or a name has no kind.
fn kind_of_expr<S: Scope>(scope: &S, expr: &Expr<Text>) -> Option<Kind>
    ensures { result
        ≡ kind_of_expr (sorts_of (context_of (S.units scope.now) (S.own scope.now)))
        (view_expr expr.now) }
{
    match expr {
        Expr::Literal(literal) => Some(literal.kind()),
        Expr::Read(name) => scope.variable_kind(name),
        Expr::Output(instance, name) => scope.output_kind(instance, name),
        Expr::Element(name, _, index) => {
            if is_kind(Kind::Dint, kind_of_expr(scope, index)) {
                element_kind(scope, name)
            } else {
                None
            }
        }
        Expr::Unary(op, a) => {
            let kind = kind_of_expr(scope, a)?;
            unary_kind(*op, kind)
        }
        Expr::Binary(op, a, b) => {
            let left = kind_of_expr(scope, a)?;
            let right = kind_of_expr(scope, b)?;
            binary_kind(*op, left, right)
        }
    }
}

/// Whether there is a kind, and it is this one.
fn is_kind(kind: Kind, found: Option<Kind>) -> bool
    ensures { result ≡ is_kind kind found }
{
    match (kind, found) {
        (Kind::Bool, Some(Kind::Bool)) => true,
        (Kind::Dint, Some(Kind::Dint)) => true,
        (Kind::Time, Some(Kind::Time)) => true,
        _ => false,
    }
}

fn is_of<S: Scope>(scope: &S, kind: Kind, expr: &Expr<Text>) -> bool
    ensures { result
        ≡ is_of (context_of (S.units scope.now) (S.own scope.now)) kind (view_expr expr.now) }
{
    is_kind(kind, kind_of_expr(scope, expr))
}

/// The same of an expression that may be left out.
fn option_is_of<S: Scope>(scope: &S, kind: Kind, expr: &Option<Expr<Text>>) -> bool
    ensures { result
        ≡ option_is_of (context_of (S.units scope.now) (S.own scope.now)) kind (view_option expr.now) }
{
    match expr {
        Some(expr) => is_of(scope, kind, expr),
        None => true,
    }
}

/// Whether an expression may be all that a variable of a kind is given: it is of the kind, or the integer 0 or 1 for a BOOL (this profile).
fn fits_option<S: Scope>(scope: &S, kind: Option<Kind>, expr: &Expr<Text>) -> bool
    ensures { result
        ≡ fits_option (context_of (S.units scope.now) (S.own scope.now)) kind (view_expr expr.now) }
{
    match kind {
        Some(kind) => {
            is_of(scope, kind, expr) || (is_kind(kind, Some(Kind::Bool)) && is_bit(expr))
        }
        None => false,
    }
}

/// Whether an argument of a call fits the input or output that it names.
fn argument_fits<S: Scope>(scope: &S, instance: &Text, argument: &Argument<Text>) -> bool
    ensures { result
        ≡ argument_fits (context_of (S.units scope.now) (S.own scope.now)) instance.now
        (view_argument argument.now) }
{
    match argument {
        Argument::Input(name, expr) => fits_option(scope, scope.input_kind(instance, name), expr),
        Argument::Output(name, variable) => match scope.variable_kind(variable) {
            Some(kind) => {
                scope.is_assignable(variable) && is_kind(kind, scope.output_kind(instance, name))
            }
            None => false,
        },
    }
}

fn arguments_fit<S: Scope>(scope: &S, instance: &Text, arguments: &[Argument<Text>]) -> bool
    ensures { result
        ≡ list_all (argument_fits (context_of (S.units scope.now) (S.own scope.now)) instance.now)
        (map view_argument arguments.now) }
{
    for argument in arguments {
        if !argument_fits(scope, instance, argument) {
            return false;
        }
    }
    true
}

fn tests_fit<S: Scope>(scope: &S, branches: &[Branch<Text>]) -> bool
    ensures { result
        ≡ list_all (is_of (context_of (S.units scope.now) (S.own scope.now)) Kind.Bool)
        (tests_of (view_branches branches.now)) }
{
    for branch in branches {
        if !is_of(scope, Kind::Bool, &branch.test) {
            return false;
        }
    }
    true
}

/// Whether an expression may be assigned to a variable.
fn takes<S: Scope>(scope: &S, name: &Text, expr: &Expr<Text>) -> bool
    ensures { result
        ≡ takes (context_of (S.units scope.now) (S.own scope.now)) name.now (view_expr expr.now) }
{
    scope.is_assignable(name) && fits_option(scope, scope.variable_kind(name), expr)
}

/// The rule that a statement's own parts have the kinds that they must have.
#[derive(Drop)]
struct PartsFit<'a, S: Scope> {
    scope: &'a S,
}

impl<'a, S: Scope> StatementRule for PartsFit<'a, S> {
    ghost use Rattle.st_typing.specs.Kinds.{context_of, parts_fit};

    ghost rule = { λ r. parts_fit (context_of (S.units r.scope.now) (S.own r.scope.now)) };

    fn keeps(&self, _alloc: Global, stmt: &Stmt<Text>) -> Result<bool, AllocError> {
        let scope = self.scope;
        Ok(match stmt {
            Stmt::Empty(_) => true,
            Stmt::Assign(_, name, expr) => takes(scope, name, expr),
            Stmt::Store {
                array,
                index,
                value,
                ..
            } => {
                is_of(scope, Kind::Dint, index)
                    && fits_option(scope, element_kind(scope, array), value)
            }
            Stmt::Call(_, instance, arguments) => {
                scope.is_instance(instance) && arguments_fit(scope, instance, arguments)
            }
            Stmt::If(_, branches, _) => tests_fit(scope, branches),
            Stmt::Case(_, selector, _, _) => is_of(scope, Kind::Dint, selector),
            Stmt::For { from, to, by, .. } => {
                is_of(scope, Kind::Dint, from)
                    && is_of(scope, Kind::Dint, to)
                    && option_is_of(scope, Kind::Dint, by)
            }
        })
    }
}

/// Whether an initial value, if one is written, may be assigned to a variable of a kind.
fn initial_fits<S: Scope>(scope: &S, kind: Option<Kind>, initial: &Option<Expr<Text>>) -> bool
    ensures { result
        ≡ initial_fits (S.units scope.now) (S.own scope.now) kind (option_map view_expr initial.now) }
{
    match initial {
        Some(expr) => fits_option(scope, kind, expr),
        None => true,
    }
}

/// Whether there is an array, and it has these bounds and elements of this kind.
fn is_array(bounds: Bounds, kind: Kind, found: Option<(Bounds, Kind)>) -> bool
    ensures { result ≡ is_array bounds kind found }
{
    match found {
        Some((other, of)) => {
            bounds.low == other.low && bounds.high == other.high && is_kind(kind, Some(of))
        }
        None => false,
    }
}

/// Whether an array of a name stands in a section: in VAR and VAR_GLOBAL, and in VAR_EXTERNAL where the global of the name is an array of
/// the same bounds and kind.
fn array_stands<S: Scope>(
    scope: &S,
    section: SectionKind,
    bounds: Bounds,
    kind: Kind,
    name: &Text,
) -> bool
    ensures { result ≡ array_stands (S.units scope.now) name.now bounds kind section }
{
    match section {
        SectionKind::Global | SectionKind::Local => true,
        SectionKind::External => is_array(bounds, kind, scope.global_array(name)),
        SectionKind::Input | SectionKind::Output => false,
    }
}

/// Whether a name of a declaration fits, by whether the initial value, which all its names share, suits it: an instance stands in VAR and
/// has no initial value, an array stands where it may and has none, and a VAR_EXTERNAL has the kind of its global and none.
fn name_fits<S: Scope>(
    scope: &S,
    section: SectionKind,
    declaration: &Declaration,
    initial: bool,
    name: &Text,
) -> bool
    requires { initial
        ≡ initial_fits (S.units scope.now) (S.own scope.now) (sort_kind declaration.now.sort)
        (option_map view_expr declaration.now.initial) }
    ensures { result
        ≡ declared_fits (S.units scope.now) (S.own scope.now)
        (declared_as section (view_declaration declaration.now) name.now) }
{
    match (&declaration.sort, section) {
        (Sort::Block(_), SectionKind::Local) => declaration.initial.is_none(),
        (Sort::Block(_), _) => false,
        (Sort::Array(bounds, kind), _) => {
            declaration.initial.is_none() && array_stands(scope, section, *bounds, *kind, name)
        }
        (Sort::Kind(kind), SectionKind::External) => {
            declaration.initial.is_none() && is_kind(*kind, scope.global_kind(name))
        }
        (Sort::Kind(_), _) => initial,
    }
}

fn declaration_fits<S: Scope>(scope: &S, section: SectionKind, declaration: &Declaration) -> bool
    ensures { result
        ≡ list_all (declared_fits (S.units scope.now) (S.own scope.now))
        (declared_together section (view_declaration declaration.now)) }
{
    let kind = sort_kind(&declaration.sort);
    let initial = initial_fits(scope, kind, &declaration.initial);
    for name in &declaration.names {
        if !name_fits(scope, section, declaration, initial, name) {
            return false;
        }
    }
    true
}

fn section_fits<S: Scope>(scope: &S, section: &Section) -> bool
    ensures { result
        ≡ list_all (declared_fits (S.units scope.now) (S.own scope.now))
        (declared_by (view_section section.now)) }
{
    for declaration in &section.declarations {
        if !declaration_fits(scope, section.kind, declaration) {
            return false;
        }
    }
    true
}

fn sections_fit<S: Scope>(scope: &S, sections: &[Section]) -> bool
    ensures { result
        ≡ list_all (declared_fits (S.units scope.now) (S.own scope.now))
        (declared_in (map view_section sections.now)) }
{
    for section in sections {
        if !section_fits(scope, section) {
            return false;
        }
    }
    true
}

fn are_global(sections: &[Section]) -> bool
    ensures { result ≡ list_all is_global (map view_section sections.now) }
{
    for section in sections {
        if !matches!(section.kind, SectionKind::Global) {
            return false;
        }
    }
    true
}

/// Whether a declaration of globals has something of another kind than it must have.
pub fn globals_misfit<S: Scope>(scope: &S, sections: &[Section]) -> bool
    requires { S.own scope.now ≡ [] }
    ensures { result ≡ globals_misfit (S.units scope.now) (map view_section sections.now) }
{
    !(are_global(sections) && sections_fit(scope, sections))
}

/// Whether a block or program has something of another kind than it must have.
#[tactic(auto, using(crate::proofs::Parts::body_parts))]
pub fn pou_misfit<S: Scope>(alloc: Global, scope: &S, pou: &Pou) -> Result<bool, AllocError>
    requires { S.own scope.now ≡ declared_in (view_pou pou.now).sections }
    ensures { IfOk result (λ misfit. misfit ≡ pou_misfit (S.units scope.now) (view_pou pou.now)) }
{
    if !sections_fit(scope, &pou.sections) {
        return Ok(true);
    }
    let fit = every(alloc, &PartsFit { scope }, &pou.body)?;
    Ok(!fit)
}

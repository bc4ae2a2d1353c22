//! Copies of trees.

ghost use Rattle.std.specs.Prelude.{◌≡◌, ℕ, true, IfOk};
ghost use Rattle.st_tree.specs.View.{view_expr, view_body};
ghost use Rattle.st_tree.specs.Alike.{RangedSpace};
ghost use Rattle.st_tree.specs.Mapping.{identity, all_known};

use crate::map::{mapped_body, mapped_expr};
use crate::pass::Pass;
use crate::tree::{Expr, Label, Stmt};
use plant_types::Text;
use std::alloc::{AllocError, Global};

/// A variable of a tree that can be copied.
pub trait Duplicate: Drop {
    /// Returns the same variable; fails only where memory is refused.
    fn duplicate(&self, alloc: Global) -> Result<Self, AllocError>
        ensures { IfOk result (λ v. v ≡ self.now) };
}

impl Duplicate for Text {
    fn duplicate(&self, alloc: Global) -> Result<Text, AllocError> {
        self.copy(alloc)
    }
}

impl Duplicate for usize {
    fn duplicate(&self, _alloc: Global) -> Result<usize, AllocError> {
        Ok(*self)
    }
}

/// The pass that changes nothing. Its worlds are of a type that has no part in it: what it makes of a tree is the same tree.
#[derive(Drop)]
struct Copies;

impl<V: Duplicate> Pass<V, V> for Copies {
    ghost Before = { ℕ };

    ghost After = { ℕ };

    ghost Case = { RangedSpace V ℕ };

    ghost from = { λ pass case. case.space };

    ghost to = { λ pass case. case.space };

    ghost matches = { λ pass case a b. (a ≡ b) × (case.holds a ≡ true) };

    ghost context = { λ pass case. case.context };

    ghost known = { λ pass. all_known };

    ghost mapping = { λ pass. identity };

    fn variable(&self, alloc: Global, name: &V) -> Result<V, AllocError> {
        name.duplicate(alloc)
    }

    fn array(&self, alloc: Global, name: &V) -> Result<V, AllocError> {
        name.duplicate(alloc)
    }

    fn instance(&self, alloc: Global, name: &V) -> Result<V, AllocError> {
        name.duplicate(alloc)
    }

    fn input_name(&self, alloc: Global, _instance: &V, name: &V) -> Result<V, AllocError> {
        name.duplicate(alloc)
    }

    fn output_name(&self, alloc: Global, _instance: &V, name: &V) -> Result<V, AllocError> {
        name.duplicate(alloc)
    }

    fn node(&self, _alloc: Global, expr: Expr<V>) -> Result<Expr<V>, AllocError>
        ensures { IfOk result (λ e. view_expr e ≡ view_expr expr) }
    {
        Ok(expr)
    }

    fn laws(&self) {}
}

/// Returns the same expression; fails only where memory is refused.
pub fn copy_expr<V: Duplicate>(alloc: Global, expr: &Expr<V>) -> Result<Expr<V>, AllocError>
    ensures { IfOk result (λ e. view_expr e ≡ view_expr expr.now) }
{
    mapped_expr(alloc, &Copies, expr)
}

/// Returns the same labels in the same order; fails only where memory is refused.
pub fn copy_labels(alloc: Global, labels: &[Label]) -> Result<Vec<Label>, AllocError>
    ensures { IfOk result (λ copy. copy.items ≡ labels.now) }
{
    labels.iter().copied().collect(alloc)
}

/// Returns the same statements in the same order; fails only where memory is refused.
pub fn copy_body<V: Duplicate>(alloc: Global, body: &[Stmt<V>]) -> Result<Vec<Stmt<V>>, AllocError>
    ensures { IfOk result (λ copy. view_body copy.items ≡ view_body body.now) }
{
    mapped_body(alloc, &Copies, body)
}

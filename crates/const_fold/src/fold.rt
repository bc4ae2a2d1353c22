//! The pass that folds constants.

ghost use Rattle.std.specs.Prelude.{◌≡◌, ℕ, true, IfOk};
ghost use Rattle.st_tree.specs.View.{view_expr, view_body};
ghost use Rattle.st_tree.specs.Alike.{RangedSpace};
ghost use Rattle.st_tree.specs.Mapping.{all_known};
ghost use Rattle.const_fold.specs.Folding.{folded_node, folding, folded_body};

use crate::literals::node_literal;
use st_tree::{Duplicate, Expr, Pass, Stmt, map_body};
use std::alloc::{AllocError, Global};

/// The pass that puts a literal in the place of each operator whose operands are literals. Its worlds are of a type that has no part in it.
#[derive(Drop)]
struct Folding;

impl<V: Duplicate> Pass<V, V> for Folding {
    ghost Before = { ℕ };

    ghost After = { ℕ };

    ghost Case = { RangedSpace V ℕ };

    ghost from = { λ pass case. case.space };

    ghost to = { λ pass case. case.space };

    ghost matches = { λ pass case a b. (a ≡ b) × (case.holds a ≡ true) };

    ghost context = { λ pass case. case.context };

    ghost known = { λ pass. all_known };

    ghost mapping = { λ pass. folding };

    fn variable(&self, alloc: Global, name: &V) -> Result<V, AllocError> {
        name.duplicate(alloc)
    }

    fn array(&self, alloc: Global, name: &V) -> Result<V, AllocError> {
        name.duplicate(alloc)
    }

    fn instance(&self, alloc: Global, name: &V) -> Result<V, AllocError> {
        name.duplicate(alloc)
    }

    fn input_name(&self, alloc: Global, _instance: &V, name: &V) -> Result<V, AllocError> {
        name.duplicate(alloc)
    }

    fn output_name(&self, alloc: Global, _instance: &V, name: &V) -> Result<V, AllocError> {
        name.duplicate(alloc)
    }

    fn node(&self, _alloc: Global, expr: Expr<V>) -> Result<Expr<V>, AllocError>
        ensures { IfOk result (λ e. view_expr e ≡ folded_node (view_expr expr)) }
    {
        match node_literal(&expr) {
            Some(literal) => Ok(Expr::Literal(literal)),
            None => Ok(expr),
        }
    }

    fn laws(&self) {}
}

/// Returns the body with its constants folded. Each operator whose operands are literals, once these are folded, is a literal of its result and of
/// its kind, unless it traps; all else is as it was.
pub fn fold_body<V: Duplicate>(alloc: Global, body: &[Stmt<V>]) -> Result<Vec<Stmt<V>>, AllocError>
    ensures { IfOk result (λ folded. view_body folded.items ≡ folded_body (view_body body.now)) }
{
    map_body(alloc, &Folding, body)
}

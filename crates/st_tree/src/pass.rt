//! A pass over a body: other names in the places of its own, and other expressions in the places of its operators.

ghost use Rattle.std.specs.Prelude.{◌≡◌, true, IfOk};
ghost use Rattle.st_tree.specs.View.{view_expr, view_body};
ghost use Rattle.st_tree.specs.Fits.{Context};
ghost use Rattle.st_tree.specs.Meaning.{Space, run_all};
ghost use Rattle.st_tree.specs.Mapping.{Mapping, mapped_expr, mapped_body, Known, expr_known};
ghost use Rattle.st_tree.specs.Alike.{Same, SameOutcome, IsLawful, IsKeptBody};

use crate::map::{mapped_body, mapped_expr};
use crate::tree::{Expr, Stmt};
use std::alloc::{AllocError, Global};

/// What stands in the place of each name of a body over variables of the type `V`, and of each operator with its operands.
/// Each method but `laws` fails only where memory is refused.
pub trait Pass<V, W> {
    /// What a run's world is before the pass, and after it.
    ghost Before: { Type 0 };

    ghost After: { Type 0 };

    /// What the worlds depend on beside the pass itself, such as the moment of a scan.
    ghost Case: { Type 0 };

    /// What the names mean before the pass, and after it.
    ghost from: { Self → Case → Space V Before };

    ghost to: { Self → Case → Space W After };

    /// Which worlds match: the same runs go on in them, and each value is in the range of its kind.
    ghost matches: { Self → Case → Before → After → Type 0 };

    /// What is declared of the names before the pass: their kinds, and which may be assigned.
    ghost context: { Self → Case → Context V };

    /// The names that a body may use.
    ghost known: { Self → Known V };

    /// What stands in the place of each of them.
    ghost mapping: { Self → Mapping V W };

    /// Returns what stands in the place of a variable.
    fn variable(&self, alloc: Global, name: &V) -> Result<W, AllocError>
        ensures { IfOk result (λ w. w ≡ (mapping self.now).variable name.now) };

    /// Returns what stands in the place of an array.
    fn array(&self, alloc: Global, name: &V) -> Result<W, AllocError>
        ensures { IfOk result (λ w. w ≡ (mapping self.now).array name.now) };

    /// Returns what stands in the place of an instance.
    fn instance(&self, alloc: Global, name: &V) -> Result<W, AllocError>
        ensures { IfOk result (λ w. w ≡ (mapping self.now).instance name.now) };

    /// Returns what stands in the place of the name of an instance's input.
    fn input_name(&self, alloc: Global, instance: &V, name: &V) -> Result<W, AllocError>
        ensures { IfOk result (λ w. w ≡ (mapping self.now).input_name instance.now name.now) };

    /// Returns what stands in the place of the name of an instance's output.
    fn output_name(&self, alloc: Global, instance: &V, name: &V) -> Result<W, AllocError>
        ensures { IfOk result (λ w. w ≡ (mapping self.now).output_name instance.now name.now) };

    /// Returns what stands in the place of an operator with its operands, whose names are already those after the pass.
    fn node(&self, alloc: Global, expr: Expr<W>) -> Result<Expr<W>, AllocError>
        ensures { IfOk result (λ e. view_expr e ≡ (mapping self.now).node (view_expr expr)) };

    /// The laws of the pass: what it puts in the place of a name that is known means the same, in worlds that match, and these match
    /// after a value of its kind is assigned to a variable that may be assigned, or to an input. It does nothing.
    fn laws(&self)
        ensures { (case : Case)
            → IsLawful (context self.now case) (known self.now) (mapping self.now) (from self.now case)
            (to self.now case) (matches self.now case) };
}

/// Returns the expression that a pass makes of an expression. In worlds that match it has the same outcome, a trap too, if the pass knows each of the
/// expression's names.
pub fn map_expr<V, W: Drop, P: Pass<V, W>>(
    alloc: Global,
    pass: &P,
    expr: &Expr<V>,
) -> Result<Expr<W>, AllocError>
    ensures tree { IfOk result (λ e. view_expr e
        ≡ mapped_expr (P.mapping pass.now) (view_expr expr.now)) }
    ensures same { IfOk result (λ e. (case : P.Case)
        → expr_known (P.known pass.now) (view_expr expr.now) ≡ true
        → SameOutcome (P.matches pass.now case) (P.from pass.now case) (P.to pass.now case)
        (view_expr expr.now) (view_expr e)) }
{
    pass.laws();
    let mapped = mapped_expr(alloc, pass, expr)?;
    Ok(mapped)
}

/// Returns the body that a pass makes of a body, each statement with the same number. From worlds that match the two do the same, if the pass knows
/// each of the body's names and the body's kinds are right: both end or both trap in the same place, and the worlds that they leave match.
pub fn map_body<V, W: Drop, P: Pass<V, W>>(
    alloc: Global,
    pass: &P,
    body: &[Stmt<V>],
) -> Result<Vec<Stmt<W>>, AllocError>
    ensures tree { IfOk result (λ r. view_body r.items
        ≡ mapped_body (P.mapping pass.now) (view_body body.now)) }
    ensures same { IfOk result (λ r. (case : P.Case)
        → IsKeptBody (P.context pass.now case) (P.known pass.now) (view_body body.now)
        → Same (P.matches pass.now case) (run_all (P.from pass.now case) (view_body body.now))
        (run_all (P.to pass.now case) (view_body r.items))) }
{
    pass.laws();
    let mapped = mapped_body(alloc, pass, body)?;
    Ok(mapped)
}

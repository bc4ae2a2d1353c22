//! Laws of folding. These functions do nothing: each has a law as its contract, for the crates above.

ghost use Rattle.std.specs.Prelude.{◌≡◌, ◌≤◌, ℕ, ℤ, Bool, true, List, Option, Some, Ok};
ghost use Rattle.plant_types.specs.declared.values.Kind.{Kind};
ghost use Rattle.st_tree.specs.declared.tree.Label.{Label};
ghost use Rattle.st_tree.specs.Constants.{constant_of};
ghost use Rattle.st_tree.specs.Costs.{body_cost, body_size};
ghost use Rattle.st_tree.specs.Every.{every};
ghost use Rattle.st_tree.specs.Fits.{Context, all_fit, controls_fit};
ghost use Rattle.st_tree.specs.Kinds.{Sorts, kind_of_expr};
ghost use Rattle.st_tree.specs.Mapping.{Known, body_known};
ghost use Rattle.st_tree.specs.Meaning.{Space, run_all};
ghost use Rattle.st_tree.specs.Plain.{PlainExpr, PlainStmt, PlainBody};
ghost use Rattle.const_fold.specs.Folding.{folded_expr, folded_stmt, folded_body};
ghost use Rattle.const_fold.specs.Laws.{IsLiteral, GoesByConstants, has_labels};

/// A folded body does what the body does, whatever its names mean: both end, or both trap by the same statement with the same trap, and they
/// leave the same world.
pub fn folded_body_does_same<V, W>()
    ensures { (space : Space V W) (body : PlainBody V) (w : W)
        → run_all space (folded_body body) w ≡ run_all space body w }
{}

/// A constant expression that has a kind and doesn't trap becomes a literal of this kind and of its value. Whether an expression is constant
/// stays as it was, and so does the outcome of a constant one: one that traps becomes no literal.
pub fn folded_constants_are_literals<V>()
    ensures literals { (sorts : Sorts V) (e : PlainExpr V) (k : Kind) (n : ℤ)
        → kind_of_expr sorts e ≡ Some k → constant_of e ≡ Some (Ok n) → IsLiteral k n (folded_expr e) }
    ensures constants { (e : PlainExpr V) → constant_of (folded_expr e) ≡ constant_of e }
{}

/// A folded body has the names of the body, each at its place: those that it reads, assigns and calls are known exactly where those of the
/// body are.
pub fn folded_names_stay<V>()
    ensures { (known : Known V) (body : PlainBody V)
        → body_known known (folded_body body) ≡ body_known known body }
{}

/// A folded body keeps the rules that the body keeps: that of kinds, that of control variables, and each rule of a statement by itself that
/// folding the statement leaves as it is, as a rule of the labels of a CASE, or that the bounds and steps of a FOR are constant.
pub fn folded_body_keeps_rules<V>()
    ensures kinds { (context : Context V) (body : PlainBody V) → all_fit context body ≡ true
        → all_fit context (folded_body body) ≡ true }
    ensures controls { (context : Context V) (body : PlainBody V)
        → controls_fit context (folded_body body) ≡ controls_fit context body }
    ensures rules { (rule : PlainStmt V → Bool) → ((s : PlainStmt V) → rule (folded_stmt s) ≡ rule s)
        → (body : PlainBody V) → every rule (folded_body body) ≡ every rule body }
    ensures labels { (test : List Label → Bool) (body : PlainBody V)
        → every (has_labels test) (folded_body body) ≡ every (has_labels test) body }
{}

/// A folded body is at most as large as the body, whatever the bodies of instances weigh.
pub fn folded_body_weighs_at_most<V>()
    ensures { (called : V → ℕ) (body : PlainBody V)
        → body_size called (folded_body body) ≤ body_size called body }
{}

/// A folded body costs at most what the body costs, where the turns of a FOR are counted by the constants that its bounds and step are.
pub fn folded_body_costs_at_most<V>()
    ensures { (turns : PlainExpr V → PlainExpr V → Option (PlainExpr V) → ℕ) → GoesByConstants turns
        → (called : V → ℕ) (body : PlainBody V)
        → body_cost turns called (folded_body body) ≤ body_cost turns called body }
{}

//! Laws of the definitions. These functions do nothing; each has a law as its contract, for the crates above.

ghost use Rattle.std.specs.List.{All};
ghost use Rattle.std.specs.Prelude.{◌≡◌, ℕ, ℤ, Bool, true, List, Option, Some, Ok};
ghost use Rattle.plant_types.specs.Values.{is_in_range};
ghost use Rattle.plant_types.specs.declared.values.Kind.{Kind};
ghost use Rattle.plant_types.specs.declared.values.Kind.TheVariants as kind;
ghost use Rattle.st_tree.specs.Constants.{constant_of};
ghost use Rattle.st_tree.specs.Controls.{control_values, CountsToBound};
ghost use Rattle.st_tree.specs.Fits.{Context, all_fit, controls_fit};
ghost use Rattle.st_tree.specs.Kinds.{unary_kind, binary_kind, Sorts, KindsOf, AreSorts, kind_of_expr, kind_in};
ghost use Rattle.st_tree.specs.Alike.{renamed_space};
ghost use Rattle.st_tree.specs.Mapping.{mapped_body, renaming};
ghost use Rattle.st_tree.specs.Meaning.{Space, ValuesOf, value_of, run_all};
ghost use Rattle.st_tree.specs.Operators.{Outcome, eval_unary, eval_binary};
ghost use Rattle.st_tree.specs.Plain.{PlainExpr, PlainBody};
ghost use Rattle.st_tree.specs.Ranges.{IsInvariant, Leaves, AreInRange};
ghost use Rattle.st_tree.specs.declared.controls.Span.{Span};
ghost use Rattle.st_tree.specs.declared.tree.Unary.{Unary};
ghost use Rattle.st_tree.specs.declared.tree.Binary.{Binary};

/// Where `kind_of_expr` finds a kind, `kind_in` gives the same one, if both have the same kinds of the variables, elements and outputs.
/// So in a program without faults each operator is resolved by the kind that its operands have.
pub fn kind_of_expr_is_kind_in()
    ensures { (sorts : Sorts (List ℕ)) (kinds : KindsOf (List ℕ)) → AreSorts sorts kinds
        → (e : PlainExpr (List ℕ)) (k : Kind) → kind_of_expr sorts e ≡ Some k → kind_in kinds e ≡ k }
{}

/// The outcome of a constant expression is its value, whatever its variables, elements and outputs hold.
pub fn constant_of_is_value_of<V>()
    ensures { (e : PlainExpr V) (outcome : Outcome) → constant_of e ≡ Some outcome
        → (values : ValuesOf V) → value_of values e ≡ outcome }
{}

/// The control values of a FOR are from, from + step, .. as long as they are not past the bound, in order, and no others (IEC 61131-3).
/// By a step above 0 they are at most the bound, by one below 0 at least the bound; by the step 0 there are none.
pub fn control_values_count_to_bound()
    ensures are { (span : Span) → CountsToBound span span.from (control_values span) }
    ensures only { (span : Span) (values : List ℤ) → CountsToBound span span.from values
        → values ≡ control_values span }
{}

/// The result of an operator is in the range of its kind, by operands of kinds that it takes. Only MOD asks that its left operand is in the range of its kind.
pub fn operators_stay_in_range()
    ensures unary { (op : Unary) (a r : Kind) (x n : ℤ) → unary_kind op a ≡ Some r
        → eval_unary op x ≡ Ok n → is_in_range r n ≡ true }
    ensures binary { (op : Binary) (a b r : Kind) (x y n : ℤ) → binary_kind op a b ≡ Some r
        → is_in_range a x ≡ true → eval_binary op x y ≡ Ok n → is_in_range r n ≡ true }
{}

/// The value of an expression is in the range of its kind, if the values of its variables, of its elements and of its outputs are in the ranges of theirs.
pub fn value_stays_in_range<V>()
    ensures { (sorts : Sorts V) (values : ValuesOf V) → AreInRange sorts values
        → (e : PlainExpr V) (k : Kind) (n : ℤ) → kind_of_expr sorts e ≡ Some k → value_of values e ≡ Ok n
        → is_in_range k n ≡ true }
{}

/// The control values of a FOR whose bounds are DINTs are DINTs: none is past the range, whatever the step.
pub fn control_values_stay_in_range()
    ensures { (span : Span) → is_in_range kind.Dint span.from ≡ true
        → is_in_range kind.Dint span.to ≡ true
        → All (λ n. is_in_range kind.Dint n ≡ true) (control_values span) }
{}

/// A body whose kinds are right keeps each invariant that gives its variables and outputs the ranges of their kinds, be it to a trap.
/// `run_all_keeps` of `proofs/RunLaws.antt` says the same of any fact of worlds that is no test.
pub fn run_stays_in_range<V, W>()
    ensures { (context : Context V) (space : Space V W) (holds : W → Bool)
        → IsInvariant context space (λ w. holds w ≡ true) → (body : PlainBody V)
        → all_fit context body ≡ true → controls_fit context body ≡ true → (w : W) → holds w ≡ true
        → Leaves (λ u. holds u ≡ true) (run_all space body w) }
{}

/// A body with other names does what the body does where each of its names means what the other one means.
pub fn renamed_body_does_same<V, W, A>()
    ensures { (f : V → W) (space : Space W A) (body : PlainBody V) (w : A)
        → run_all (renamed_space f space) body w ≡ run_all space (mapped_body (renaming f) body) w }
{}

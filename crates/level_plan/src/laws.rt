//! Laws of plans. These functions do nothing: each has a law as its contract, for the crates above.

ghost use Rattle.std.specs.Prelude.{◌≡◌, ◌≤◌, ◌<◌, ℕ, List, length, slice_index};
ghost use Rattle.level_plan.specs.Accesses.{PlainAccess};
ghost use Rattle.level_plan.specs.Levellings.{AreFromOneTo, AreApart, AreInOrder, AreTight, AreAsLow, IsLevelling};
ghost use Rattle.level_plan.specs.Plans.{IsPlan, last_of};

/// Each program stands in one level, from 1 to the last.
pub fn from_one_to_last()
    ensures { (programs : List PlainAccess) (levels : List ℕ) → IsPlan programs levels
        → AreFromOneTo (last_of levels) programs (slice_index levels) }
{}

/// In a level no program reads or writes a global that another one of it writes.
pub fn apart_in_level()
    ensures { (programs : List PlainAccess) (levels : List ℕ) → IsPlan programs levels
        → AreApart programs (slice_index levels) }
{}

/// Of two programs that conflict the earlier stands in the lower level.
pub fn levels_in_order()
    ensures { (programs : List PlainAccess) (levels : List ℕ) → IsPlan programs levels
        → AreInOrder programs (slice_index levels) }
{}

/// Each program above level 1 conflicts with an earlier one of the level just below.
pub fn tight_levels()
    ensures { (programs : List PlainAccess) (levels : List ℕ) → IsPlan programs levels
        → AreTight programs (slice_index levels) }
{}

/// In no levels from 1 on that are in order does a program stand lower, and none are fewer.
pub fn fewest_levels()
    ensures each { (programs : List PlainAccess) (levels : List ℕ) (other : ℕ → ℕ)
        → IsPlan programs levels → IsLevelling programs other
        → AreAsLow programs (slice_index levels) other }
    ensures last { (programs : List PlainAccess) (levels : List ℕ) (other : ℕ → ℕ) (last : ℕ)
        → IsPlan programs levels → IsLevelling programs other → AreFromOneTo last programs other
        → last_of levels ≤ last }
{}

/// Programs have one plan.
pub fn one_plan()
    ensures { (programs : List PlainAccess) (levels others : List ℕ) → IsPlan programs levels
        → IsPlan programs others → levels ≡ others }
{}

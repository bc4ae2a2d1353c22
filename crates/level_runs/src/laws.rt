//! Laws of programs in levels. These functions do nothing: each has a law as its contract, for the crates above.

ghost use Rattle.std.specs.Prelude.{◌≡◌, ℕ, ◌≤◌, List, length, slice_index};
ghost use Rattle.plant_types.specs.declared.values.Trap.{Trap};
ghost use Rattle.st_tree.specs.Meaning.{Spot};
ghost use Rattle.logic_cells.specs.Cells.{PlainCells};
ghost use Rattle.plant_types.specs.Values.{Path};
ghost use Rattle.acc_vm.specs.Codes.{PlainCode};
ghost use Rattle.level_runs.specs.Stores.{AreKnownBySlots, AreLocal, in_order};
ghost use Rattle.level_runs.specs.Levels.{AreLevels, IsAsInOrder, Midway, RunsLevels};
ghost use Rattle.level_plan.specs.Plans.{last_of};
ghost use Rattle.level_runs.specs.Accesses.{HaveOwnCells};
ghost use Rattle.level_runs.specs.Conflicts.{AreTightFor, IsLevellingOf, AreAsLowFor, EndBy};
ghost use Rattle.level_runs.specs.Plans.{IsPlanOf};
ghost use Rattle.level_runs.specs.Programs.{programs_at};

/// A program's run leaves all that its code doesn't write as it was, and ends by what the code names alone; and cells are no more than the
/// values and clocks in them.
pub fn codes_are_local()
    ensures local { (moment : ℕ) (paths : ℕ → List Path) (codes : List PlainCode) (levels : List ℕ)
        (n : ℕ) → AreLocal (programs_at moment paths codes levels) n }
    ensures known { (moment : ℕ) (paths : ℕ → List Path) (codes : List PlainCode) (levels : List ℕ)
        → AreKnownBySlots (programs_at moment paths codes levels) }
{}

/// The plan of codes gives them levels in which of two programs, of which one writes what the other names, the earlier stands in the lower one.
pub fn plan_gives_levels()
    ensures { (moment : ℕ) (paths : ℕ → List Path) (globals : ℕ) (codes : List PlainCode)
        (levels : List ℕ) → IsPlanOf globals codes levels → HaveOwnCells globals codes
        → AreLevels (programs_at moment paths codes levels) (length codes) (last_of levels) }
{}

/// The levels of the plan in turn, run in any order within each and with any programs trapping midway, give the cells, the faulted programs and
/// the faults of program order.
pub fn planned_levels_run_as_in_order()
    ensures { (moment : ℕ) (paths : ℕ → List Path) (globals : ℕ) (codes : List PlainCode)
        (levels : List ℕ) → IsPlanOf globals codes levels → HaveOwnCells globals codes
        → (start end : Midway PlainCells) (faults : List (ℕ × (Spot × Trap)))
        → length start.faulted ≡ length codes
        → RunsLevels (programs_at moment paths codes levels) start (last_of levels) end faults
        → IsAsInOrder (in_order (programs_at moment paths codes levels).run 0 start.faulted start.store)
        end faults }
{}

/// Each program above level 1 conflicts with an earlier one of the level just below: one of the two writes a global that the other reads or
/// writes.
pub fn planned_levels_are_tight()
    ensures { (globals : ℕ) (codes : List PlainCode) (levels : List ℕ) → IsPlanOf globals codes levels
        → AreTightFor globals codes (slice_index levels) }
{}

/// In no levels from 1 on in which of two programs that conflict the earlier stands lower does a program stand lower than in the plan, and none
/// are fewer.
pub fn planned_levels_are_fewest()
    ensures each { (globals : ℕ) (codes : List PlainCode) (levels : List ℕ) (other : ℕ → ℕ)
        → IsPlanOf globals codes levels → IsLevellingOf globals codes other
        → AreAsLowFor codes (slice_index levels) other }
    ensures last { (globals : ℕ) (codes : List PlainCode) (levels : List ℕ) (other : ℕ → ℕ) (last : ℕ)
        → IsPlanOf globals codes levels → IsLevellingOf globals codes other → EndBy last codes other
        → last_of levels ≤ last }
{}

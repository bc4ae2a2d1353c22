//! Laws of gathered levels. These functions do nothing: each has a law as its contract, for the crates above.

ghost use Rattle.std.specs.Prelude.{◌≡◌, ◌<◌, ◌^◌, ℕ, List, length};
ghost use Rattle.plant_types.specs.declared.values.Trap.{Trap};
ghost use Rattle.st_tree.specs.Meaning.{Spot};
ghost use Rattle.logic_cells.specs.Cells.{PlainCells};
ghost use Rattle.plant_types.specs.Values.{Path};
ghost use Rattle.acc_vm.specs.Codes.{PlainCode};
ghost use Rattle.vm_slices.specs.Parts.{PlainPart};
ghost use Rattle.level_runs.specs.Stores.{in_order};
ghost use Rattle.level_runs.specs.Levels.{IsAsInOrder, TakesLevel};
ghost use Rattle.level_plan.specs.Plans.{last_of};
ghost use Rattle.level_runs.specs.Accesses as accesses;
ghost use Rattle.level_runs.specs.Accesses.{HaveOwnCells};
ghost use Rattle.level_runs.specs.Plans.{IsPlanOf};
ghost use Rattle.level_runs.specs.Programs.{programs_at};
ghost use Rattle.slice_store.specs.Level.{Stored};
ghost use Rattle.slice_store.specs.Splits.{ArePartsOf, CanSplit};
ghost use Rattle.level_jobs.specs.Gathers.{FitCells, GathersLevel, GathersLevels, midway};

/// A level that was split into the jobs of its programs' parts, and whose runs were gathered in any order, is the level of the programs' codes.
pub fn gathered_level_is_taken()
    ensures { (paths : ℕ → List Path) (codes : List PlainCode) (parts : List PlainPart) (levels : List ℕ)
        (level : ℕ) (old new : Stored) (faults : List (ℕ × (Spot × Trap))) → ArePartsOf codes parts
        → GathersLevel paths parts levels level old new faults
        → TakesLevel (programs_at old.moment paths codes levels) level (midway old) (midway new) faults }
{}

/// The levels of the plan in turn, each split, run in any order and gathered, give the cells, the faulted programs and the faults of program order.
pub fn gathered_levels_run_as_in_order()
    ensures { (paths : ℕ → List Path) (globals : ℕ) (codes : List PlainCode) (parts : List PlainPart)
        (levels : List ℕ) → ArePartsOf codes parts → IsPlanOf globals codes levels
        → HaveOwnCells globals codes → (start end : Stored) (faults : List (ℕ × (Spot × Trap)))
        → length start.faulted ≡ length codes
        → GathersLevels paths parts levels start (last_of levels) end faults
        → IsAsInOrder
        (in_order (programs_at start.moment paths codes levels).run 0 start.faulted start.cells)
        (midway end) faults }
{}

/// Each level of the plan of sound codes can be split into the jobs of their parts, over cells that have what they name.
pub fn planned_levels_can_split()
    ensures { (globals : ℕ) (codes : List PlainCode) (parts : List PlainPart) (levels : List ℕ)
        (cells : PlainCells) (flags : ℕ) → IsPlanOf globals codes levels → HaveOwnCells globals codes
        → ArePartsOf codes parts → FitCells codes cells → length levels ≡ length parts
        → flags ≡ length parts → length parts < 2 ^ 32 → (level : ℕ)
        → CanSplit parts levels level cells flags }
{}

/// Parts by which codes are planned are those by which they are split.
pub fn planned_parts_can_be_split()
    ensures { (codes : List PlainCode) (parts : List PlainPart) → accesses.ArePartsOf codes parts
        → ArePartsOf codes parts }
{}

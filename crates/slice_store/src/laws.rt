//! Laws of the definitions. These functions do nothing: each has a law as its contract, for the crates above.

ghost use Rattle.std.specs.Prelude.{◌≡◌, ◌<◌, ◌^◌, ℕ, List, Bool, Result, length};
ghost use Rattle.logic_cells.specs.Cells.{PlainCells};
ghost use Rattle.plant_types.specs.Values.{Path};
ghost use Rattle.logic_cells.specs.declared.stop.Stop.{Stop};
ghost use Rattle.acc_vm.specs.Codes.{PlainCode};
ghost use Rattle.vm_slices.specs.Parts.{PlainPart, IsPartOf, HasPart, loaded};
ghost use Rattle.vm_slices.specs.Runs.{RunsWhole};
ghost use Rattle.slice_store.specs.Starts.{Begun, Gives};
ghost use Rattle.slice_store.specs.Level.{HasTaken};
ghost use Rattle.slice_store.specs.Splits.{CanSplit, AreApartCodes, ArePartsOf};
ghost use Rattle.slice_store.specs.Whole.{TookWhole};

/// What a job's code gives tells how its program's code runs from all cells.
pub fn done_ran_as_whole()
    ensures { (names : List Path) (whole : PlainCode) (s : Begun) (cells : PlainCells)
        (result : Result (Unit {0}) Stop) (small : PlainCells) → IsPartOf whole s.part
        → HasPart s.part cells → s.cells ≡ loaded s.part cells → Gives s result small
        → (left : ℕ) × RunsWhole s.moment names whole s.part cells result small left }
{}

/// What was gathered of a run is what its program's code leaves, run from all cells as they were before the level.
pub fn gathered_run_is_whole()
    ensures { (names : List Path) (whole : PlainCode) (s : Begun) (old new : PlainCells)
        (faulted : List Bool) → IsPartOf whole s.part → HasPart s.part old → s.cells ≡ loaded s.part old
        → HasTaken s new faulted → TookWhole names whole s old new faulted }
{}

/// A level of codes that are apart can be split into the jobs of their parts.
pub fn apart_codes_can_split()
    ensures { (codes : List PlainCode) (parts : List PlainPart) (levels : List ℕ) (level : ℕ)
        (cells : PlainCells) (flags : ℕ) → ArePartsOf codes parts
        → AreApartCodes codes levels level cells → length levels ≡ length parts → flags ≡ length parts
        → length parts < 2 ^ 32 → CanSplit parts levels level cells flags }
{}

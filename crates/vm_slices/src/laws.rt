//! Laws of the definitions. These functions do nothing: each has a law as its contract, for the crates above.

ghost use Rattle.std.specs.Prelude.{◌≡◌, ◌<◌, ◌+◌, ℕ, ℤ, List, Result, map, slice_get};
ghost use Rattle.logic_cells.specs.Cells.{PlainCells};
ghost use Rattle.plant_types.specs.Values.{Path};
ghost use Rattle.logic_cells.specs.Runs.{ended};
ghost use Rattle.logic_cells.specs.declared.stop.Stop.{Stop};
ghost use Rattle.acc_vm.specs.declared.instr.Instr.{Instr};
ghost use Rattle.plant_types.specs.declared.values.Place.{Place};
ghost use Rattle.acc_vm.specs.Machine.{Over, exec};
ghost use Rattle.acc_vm.specs.Codes.{PlainCode, IsSound, run_of};
ghost use Rattle.acc_vm.specs.Operands.{renamed};
ghost use Rattle.vm_slices.specs.Renaming.{renamed_code, KeepsRow, TellsApart, StandsFor, HasRoom};
ghost use Rattle.vm_slices.specs.Alike.{GoAlike, IsKept, Leaves};
ghost use Rattle.vm_slices.specs.Runs.{RunsWhole};
ghost use Rattle.vm_slices.specs.Laws.{BothAfter};
ghost use Rattle.vm_slices.specs.Slots.{Names, Writes, NamesClock};
ghost use Rattle.vm_slices.specs.Parts.{PlainPart, IsPartOf, HasPart, PartAfter, loaded};

/// A run leaves each value that its code doesn't write and each clock that it doesn't name as they were.
pub fn run_keeps_what_isnt_written()
    ensures { (t room : ℕ) (names : List Path) (code : List Instr) (places : List Place) (fuel pc : ℕ)
        (acc : ℤ) (stack : List ℤ) (cells : PlainCells)
        → Leaves (IsKept code cells) (exec t room names code places fuel pc acc stack cells) }
{}

/// A run of code by other numbers, which tell apart what the code names, goes as that of the code does, from cells that stand for its cells.
pub fn renamed_code_runs_alike()
    ensures { (t room : ℕ) (names : List Path) (code : List Instr) (places : List Place) (f g : ℕ → ℕ)
        (fuel pc : ℕ) (acc : ℤ) (stack : List ℤ) (cells small : PlainCells) → TellsApart f g code
        → StandsFor f g code cells small
        → GoAlike (BothAfter f g code cells small)
        (exec t room names code places fuel pc acc stack cells)
        (exec t room names (map (renamed f g) code) places fuel pc acc stack small) }
{}

/// The same of runs with the fuel of the code's cost.
pub fn renamed_code_ends_alike()
    ensures { (t : ℕ) (names : List Path) (code : PlainCode) (f g : ℕ → ℕ) (values clocks : ℕ)
        (cells small : PlainCells) → TellsApart f g code.instrs → StandsFor f g code.instrs cells small
        → GoAlike (BothAfter f g code.instrs cells small) (run_of t names code cells)
        (run_of t names (renamed_code f g values clocks code) small) }
{}

/// Sound code is sound by other numbers, where these tell apart what the code names and are below its counts.
pub fn renamed_code_is_sound()
    ensures { (f g : ℕ → ℕ) (values clocks : ℕ) (code : PlainCode) → IsSound code
        → TellsApart f g code.instrs → HasRoom f g values clocks code.instrs
        → IsSound (renamed_code f g values clocks code) }
{}

/// A run of a part's code from the part's cells goes as the run of the code from all cells.
pub fn part_runs_as_whole()
    ensures { (whole : PlainCode) (part : PlainPart) → IsPartOf whole part
        → (t : ℕ) (names : List Path) (cells : PlainCells) → HasPart part cells
        → GoAlike (PartAfter whole part cells) (run_of t names whole cells)
        (run_of t names part.code (loaded part cells)) }
{}

/// Slots one after another that a code names stand one after another in its part, whatever else it names.
pub fn part_keeps_rows()
    ensures { (whole : PlainCode) (part : PlainPart) (is : IsPartOf whole part) (first count : ℕ)
        → ((k : ℕ) → k < count → Names whole.instrs (first + k)) → KeepsRow is.slot_place first count }
{}

/// How a part's code ran tells how the code runs from all cells.
pub fn part_ran_as_whole()
    ensures { (whole : PlainCode) (part : PlainPart) → IsPartOf whole part
        → (t : ℕ) (names : List Path) (cells : PlainCells) → HasPart part cells
        → (result : Result (Unit {0}) Stop) (small : PlainCells) (left : ℕ)
        → run_of t names part.code (loaded part cells) ≡ Over (ended names result small) left
        → RunsWhole t names whole part cells result small left }
{}

/// Cells that stand for others do so still after a run of another code that writes nothing and calls no clock that the code names.
pub fn standing_lasts()
    ensures { (f g : ℕ → ℕ) (code other : List Instr) (cells after small : PlainCells)
        → ((s : ℕ) → Names code s → Writes other s → ⊥)
        → ((k : ℕ) → NamesClock code k → NamesClock other k → ⊥) → IsKept other cells after
        → StandsFor f g code cells small → StandsFor f g code after small }
{}

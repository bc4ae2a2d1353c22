//! Laws of sources that run. These functions do nothing: each has a law as its contract, for the crates above.

ghost use Rattle.std.specs.Prelude.{◌≡◌, ◌<◌, ◌≤◌, ◌+◌, ℕ, ℤ, List, Some, length, slice_get, true};
ghost use Rattle.plant_types.specs.Values.{is_in_range};
ghost use Rattle.plant_types.specs.declared.values.Place.{Place};
ghost use Rattle.st_tree.specs.Ranges.{Leaves};
ghost use Rattle.logic_source.specs.declared.logic.Variable.{Variable};
ghost use Rattle.logic_source.specs.Source.{Source, global_cells};
ghost use Rattle.logic_source.specs.Names.{find_global};
ghost use Rattle.logic_source.specs.Layout.{cell_paths};
ghost use Rattle.logic_source.specs.Paths.{paths_of};
ghost use Rattle.logic_source.specs.Worlds.{World, assign, opening, path_of, run_program};
ghost use Rattle.logic_source.specs.Ranges.{AllInRange};
ghost use Rattle.logic_cells.specs.Cells.{PlainCells, value_at, assigned};
ghost use Rattle.logic_cells.specs.Runs.{spot_of};
ghost use Rattle.logic_frames.specs.Stands.{StandFor};
ghost use Rattle.acc_vm.specs.Codes.{PlainCode};
ghost use Rattle.vm_programs.specs.Slots.{Names, NamesClock};
ghost use Rattle.vm_logic.specs.Sound.{IsSound};
ghost use Rattle.vm_logic.specs.Bases.{program_paths_base};
ghost use Rattle.vm_logic.specs.Runs.{HasCells, IsProgramCode, paths_in, place_spot, placed_from};

/// There are as many cells with values as values of the source: the globals are the first of these.
pub fn as_many_cells()
    ensures { (source : Source) (cells : PlainCells) (w : World) → StandFor source cells w
        → length cells.values ≡ length (cell_paths source) }
{}

/// Cells that stand for a world have a value for each variable of the source, and a clock for each of its standard blocks.
pub fn standing_cells_are_there()
    ensures { (source : Source) (cells : PlainCells) (w : World) → StandFor source cells w
        → HasCells source cells }
{}

/// The cell of a global's number holds the world's value at the global's path.
pub fn cell_of_global()
    ensures { (source : Source) (cells : PlainCells) (w : World) (i : ℕ) (global : Variable)
        → slice_get source.globals i ≡ Some global → StandFor source cells w
        → value_at cells i ≡ w.values (path_of global.name) }
{}

/// Assigning the cell of a global's number stands for assigning a value at the global's path.
pub fn written_cell()
    ensures { (source : Source) (cells : PlainCells) (w : World) (i : ℕ) (global : Variable) (n : ℤ)
        → IsSound source → slice_get source.globals i ≡ Some global → StandFor source cells w
        → StandFor source (assigned cells i n) (assign w (path_of global.name) n) }
{}

/// If a name has a number, then the global of that number is at the name's path.
pub fn found_global()
    ensures { (globals : List Variable) (name : List ℕ) (i : ℕ) → find_global globals name ≡ Some i
        → (global : Variable) × (slice_get globals i ≡ Some global)
        × (path_of global.name ≡ path_of name) }
{}

/// In a sound source each global is found by its name at its own number.
pub fn each_found()
    ensures { (source : Source) (i : ℕ) (global : Variable) → IsSound source
        → slice_get source.globals i ≡ Some global → find_global source.globals global.name ≡ Some i }
{}

/// A sound source has at most 65,536 globals and 512 programs.
pub fn sound_source_is_small()
    ensures globals { (source : Source) → IsSound source → length source.globals ≤ 65536 }
    ensures programs { (source : Source) → IsSound source → length source.programs ≤ 512 }
{}

/// Before the first scan each value is in the range of its variable's kind.
pub fn opening_world_is_in_range()
    ensures { (source : Source) → IsSound source → AllInRange source (opening source) }
{}

/// A run of a program keeps each value in the range of its variable's kind.
pub fn program_stays_in_range()
    ensures { (source : Source) (n moment : ℕ) (w : World) → IsSound source → AllInRange source w
        → Leaves (AllInRange source) (run_program source n moment w) }
{}

/// Giving a global a value in the range of its kind keeps each value in the range of its variable's kind.
pub fn assigned_global_stays_in_range()
    ensures { (source : Source) (w : World) (i : ℕ) (global : Variable) (n : ℤ) → IsSound source
        → slice_get source.globals i ≡ Some global → is_in_range global.kind n ≡ true
        → AllInRange source w → AllInRange source (assign w (path_of global.name) n) }
{}

/// The value of each global is in the range of its kind.
pub fn global_is_in_range()
    ensures { (source : Source) (w : World) (i : ℕ) (global : Variable) → AllInRange source w
        → slice_get source.globals i ≡ Some global
        → is_in_range global.kind (w.values (path_of global.name)) ≡ true }
{}

/// A place by the paths of the program of a number is the same spot by the paths of the source, where it is counted from the program's first path.
pub fn place_is_in_source()
    ensures spot { (source : Source) (n : ℕ) (place : Place) → place.path < length (paths_in source n)
        → spot_of (paths_in source n) place
        ≡ place_spot source (placed_from (program_paths_base source n) place) }
    ensures within { (source : Source) (n path : ℕ) → path < length (paths_in source n)
        → program_paths_base source n + path < length (paths_of source) }
{}

/// No two programs share a cell of their own: beside the globals, which come first, their codes name no value of the same number, and no clock
/// of the same number.
pub fn programs_share_no_cell()
    ensures values { (source : Source) (p q s : ℕ) (a b : PlainCode) → IsProgramCode source p a
        → IsProgramCode source q b → global_cells source ≤ s → Names a.instrs s → Names b.instrs s
        → p ≡ q }
    ensures clocks { (source : Source) (p q k : ℕ) (a b : PlainCode) → IsProgramCode source p a
        → IsProgramCode source q b → NamesClock a.instrs k → NamesClock b.instrs k → p ≡ q }
{}

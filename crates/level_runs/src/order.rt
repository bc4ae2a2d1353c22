//! Laws of programs in levels, whatever the programs are: these functions do nothing, and each has a law as its contract, for the crates above.

ghost use Rattle.std.specs.Prelude.{ℕ, List, length};
ghost use Rattle.level_runs.specs.Levels.{AreLevels, LevelsAreAsInOrder, Midway, RunsLevels, TakesLevel};
ghost use Rattle.level_runs.specs.Stores.{AreKnownBySlots, AreLocal, Programs};
ghost use Rattle.level_runs.specs.Runs.{AreRunsOf, TakesRuns, traps_of};

/// The levels in turn give the store, the flags and, sorted by program number, the faults of program order.
pub fn levels_are_as_in_order<S, K, V, Z, E>()
    ensures { (programs : Programs S K V Z E) (last : ℕ) (start : Midway S) → AreKnownBySlots programs
        → LevelsAreAsInOrder programs last start }
{}

/// Runs of a level that come back in any order, one of each of its programs that isn't faulted, make the level.
pub fn runs_make_a_level<S, K, V, Z, E>()
    ensures { (programs : Programs S K V Z E) (k : ℕ) (old new : Midway S) (runs : List ℕ)
        → AreRunsOf programs k old.faulted runs → TakesRuns programs old runs new
        → TakesLevel programs k old new (traps_of programs old.store runs) }
{}

/// From every store the levels can be run.
pub fn levels_can_be_run<S, K, V, Z, E>()
    ensures { (programs : Programs S K V Z E) (last : ℕ) (start : Midway S)
        → AreLocal programs (length start.faulted) → AreLevels programs (length start.faulted) last
        → (k : ℕ) → (end : Midway S) × (faults : List (ℕ × E)) × RunsLevels programs start k end faults }
{}

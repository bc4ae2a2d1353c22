//! A law of the definitions. The function does nothing; its contract is the law, for the crates above.

ghost use Rattle.std.specs.Prelude.{◌≡◌, ℕ, List, Some, slice_get};
ghost use Rattle.logic_source.specs.Source.{PlainRoutine};
ghost use Rattle.logic_source.specs.Blocks.{AreBelow};
ghost use Rattle.logic_limits.specs.Counts.{routine_slots, routine_size, routine_cost, type_slots, type_size, type_cost};

/// Where no block type holds itself, a block type counts what its routine does, by what the block types that it declares count.
pub fn block_type_counts()
    ensures slots { (blocks : List PlainRoutine) (order : List ℕ) → AreBelow blocks order
        → (n : ℕ) (r : PlainRoutine) → slice_get blocks n ≡ Some r
        → type_slots blocks n ≡ routine_slots (type_slots blocks) r }
    ensures size { (blocks : List PlainRoutine) (order : List ℕ) → AreBelow blocks order
        → (n : ℕ) (r : PlainRoutine) → slice_get blocks n ≡ Some r
        → type_size blocks n ≡ routine_size (type_size blocks) r }
    ensures cost { (blocks : List PlainRoutine) (order : List ℕ) → AreBelow blocks order
        → (n : ℕ) (r : PlainRoutine) → slice_get blocks n ≡ Some r
        → type_cost blocks n ≡ routine_cost (type_cost blocks) r }
{}

//! Laws of sources. These functions do nothing: each has a law as its contract, for the crates above.

ghost use Rattle.std.specs.Prelude.{◌≡◌, ◌+◌, ◌∷◌, [], ℕ, ℤ, List, map, Some, slice_get, slice_set, true, false};
ghost use Rattle.plant_types.specs.Values.{is_in_range, has_index, row_place, Path};
ghost use Rattle.plant_types.specs.Words.{folded};
ghost use Rattle.std_blocks.specs.Calls.{Call};
ghost use Rattle.logic_source.specs.declared.logic.Variable.{Variable};
ghost use Rattle.logic_source.specs.declared.logic.Instance.{Instance};
ghost use Rattle.logic_source.specs.declared.logic.BlockRef.{BlockRef};
ghost use Rattle.logic_source.specs.Names.{find_word, instance_words, instance_named, bounds_named};
ghost use Rattle.st_blocks.specs.Blocks.{AreOrdered};
ghost use Rattle.st_tree.specs.Ranges.{Leaves};
ghost use Rattle.st_typing.specs.Units.{PlainUnit};
ghost use Rattle.st_typing.specs.DeclaredNames.{PlainDeclared, is_instance_sort};
ghost use Rattle.st_typing.specs.Shared.{global_named};
ghost use Rattle.st_typing.specs.Blocks.{blocks_of};
ghost use Rattle.st_typing.specs.Faults.{AreTyped};
ghost use Rattle.logic_source.specs.Source.{PlainRoutine, Source};
ghost use Rattle.logic_source.specs.Units.{source_in};
ghost use Rattle.logic_source.specs.Blocks.{by_type, AsksDeclared, AreBelow, HasItsTypes};
ghost use Rattle.logic_source.specs.Worlds.{World, words_of, path_of, path_in, element_path, assign, with_call, run_rule, run_routine, run_program, begin_rule, routine_begun, opening};
ghost use Rattle.logic_source.specs.Layout.{ClockAt, block_values, values_rule, routine_values, block_clocks, clocks_rule, routine_clocks, cell_paths, all_clocks, clock_paths, Stands, NoneTwice, IsDistinctlyNamed};
ghost use Rattle.logic_source.specs.Seats.{StandsFrom, value_offset, clock_offset, program_values_base, program_clocks_base, value_number, row_number, member_number, is_of_standard};
ghost use Rattle.logic_source.specs.Ranges.{KindAt, all_kinds, AllInRange};
ghost use Rattle.logic_source.specs.Carried.{carried};

/// Where an order lists each block type after those that it declares, what a rule gives for a block type is the rule's own answer, by
/// what it gives for the block types that this one declares.
pub fn answered_by_rule<A>()
    ensures { (none : A) (rule : (ℕ → A) → PlainRoutine → A) (blocks : List PlainRoutine)
        (order : List ℕ) → AreBelow blocks order → AsksDeclared rule → (n : ℕ) (r : PlainRoutine)
        → slice_get blocks n ≡ Some r → by_type none rule blocks n ≡ rule (by_type none rule blocks) r }
{}

/// The order of well-formed units lists each block type of their source after those that it declares.
pub fn order_is_of_source()
    ensures { (units : List PlainUnit) (order : List ℕ) → AreTyped units
        → AreOrdered (blocks_of units) order → AreBelow (source_in units).blocks order }
{}

/// In a source whose declared names are distinct no two values have one path, so that two instances never share a value: the inputs of
/// standard blocks count too.
pub fn values_stand_once()
    ensures { (source : Source) → IsDistinctlyNamed source → NoneTwice (cell_paths source) }
{}

/// In a source whose declared names are distinct no two standard blocks have one path, so that no two share their calls.
pub fn clocks_stand_once()
    ensures { (source : Source) → IsDistinctlyNamed source → NoneTwice (clock_paths source) }
{}

/// The declared names of the source of well-formed units are distinct.
pub fn typed_names_are_distinct()
    ensures { (units : List PlainUnit) → AreTyped units → IsDistinctlyNamed (source_in units) }
{}

/// The source of well-formed units has the block types of all its instances.
pub fn typed_types_are_there()
    ensures { (units : List PlainUnit) → AreTyped units → HasItsTypes (source_in units) }
{}

/// What the block type of a number does is its body's run, in which a call of an instance does what the instance's block type does.
pub fn block_type_runs()
    ensures { (source : Source) (order : List ℕ) (t n : ℕ) (r : PlainRoutine)
        → AreBelow source.blocks order → slice_get source.blocks n ≡ Some r
        → run_routine source t n ≡ run_rule source t (run_routine source t) r }
{}

/// The initial values of a block type are those of its own variables, and then of its instances.
pub fn block_type_begins()
    ensures { (source : Source) (order : List ℕ) (n : ℕ) (r : PlainRoutine)
        → AreBelow source.blocks order → slice_get source.blocks n ≡ Some r
        → routine_begun source n ≡ begin_rule source (routine_begun source) r }
{}

/// The values of a block type are those of its own variables, and then of its instances.
pub fn block_type_has_values()
    ensures { (blocks : List PlainRoutine) (order : List ℕ) (n : ℕ) (r : PlainRoutine)
        → AreBelow blocks order → slice_get blocks n ≡ Some r
        → routine_values blocks n ≡ values_rule (routine_values blocks) r }
{}

/// The standard blocks of a block type are those of its instances.
pub fn block_type_has_clocks()
    ensures { (blocks : List PlainRoutine) (order : List ℕ) (n : ℕ) (r : PlainRoutine)
        → AreBelow blocks order → slice_get blocks n ≡ Some r
        → routine_clocks blocks n ≡ clocks_rule (routine_clocks blocks) r }
{}

/// The values of a program stand among all values from the program's first one on.
pub fn program_values_stand()
    ensures { (source : Source) (k : ℕ) (p : PlainRoutine) → slice_get source.programs k ≡ Some p
        → StandsFrom (cell_paths source) (program_values_base source k)
        (values_rule (routine_values source.blocks) p (folded p.name ∷ [])) }
{}

/// Where a routine's values stand in a list from a number on, there those of its instance of a number stand, from the instance's offset on.
pub fn instance_values_stand()
    ensures { (blocks : List PlainRoutine) (all : List Path) (r : PlainRoutine) (path : Path)
        (base k : ℕ) (i : Instance) → StandsFrom all base (values_rule (routine_values blocks) r path)
        → slice_get r.instances k ≡ Some i
        → StandsFrom all (base + value_offset blocks r k)
        (block_values (routine_values blocks) i.of (folded i.name ∷ path)) }
{}

/// The standard blocks of a program stand among all standard blocks from the program's first one on.
pub fn program_clocks_stand()
    ensures { (source : Source) (k : ℕ) (p : PlainRoutine) → slice_get source.programs k ≡ Some p
        → StandsFrom (all_clocks source) (program_clocks_base source k)
        (clocks_rule (routine_clocks source.blocks) p (folded p.name ∷ [])) }
{}

/// Where a routine's standard blocks stand in a list from a number on, there those of its instance of a number stand, from the instance's
/// offset on.
pub fn instance_clocks_stand()
    ensures { (blocks : List PlainRoutine) (all : List ClockAt) (r : PlainRoutine) (path : Path)
        (base k : ℕ) (i : Instance) → StandsFrom all base (clocks_rule (routine_clocks blocks) r path)
        → slice_get r.instances k ≡ Some i
        → StandsFrom all (base + clock_offset blocks r k)
        (block_clocks (routine_clocks blocks) i.of (folded i.name ∷ path)) }
{}

/// Where a routine's values stand among all values from a number on, there the value of a name's number has the path of the name.
pub fn named_value_stands()
    ensures { (source : Source) (r : PlainRoutine) (path : Path) (base : ℕ) (name : List ℕ) (n : ℕ)
        → StandsFrom (cell_paths source) base
        (values_rule (routine_values source.blocks) r (words_of path))
        → value_number source.globals r base name ≡ Some n
        → slice_get (cell_paths source) n ≡ Some (path_in r path name) }
{}

/// Where a routine's values stand among all values from a number on, there the value of an element's number has the path of the element: the
/// number of the array of a name, and so many more as the index is above the low bound.
pub fn named_element_stands()
    ensures { (source : Source) (r : PlainRoutine) (path : Path) (base : ℕ) (name : List ℕ) (n : ℕ)
        (i : ℤ)
        → StandsFrom (cell_paths source) base
        (values_rule (routine_values source.blocks) r (words_of path))
        → row_number source r base name ≡ Some n → has_index (bounds_named source r name) i ≡ true
        → slice_get (cell_paths source) (row_place n (bounds_named source r name) i)
        ≡ Some (element_path r path name i) }
{}

/// The value of a path's number is the world's value at the path.
pub fn value_of_number()
    ensures { (source : Source) (values : List ℤ) (calls : List (List Call)) (w : World)
        → Stands source values calls w → (n : ℕ) (p : Path) → slice_get (cell_paths source) n ≡ Some p
        → slice_get values n ≡ Some (w.values p) }
{}

/// Writing the value of a path's number stands for assigning it at the path.
pub fn value_written()
    ensures { (source : Source) (values : List ℤ) (calls : List (List Call)) (w : World)
        → Stands source values calls w → (n : ℕ) (p : Path) → IsDistinctlyNamed source → (x : ℤ)
        → slice_get (cell_paths source) n ≡ Some p
        → Stands source (slice_set values n x) calls (assign w p x) }
{}

/// The calls of the number of a standard block's path are those that the world has at the path.
pub fn calls_of_number()
    ensures { (source : Source) (values : List ℤ) (calls : List (List Call)) (w : World)
        → Stands source values calls w → (n : ℕ) (p : Path) → slice_get (clock_paths source) n ≡ Some p
        → slice_get calls n ≡ Some (w.calls p) }
{}

/// Taking note of a call at the number of a standard block's path stands for its call at the path.
pub fn call_taken()
    ensures { (source : Source) (values : List ℤ) (calls : List (List Call)) (w : World)
        → Stands source values calls w → (n : ℕ) (p : Path) → IsDistinctlyNamed source → (c : Call)
        → slice_get (clock_paths source) n ≡ Some p
        → Stands source values (slice_set calls n (c ∷ w.calls p)) (with_call w p c) }
{}

/// Where an instance's values stand in a list from a number on, there the value of a member's number has the path of the member: an input
/// of a standard block, an input or an output of a declared block type.
pub fn member_stands()
    ensures { (blocks : List PlainRoutine) (order : List ℕ) (all : List Path) (base : ℕ) (path : Path)
        (b : BlockRef) (name : List ℕ) (m : ℕ) → AreBelow blocks order
        → StandsFrom all base (block_values (routine_values blocks) b path)
        → member_number blocks b name ≡ Some m → slice_get all (base + m) ≡ Some (folded name ∷ path) }
{}

/// Where an instance's standard blocks stand in a list from a number on, there stands the instance itself if it is of a standard block.
pub fn clock_stands()
    ensures { (blocks : List PlainRoutine) (all : List ClockAt) (base : ℕ) (path : Path) (b : BlockRef)
        → is_of_standard b ≡ true → StandsFrom all base (block_clocks (routine_clocks blocks) b path)
        → slice_get all base ≡ Some (record { of = b; path = path }) }
{}

/// The instance of a name's number is the one that the name finds, and the two have the same small letters.
pub fn instance_found()
    ensures { (r : PlainRoutine) (name : List ℕ) (k : ℕ)
        → find_word (instance_words r.instances) name ≡ Some k
        → (i : Instance) × (slice_get r.instances k ≡ Some i) × (instance_named r name ≡ Some i)
        × (folded i.name ≡ folded name) }
{}

/// The kinds of all values stand at the paths of all values, in the same order.
pub fn kinds_stand_at_all_values()
    ensures { (source : Source) → map (λ (v : KindAt). v.path) (all_kinds source) ≡ cell_paths source }
{}

/// The value of each global is in the range of its kind.
pub fn global_is_in_range()
    ensures { (source : Source) (w : World) → AllInRange source w → (i : ℕ) (global : Variable)
        → slice_get source.globals i ≡ Some global
        → is_in_range global.kind (w.values (path_of global.name)) ≡ true }
{}

/// Giving a global a value in the range of its kind keeps each value in range.
pub fn assigned_global_stays_in_range()
    ensures { (units : List PlainUnit) → AreTyped units → (w : World) (i : ℕ) (global : Variable) (n : ℤ)
        → slice_get (source_in units).globals i ≡ Some global → is_in_range global.kind n ≡ true
        → AllInRange (source_in units) w
        → AllInRange (source_in units) (assign w (path_of global.name) n) }
{}

/// A run of a program keeps each value in the range of its kind, whether it ends or traps, if no global is an instance: the grammar has
/// VAR_GLOBAL alone for globals, where the kinds allow no instance.
pub fn program_stays_in_range()
    ensures { (units : List PlainUnit) (order : List ℕ) → AreTyped units
        → AreBelow (source_in units).blocks order
        → ((name : List ℕ) (d : PlainDeclared) → global_named units name ≡ Some d
        → is_instance_sort d.sort ≡ false) → (n t : ℕ) (w : World) → AllInRange (source_in units) w
        → Leaves (λ w. AllInRange (source_in units) w) (run_program (source_in units) n t w) }
{}

/// Before the first scan each value is in the range of its variable's kind, if no global is an instance.
pub fn opening_world_is_in_range()
    ensures { (units : List PlainUnit) (order : List ℕ) → AreTyped units
        → AreBelow (source_in units).blocks order
        → ((name : List ℕ) (d : PlainDeclared) → global_named units name ≡ Some d
        → is_instance_sort d.sort ≡ false) → AllInRange (source_in units) (opening (source_in units)) }
{}

/// What goes over from a source to another, whose declared names are distinct, has each value in the range of its variable's kind, if the
/// old world and the new source's opening one do.
pub fn carried_world_is_in_range()
    ensures { (old new : Source) (w : World) → IsDistinctlyNamed new → AllInRange old w
        → AllInRange new (opening new) → AllInRange new (carried old new w) }
{}

//! Laws of frames. These functions do nothing: each has a law as its contract, for the crates above.

ghost use Rattle.std.specs.Prelude.{◌≡◌, ◌+◌, ◌∷◌, [], ℕ, Bool, true, false, List, length, map, Option, Some, is_some, slice_get};
ghost use Rattle.plant_types.specs.Words.{folded};
ghost use Rattle.plant_types.specs.declared.values.Kind.{Kind};
ghost use Rattle.st_tree.specs.Alike.{Agree};
ghost use Rattle.st_tree.specs.Every.{every};
ghost use Rattle.st_tree.specs.Fits.{Context, all_fit};
ghost use Rattle.st_tree.specs.Mapping.{Known, body_known};
ghost use Rattle.st_tree.specs.Plain.{PlainExpr, PlainStmt, for_to, PlainBody};
ghost use Rattle.logic_source.specs.StParserUnits.{PlainPou, PlainUnit};
ghost use Rattle.logic_source.specs.DeclaredNames.{PlainDeclared, declared_in, is_instance_sort};
ghost use Rattle.logic_source.specs.Scopes.{variable_kind, instance_type, is_control};
ghost use Rattle.logic_source.specs.Shared.{global_named};
ghost use Rattle.logic_source.specs.Kinds.{pou_misfit};
ghost use Rattle.logic_source.specs.Faults.{AreTyped};
ghost use Rattle.logic_source.specs.Pous.{block_names};
ghost use Rattle.logic_source.specs.Units.{routine_of, source_in};
ghost use Rattle.logic_source.specs.Source.{PlainRoutine, Source, global_cells};
ghost use Rattle.logic_source.specs.Blocks.{AreBelow, HasItsTypes};
ghost use Rattle.logic_source.specs.Paths.{paths_rule, type_paths};
ghost use Rattle.logic_source.specs.Layout.{ClockAt, clocks_rule, routine_clocks, IsDistinctlyNamed};
ghost use Rattle.logic_source.specs.Worlds.{World, run_program, globals_routine, opening};
ghost use Rattle.logic_cells.specs.Cells.{PlainCells};
ghost use Rattle.logic_walk.specs.declared.frame.Frame.{Frame};
ghost use Rattle.logic_walk.specs.Frames.{frame_paths};
ghost use Rattle.logic_walk.specs.Standards.{frame_standards};
ghost use Rattle.logic_walk.specs.Walks.{run_frame};
ghost use Rattle.logic_frames.specs.Numbers.{variable_number, instance_number, KnowsNames, HasAllNames};
ghost use Rattle.logic_frames.specs.Frames.{IsFrame, IsFrames, program_base};
ghost use Rattle.logic_frames.specs.Stands.{standard_of, StandFor};
ghost use Rattle.logic_frames.specs.Opening.{opening_cells};

/// The frame of a program does in cells what the program does in the world that they stand for: it ends, or traps by the same statement of
/// the same path with the same trap, and leaves cells that stand for the world that the program leaves.
pub fn frames_agree()
    ensures { (source : Source) (order : List ℕ) (frames : List Frame) → IsFrames source order frames
        → AreBelow source.blocks order → HasItsTypes source → IsDistinctlyNamed source
        → HasAllNames source → (t n : ℕ) (p : PlainRoutine) → slice_get source.programs n ≡ Some p
        → (w : World) (cells : PlainCells) → StandFor source cells w
        → Agree (λ w cells. StandFor source cells w) (run_program source n t w)
        (run_frame t (global_cells source) frames (length frames) (length order + n)
        (program_base source n) (p.name ∷ []) cells) }
{}

/// The cells before the first scan stand for the world before it: the initial values that frames assign are those of the globals, of the
/// programs and of their instances.
pub fn frames_begin()
    ensures { (source : Source) (order : List ℕ) (start : Frame) (frames : List Frame)
        → IsFrame source order (globals_routine source) start → IsFrames source order frames
        → AreBelow source.blocks order → HasItsTypes source → IsDistinctlyNamed source
        → HasAllNames source
        → StandFor source (opening_cells source order start frames) (opening source) }
{}

/// Each name of a body whose kinds are right is known, where what the body's context has is known, and so is each control variable that a
/// rule of its statements allows.
pub fn fitting_names_are_known<V>()
    ensures { (context : Context V) (known : Known V) → KnowsNames context known
        → (rule : PlainStmt V → Bool)
        → ((number : ℕ) (v : V) (from to : PlainExpr V) (by : Option (PlainExpr V)) (body : PlainBody V)
        → rule (for_to number v from to by body) ≡ true → known.has_variable v ≡ true)
        → (body : PlainBody V) → all_fit context body ≡ true → every rule body ≡ true
        → body_known known body ≡ true }
{}

/// In the routine of a block or program whose kinds are right each variable that has a kind has a number, and so has each that may control
/// a FOR.
pub fn variables_have_numbers()
    ensures variables { (units : List PlainUnit) (p : PlainPou) → pou_misfit units p ≡ false
        → (name : List ℕ) (k : Kind) → variable_kind units (declared_in p.sections) name ≡ Some k
        → is_some (variable_number (source_in units) (routine_of (block_names units) p) name) ≡ true }
    ensures controls { (units : List PlainUnit) (p : PlainPou) → pou_misfit units p ≡ false
        → (name : List ℕ) → is_control (declared_in p.sections) name ≡ true
        → is_some (variable_number (source_in units) (routine_of (block_names units) p) name) ≡ true }
{}

/// In the routine of a block or program whose kinds are right each instance has a number, if no global is an instance: the grammar has
/// VAR_GLOBAL alone for globals, where the kinds allow no instance.
pub fn instances_have_numbers()
    ensures { (units : List PlainUnit) (p : PlainPou) → pou_misfit units p ≡ false
        → ((name : List ℕ) (d : PlainDeclared) → global_named units name ≡ Some d
        → is_instance_sort d.sort ≡ false) → (name : List ℕ)
        → is_some (instance_type units (declared_in p.sections) name) ≡ true
        → is_some (instance_number (routine_of (block_names units) p) name) ≡ true }
{}

/// Each name in the routines of well-formed units, and in the initial values of their globals, has a number.
pub fn typed_names_are_known()
    ensures { (units : List PlainUnit) → AreTyped units → HasAllNames (source_in units) }
{}

/// The paths of a program's frame by their numbers are those at which the program's statements run, those below each instance that it calls
/// after its own.
pub fn frames_have_paths()
    ensures { (source : Source) (order : List ℕ) (frames : List Frame) → IsFrames source order frames
        → AreBelow source.blocks order → HasItsTypes source → (n : ℕ) (p : PlainRoutine)
        → slice_get source.programs n ≡ Some p
        → frame_paths frames (length frames) (length order + n)
        ≡ paths_rule (type_paths source.blocks) p }
{}

/// The standard blocks of a program's frame are those of the program, in order.
pub fn frames_have_standards()
    ensures { (source : Source) (order : List ℕ) (frames : List Frame) → IsFrames source order frames
        → AreBelow source.blocks order → HasItsTypes source → (n : ℕ) (p : PlainRoutine)
        → slice_get source.programs n ≡ Some p
        → frame_standards frames (length frames) (length order + n)
        ≡ map (λ (c : ClockAt). standard_of c.of)
        (clocks_rule (routine_clocks source.blocks) p (folded p.name ∷ [])) }
{}

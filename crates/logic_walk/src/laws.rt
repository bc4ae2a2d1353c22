//! Laws of the definitions. These functions do nothing: each has a law as its contract, for the crates above.

ghost use Rattle.std.specs.Prelude.{◌≡◌, ◌<◌, ℕ, ℤ, List, Some, slice_get};
ghost use Rattle.st_tree.specs.View.{view_body};
ghost use Rattle.st_tree.specs.Meaning.{run_all};
ghost use Rattle.logic_cells.specs.Cells.{PlainCells, value_at, assigned};
ghost use Rattle.plant_types.specs.Values.{Path};
ghost use Rattle.logic_walk.specs.declared.frame.Base.{Base};
ghost use Rattle.logic_walk.specs.declared.frame.Frame.{Frame};
ghost use Rattle.logic_walk.specs.declared.frame.Seat.{Seat};
ghost use Rattle.logic_walk.specs.Apart.{LieApart};
ghost use Rattle.logic_walk.specs.Walks.{frame_space, member_slot, run_frame};

/// A frame does what its body does, where the frames that it calls are those before it.
pub fn frame_runs_its_body()
    ensures { (t globals : ℕ) (frames : List Frame) (limit k : ℕ) (frame : Frame) (base : Base)
        (path : Path) (cells : PlainCells) → k < limit → slice_get frames k ≡ Some frame
        → run_frame t globals frames limit k base path cells
        ≡ run_all (frame_space t globals (run_frame t globals frames k) frame.seats.items base path)
        (view_body frame.body.items) cells }
{}

/// Assigning a value of an instance keeps each value of an instance that lies apart from it.
pub fn seats_lie_apart()
    ensures { (base : Base) (cells : PlainCells) (a b : Seat) (m n i j : ℕ) (x : ℤ) → LieApart a b m n
        → i < m → j < n
        → value_at (assigned cells (member_slot base a i) x) (member_slot base b j)
        ≡ value_at cells (member_slot base b j) }
{}

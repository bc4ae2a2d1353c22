//! A law of the definitions. The function does nothing: it has the law as its contract, for the crates above.

ghost use Rattle.std.specs.Prelude.{◌≡◌, ◌≤◌, ◌*◌, ℕ, List, length};
ghost use Rattle.logic_walk.specs.declared.frame.Base.{Base};
ghost use Rattle.logic_walk.specs.declared.frame.Frame.{Frame};
ghost use Rattle.vm_sizes.specs.Sizes.{frame_lines, frame_size};
ghost use Rattle.codegen.specs.Codes.{frame_part};

/// The code of a frame is as long as its size foretells, and no longer than three instructions a unit of the frame's size.
pub fn frame_code_is_as_long()
    ensures { (globals : ℕ) (frames : List Frame) (limit k : ℕ) (base : Base) (path pc : ℕ)
        → (length ((frame_part globals frames limit k).code base path pc) ≡ frame_lines frames limit k)
        × (frame_lines frames limit k ≤ 3 * frame_size frames limit k) }
{}

//! Folds the constants of frames.

ghost use Rattle.std.specs.Prelude.{◌≡◌, IfOk};
ghost use Rattle.logic_walk.specs.Plain.{view_frame};
ghost use Rattle.vm_programs.specs.Folded.{folded_frame, AreFolded};

use const_fold::fold_body;
use logic_walk::Frame;
use std::alloc::{AllocError, Global};

/// A frame with the constants of its body folded. Its instances and its initial values are moved; its body is let go.
pub(crate) fn fold_frame(alloc: Global, frame: Frame) -> Result<Frame, AllocError>
    ensures { IfOk result (λ folded. view_frame folded ≡ folded_frame (view_frame frame)) }
{
    let mut folded = frame;
    folded.body = fold_body(alloc, &folded.body)?;
    Ok(folded)
}

/// The frames with the constants of their bodies folded. Each body is let go as soon as its folded one is there.
pub(crate) fn fold_frames(alloc: Global, frames: Vec<Frame>) -> Result<Vec<Frame>, AllocError>
    ensures { IfOk result (λ folded. AreFolded frames.items folded.items) }
{
    let mut folded = Vec::with_capacity(alloc, frames.len())?;
    for frame in frames {
        folded.push(fold_frame(alloc, frame)?)?;
    }
    Ok(folded)
}

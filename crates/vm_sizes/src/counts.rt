//! Counts the frames of a table, each once.

ghost use Rattle.std.specs.Prelude.{◌<◌, ◌^◌, IfOk};
ghost use Rattle.vm_sizes.specs.Sizes.{routine_lines};
ghost use Rattle.vm_sizes.specs.Counts.{lines_at, IsCountOf, HasFewLines, AreCounts};

use crate::lines::body_lines;
use crate::paths::routine_paths;
use crate::words::body_words;
use logic_walk::Frame;
use std::alloc::{AllocError, Global};

/// What a frame becomes as code: how many instructions, words of stack and paths it has. 2^64 - 1 words or paths stand for each number of them
/// from there on.
#[derive(Clone, Copy, Drop)]
pub struct Count {
    pub lines: u32,
    pub words: usize,
    pub paths: usize,
}

/// The counts of the frames of a table, by their numbers.
pub struct FrameCounts {
    pub frames: Vec<Count>,
}

impl Drop for FrameCounts {
    fn drop(self) {
        let FrameCounts { frames: _ } = self;
    }
}

/// The counts of the frame that comes after those of a table.
pub fn count_frame(table: &[Count], frame: &Frame) -> Count
    requires { routine_lines (lines_at table.now) frame.now < 2 ^ 32 }
    ensures { IsCountOf table.now frame.now result }
{
    let lines = body_lines(table, &frame.seats, &frame.body);
    let words = body_words(table, &frame.seats, &frame.body);
    let paths = routine_paths(table, &frame.seats);
    Count {
        lines,
        words,
        paths,
    }
}

/// Counts each frame of a table, once and for all that are made code.
pub fn count_frames(alloc: Global, frames: &[Frame]) -> Result<FrameCounts, AllocError>
    requires { HasFewLines frames.now }
    ensures { IfOk result (λ counts. AreCounts frames.now counts) }
{
    let mut table = Vec::with_capacity(alloc, frames.len())?;
    for frame in frames {
        let count = count_frame(&table, frame);
        table.push(count)?;
    }
    Ok(FrameCounts { frames: table })
}

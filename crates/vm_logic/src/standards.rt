//! The standard blocks of all programs, and where those of each begin.

ghost use Rattle.std.specs.Prelude.{◌≡◌, length, IfOk};
ghost use Rattle.logic_source.specs.Source.{source_of};
ghost use Rattle.logic_source.specs.Blocks.{AreBelow, HasItsTypes};
ghost use Rattle.logic_source.specs.Seats.{program_clocks_base};
ghost use Rattle.logic_frames.specs.Frames.{IsFrames};
ghost use Rattle.vm_logic.specs.Bases.{AreBases};
ghost use Rattle.vm_logic.specs.Framed.{all_standards};

use logic_cells::Standard;
use logic_frames::frames_have_standards;
use logic_source::Logic;
use logic_walk::{Frame, push_standards};
use std::alloc::{AllocError, Global};

/// The standard blocks of all programs in order; and the number of each program's first one, and behind them that of all.
#[derive(Drop)]
pub struct Standards {
    pub list: Vec<Standard>,
    pub bases: Vec<usize>,
}

/// The standard blocks of all programs.
pub fn standards_of(
    alloc: Global,
    logic: &Logic,
    order: &[usize],
    frames: &[Frame],
) -> Result<Standards, AllocError>
    requires frames { IsFrames (source_of logic.now) order.now frames.now }
    requires below { AreBelow (source_of logic.now).blocks order.now }
    requires types { HasItsTypes (source_of logic.now) }
    ensures list { IfOk result (λ standards. standards.list.items
        ≡ all_standards (source_of logic.now)) }
    ensures bases { IfOk result (λ standards. AreBases (program_clocks_base (source_of logic.now))
        (length (source_of logic.now).programs) standards.bases.items) }
{
    frames_have_standards();
    let mut list = Vec::new(alloc);
    let mut bases = Vec::new(alloc);
    bases.push(0)?;
    let mut place = order.len();
    for _program in &logic.programs {
        push_standards(frames, place, &mut list)?;
        bases.push(list.len())?;
        place += 1;
    }
    Ok(Standards { list, bases })
}

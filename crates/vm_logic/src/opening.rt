//! The cells before the first scan.

ghost use Rattle.std.specs.Prelude.{◌≡◌, length};
ghost use Rattle.logic_source.specs.Source.{Source, source_of};
ghost use Rattle.logic_source.specs.Seats.{program_values_base, program_clocks_base};
ghost use Rattle.logic_walk.specs.Starts.{StartsAreMarked};
ghost use Rattle.logic_frames.specs.Frames.{IsFrames};
ghost use Rattle.logic_frames.specs.Opening.{programs_started};
ghost use Rattle.vm_logic.specs.Bases.{AreBases};

use logic_cells::Cells;
use logic_source::Logic;
use logic_walk::{Frame, start_frame};

/// Assigns the initial values of each program in turn, with those of its instances. It allocates nothing.
pub fn start_programs(
    logic: &Logic,
    order: &[usize],
    frames: &[Frame],
    values: &[usize],
    clocks: &[usize],
    cells: &mut Cells,
)
    requires frames { IsFrames (source_of logic.now) order.now frames.now }
    requires values { AreBases (program_values_base (source_of logic.now))
        (length (source_of logic.now).programs) values.now }
    requires clocks { AreBases (program_clocks_base (source_of logic.now))
        (length (source_of logic.now).programs) clocks.now }
    ensures { cells.new
        ≡ programs_started (source_of logic.now) order.now frames.now
        (length (source_of logic.now).programs) 0 cells.old }
{
    let globals = values[0];
    let mut place = order.len();
    for program in 0..logic.programs.len() {
        start_frame(
            frames,
            globals,
            place,
            values[program],
            clocks[program],
            cells,
        );
        place += 1;
    }
}

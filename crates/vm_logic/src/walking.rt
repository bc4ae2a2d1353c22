//! Runs the codes of programs over cells.

ghost use Rattle.std.specs.Prelude.{◌≡◌, ◌<◌, ◌≤◌, ◌+◌, ◌*◌, IfErr, IfOk, get_or, length};
ghost use Rattle.logic_limits.specs.Counts.{program_costs};
ghost use Rattle.logic_source.specs.Worlds.{World, run_program};
ghost use Rattle.logic_frames.specs.Stands.{StandFor};
ghost use Rattle.vm_logic.specs.Runs.{ran, IsWithin, HasCells, Agree, TakesInstructions};

use crate::framed::Framed;
use logic_cells::Cells;
use plant_types::{Place, Trap};
use std::alloc::AllocError;
use vm_programs::Stack;

/// How a run of a program ends.
#[derive(Clone, Copy, PartialEq, Eq, Drop)]
pub enum Walked {
    /// After the last statement.
    Done,
    /// Within the statement at the place, with a trap. What was assigned before it stands.
    Trapped(Place, Trap),
}

/// Runs the code of the program of a number, from 0, over the cells. If the cells stand for a world, it ends as the source does in that world, and
/// leaves them standing for the world that the source leaves. The moment is that of the scan, in milliseconds. The stack is memory for the run, and
/// is first made as long as the code needs: a run on a stack that is long enough allocates nothing. Fails if memory is refused; then nothing has run.
pub fn run(
    framed: &Framed,
    program: u32,
    stack: &mut Stack,
    cells: &mut Cells,
    moment: u64,
) -> Result<Walked, AllocError>
    requires there { program < length framed.now.programs }
    requires cells { HasCells framed.now cells.old }
    ensures ran { IfOk result (λ ended. (w : World) → StandFor framed.now cells.old w
        → Agree framed.now (run_program framed.now program moment w) (ran framed.now ended cells.new)) }
    ensures within { IfOk result (λ ended. IsWithin framed.now ended) }
    ensures shape { HasCells framed.now cells.new }
    ensures kept { IfErr result (λ _. cells.new ≡ cells.old) }
{
    let (walked, _) = framed.run_counted(program as usize, stack, cells, moment)?;
    Ok(walked)
}

/// Runs the code of a program as `run` does, and tells how many instructions it did, a pair counted once: at most four for each unit of what the
/// program costs by the rule of the limit on a scan's steps, and four.
pub fn run_counted(
    framed: &Framed,
    program: u32,
    stack: &mut Stack,
    cells: &mut Cells,
    moment: u64,
) -> Result<(Walked, u128), AllocError>
    requires there { program < length framed.now.programs }
    requires cells { HasCells framed.now cells.old }
    ensures ran { IfOk result (λ ended. (w : World) → StandFor framed.now cells.old w
        → Agree framed.now (run_program framed.now program moment w)
        (ran framed.now ended.0 cells.new)) }
    ensures within { IfOk result (λ ended. IsWithin framed.now ended.0) }
    ensures shape { HasCells framed.now cells.new }
    ensures count { IfOk result (λ ended. TakesInstructions framed.now program moment cells.old
        ended.1) }
    ensures cost { IfOk result (λ ended. ended.1 ≤ 4 * get_or (program_costs framed.now) program 0 + 4) }
    ensures kept { IfErr result (λ _. cells.new ≡ cells.old) }
{
    framed.run_counted(program as usize, stack, cells, moment)
}

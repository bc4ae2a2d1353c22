//! What the scans of a source leave, in each of two ways: its programs one after another, and level by level.

ghost use Rattle.std.specs.Prelude.{◌≡◌, ◌<◌, length, IfOk};
ghost use Rattle.vm_logic.specs.Runs.{HasCells};

use crate::twin::Twin;
use logic_cells::Cells;
use slice_store::Reserve;
use std::alloc::{AllocError, Global};
use try_random::Dice;
use try_walks::Walker;
use vm_logic::{Framed, Walked, sound_source_is_small, standing_cells_are_there};
use vm_slices::same_cells;

/// What both ways have left. The first has cells for two runs of its programs, by walk and by code.
#[derive(Drop)]
pub struct State {
    pub twin: Twin,
    /// Which programs are faulted in the first way.
    pub stopped: Vec<bool>,
    /// The cells of the levels.
    pub cells: Cells,
    /// Which programs are faulted in the levels.
    pub faulted: Vec<bool>,
    /// Memory of the levels' jobs, for those of the next scan.
    pub jobs: Reserve,
    /// The moment of the next scan.
    pub moment: u64,
}

/// That no program is faulted.
fn no_flags(alloc: Global, framed: &Framed) -> Result<Vec<bool>, AllocError>
    ensures { IfOk result (λ flags. length flags.items ≡ length framed.now.programs) }
{
    let flags = vec![in alloc; false; framed.programs().len()]?;
    Ok(flags)
}

/// What there is before the first scan.
pub fn opened(alloc: Global, framed: &Framed, walker: Walker) -> Result<State, AllocError>
    ensures ran { IfOk result (λ state. HasCells framed.now state.twin.ran) }
    ensures cells { IfOk result (λ state. HasCells framed.now state.cells) }
    ensures flags { IfOk result (λ state. length state.faulted.items ≡ length framed.now.programs) }
{
    standing_cells_are_there();
    let stopped = no_flags(alloc, framed)?;
    let faulted = no_flags(alloc, framed)?;
    let cells = framed.opening(alloc)?;
    Ok(State {
        twin: Twin::new(alloc, framed, walker)?,
        stopped,
        cells,
        faulted,
        jobs: Reserve::new(alloc),
        moment: 0,
    })
}

/// Restarts programs that are faulted in either way, each one time in two.
pub fn restart(stopped: &mut Vec<bool>, faulted: &mut Vec<bool>, dice: &mut Dice)
    ensures { length faulted.new.items ≡ length faulted.old.items }
{
    for program in 0..faulted.len() {
        if program < stopped.len() && dice.is_one_of(2) {
            stopped[program] = false;
            faulted[program] = false;
        }
    }
}

/// How a program ended in program order.
#[derive(Clone, Copy, Drop)]
pub enum End {
    /// It was stopped, and didn't run.
    Skipped,
    /// Its walk and its code ended apart.
    Apart,
    /// Both ended so.
    Ended(Walked),
}

/// Runs a program by walk and by code, unless it is stopped, and stops it where it traps.
fn run_program(
    framed: &Framed,
    twin: &mut Twin,
    stopped: &mut [bool],
    program: u32,
    moment: u64,
) -> Result<End, AllocError>
    requires there { program < length framed.now.programs }
    requires cells { HasCells framed.now twin.old.ran }
    ensures { HasCells framed.now twin.new.ran }
{
    let Some(is_stopped) = stopped.get_mut(program as usize) else {
        return Ok(End::Skipped);
    };
    if *is_stopped {
        return Ok(End::Skipped);
    }
    match twin.run(framed, program, moment)? {
        Some(ended) => {
            *is_stopped = !matches!(ended, Walked::Done);
            Ok(End::Ended(ended))
        }
        None => Ok(End::Apart),
    }
}

/// Runs the programs that aren't stopped one after another, each by walk and by code, and stops those that trap. Tells how each ended.
pub fn run_in_order(
    alloc: Global,
    framed: &Framed,
    twin: &mut Twin,
    stopped: &mut [bool],
    moment: u64,
) -> Result<Vec<End>, AllocError>
    requires { HasCells framed.now twin.old.ran }
    ensures { HasCells framed.now twin.new.ran }
{
    sound_source_is_small();
    let mut ends = Vec::with_capacity(alloc, framed.programs().len())?;
    for program in 0..framed.programs().len() {
        let end = run_program(framed, twin, stopped, program as u32, moment)?;
        ends.push(end)?;
    }
    Ok(ends)
}

/// Whether both ways have left the same, in their cells and of their programs.
pub fn is_alike(state: &State) -> bool {
    state.twin.is_alike()
        && same_cells(&state.cells, &state.twin.ran)
        && state.faulted.as_slice() == state.stopped.as_slice()
}

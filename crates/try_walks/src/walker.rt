//! Sources whose programs can be walked.

ghost use Rattle.std.specs.Prelude.{◌≡◌, ◌<◌, IfOk, MatchResult, length, nat_lt};
ghost use Rattle.logic_source.specs.Source.{source_of};
ghost use Rattle.logic_source.specs.Units.{source_in};
ghost use Rattle.logic_source.specs.Blocks.{AreBelow};
ghost use Rattle.logic_source.specs.Worlds.{World, run_program};
ghost use Rattle.logic_limits.specs.Limits.{KeepsLimits, IsLimitFault};
ghost use Rattle.logic_frames.specs.Stands.{StandFor};
ghost use Rattle.vm_logic.specs.Sound.{IsSound};
ghost use Rattle.vm_logic.specs.Runs.{Agree, IsWithin, ran};

use logic_cells::Cells;
use logic_frames::{frames_agree, frames_have_paths, frames_of, typed_names_are_known};
use logic_limits::{LimitFault, block_type_counts, limits};
use logic_source::{Logic, logic_of, order_is_of_source};
use logic_walk::{Frame, walk_frame};
use st_typing::Typed;
use std::alloc::{AllocError, Global};
use std::marker::Model;
use vm_logic::{Walked, path_bases, standards_of, value_bases, walked};

/// The source of well-formed units that keeps the limits, with a frame for each program and each block type that is used, and with where the
/// values, the standard blocks and the paths of each program begin. Contracts see the source.
pub struct Walker {
    logic: Logic,
    order: Vec<usize>,
    frames: Vec<Frame>,
    values: Vec<usize>,
    clocks: Vec<usize>,
    paths: Vec<u32>,
}

impl Drop for Walker {
    fn drop(self) {
        let Walker {
            logic: _,
            order: _,
            frames: _,
            values: _,
            clocks: _,
            paths: _,
        } = self;
    }
}

impl Model for Walker {
    ghost use Rattle.logic_source.specs.Source.{Source, source_of};
    ghost use Rattle.logic_source.specs.Code.{source_code};

    ghost Value = { Source };

    ghost coded = { source_code };

    ghost use Rattle.try_walks.specs.Walkers.{IsWalker};

    ghost view = { λ w. source_of w.logic };

    ghost invariant = { λ w. IsWalker (source_of w.logic) w.order.items w.frames.items w.values.items w.clocks.items w.paths.items };
}

/// A sound source whose programs can be walked.
fn made_of(alloc: Global, logic: Logic, order: Vec<usize>) -> Result<Walker, AllocError>
    requires sound { IsSound (source_of logic) }
    requires below { AreBelow (source_of logic).blocks order.items }
    ensures { IfOk result (λ walker. walker ≡ source_of logic) }
{
    block_type_counts();
    let values = value_bases(alloc, &logic, &order)?;
    let frames = frames_of(alloc, &logic, &order)?;
    let paths = path_bases(alloc, &logic, &order, &frames)?;
    let standards = standards_of(alloc, &logic, &order, &frames)?;
    Ok(Walker {
        logic,
        order,
        frames,
        values,
        clocks: standards.bases,
        paths,
    })
}

/// A source whose programs can be walked, if it keeps the limits.
fn judged(alloc: Global, logic: Logic, order: Vec<usize>) -> Result<Walker, LimitFault>
    requires sound { KeepsLimits (source_of logic) → IsSound (source_of logic) }
    requires below { AreBelow (source_of logic).blocks order.items }
    ensures { MatchResult result (λ walker. walker ≡ source_of logic) (IsLimitFault (source_of logic)) }
{
    let _costs = limits(alloc, &logic, &order)?;
    Ok(made_of(alloc, logic, order)?)
}

impl Walker {
    /// The source of well-formed units, with its frames. The bodies of the units are kept as they are.
    ///
    /// Fails with the first limit that it is past: `Slots`, `Size` or `Cost`; and with `Memory` if memory was refused.
    pub fn of(alloc: Global, typed: Typed) -> Result<Walker, LimitFault>
        ensures { MatchResult result (λ walker. walker ≡ source_in typed)
            (IsLimitFault (source_in typed)) }
    {
        order_is_of_source();
        let (logic, order) = logic_of(alloc, typed)?;
        judged(alloc, logic, order)
    }

    /// Whether there is a program of a number, from 0.
    pub fn has(&self, program: u32) -> bool
        ensures { result ≡ nat_lt program (length self.now.programs) }
    {
        (program as usize) < self.logic.programs.len()
    }

    /// Walks the program of a number, from 0, over the cells. If the cells stand for a world, it ends as the source does in that world, and
    /// leaves them standing for the world that the source leaves. The moment is that of the scan, in milliseconds. It allocates nothing.
    pub fn walk(&self, program: u32, cells: &mut Cells, moment: u64) -> Walked
        requires there { program < length self.now.programs }
        ensures ran { (w : World) → StandFor self.now cells.old w
            → Agree self.now (run_program self.now program moment w) (ran self.now result cells.new) }
        ensures within { IsWithin self.now result }
    {
        frames_agree();
        frames_have_paths();
        typed_names_are_known();
        let program = program as usize;
        let ended = walk_frame(
            &self.frames,
            self.values[0],
            self.order.len() + program,
            self.values[program],
            self.clocks[program],
            cells,
            moment,
        );
        walked(self.paths[program], ended)
    }
}

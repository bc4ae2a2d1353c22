//! Tables of a level for each global.

ghost use Rattle.std.specs.Prelude.{◌≡◌, ◌≤◌, length, All};
ghost use Rattle.level_plan.specs.Accesses.{Covers, EndsWithin, HaveGlobal, StaysWithin};
ghost use Rattle.level_plan.specs.Tables.{IsRaised, IsTop, IsTopBefore};

use crate::access::{Access, Extent};

/// The greatest level at the globals of an extent, or 0 if it has none.
fn top_of(levels: &[u32], extent: &Extent) -> u32
    requires { EndsWithin (length levels.now) extent.now }
    ensures { IsTop (Covers extent.now) levels.now result }
{
    let first = extent.first as usize;
    let mut top = 0;
    for global in first..first + extent.count as usize {
        top = top.max(levels[global]);
    }
    top
}

/// The greatest level at the globals of some extents, or 0 if there are none.
fn top_at(levels: &[u32], extents: &[Extent]) -> u32
    requires { All (λ extent. EndsWithin (length levels.now) extent) extents.now }
    ensures { IsTop (HaveGlobal extents.now) levels.now result }
{
    let mut top = 0u32;
    for extent in extents {
        top = top.max(top_of(levels, extent));
    }
    top
}

/// The greatest level of the programs with which a program conflicts, by the levels of those that write each global and of those that
/// read it; 0 if it conflicts with none.
pub fn top_before(writers: &[u32], readers: &[u32], access: &Access) -> u32
    requires writers { StaysWithin (length writers.now) access.now }
    requires readers { StaysWithin (length readers.now) access.now }
    ensures { IsTopBefore writers.now readers.now access.now result }
{
    top_at(writers, &access.reads)
        .max(top_at(writers, &access.writes))
        .max(top_at(readers, &access.writes))
}

/// Raises the levels at the globals of an extent to a level, where they are lower.
fn raise_at(levels: &mut [u32], extent: &Extent, level: u32)
    requires { EndsWithin (length levels.old) extent.now }
    ensures { IsRaised (Covers extent.now) level levels.old levels.new }
{
    let first = extent.first as usize;
    for global in first..first + extent.count as usize {
        levels[global] = levels[global].max(level);
    }
}

/// Raises the levels at the globals of some extents to a level, where they are lower.
pub fn raise(levels: &mut [u32], extents: &[Extent], level: u32)
    requires { All (λ extent. EndsWithin (length levels.old) extent) extents.now }
    ensures { IsRaised (HaveGlobal extents.now) level levels.old levels.new }
{
    for extent in extents {
        raise_at(levels, extent, level);
    }
}

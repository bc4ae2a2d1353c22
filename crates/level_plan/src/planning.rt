//! The plan of levels.

ghost use Rattle.std.specs.Prelude.{◌<◌, ◌^◌, length, IfOk};
ghost use Rattle.level_plan.specs.Accesses.{StayWithin};
ghost use Rattle.level_plan.specs.Plans.{IsPlan};

use crate::access::Access;
use crate::levels::Levels;
use crate::tables::{raise, top_before};
use std::alloc::{AllocError, Global};

/// The levels of programs that run in this order, over so many globals. It takes time in proportion to the number of globals and to the lengths of
/// all extents together.
pub fn plan(alloc: Global, programs: &[Access], globals: usize) -> Result<Levels, AllocError>
    requires few { length programs.now < 2 ^ 32 }
    requires within { StayWithin globals programs.now }
    ensures { IfOk result (λ levels. IsPlan programs.now levels) }
{
    let mut writers = vec![in alloc; 0u32; globals]?;
    let mut readers = vec![in alloc; 0u32; globals]?;
    let mut levels = Vec::with_capacity(alloc, programs.len())?;
    let mut last = 0u32;
    for access in programs {
        let level = top_before(&writers, &readers, access) + 1;
        raise(&mut writers, &access.writes, level);
        raise(&mut readers, &access.reads, level);
        levels.push(level)?;
        last = last.max(level);
    }
    Ok(Levels::new(levels, last))
}

//! The limits of a source, and what its programs cost.

ghost use Rattle.std.specs.Prelude.{◌≡◌, ◌+◌, min, map, length, nat_lt, IfOk, MatchResult};
ghost use Rattle.std.specs.List.{sum_by, list_any};
ghost use Rattle.logic_source.specs.Source.{row_cells, source_of};
ghost use Rattle.logic_source.specs.Blocks.{AreBelow};
ghost use Rattle.logic_limits.specs.Counts.{program_costs};
ghost use Rattle.logic_limits.specs.Limits.{KeepsLimits, IsLimitFault};

use crate::counting::{count_programs, count_rows};
use crate::fault::LimitFault;
use crate::measures::{Counts, LAST_COST, LAST_SIZE, LAST_SLOTS};
use crate::stopping::{add, count};
use logic_source::Logic;
use std::alloc::{AllocError, Global};

/// The slots of the globals, of the global arrays and of the programs, up to the last number.
fn all_slots(logic: &Logic, programs: &[Counts]) -> u64
    ensures { result
        ≡ min
        (length logic.now.globals.items + row_cells logic.now.rows.items + sum_by
        (λ program. program.slots) programs.now) 65537 }
{
    let globals = count(LAST_SLOTS, logic.globals.len());
    let mut total = add(LAST_SLOTS, globals, count_rows(&logic.rows));
    for program in programs {
        total = add(LAST_SLOTS, total, program.slots);
    }
    total
}

/// The size of the programs together, up to the last number.
fn all_size(programs: &[Counts]) -> u64
    ensures { result ≡ min (sum_by (λ program. program.size) programs.now) 1000001 }
{
    let mut total = 0;
    for program in programs {
        total = add(LAST_SIZE, total, program.size);
    }
    total
}

/// Whether the cost of a program is past its limit.
fn some_costly(programs: &[Counts]) -> bool
    ensures { result ≡ list_any (λ program. nat_lt 2000000 program.cost) programs.now }
{
    for program in programs {
        if program.cost >= LAST_COST {
            return true;
        }
    }
    false
}

/// The costs among counts, in order.
fn costs_of(alloc: Global, programs: &[Counts]) -> Result<Vec<u64>, AllocError>
    ensures { IfOk result (λ costs. costs.items ≡ map (λ program. program.cost) programs.now) }
{
    let mut costs = Vec::new(alloc);
    for program in programs {
        costs.push(program.cost)?;
    }
    Ok(costs)
}

/// Judges the limits on slots, size and cost, and tells what each program costs, in order. `order` lists the block types, each after those
/// that it declares. An instance that is never called has its slots, a block type that no program uses counts for nothing. Each body is
/// gone through once for its size and once for its cost, whatever the number of its instances.
///
/// The error is the first limit that the source is past, or `Memory` where memory was refused.
pub fn limits(alloc: Global, logic: &Logic, order: &[usize]) -> Result<Vec<u64>, LimitFault>
    requires { AreBelow (source_of logic.now).blocks order.now }
    ensures kept { MatchResult result (λ _. KeepsLimits (source_of logic.now))
        (IsLimitFault (source_of logic.now)) }
    ensures costs { IfOk result (λ costs. costs.items ≡ program_costs (source_of logic.now)) }
{
    let programs = count_programs(alloc, logic, order)?;
    let slots = all_slots(logic, &programs);
    if slots >= LAST_SLOTS {
        return Err(LimitFault::Slots);
    }
    let size = all_size(&programs);
    if size >= LAST_SIZE {
        return Err(LimitFault::Size);
    }
    if some_costly(&programs) {
        return Err(LimitFault::Cost);
    }
    let costs = costs_of(alloc, &programs)?;
    Ok(costs)
}

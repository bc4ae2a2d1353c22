//! Where the values of each program begin.

ghost use Rattle.std.specs.Prelude.{◌≡◌, ◌+◌, length, map, IfOk};
ghost use Rattle.logic_source.specs.Source.{row_cells, view_routine, source_of};
ghost use Rattle.logic_source.specs.Blocks.{AreBelow};
ghost use Rattle.logic_source.specs.Seats.{program_values_base};
ghost use Rattle.logic_limits.specs.Limits.{KeepsSlots};
ghost use Rattle.vm_logic.specs.Bases.{stopped, instance_count, value_count, numbers_in, AreCounted, AreBases};

use logic_source::{BlockRef, Logic, Routine, Row, row_cells};
use std::alloc::{AllocError, Global};

/// Where counts stop: one above the limit on slots.
const LAST: usize = 65_537;

/// The sum, up to where counts stop.
fn add(a: usize, b: usize) -> usize
    ensures { result ≡ stopped (a + b) }
{
    a.saturating_add(b).min(LAST)
}

/// How many values an instance of a block has, by the counts of the block types.
fn instance_count(counts: &[usize], block: BlockRef) -> usize
    ensures { result ≡ instance_count (numbers_in counts.now) block }
{
    match block {
        BlockRef::Ton | BlockRef::Tof => 2,
        BlockRef::RTrig => 1,
        BlockRef::Declared(number) => match counts.get(number) {
            Some(count) => *count,
            None => 0,
        },
    }
}

/// How many elements arrays have together, up to where counts stop.
fn row_count(rows: &[Row]) -> usize
    ensures { result ≡ stopped (row_cells rows.now) }
{
    let mut total = 0;
    for row in rows {
        total = add(total, row.elements());
    }
    total
}

/// How many values a routine has, by the counts of the block types, up to where counts stop.
fn value_count(counts: &[usize], routine: &Routine) -> usize
    ensures { result ≡ stopped (value_count (numbers_in counts.now) (view_routine routine.now)) }
{
    let mut total = add(routine.locals.len(), row_count(&routine.rows));
    for instance in &routine.instances {
        total = add(total, instance_count(counts, instance.of));
    }
    total
}

/// How many values an instance of each block type has, up to where counts stop: a block type that no program uses may have more than any memory has
/// room for.
fn count_types(alloc: Global, blocks: &[Routine], order: &[usize]) -> Result<Vec<usize>, AllocError>
    requires { AreBelow (map view_routine blocks.now) order.now }
    ensures { IfOk result (λ counts. AreCounted (map view_routine blocks.now) counts.items) }
{
    let mut counts = vec![in alloc; 0; blocks.len()]?;
    for number in order {
        let count = value_count(&counts, &blocks[*number]);
        counts[*number] = count;
    }
    Ok(counts)
}

/// The number of the first value of each program, and behind them the number of all values. The order lists each block type after those that it
/// declares. No count of a program's values stops, since the values are no more than the slots.
pub fn value_bases(alloc: Global, logic: &Logic, order: &[usize]) -> Result<Vec<usize>, AllocError>
    requires below { AreBelow (source_of logic.now).blocks order.now }
    requires slots { KeepsSlots (source_of logic.now) }
    ensures { IfOk result (λ row. AreBases (program_values_base (source_of logic.now))
        (length (source_of logic.now).programs) row.items) }
{
    let counts = count_types(alloc, &logic.blocks, order)?;
    let mut row = Vec::new(alloc);
    let mut at = logic.globals.len() + row_cells(&logic.rows);
    row.push(at)?;
    for program in &logic.programs {
        at = add(at, value_count(&counts, program));
        row.push(at)?;
    }
    Ok(row)
}

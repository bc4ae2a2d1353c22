//! What routines count: each block type once, after those that it declares.

ghost use Rattle.std.specs.Prelude.{◌≡◌, min, map, length, IfOk};
ghost use Rattle.logic_source.specs.Source.{row_cells, view_routine, source_of};
ghost use Rattle.logic_source.specs.Blocks.{AreBelow};
ghost use Rattle.logic_limits.specs.Counts.{instance_slots, routine_slots};
ghost use Rattle.logic_limits.specs.Measures.{last_of, slots_at, weight_at, routine_weight, counts_by, routine_counts, AreNamed, AreCounted};

use crate::instances::{Instances, instances_of};
use crate::measures::{Counts, LAST_SLOTS, Measure};
use crate::stopping::{add, count};
use crate::weighing::{Scale, weigh_body};
use logic_source::{BlockRef, Logic, Routine, Row};
use std::alloc::{AllocError, Global};

fn slots_of(table: &[Counts], block: BlockRef) -> u64
    ensures { result ≡ instance_slots (slots_at table.now) block }
{
    match block {
        BlockRef::Ton | BlockRef::Tof => 3,
        BlockRef::RTrig => 2,
        BlockRef::Declared(number) => match table.get(number) {
            Some(counts) => counts.slots,
            None => 0,
        },
    }
}

/// The slots of arrays, up to the last number: one for each element.
pub fn count_rows(rows: &[Row]) -> u64
    ensures { result ≡ min (row_cells rows.now) 65537 }
{
    let mut total = 0;
    for row in rows {
        total = add(LAST_SLOTS, total, count(LAST_SLOTS, row.elements()));
    }
    total
}

/// The slots of a routine, up to the last number.
fn count_slots(table: &[Counts], routine: &Routine) -> u64
    ensures { result ≡ min (routine_slots (slots_at table.now) (view_routine routine.now)) 65537 }
{
    let own = count(LAST_SLOTS, routine.locals.len());
    let mut total = add(LAST_SLOTS, own, count_rows(&routine.rows));
    for instance in &routine.instances {
        total = add(LAST_SLOTS, total, slots_of(table, instance.of));
    }
    total
}

/// What a routine weighs, up to the last number.
fn weigh_routine(
    measure: Measure,
    instances: &Instances,
    table: &[Counts],
    routine: &Routine,
) -> u64
    requires { AreNamed (view_routine routine.now) instances.now.names instances.now.blocks.items }
    ensures { result
        ≡ min (routine_weight measure (weight_at measure table.now) (view_routine routine.now))
        (last_of measure) }
{
    let scale = Scale {
        measure,
        instances,
        table,
    };
    weigh_body(&scale, &routine.body)
}

/// The counts of a routine, by those of the block types.
fn count_routine(alloc: Global, table: &[Counts], routine: &Routine) -> Result<Counts, AllocError>
    ensures { IfOk result (λ counts. counts ≡ counts_by table.now (view_routine routine.now)) }
{
    let instances = instances_of(alloc, routine)?;
    Ok(Counts {
        slots: count_slots(table, routine),
        size: weigh_routine(Measure::Size, &instances, table, routine),
        cost: weigh_routine(Measure::Cost, &instances, table, routine),
    })
}

/// Room for the counts of so many block types.
fn make_table(alloc: Global, count: usize) -> Result<Vec<Counts>, AllocError>
    ensures { IfOk result (λ table. length table.items ≡ count) }
{
    let none = Counts {
        slots: 0,
        size: 0,
        cost: 0,
    };
    let table = vec![in alloc; none; count]?;
    Ok(table)
}

/// The counts of each block type.
fn count_types(
    alloc: Global,
    blocks: &[Routine],
    order: &[usize],
) -> Result<Vec<Counts>, AllocError>
    requires { AreBelow (map view_routine blocks.now) order.now }
    ensures { IfOk result (λ table. AreCounted (map view_routine blocks.now) table.items) }
{
    let mut table = make_table(alloc, blocks.len())?;
    for number in order {
        let counts = count_routine(alloc, &table, &blocks[*number])?;
        table[*number] = counts;
    }
    Ok(table)
}

/// The counts of each program.
pub fn count_programs(
    alloc: Global,
    logic: &Logic,
    order: &[usize],
) -> Result<Vec<Counts>, AllocError>
    requires { AreBelow (source_of logic.now).blocks order.now }
    ensures { IfOk result (λ list. list.items
        ≡ map (routine_counts (source_of logic.now).blocks) (source_of logic.now).programs) }
{
    let table = count_types(alloc, &logic.blocks, order)?;
    let mut list = Vec::new(alloc);
    for program in &logic.programs {
        let counts = count_routine(alloc, &table, program)?;
        list.push(counts)?;
    }
    Ok(list)
}

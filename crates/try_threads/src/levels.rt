//! Plans worked out by hand from the rule.

use level_plan::{Access, Extent, plan, stay_within};
use std::alloc::{AllocError, Global};
use std::test::Fail;

/// No global.
const NONE: Extent = Extent { first: 0, count: 0 };

fn global(number: u32) -> Extent {
    Extent {
        first: number,
        count: 1,
    }
}

fn some_of(alloc: Global, extents: &[Extent]) -> Result<Vec<Extent>, AllocError> {
    let mut some = Vec::new(alloc);
    for extent in extents {
        if extent.count > 0 {
            some.push(*extent)?;
        }
    }
    Ok(some)
}

/// Programs, by what each of them reads, and what it writes first and second.
fn programs_of(alloc: Global, rows: &[[Extent; 3]]) -> Result<Vec<Access>, AllocError> {
    let mut programs = Vec::new(alloc);
    for row in rows {
        let reads = some_of(alloc, &row[..1])?;
        let writes = some_of(alloc, &row[1..])?;
        programs.push(Access { reads, writes })?;
    }
    Ok(programs)
}

/// The level of each program, and behind them the last level; nothing where a program names more globals than there are.
fn levels_of(alloc: Global, programs: &[Access], globals: usize) -> Result<Vec<u32>, AllocError> {
    let mut found = Vec::new(alloc);
    if programs.len() > 64 || !stay_within(globals, programs) {
        return Ok(found);
    }
    let levels = plan(alloc, programs, globals)?;
    for program in 0..programs.len() as u32 {
        found.push(levels.of(program))?;
    }
    found.push(levels.last())?;
    Ok(found)
}

/// Whether programs have these levels, and this last one.
fn have_levels(
    alloc: Global,
    rows: &[[Extent; 3]],
    globals: usize,
    want: &[u32],
) -> Result<bool, AllocError> {
    let programs = programs_of(alloc, rows)?;
    Ok(levels_of(alloc, programs.as_slice(), globals)?.as_slice() == want)
}

/// The first writes what the second reads, the third reads what the fourth writes, and the fifth shares nothing.
#[test]
fn two_writers_and_two_readers(rt: HostRuntime) -> Result<(), Fail> {
    let rows = [
        [NONE, global(0), NONE],
        [global(0), NONE, NONE],
        [global(1), NONE, NONE],
        [NONE, global(1), NONE],
        [NONE, NONE, NONE],
    ];
    assert!(rt; have_levels(rt.alloc(), rows.as_slice(), 2, &[1, 2, 1, 2, 1, 2])?);
    Ok(())
}

/// The first writes globals 1 to 3. The second reads the last of these, the third the one behind them, and the fourth writes what the second reads.
#[test]
fn globals_in_a_row(rt: HostRuntime) -> Result<(), Fail> {
    let row = Extent { first: 1, count: 3 };
    let rows = [
        [NONE, row, NONE],
        [global(3), NONE, NONE],
        [global(4), NONE, NONE],
        [NONE, global(0), global(3)],
    ];
    assert!(rt; have_levels(rt.alloc(), rows.as_slice(), 4, &[])?);
    assert!(rt; have_levels(rt.alloc(), rows.as_slice(), 5, &[1, 2, 1, 3, 3])?);
    Ok(())
}

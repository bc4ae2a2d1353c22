//! The programs' parts of the cells.

ghost use Rattle.std.specs.Prelude.{◌≡◌, ◌≤◌, ◌^◌, length, IfOk, OnOk};
ghost use Rattle.std.specs.Arc.{arc_value};
ghost use Rattle.vm_slices.specs.Parts.{IsPartOf};
ghost use Rattle.level_scans.specs.Levels.{AreProgramParts};

use acc_vm::Code;
use level_jobs::Parts;
use std::alloc::{AllocError, Global};
use std::sync::Arc;
use vm_carry::{Framed, sound_source_is_small};
use vm_slices::{Part, relocate};

/// Makes a table as long as a code needs it.
fn make_room(table: &mut Vec<u32>, many: usize) -> Result<(), AllocError>
    requires table { length table.old.items ≤ 2 ^ 32 }
    requires many { many ≤ 65536 }
    ensures long { IfOk result (λ _. many ≤ length table.new.items) }
    ensures few { OnOk result (length table.new.items ≤ 2 ^ 32) }
{
    if table.len() < many {
        table.resize(many, 0)?;
    }
    Ok(())
}

/// The part of a code, made with tables that may have served other codes.
fn part_of(
    alloc: Global,
    code: &Code,
    slots: &mut Vec<u32>,
    clocks: &mut Vec<u32>,
) -> Result<Part, AllocError>
    requires slots { length slots.old.items ≤ 2 ^ 32 }
    requires clocks { length clocks.old.items ≤ 2 ^ 32 }
    requires few_slots { code.now.values ≤ 65536 }
    requires few_clocks { code.now.clocks ≤ 65536 }
    ensures part { IfOk result (IsPartOf code.now) }
    ensures slots { OnOk result (length slots.new.items ≤ 2 ^ 32) }
    ensures clocks { OnOk result (length clocks.new.items ≤ 2 ^ 32) }
{
    make_room(slots, code.values())?;
    make_room(clocks, code.clocks())?;
    relocate(alloc, code, slots.as_mut_slice(), clocks.as_mut_slice())
}

/// The parts of all programs' codes, in program order.
pub fn parts_of(alloc: Global, framed: &Framed) -> Result<Vec<Part>, AllocError>
    ensures parts { IfOk result (λ parts. AreProgramParts framed.now parts.items) }
    ensures few { IfOk result (λ parts. length parts.items ≤ 512) }
{
    sound_source_is_small();
    let mut slots = Vec::new(alloc);
    let mut clocks = Vec::new(alloc);
    let mut parts = Vec::new(alloc);
    for program in 0..framed.programs().len() {
        let code = framed.code(program);
        parts.push(part_of(alloc, code, &mut slots, &mut clocks)?)?;
    }
    Ok(parts)
}

/// Parts that threads share as one list.
pub fn shared(alloc: Global, parts: Vec<Part>) -> Result<Arc<Parts>, AllocError>
    ensures { IfOk result (λ shared. arc_value shared ≡ parts.items) }
{
    match Arc::new(alloc, Parts::new(parts)) {
        Ok(shared) => Ok(shared),
        Err(_) => Err(AllocError),
    }
}

//! The rows of slots that instructions name.

ghost use Rattle.std.specs.Prelude.{◌≡◌, ◌↔◌, IfOk, Contains};
ghost use Rattle.std.specs.List.{flat_map};
ghost use Rattle.acc_vm.specs.declared.instr.Row.{Row};
ghost use Rattle.acc_vm.specs.Operands.{read_rows, written_rows};
ghost use Rattle.vm_slices.specs.Noting.{AreRowsOf};

use crate::prints::add;
use acc_vm::{FlatInstr, Row};
use std::alloc::{AllocError, Global};

/// Sorts rows, so that the same ones stand side by side.
fn put_in_order(rows: &mut Vec<Row>)
    ensures { (r : Row) → Contains rows.new.items r ↔ Contains rows.old.items r }
{
    rows.sort_unstable();
}

/// The rows of which instructions read a slot, one after another.
fn read_in_turn(alloc: Global, instrs: &[FlatInstr]) -> Result<Vec<Row>, AllocError>
    ensures { IfOk result (λ rows. rows.items ≡ flat_map read_rows instrs.now) }
{
    let mut rows = Vec::new(alloc);
    for i in instrs {
        add(&mut rows, i.named().row_read)?;
    }
    Ok(rows)
}

/// The rows of which instructions write a slot, one after another.
fn written_in_turn(alloc: Global, instrs: &[FlatInstr]) -> Result<Vec<Row>, AllocError>
    ensures { IfOk result (λ rows. rows.items ≡ flat_map written_rows instrs.now) }
{
    let mut rows = Vec::new(alloc);
    for i in instrs {
        add(&mut rows, i.named().row_written)?;
    }
    Ok(rows)
}

/// The rows of which instructions read a slot, the same ones side by side.
pub(crate) fn rows_read(alloc: Global, instrs: &[FlatInstr]) -> Result<Vec<Row>, AllocError>
    ensures { IfOk result (λ rows. AreRowsOf read_rows instrs.now rows.items) }
{
    let mut rows = read_in_turn(alloc, instrs)?;
    put_in_order(&mut rows);
    Ok(rows)
}

/// The rows of which instructions write a slot, likewise.
pub(crate) fn rows_written(alloc: Global, instrs: &[FlatInstr]) -> Result<Vec<Row>, AllocError>
    ensures { IfOk result (λ rows. AreRowsOf written_rows instrs.now rows.items) }
{
    let mut rows = written_in_turn(alloc, instrs)?;
    put_in_order(&mut rows);
    Ok(rows)
}

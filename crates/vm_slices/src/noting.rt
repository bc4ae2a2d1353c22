//! Numbers that are noted once each. A table has the place of each number that is noted; what it has for others doesn't matter, so it serves
//! one code after another as it is.

ghost use Rattle.std.specs.Prelude.{◌≡◌, ◌≤◌, ◌<◌, ◌^◌, ℕ, Some, length, slice_get, IfOk, IsTrue, ◌↔◌, Contains};
ghost use Rattle.std.specs.List.{AllByRecursion};
ghost use Rattle.acc_vm.specs.declared.instr.Instr.{Instr};
ghost use Rattle.acc_vm.specs.Codes.{values_past, clocks_past};
ghost use Rattle.vm_slices.specs.Slots.{slots_read, slots_written, clocks_of, SomeHas};
ghost use Rattle.acc_vm.specs.declared.instr.Row.{Row};
ghost use Rattle.acc_vm.specs.Operands.{operands, listed};
ghost use Rattle.vm_slices.specs.Noting.{IsNoted, AreOnce, Notes, IsInRow, IsInRows};

use crate::named::{clock_by, read_by, written_by};
use crate::rows::{rows_read, rows_written};
use acc_vm::{FlatInstr, Row};
use std::alloc::{AllocError, Global};

fn is_noted(places: &[u32], numbers: &[u32], number: u32) -> bool
    requires { number < length places.now }
    ensures { IsTrue result ↔ IsNoted places.now numbers.now number }
{
    let place = places[number as usize] as usize;
    if place >= numbers.len() {
        return false;
    }
    numbers[place] == number
}

/// Notes a number behind the others, if it isn't noted yet.
fn note(places: &mut [u32], numbers: &mut Vec<u32>, number: u32) -> Result<(), AllocError>
    requires there { number < length places.old }
    requires few { length places.old ≤ 2 ^ 32 }
    requires once { AreOnce places.old numbers.old.items }
    ensures { IfOk result (λ _. Notes (λ s. s ≡ number) places.old numbers.old.items places.new
        numbers.new.items) }
{
    if is_noted(places, numbers.as_slice(), number) {
        return Ok(());
    }
    let next = numbers.len() as u32;
    numbers.push(number)?;
    places[number as usize] = next;
    Ok(())
}

fn note_some(
    places: &mut [u32],
    numbers: &mut Vec<u32>,
    number: Option<u32>,
) -> Result<(), AllocError>
    requires there { AllByRecursion (λ s. s < length places.old) (listed number) }
    requires few { length places.old ≤ 2 ^ 32 }
    requires once { AreOnce places.old numbers.old.items }
    ensures { IfOk result (λ _. Notes (Contains (listed number)) places.old numbers.old.items places.new
        numbers.new.items) }
{
    if let Some(number) = number {
        note(places, numbers, number)?;
    }
    Ok(())
}

/// Notes the slots of a row.
fn note_row(places: &mut [u32], numbers: &mut Vec<u32>, row: Row) -> Result<(), AllocError>
    requires there { row.past ≤ length places.old }
    requires few { length places.old ≤ 2 ^ 32 }
    requires once { AreOnce places.old numbers.old.items }
    ensures { IfOk result (λ _. Notes (IsInRow row) places.old numbers.old.items places.new
        numbers.new.items) }
{
    for slot in row.first as usize..row.past {
        let number = slot as u32;
        note(places, numbers, number)?;
    }
    Ok(())
}

fn same_row(a: Row, b: Row) -> bool
    ensures { IsTrue result ↔ (a ≡ b) }
{
    a == b
}

/// Notes the slots of a row, where they aren't noted as those of the last one.
fn note_unless_same(
    places: &mut [u32],
    numbers: &mut Vec<u32>,
    row: Row,
    last: Row,
) -> Result<(), AllocError>
    requires there { row.past ≤ length places.old }
    requires few { length places.old ≤ 2 ^ 32 }
    requires once { AreOnce places.old numbers.old.items }
    requires noted { (s : ℕ) → IsInRow last s → IsNoted places.old numbers.old.items s }
    ensures { IfOk result (λ _. Notes (IsInRow row) places.old numbers.old.items places.new
        numbers.new.items) }
{
    if same_row(row, last) {
        return Ok(());
    }
    note_row(places, numbers, row)
}

/// Notes the slots of rows. Of the same rows that stand side by side the slots are gone through once.
fn note_rows(places: &mut [u32], numbers: &mut Vec<u32>, rows: &[Row]) -> Result<(), AllocError>
    requires there { (r : Row) → Contains rows.now r → r.past ≤ length places.old }
    requires few { length places.old ≤ 2 ^ 32 }
    requires once { AreOnce places.old numbers.old.items }
    ensures { IfOk result (λ _. Notes (IsInRows rows.now) places.old numbers.old.items places.new
        numbers.new.items) }
{
    let mut last = Row { first: 0, past: 0 };
    for row in rows {
        note_unless_same(places, numbers, *row, last)?;
        last = *row;
    }
    Ok(())
}

/// Notes the slots that instructions write, besides those of rows.
fn note_written_alone(
    places: &mut [u32],
    numbers: &mut Vec<u32>,
    instrs: &[FlatInstr],
) -> Result<(), AllocError>
    requires there { (pc : ℕ) (i : Instr) → slice_get instrs.now pc ≡ Some i
        → values_past i ≤ length places.old }
    requires few { length places.old ≤ 2 ^ 32 }
    requires once { AreOnce places.old numbers.old.items }
    ensures { IfOk result (λ _. Notes (SomeHas (λ i. (operands i).writes) instrs.now) places.old
        numbers.old.items places.new numbers.new.items) }
{
    for i in instrs {
        note_some(places, numbers, written_by(i))?;
    }
    Ok(())
}

/// Notes the slots that instructions read, besides those of rows.
fn note_read_alone(
    places: &mut [u32],
    numbers: &mut Vec<u32>,
    instrs: &[FlatInstr],
) -> Result<(), AllocError>
    requires there { (pc : ℕ) (i : Instr) → slice_get instrs.now pc ≡ Some i
        → values_past i ≤ length places.old }
    requires few { length places.old ≤ 2 ^ 32 }
    requires once { AreOnce places.old numbers.old.items }
    ensures { IfOk result (λ _. Notes (SomeHas (λ i. (operands i).reads) instrs.now) places.old
        numbers.old.items places.new numbers.new.items) }
{
    for i in instrs {
        let (one, other) = read_by(i);
        note_some(places, numbers, one)?;
        note_some(places, numbers, other)?;
    }
    Ok(())
}

/// Notes the slots that instructions write.
pub(crate) fn note_written(
    alloc: Global,
    places: &mut [u32],
    numbers: &mut Vec<u32>,
    instrs: &[FlatInstr],
) -> Result<(), AllocError>
    requires there { (pc : ℕ) (i : Instr) → slice_get instrs.now pc ≡ Some i
        → values_past i ≤ length places.old }
    requires few { length places.old ≤ 2 ^ 32 }
    requires once { AreOnce places.old numbers.old.items }
    ensures { IfOk result (λ _. Notes (SomeHas slots_written instrs.now) places.old numbers.old.items
        places.new numbers.new.items) }
{
    note_written_alone(places, numbers, instrs)?;
    let rows = rows_written(alloc, instrs)?;
    note_rows(places, numbers, rows.as_slice())?;
    Ok(())
}

/// Notes the slots that instructions read.
pub(crate) fn note_read(
    alloc: Global,
    places: &mut [u32],
    numbers: &mut Vec<u32>,
    instrs: &[FlatInstr],
) -> Result<(), AllocError>
    requires there { (pc : ℕ) (i : Instr) → slice_get instrs.now pc ≡ Some i
        → values_past i ≤ length places.old }
    requires few { length places.old ≤ 2 ^ 32 }
    requires once { AreOnce places.old numbers.old.items }
    ensures { IfOk result (λ _. Notes (SomeHas slots_read instrs.now) places.old numbers.old.items
        places.new numbers.new.items) }
{
    note_read_alone(places, numbers, instrs)?;
    let rows = rows_read(alloc, instrs)?;
    note_rows(places, numbers, rows.as_slice())?;
    Ok(())
}

/// Notes the clocks that instructions name.
pub(crate) fn note_clocks(
    places: &mut [u32],
    numbers: &mut Vec<u32>,
    instrs: &[FlatInstr],
) -> Result<(), AllocError>
    requires there { (pc : ℕ) (i : Instr) → slice_get instrs.now pc ≡ Some i
        → clocks_past i ≤ length places.old }
    requires few { length places.old ≤ 2 ^ 32 }
    requires once { AreOnce places.old numbers.old.items }
    ensures { IfOk result (λ _. Notes (SomeHas clocks_of instrs.now) places.old numbers.old.items
        places.new numbers.new.items) }
{
    for i in instrs {
        note_some(places, numbers, clock_by(i))?;
    }
    Ok(())
}

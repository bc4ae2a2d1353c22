//! How many slots and clocks instructions name.

ghost use Rattle.std.specs.Prelude.{◌≡◌};
ghost use Rattle.acc_vm.specs.Operands.{listed, past_all, past_rows};
ghost use Rattle.acc_vm.specs.Codes.{values_past, clocks_past, values_named, clocks_named};

use acc_vm::{FlatInstr, Row};

/// The number after one that may be there; 0 if it isn't.
fn past(number: Option<u32>) -> usize
    ensures { result ≡ past_all (listed number) }
{
    match number {
        Some(number) => number as usize + 1,
        None => 0,
    }
}

/// The number after the last slot of a row that may be there; 0 if it isn't.
fn past_row(row: Option<Row>) -> usize
    ensures { result ≡ past_rows (listed row) }
{
    match row {
        Some(row) => row.past,
        None => 0,
    }
}

/// The number after the last slot that an instruction names; 0 if it names none.
fn values_past(instr: &FlatInstr) -> usize
    ensures { result ≡ values_past instr.now }
{
    let named = instr.named();
    past(named.reads.0)
        .max(past(named.reads.1))
        .max(past(named.write))
        .max(past_row(named.row_read))
        .max(past_row(named.row_written))
}

/// The number after the clock that an instruction names; 0 if it names none.
fn clocks_past(instr: &FlatInstr) -> usize
    ensures { result ≡ clocks_past instr.now }
{
    past(instr.named().clock)
}

/// How many slots instructions name, from 0 on.
pub(crate) fn values_named(instrs: &[FlatInstr]) -> usize
    ensures { result ≡ values_named instrs.now }
{
    let mut named: usize = 0;
    for instr in instrs {
        named = named.max(values_past(instr));
    }
    named
}

/// How many clocks instructions name, from 0 on.
pub(crate) fn clocks_named(instrs: &[FlatInstr]) -> usize
    ensures { result ≡ clocks_named instrs.now }
{
    let mut named: usize = 0;
    for instr in instrs {
        named = named.max(clocks_past(instr));
    }
    named
}

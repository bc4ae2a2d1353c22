//! What an instruction names.

ghost use Rattle.std.specs.Prelude.{◌≡◌, ◌++◌};
ghost use Rattle.acc_vm.specs.Operands.{operands, listed};
ghost use Rattle.vm_slices.specs.Slots.{clocks_of};

use acc_vm::FlatInstr;

/// The slots that an instruction reads, besides those of rows.
#[inline(always)]
pub(crate) fn read_by(i: &FlatInstr) -> (Option<u32>, Option<u32>)
    ensures { listed result.0 ++ listed result.1 ≡ (operands i.now).reads }
{
    i.named().reads
}

/// The slot that an instruction writes, if it writes one besides those of rows.
#[inline(always)]
pub(crate) fn written_by(i: &FlatInstr) -> Option<u32>
    ensures { listed result ≡ (operands i.now).writes }
{
    i.named().write
}

/// The clock that an instruction names, if it names one.
#[inline(always)]
pub(crate) fn clock_by(i: &FlatInstr) -> Option<u32>
    ensures { listed result ≡ clocks_of i.now }
{
    i.named().clock
}

//! Code with the prints of its instructions, which are made once, so that to compare it costs little.

ghost use Rattle.std.specs.Prelude.{◌≡◌, ◌↔◌, IfOk, IsTrue};

use crate::prints::{Prints, counted, prints_of, same_counts, same_prints};
use acc_vm::Code;
use std::alloc::{AllocError, Global};
use std::marker::Model;

/// Code with the prints of its instructions. Contracts see the code.
#[derive(Drop)]
pub(crate) struct PrintedCode {
    code: Code,
    prints: Prints,
}

impl Model for PrintedCode {
    ghost use Rattle.acc_vm.specs.Codes.{PlainCode};
    ghost use Rattle.vm_slices.specs.Prints.{ArePrintsOf};

    ghost Value = { PlainCode };

    ghost view = { λ p. p.code };

    ghost invariant = { λ p. ArePrintsOf p.code.instrs p.code.places p.prints };
}

impl PrintedCode {
    /// A code with its prints.
    pub(crate) fn new(alloc: Global, code: Code) -> Result<PrintedCode, AllocError>
        ensures { IfOk result (λ printed. printed ≡ code) }
    {
        let prints = prints_of(alloc, code.instrs(), code.places())?;
        Ok(PrintedCode { code, prints })
    }

    pub(crate) fn code(&self) -> &Code
        ensures { result.now ≡ self.now }
    {
        &self.code
    }

    /// Whether another code has the same instructions with the same places.
    fn has_same_lists(&self, other: &PrintedCode) -> bool
        ensures { IsTrue result
            ↔ ((self.now.places ≡ other.now.places) × (self.now.instrs ≡ other.now.instrs)) }
    {
        same_prints(&self.prints, &other.prints)
    }

    pub(crate) fn same(&self, other: &PrintedCode) -> bool
        ensures { IsTrue result ↔ (self.now ≡ other.now) }
    {
        same_counts(counted(self.code()), counted(other.code())) && self.has_same_lists(other)
    }
}

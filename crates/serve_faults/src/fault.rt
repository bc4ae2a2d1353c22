ghost use Rattle.std.specs.Prelude.{◌≡◌};
ghost use Rattle.serve_faults.specs.Faults.{serve_fault_text};

use std::alloc::AllocError;

/// Why the server stopped before its input ended.
#[derive(Clone, Copy, Drop)]
pub enum ServeFault {
    /// Memory was refused.
    Memory,
    /// A read failed.
    Read,
    /// A write failed.
    Write,
    /// The crew that runs the programs failed, for another reason than memory.
    Crew,
}

impl ServeFault {
    /// Returns its word, as it is printed after `RUN`.
    pub fn text(self) -> &'static str
        ensures { result.now ≡ serve_fault_text self }
    {
        match self {
            ServeFault::Memory => "MEMORY",
            ServeFault::Read => "READ",
            ServeFault::Write => "WRITE",
            ServeFault::Crew => "CREW",
        }
    }
}

impl From<AllocError> for ServeFault {
    ghost use Rattle.serve_faults.specs.declared.fault.ServeFault.TheVariants.{Memory};

    ghost from_gives = { λ _ e. e ≡ Memory };

    fn from(_refused: AllocError) -> ServeFault {
        ServeFault::Memory
    }
}

//! Why sources spell no units.

use std::alloc::{AllocError, AllocFailed};

/// Why sources spell no units: the fault of the first, in their order, that spells none. Sources count from 0, lines of a source and bytes
/// of a line from 1.
#[derive(Clone, Copy, Drop)]
pub enum SourceFault {
    /// Allocation failed.
    Memory,
    /// C4: a byte that begins no token, a literal that isn't allowed, or an open comment.
    Spelling {
        source: usize,
        line: usize,
        column: usize,
    },
    /// C5: a token with which no unit can go on, or the text's end.
    Grammar {
        source: usize,
        line: usize,
        column: usize,
    },
}

impl From<AllocError> for SourceFault {
    ghost use Rattle.std.specs.Prelude.{◌≡◌};
    ghost use Rattle.st_sources.specs.declared.fault.SourceFault.TheVariants.{Memory};

    ghost from_gives = { λ _ fault. fault ≡ Memory };

    fn from(_: AllocError) -> SourceFault {
        SourceFault::Memory
    }
}

impl<T: Drop> From<AllocFailed<T>> for SourceFault {
    ghost use Rattle.std.specs.Prelude.{◌≡◌};
    ghost use Rattle.st_sources.specs.declared.fault.SourceFault.TheVariants.{Memory};

    ghost from_gives = { λ _ fault. fault ≡ Memory };

    fn from(_: AllocFailed<T>) -> SourceFault {
        SourceFault::Memory
    }
}

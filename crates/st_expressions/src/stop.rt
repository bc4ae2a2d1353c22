//! Why parsing stops.

use std::alloc::{AllocError, AllocFailed};

/// Why parsing stops.
#[derive(Clone, Copy, Drop)]
pub enum ParseStop {
    /// Memory was refused.
    Memory,
    /// The next token does not fit; so many tokens are left, with this one.
    Left(usize),
}

impl From<AllocError> for ParseStop {
    ghost use Rattle.std.specs.Prelude.{◌≡◌};
    ghost use Rattle.st_expressions.specs.declared.stop.ParseStop.TheVariants.{Memory};

    ghost from_gives = { λ _ e. e ≡ Memory };

    fn from(_: AllocError) -> ParseStop {
        ParseStop::Memory
    }
}

impl<T: Drop> From<AllocFailed<T>> for ParseStop {
    ghost use Rattle.std.specs.Prelude.{◌≡◌};
    ghost use Rattle.st_expressions.specs.declared.stop.ParseStop.TheVariants.{Memory};

    ghost from_gives = { λ _ e. e ≡ Memory };

    fn from(_: AllocFailed<T>) -> ParseStop {
        ParseStop::Memory
    }
}

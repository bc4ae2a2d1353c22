//! Why a source is past a limit.

use std::alloc::AllocError;

/// Why the limits of a source aren't kept: the first that it is past, in this order.
#[derive(Clone, Copy, Drop)]
pub enum LimitFault {
    /// Allocation failed.
    Memory,
    /// C10: more than 65,536 slots: variables, elements of arrays, inputs of standard blocks and standard blocks, in each instance anew.
    Slots,
    /// C10: the programs together are larger than 1,000,000.
    Size,
    /// C10: a program costs more than 2,000,000.
    Cost,
}

impl From<AllocError> for LimitFault {
    ghost use Rattle.std.specs.Prelude.{◌≡◌};
    ghost use Rattle.logic_limits.specs.declared.fault.LimitFault.TheVariants.{Memory};

    ghost from_gives = { λ _ fault. fault ≡ Memory };

    fn from(_: AllocError) -> LimitFault {
        LimitFault::Memory
    }
}

use std::alloc::AllocError;

/// Why block types can't be put in order.
#[derive(Clone, Copy, Drop)]
pub enum NestingFault {
    /// Allocation failed.
    Memory,
    /// The block type of this number holds itself, directly or through others, and none before it does.
    HoldsItself(usize),
    /// A block type is more than 16 deep (this profile).
    TooDeep,
}

impl From<AllocError> for NestingFault {
    ghost use Rattle.std.specs.Prelude.{◌≡◌};
    ghost use Rattle.st_blocks.specs.declared.faults.NestingFault.TheVariants.{Memory};

    ghost from_gives = { λ _ fault. fault ≡ Memory };

    fn from(_: AllocError) -> NestingFault {
        NestingFault::Memory
    }
}

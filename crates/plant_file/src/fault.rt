//! Why a plant file can't be read.

use crate::mistakes::Mistakes;
use crate::unread::Unread;
use std::alloc::AllocError;

/// Why a plant file can't be read.
#[derive(Drop)]
pub enum PlantFileFault {
    /// Allocation failed.
    Memory,
    /// It isn't a TOML document in UTF-8; where and why.
    NotToml(Unread),
    /// A key is unknown or missing, or what stands under it is wrong; which, and why.
    Wrong(Mistakes),
}

impl From<AllocError> for PlantFileFault {
    ghost use Rattle.std.specs.Prelude.{◌≡◌};
    ghost use Rattle.plant_file.specs.declared.fault.PlantFileFault.TheVariants.{Memory};

    ghost from_gives = { λ _ fault. fault ≡ Memory };

    fn from(_: AllocError) -> PlantFileFault {
        PlantFileFault::Memory
    }
}

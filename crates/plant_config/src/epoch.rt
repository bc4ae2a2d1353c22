//! The epoch of a plant.

ghost use Rattle.std.specs.Prelude.{MatchResult};
ghost use Rattle.plant_config.specs.Stages.{HasFile, HasEpoch};
ghost use Rattle.plant_config.specs.Refusals.{IsRefused};

use crate::fault::ConfigFault;
use crate::files::Handed;
use base_stamps::Epoch;
use plant_file::PlantFile;

/// The epoch of a plant file, or C3.
#[tactic(auto, unfolding(crate::specs::Refusals::IsRefused))]
pub fn epoch_of(handed: &Handed<'_>, file: &PlantFile) -> Result<Epoch, ConfigFault>
    requires { HasFile handed.now file.now }
    ensures { MatchResult result (λ epoch. HasEpoch handed.now file.now epoch) (IsRefused handed.now) }
{
    match Epoch::read(file.epoch()) {
        Some(epoch) => Ok(epoch),
        None => Err(ConfigFault::Epoch),
    }
}

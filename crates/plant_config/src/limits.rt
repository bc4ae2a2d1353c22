//! The limits of a plant's texts.

ghost use Rattle.std.specs.Prelude.{◌≡◌, ◌<◌, ◌≤◌, ◌+◌, map, nat_lt, MatchResult};
ghost use Rattle.plant_config.specs.Limits.{total_length, is_too_long, first_limit};
ghost use Rattle.plant_config.specs.Stages.{HasEpoch, IsLimited};
ghost use Rattle.plant_config.specs.Refusals.{IsRefused};

use crate::fault::{ConfigFault, Limit};
use crate::files::Handed;
use base_stamps::Epoch;
use plant_file::PlantFile;

/// The most sources of a plant (this profile).
const SOURCES: usize = 64;

/// The most bytes of all sources together (this profile).
const SOURCE_BYTES: usize = 4_194_304;

/// The most bytes of a plant file (this profile).
const PLANT_BYTES: usize = 1_048_576;

/// The most bytes of an alarm database (this profile).
const ALARM_BYTES: usize = 16_777_216;

/// The most areas of a plant (this profile).
const AREAS: usize = 64;

/// The most consoles of a plant (this profile).
const CONSOLES: usize = 32;

/// Whether the texts of sources have more bytes together than so many.
fn are_longer(sources: &[(&str, &[u8])], most: usize) -> bool
    ensures { result ≡ nat_lt most (total_length (map (λ s. s.1.now) sources.now)) }
{
    let mut left = most;
    for source in sources {
        match left.checked_sub(source.1.len()) {
            Some(less) => left = less,
            None => return true,
        }
    }
    false
}

fn is_too_long(handed: &Handed<'_>) -> bool
    ensures { result ≡ is_too_long handed.now }
{
    are_longer(handed.sources, SOURCE_BYTES)
        || PLANT_BYTES < handed.plant.len()
        || ALARM_BYTES < handed.alarms.len()
}

/// The first limit that the texts and the plant file don't keep; `None` if they keep all.
fn first_limit(handed: &Handed<'_>, file: &PlantFile) -> Option<Limit>
    ensures { result ≡ first_limit handed.now file.now }
{
    if SOURCES < handed.sources.len() {
        return Some(Limit::Sources);
    }
    if is_too_long(handed) {
        return Some(Limit::Text);
    }
    if AREAS < file.areas().len() {
        return Some(Limit::Areas);
    }
    if CONSOLES < file.consoles().len() {
        return Some(Limit::Consoles);
    }
    None
}

/// Fails for the first limit that isn't kept.
#[tactic(auto, unfolding(crate::specs::Refusals::IsRefused))]
pub fn check_limits(handed: &Handed<'_>, file: &PlantFile, epoch: Epoch) -> Result<(), ConfigFault>
    requires { HasEpoch handed.now file.now epoch }
    ensures { MatchResult result (λ _. IsLimited handed.now file.now epoch) (IsRefused handed.now) }
{
    match first_limit(handed, file) {
        Some(limit) => Err(ConfigFault::Limit(limit)),
        None => Ok(()),
    }
}

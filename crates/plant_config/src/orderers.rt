//! Which consoles may order the alarms of an area, as a table.

ghost use Rattle.std.specs.Prelude.{◌≡◌, ◌==◌, [], IfOk, MatchResult, slice_index_or};
ghost use Rattle.std.specs.List.{list_any};
ghost use Rattle.plant_config.specs.Orderers.{orderers_of, SayWho};
ghost use Rattle.plant_config.specs.Refusals.{IsRefused};
ghost use Rattle.plant_config.specs.Stages.{HasEpoch, IsLimited};

use crate::fault::ConfigFault;
use crate::files::Handed;
use crate::limits::check_limits;
use base_stamps::Epoch;
use plant_file::{ListedConsole, PlantFile};
use plant_types::Items;
use std::alloc::{AllocError, Global};

fn is_among(areas: &[usize], area: usize) -> bool
    ensures { result ≡ list_any (λ a. a == area) areas.now }
{
    areas.contains(&area)
}

/// The numbers of the consoles that have an area, in order.
fn orderers_of(
    alloc: Global,
    consoles: &[ListedConsole],
    area: usize,
) -> Result<Items<u32>, AllocError>
    ensures { IfOk result (λ numbers. numbers ≡ orderers_of consoles.now area) }
{
    let mut numbers = Vec::new(alloc);
    for console in consoles {
        if is_among(console.areas.as_slice(), area) {
            numbers.push(console.number)?;
        }
    }
    Ok(Items::from_vec(numbers))
}

/// The same of each area of a plant file.
pub fn orderers_in(alloc: Global, file: &PlantFile) -> Result<Vec<Items<u32>>, AllocError>
    ensures { IfOk result (λ lists. SayWho file.now.consoles lists.items) }
{
    let consoles = file.consoles();
    let mut lists = Vec::new(alloc);
    for area in 0..file.areas().len() {
        lists.push(orderers_of(alloc, consoles, area)?)?;
    }
    Ok(lists)
}

/// Whether a number is in the list of an area.
pub fn is_orderer(lists: &[Items<u32>], number: u32, area: u32) -> bool
    ensures { result ≡ list_any (λ n. n == number) (slice_index_or lists.now area []) }
{
    match lists.get(area as usize) {
        Some(numbers) => numbers.as_slice().contains(&number),
        None => false,
    }
}

/// The lists of a plant file that keeps the limits, or the first limit that isn't kept.
#[tactic(auto, unfolding(crate::specs::Refusals::IsRefused))]
pub fn limited_orderers(
    alloc: Global,
    handed: &Handed<'_>,
    file: &PlantFile,
    epoch: Epoch,
) -> Result<Vec<Items<u32>>, ConfigFault>
    requires { HasEpoch handed.now file.now epoch }
    ensures limits { MatchResult result (λ _. IsLimited handed.now file.now epoch)
        (IsRefused handed.now) }
    ensures lists { IfOk result (λ lists. SayWho file.now.consoles lists.items) }
{
    if let Err(fault) = check_limits(handed, file, epoch) {
        return Err(fault);
    }
    Ok(orderers_in(alloc, file)?)
}

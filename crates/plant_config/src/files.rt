//! The texts of a plant, and the files that its plant file names.

ghost use Rattle.std.specs.Prelude.{◌≡◌, map, Some, IfOk, MatchResult};
ghost use Rattle.plant_file.specs.Read.{plant_file_in};
ghost use Rattle.plant_config.specs.Files.{files_of, same_texts};
ghost use Rattle.plant_config.specs.Stages.{HasFile};
ghost use Rattle.plant_config.specs.Refusals.{IsRefused, IsFileFault};

use crate::fault::ConfigFault;
use plant_file::{Mistakes, PlantFile, PlantFileFault};
use plant_types::{Items, Text};
use std::alloc::{AllocError, Global};
use std::marker::Model;

/// The files that a plant file names, sought beside it.
#[derive(Drop)]
pub struct Files {
    /// The sources, in the order in which their programs run. No two have one name.
    pub sources: Items<Text>,
    /// The alarm database.
    pub alarms: Text,
}

/// The texts from which a plant is read: its plant file, its sources, each by its name and its text, and its alarm database.
#[derive(Drop)]
pub struct Handed<'a> {
    pub plant: &'a [u8],
    pub sources: &'a [(&'a str, &'a [u8])],
    pub alarms: &'a [u8],
}

impl<'a> Model for Handed<'a> {
    ghost use Rattle.std.specs.Prelude.{map};
    ghost use Rattle.plant_config.specs.Files.{Texts, texts_of};

    ghost Value = { Texts };

    ghost view = { λ h. texts_of h.plant.now (map (λ s. s.0.now) h.sources.now) (map (λ s. s.1.now) h.sources.now) h.alarms.now };
}

/// The plant file of bytes, or why there is none: C1 or C2.
pub fn file_of(alloc: Global, bytes: &[u8]) -> Result<PlantFile, ConfigFault>
    ensures { MatchResult result (λ file. plant_file_in bytes.now ≡ Some file) (IsFileFault bytes.now) }
{
    match plant_file::read(alloc, bytes) {
        Ok(file) => Ok(file),
        Err(PlantFileFault::Memory) => Err(ConfigFault::Memory),
        Err(PlantFileFault::NotToml(unread)) => Err(ConfigFault::NotToml(unread)),
        Err(PlantFileFault::Wrong(mistakes)) => Err(ConfigFault::PlantFile(mistakes)),
    }
}

/// Whether sources have these names, one after another.
fn have_names(sources: &[(&str, &[u8])], names: &[Text]) -> bool
    ensures { result ≡ same_texts (map (λ s. s.0.now) sources.now) names.now }
{
    let mut rest = names;
    for source in sources {
        match rest.split_first() {
            None => return false,
            Some((name, others)) => {
                if source.0.as_bytes() != name.as_bytes() {
                    return false;
                }
                rest = others;
            }
        }
    }
    rest.is_empty()
}

/// The plant file, which lists the sources handed in, or why it is refused.
#[tactic(auto, unfolding(crate::specs::Refusals::IsRefused))]
pub fn listed(alloc: Global, handed: &Handed<'_>) -> Result<PlantFile, ConfigFault>
    ensures { MatchResult result (HasFile handed.now) (IsRefused handed.now) }
{
    match file_of(alloc, handed.plant) {
        Ok(file) => {
            if have_names(handed.sources, file.sources()) {
                Ok(file)
            } else {
                Err(ConfigFault::PlantFile(Mistakes::none(alloc)))
            }
        }
        Err(fault) => Err(fault),
    }
}

/// Copies the names of the files.
pub fn files_of(alloc: Global, file: &PlantFile) -> Result<Files, AllocError>
    ensures { IfOk result (λ files. files ≡ files_of file.now) }
{
    let mut sources = Vec::new(alloc);
    for name in file.sources() {
        sources.push(name.copy(alloc)?)?;
    }
    Ok(Files {
        sources: Items::from_vec(sources),
        alarms: Text::from_str(alloc, file.alarms())?,
    })
}

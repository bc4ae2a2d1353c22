//! Who hears what becomes of a plant.

ghost use Rattle.std.specs.Prelude.{◌≢◌, None};
ghost use Rattle.plant_config.specs.declared.fault.ConfigFault.TheVariants as config_fault;
ghost use Rattle.plant_config.specs.Refusals.{IsRefused};
ghost use Rattle.plant_config.specs.Stages.{Accepted};

use crate::folder::Folder;
use plant_config::{ConfigFault, Observer, Plant, Unit};
use std::alloc::Global;
use std::marker::Model;

/// The texts of a plant, lent to be judged, each source with its name; and the path of the plant file. Contracts see the texts.
#[derive(Drop)]
pub struct PlantTexts<'a> {
    pub path: &'a str,
    pub plant: &'a [u8],
    pub sources: &'a [(&'a str, &'a [u8])],
    pub alarms: &'a [u8],
}

impl<'a> Model for PlantTexts<'a> {
    ghost use Rattle.std.specs.Prelude.{map};
    ghost use Rattle.plant_config.specs.Files.{Texts, texts_of};

    ghost Value = { Texts };

    ghost view = { λ h. texts_of h.plant.now (map (λ s. s.0.now) h.sources.now) (map (λ s. s.1.now) h.sources.now) h.alarms.now };
}

/// Who hears what becomes of a plant, with the very texts that were judged, and the plant where it is accepted: so nothing is read twice for what a person
/// is told. He also sees the units of its sources. What a listener does changes no verdict.
pub trait Listener: Observer {
    /// Hears of a plant that is accepted: of its texts, and the plant that they are.
    fn accepted(&mut self, alloc: Global, texts: &PlantTexts<'_>, plant: &Plant)
        requires { Accepted texts.now plant.now };

    /// Hears why a plant is refused. Where the plant file names no files, there are no other texts than its own.
    fn refused(&mut self, alloc: Global, texts: &PlantTexts<'_>, fault: &ConfigFault)
        requires lawful { IsRefused texts.now fault.now }
        requires told { fault.now ≢ config_fault.Memory };

    /// Hears that a folder has no file of a path that can be read. The name is the one by which the refusal tells it.
    fn missing<F: Folder>(&mut self, alloc: Global, folder: &F, path: &str, name: &str)
        requires { F.finds folder.now path.now None };
}

/// The listener where nobody listens.
#[derive(Clone, Copy, Drop)]
pub struct Deaf;

impl Observer for Deaf {
    fn typed(&mut self, _alloc: Global, _sources: &[(&str, &[u8])], _units: &[Unit]) {}
}

impl Listener for Deaf {
    fn accepted(&mut self, _alloc: Global, _texts: &PlantTexts<'_>, _plant: &Plant) {}

    fn refused(&mut self, _alloc: Global, _texts: &PlantTexts<'_>, _fault: &ConfigFault) {}

    fn missing<F: Folder>(&mut self, _alloc: Global, _folder: &F, _path: &str, _name: &str) {}
}

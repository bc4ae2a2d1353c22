//! A plant file, and what it says.

ghost use Rattle.std.specs.Prelude.{◌≡◌, IfOk};
ghost use Rattle.plant_file.specs.PlantFiles.{IsPlantFile};

use crate::console::{ListedConsole, copy_consoles};
use crate::texts::{TextSet, copy_texts, set_of};
use plant_types::{Items, Text};
use std::alloc::{AllocError, Global};
use std::marker::Model;

/// What a plant file says. Its lists keep the order of the file.
pub struct PlantFile {
    pub(crate) name: Text,
    pub(crate) epoch: Text,
    pub(crate) areas: Items<Text>,
    pub(crate) sources: Items<Text>,
    pub(crate) alarms: Text,
    pub(crate) consoles: Items<ListedConsole>,
}

impl Drop for PlantFile {
    fn drop(self) {
        let PlantFile {
            name: _,
            epoch: _,
            areas: _,
            sources: _,
            alarms: _,
            consoles: _,
        } = self;
    }
}

impl Model for PlantFile {
    ghost use Rattle.plant_file.specs.PlantFiles.{PlainPlantFile, IsPlantFile};

    ghost Value = { PlainPlantFile };

    ghost view = { λ f. record { name = f.name; epoch = f.epoch; areas = f.areas; sources = f.sources; alarms = f.alarms; consoles = f.consoles } };

    ghost invariant = { λ f. IsPlantFile (record { name = f.name; epoch = f.epoch; areas = f.areas; sources = f.sources; alarms = f.alarms; consoles = f.consoles }) };
}

impl PlantFile {
    /// The plant's name, of 1 to 64 bytes.
    pub fn name(&self) -> &str
        ensures name { result.now ≡ self.now.name }
        ensures file { IsPlantFile self.now }
    {
        self.name.as_str()
    }

    /// The text of the plant's epoch, which isn't judged here.
    pub fn epoch(&self) -> &str
        ensures { result.now ≡ self.now.epoch }
    {
        self.epoch.as_str()
    }

    /// The plant's areas. They have the form of tags: 1 to 32 ASCII letters, digits, `_`, `-` and `.`. None stands there twice.
    pub fn areas(&self) -> &[Text]
        ensures areas { result.now ≡ self.now.areas }
        ensures file { IsPlantFile self.now }
    {
        self.areas.as_slice()
    }

    /// The areas in an index: the number of each, from 0, by its bytes.
    pub fn area_set(&self, alloc: Global) -> Result<TextSet, AllocError>
        ensures areas { IfOk result (λ areas. areas ≡ self.now.areas) }
        ensures file { IsPlantFile self.now }
    {
        set_of(alloc, self.areas.as_slice())
    }

    /// The files of the plant's sources, each of 1 to 255 bytes. None stands there twice.
    pub fn sources(&self) -> &[Text]
        ensures sources { result.now ≡ self.now.sources }
        ensures file { IsPlantFile self.now }
    {
        self.sources.as_slice()
    }

    /// The file of the plant's alarms, of 1 to 255 bytes.
    pub fn alarms(&self) -> &str
        ensures alarms { result.now ≡ self.now.alarms }
        ensures file { IsPlantFile self.now }
    {
        self.alarms.as_str()
    }

    /// The plant's consoles. No two have one number.
    pub fn consoles(&self) -> &[ListedConsole]
        ensures consoles { result.now ≡ self.now.consoles }
        ensures file { IsPlantFile self.now }
    {
        self.consoles.as_slice()
    }

    /// The same plant file.
    pub fn copy(&self, alloc: Global) -> Result<PlantFile, AllocError>
        ensures { IfOk result (λ copy. copy ≡ self.now) }
    {
        Ok(PlantFile {
            name: self.name.copy(alloc)?,
            epoch: self.epoch.copy(alloc)?,
            areas: copy_texts(alloc, self.areas.as_slice())?,
            sources: copy_texts(alloc, self.sources.as_slice())?,
            alarms: self.alarms.copy(alloc)?,
            consoles: copy_consoles(alloc, self.consoles.as_slice())?,
        })
    }
}

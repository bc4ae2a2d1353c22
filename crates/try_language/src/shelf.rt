//! The files of a plant in memory, for what is told of one whose plant file is refused, or that lacks a file.

use explain_plant::{PlantTexts, Shelf, Shelved, explain_from, explain_missing};
use plant_config::{ConfigFault, Plant};
use std::alloc::{AllocError, Global};

/// The files of texts.
#[derive(Drop)]
struct InMemory<'t> {
    plant: &'t [u8],
    sources: &'t [(&'t str, &'t [u8])],
    alarms: &'t [u8],
}

impl<'t> InMemory<'t> {
    /// The text of the file of a path; `None` where there is none.
    fn find(&self, path: &str) -> Option<&'t [u8]> {
        let mut sources = self.sources.iter();
        match path {
            "plant.toml" => Some(self.plant),
            "alarms.csv" => Some(self.alarms),
            _ => sources
                .find(|source| source.0 == path)
                .map(|source| source.1),
        }
    }
}

impl<'t> Shelf for InMemory<'t> {
    fn text(&self, alloc: Global, path: &str) -> Result<Shelved, AllocError> {
        match self.find(path) {
            Some(text) => Ok(Shelved::Text(Vec::from_slice(alloc, text)?)),
            None => Ok(Shelved::Missing),
        }
    }
}

/// The texts of a plant as files.
fn shelf_of<'t>(texts: &PlantTexts<'t>) -> InMemory<'t> {
    InMemory {
        plant: texts.plant,
        sources: texts.sources,
        alarms: texts.alarms,
    }
}

/// What is told of a plant whose plant file is refused before its other files are read; nothing where it isn't.
pub fn told_from(alloc: Global, texts: &PlantTexts<'_>) -> Result<String, AllocError> {
    match Plant::files(alloc, texts.plant) {
        Ok(files) => {
            drop(files);
            Ok(String::new(alloc))
        }
        Err(ConfigFault::Memory) => Err(AllocError),
        Err(fault) => explain_from(alloc, &shelf_of(texts), texts.path, texts.plant, &fault),
    }
}

/// What else is told of a plant whose file of a name is missing.
pub fn told_missing(
    alloc: Global,
    texts: &PlantTexts<'_>,
    name: &str,
) -> Result<String, AllocError> {
    explain_missing(alloc, &shelf_of(texts), texts.path, name)
}

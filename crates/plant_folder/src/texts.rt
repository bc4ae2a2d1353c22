//! The texts of a plant, read from its files.

ghost use Rattle.std.specs.Prelude.{◌≡◌, ◌≢◌, map, string_bytes, option_map, Some, IfOk, IfErr, MatchResult};
ghost use Rattle.plant_file.specs.Read.{plant_file_in};
ghost use Rattle.plant_config.specs.declared.fault.ConfigFault.TheVariants as config_fault;
ghost use Rattle.plant_config.specs.Files.{files_of};
ghost use Rattle.plant_config.specs.Refusals.{IsFileFault};
ghost use Rattle.plant_folder.specs.Fetches.{beside, AreFound, AreTexts, AreMissed, IsFetchFault, IsMiss, IsUnnamed};
ghost use Rattle.plant_folder.specs.declared.texts.FetchFault.TheVariants as fault;

use crate::folder::{FileFault, Folder, PlantFiles};
use crate::listener::{Listener, PlantTexts};
use plant_config::{ConfigFault, Files, Plant};
use plant_types::Text;
use std::alloc::{AllocError, AllocFailed, Global};
use std::marker::Model;
use std::path::Path;

/// A source of a plant: its name, as the plant file lists it, and its text.
pub struct SourceText {
    pub name: Text,
    pub text: Vec<u8>,
}

impl Drop for SourceText {
    fn drop(self) {
        let SourceText { name: _, text: _ } = self;
    }
}

/// The texts of a plant: of its plant file, of its sources and of its alarm database.
pub struct Fetched {
    pub plant: Vec<u8>,
    pub sources: Vec<SourceText>,
    pub alarms: Vec<u8>,
}

impl Drop for Fetched {
    fn drop(self) {
        let Fetched {
            plant: _,
            sources: _,
            alarms: _,
        } = self;
    }
}

impl Model for Fetched {
    ghost use Rattle.std.specs.Prelude.{map};
    ghost use Rattle.plant_config.specs.Files.{Texts, texts_of};

    ghost Value = { Texts };

    ghost view = { λ f. texts_of f.plant.items (map (λ s. s.name) f.sources.items) (map (λ s. s.text.items) f.sources.items) f.alarms.items };
}

/// Why the texts of a plant aren't there.
#[derive(Drop)]
pub enum FetchFault {
    /// Allocation failed.
    Memory,
    /// A file can't be read, or has more than 16,777,217 bytes. Its name is as given: the plant file's path, or a name in it.
    File(Text),
    /// The plant file names no files, for this reason.
    Config(ConfigFault),
}

impl From<AllocError> for FetchFault {
    ghost from_gives = { λ _ e. e ≡ fault.Memory };

    fn from(_refused: AllocError) -> FetchFault {
        FetchFault::Memory
    }
}

impl<T: Drop> From<AllocFailed<T>> for FetchFault {
    ghost from_gives = { λ _ e. e ≡ fault.Memory };

    fn from(_refused: AllocFailed<T>) -> FetchFault {
        FetchFault::Memory
    }
}

/// The path of a file that a plant file names: its name joined to the folder of the plant file's path.
fn beside(alloc: Global, plant_path: &str, name: &str) -> Result<String, AllocError>
    ensures { IfOk result (λ path. string_bytes path ≡ beside plant_path.now name.now) }
{
    let parent = Path::new(plant_path).parent().unwrap_or(Path::new(""));
    let path = parent.join(alloc, name)?;
    Ok(path.into_string())
}

/// The bytes of the file of a path; a miss is told by the file's name, and a listener hears of it.
fn file_at<F: Folder, L: Listener>(
    alloc: Global,
    folder: &F,
    path: &str,
    name: &str,
    listener: &mut L,
) -> Result<Vec<u8>, FetchFault>
    ensures { MatchResult result (λ v. F.finds folder.now path.now (Some v.items))
        (IsMiss (F.finds folder.now) path.now name.now) }
{
    match folder.contents(alloc, path) {
        Ok(bytes) => Ok(bytes),
        Err(FileFault::Memory) => Err(FetchFault::Memory),
        Err(FileFault::Missing) => {
            let told = Text::from_str(alloc, name)?;
            listener.missing(alloc, folder, path, name);
            Err(FetchFault::File(told))
        }
    }
}

/// The bytes of a file that a plant file names.
fn file_beside<F: Folder, L: Listener>(
    alloc: Global,
    files: &PlantFiles<'_, F>,
    name: &str,
    listener: &mut L,
) -> Result<Vec<u8>, FetchFault>
    ensures { MatchResult result
        (λ v. F.finds files.now.folder.now (beside files.now.path.now name.now) (Some v.items))
        (IsMiss (F.finds files.now.folder.now) (beside files.now.path.now name.now) name.now) }
{
    let path = beside(alloc, files.path, name)?;
    file_at(alloc, files.folder, path.as_str(), name, listener)
}

/// The sources that a plant file names, in their order, up to the first that isn't found.
fn sources_beside<F: Folder, L: Listener>(
    alloc: Global,
    files: &PlantFiles<'_, F>,
    names: &[Text],
    listener: &mut L,
) -> Result<Vec<SourceText>, FetchFault>
    ensures names { IfOk result (λ v. map (λ s. s.name) v.items ≡ names.now) }
    ensures texts { IfOk result (λ v. AreFound (F.finds files.now.folder.now) files.now.path.now
        names.now (map (λ s. s.text.items) v.items)) }
    ensures missed { IfErr result
        (AreMissed (F.finds files.now.folder.now) files.now.path.now names.now) }
{
    let mut sources = Vec::new(alloc);
    for name in names {
        match file_beside(alloc, files, name.as_str(), listener) {
            Ok(text) => {
                let name = name.copy(alloc)?;
                sources.push(SourceText { name, text })?;
            }
            Err(fault) => return Err(fault),
        }
    }
    Ok(sources)
}

/// Lets a listener hear why a plant file names no files.
fn tell_of_plant_file<L: Listener>(
    alloc: Global,
    path: &str,
    plant: &[u8],
    fault: &ConfigFault,
    listener: &mut L,
)
    requires lawful { IsFileFault plant.now fault.now }
    requires told { fault.now ≢ config_fault.Memory }
{
    let texts = PlantTexts {
        path,
        plant,
        sources: &[],
        alarms: b"",
    };
    listener.refused(alloc, &texts, fault);
}

/// The files that a plant file names. Where it names none, a listener hears why.
fn named_files<L: Listener>(
    alloc: Global,
    path: &str,
    plant: &[u8],
    listener: &mut L,
) -> Result<Files, FetchFault>
    ensures { MatchResult result (λ files. option_map files_of (plant_file_in plant.now) ≡ Some files)
        (IsUnnamed plant.now) }
{
    match Plant::files(alloc, plant) {
        Ok(files) => Ok(files),
        Err(ConfigFault::Memory) => Err(FetchFault::Memory),
        Err(fault) => {
            tell_of_plant_file(alloc, path, plant, &fault, listener);
            Err(FetchFault::Config(fault))
        }
    }
}

/// Reads the texts of the plant of a plant file: this first, then the sources that it names, in their order, then its alarm database. Fails as
/// `FetchFault` says, at the first file with a fault, of which a listener hears.
pub fn fetch<F: Folder, L: Listener>(
    alloc: Global,
    files: &PlantFiles<'_, F>,
    listener: &mut L,
) -> Result<Fetched, FetchFault>
    ensures { MatchResult result (AreTexts (F.finds files.now.folder.now) files.now.path.now)
        (IsFetchFault (F.finds files.now.folder.now) files.now.path.now) }
{
    let plant = match file_at(alloc, files.folder, files.path, files.path, listener) {
        Ok(plant) => plant,
        Err(fault) => return Err(fault),
    };
    let named = match named_files(alloc, files.path, plant.as_slice(), listener) {
        Ok(named) => named,
        Err(fault) => return Err(fault),
    };
    let sources = match sources_beside(alloc, files, named.sources.as_slice(), listener) {
        Ok(sources) => sources,
        Err(fault) => return Err(fault),
    };
    match file_beside(alloc, files, named.alarms.as_str(), listener) {
        Ok(alarms) => Ok(Fetched {
            plant,
            sources,
            alarms,
        }),
        Err(fault) => Err(fault),
    }
}

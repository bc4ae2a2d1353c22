//! The files of a plant that is refused before they are read, for what is wrong in them.

use crate::keys::Mark;
use crate::listed::{Listed, ListedFile, files_listed};
use crate::meant::names_near;
use std::alloc::{AllocError, Global};
use std::path::Path;

/// The sources of a plant have so many bytes together at most.
const MOST_BYTES: usize = 4_194_304;

/// What there is of a file by its path.
#[derive(Drop)]
pub enum Shelved {
    Text(Vec<u8>),
    /// There is no such file, or it can't be read.
    Missing,
    /// There is one, and it isn't read for this.
    Unread,
}

/// Where the files of a refused plant are, for what is wrong in them.
pub trait Shelf {
    /// What there is of the file of a path.
    fn text(&self, alloc: Global, path: &str) -> Result<Shelved, AllocError>;
}

/// A file that a plant file lists, and that can't be read: its name and its path, and where the name stands.
#[derive(Drop)]
pub struct MissingFile {
    pub name: String,
    pub path: String,
    pub mark: Mark,
    /// The name of another file, which is there, and that may be meant; empty where there is none.
    pub meant: String,
}

/// The files that a plant file lists, as far as it can be read, whether or not it is right.
#[derive(Drop)]
pub struct Gathered {
    /// The names and texts of the sources that are there.
    pub sources: Vec<(String, Vec<u8>)>,
    /// Whether these are all.
    pub are_all: bool,
    pub alarms: Option<Vec<u8>>,
    /// Those that can't be read, where it is certain that they are wanted.
    pub missing: Vec<MissingFile>,
    is_document: bool,
}

/// The path of a file that a plant file names.
fn beside(alloc: Global, plant_path: &str, name: &str) -> Result<String, AllocError> {
    let parent = Path::new(plant_path).parent().unwrap_or(Path::new(""));
    let path = parent.join(alloc, name)?;
    Ok(path.into_string())
}

/// Whether a plant file lists a name.
fn lists(listed: &Listed, name: &str) -> bool {
    let (mut sources, mut alarms) = (listed.sources.iter(), listed.alarms.iter());
    sources.any(|file| file.name.as_str() == name) || alarms.any(|file| file.name.as_str() == name)
}

/// Whether a file of a name is on a shelf, and isn't listed.
fn is_there<S: Shelf>(
    alloc: Global,
    (shelf, plant_path): (&S, &str),
    listed: &Listed,
    name: &str,
) -> Result<bool, AllocError> {
    if name.is_empty() || lists(listed, name) {
        return Ok(false);
    }
    let path = beside(alloc, plant_path, name)?;
    match shelf.text(alloc, path.as_str())? {
        Shelved::Text(text) => {
            drop(text);
            Ok(true)
        }
        Shelved::Missing | Shelved::Unread => Ok(false),
    }
}

/// The name of a file on a shelf that one may be meant as which isn't there, and that isn't listed; empty where there is none.
fn meant_by<S: Shelf>(
    alloc: Global,
    place: (&S, &str),
    listed: &Listed,
    name: &str,
) -> Result<String, AllocError> {
    for near in names_near(alloc, name)? {
        if is_there(alloc, place, listed, near.as_str())? {
            return Ok(near);
        }
    }
    Ok(String::new(alloc))
}

impl Gathered {
    /// The text of a file that is listed; where there is none, that is noted.
    fn text_of<S: Shelf>(
        &mut self,
        alloc: Global,
        (shelf, plant_path): (&S, &str),
        file: &ListedFile,
    ) -> Result<Option<Vec<u8>>, AllocError> {
        let name = file.name.as_str();
        let path = beside(alloc, plant_path, name)?;
        match shelf.text(alloc, path.as_str())? {
            Shelved::Text(text) => Ok(Some(text)),
            Shelved::Missing if self.is_document => {
                let (name, mark) = (String::from_str(alloc, name)?, file.mark);
                let meant = String::new(alloc);
                self.missing.push(MissingFile {
                    name,
                    path,
                    mark,
                    meant,
                })?;
                Ok(None)
            }
            Shelved::Missing | Shelved::Unread => Ok(None),
        }
    }

    /// Adds the sources that are listed; none where they are too long together.
    fn add_sources<S: Shelf>(
        &mut self,
        alloc: Global,
        place: (&S, &str),
        listed: &[ListedFile],
    ) -> Result<(), AllocError> {
        let mut size = 0usize;
        for file in listed {
            let Some(text) = self.text_of(alloc, place, file)? else {
                self.are_all = false;
                continue;
            };
            size = size.saturating_add(text.len());
            if size > MOST_BYTES {
                self.are_all = false;
                self.sources.clear();
                return Ok(());
            }
            let name = String::from_str(alloc, file.name.as_str())?;
            self.sources.push((name, text))?;
        }
        Ok(())
    }

    /// Notes of each file that is missing which other one may be meant.
    fn add_meant<S: Shelf>(
        &mut self,
        alloc: Global,
        place: (&S, &str),
        listed: &Listed,
    ) -> Result<(), AllocError> {
        for missing in self.missing.as_mut_slice() {
            missing.meant = meant_by(alloc, place, listed, missing.name.as_str())?;
        }
        Ok(())
    }

    /// Reads the files that are listed, from a shelf, beside the path of the plant file.
    fn add_listed<S: Shelf>(
        &mut self,
        alloc: Global,
        place: (&S, &str),
        listed: &Listed,
    ) -> Result<(), AllocError> {
        self.add_sources(alloc, place, listed.sources.as_slice())?;
        if !listed.is_list {
            self.missing.clear();
        }
        if let Some(file) = &listed.alarms {
            self.alarms = self.text_of(alloc, place, file)?;
        }
        self.add_meant(alloc, place, listed)
    }

    /// Reads the files that the text of a plant file lists, from a shelf, beside the path of the plant file.
    pub fn of<S: Shelf>(
        alloc: Global,
        place: (&S, &str),
        plant: &[u8],
    ) -> Result<Gathered, AllocError> {
        let listed = files_listed(alloc, plant)?;
        let mut gathered = Gathered {
            sources: Vec::new(alloc),
            are_all: listed.are_all,
            alarms: None,
            missing: Vec::new(alloc),
            is_document: listed.is_document,
        };
        gathered.add_listed(alloc, place, &listed)?;
        Ok(gathered)
    }

    /// Leaves out of those that can't be read the one of a name.
    pub fn forget(&mut self, name: &str) {
        let number = self
            .missing
            .iter()
            .position(|file| file.name.as_str() == name);
        if let Some(number) = number {
            if number < self.missing.len() {
                drop(self.missing.remove(number));
            }
        }
    }

    /// The names and texts of the sources, lent.
    pub fn lent(&self, alloc: Global) -> Result<Vec<(&str, &[u8])>, AllocError> {
        let mut sources = Vec::new(alloc);
        for (name, text) in &self.sources {
            sources.push((name.as_str(), text.as_slice()))?;
        }
        Ok(sources)
    }
}

//! A refusal, explained.

ghost use Rattle.std.specs.Prelude.{◌≡◌, ◌≢◌, ◌≤◌, ◌++◌, length, IfOk, codes, string_bytes};
ghost use Rattle.plant_config.specs.declared.fault.ConfigFault.TheVariants as config_fault;
ghost use Rattle.plant_folder.specs.Verdicts.{refusal_line};
ghost use Rattle.explain_plant.specs.Told.{BeginsWith};

use crate::misplaced::without_tables;
use explain_bodies::BrokenRule;
use explain_document::{no_document, wrong_epoch, wrong_keys};
use explain_files::{Gathered, Mark, MissingFile, Shelf, Shelved, files_listed};
use explain_places::shown;
use explain_tokens::{Cause, FileOf, Spot, cause_at, cause_of};
use plant_config::{ConfigFault, Limit, Plant};
use plant_folder::PlantTexts;
use std::alloc::{AllocError, Global};

pub const MOST_FAULTS: usize = 20;

/// Where it stands what a refusal is mostly for.
pub const REFUSALS: &str = "docs/PLANT.md, \"To find the fault\"";

/// The texts of a refused plant, and what was found in them.
#[derive(Drop)]
pub struct Refused<'t> {
    pub alloc: Global,
    pub plant: &'t [u8],
    /// The names and texts of the sources, and the same with nothing in the place of the text of one that is a table of alarms.
    pub listed: &'t [(&'t str, &'t [u8])],
    pub sources: &'t [(&'t str, &'t [u8])],
    pub alarms: &'t [u8],
    /// Whether these sources are all, and whether there is an alarm database.
    pub are_all: bool,
    pub has_alarms: bool,
    /// The files that were gathered for what is wrong in them, where the plant file is refused or one of them is missing.
    gathered: Option<&'t Gathered>,
    pub told: Vec<Spot>,
}

impl<'t> Refused<'t> {
    pub fn tell(&mut self, file: FileOf, cause: Cause) -> Result<(), AllocError> {
        self.told.push(Spot { file, cause })?;
        Ok(())
    }

    /// Tells of a file that can't be read.
    fn in_missing(&mut self, missing: &MissingFile) -> Result<(), AllocError> {
        let has_control = missing.name.chars().any(|c| c.is_control());
        let more = if has_control {
            "; in double quotes '\\' begins a sign of its own, and a path is written with '/'"
        } else {
            ""
        };
        let path = missing.path.as_str();
        let other = meant(self.alloc, missing)?;
        let other = other.as_str();
        let said = format!(in self.alloc; "this file can't be read: {path}{more}{other}")?;
        let (mark, page) = (Some(missing.mark), "docs/PLANT.md, \"Reading the files\"");
        self.tell(FileOf::Plant, Cause { mark, said, page })
    }

    /// Tells which files can't be read, and what is wrong in the others, where the plant file is refused or a file of it is missing.
    fn in_gathered(&mut self) -> Result<(), AllocError> {
        let Some(gathered) = self.gathered else {
            return Ok(());
        };
        for missing in &gathered.missing {
            self.in_missing(missing)?;
        }
        self.in_misplaced()?;
        self.in_all_sources(None)
    }

    /// Tells where a limit isn't kept, and what is wrong behind that.
    fn in_limit(&mut self, limit: Limit) -> Result<(), AllocError> {
        self.past(limit)?;
        match limit {
            Limit::Areas | Limit::Consoles => {
                self.in_misplaced()?;
                self.in_all_sources(None)
            }
            Limit::Sources | Limit::Text | Limit::Alarms => Ok(()),
            _ => self.in_rows_of_right(),
        }
    }

    /// What is wrong in a plant file that is no document, has a wrong key, or has a wrong epoch.
    fn causes(&self, fault: &ConfigFault) -> Result<Vec<Cause>, AllocError> {
        match fault {
            ConfigFault::NotToml(unread) => no_document(self.alloc, self.plant, unread),
            ConfigFault::PlantFile(mistakes) => {
                wrong_keys(self.alloc, self.plant, mistakes.as_slice())
            }
            _ => wrong_epoch(self.alloc, self.plant),
        }
    }

    /// Tells what is wrong in the plant file.
    fn in_plant_file(&mut self, fault: &ConfigFault) -> Result<(), AllocError> {
        for cause in self.causes(fault)? {
            self.tell(FileOf::Plant, cause)?;
        }
        Ok(())
    }

    /// Tells what is wrong, as far as it is found.
    fn find(&mut self, fault: &ConfigFault) -> Result<(), AllocError> {
        match fault {
            ConfigFault::Memory => Ok(()),
            ConfigFault::NotToml(_) | ConfigFault::PlantFile(_) => {
                self.in_plant_file(fault)?;
                self.in_gathered()
            }
            ConfigFault::Epoch => {
                self.in_plant_file(fault)?;
                self.in_misplaced()?;
                self.in_all_sources(None)
            }
            ConfigFault::Limit(limit) => self.in_limit(*limit),
            ConfigFault::Spelling { file, line, column } => {
                self.in_sources((file, *line, *column), true)
            }
            ConfigFault::Grammar { file, line, column } => {
                self.in_sources((file, *line, *column), false)
            }
            ConfigFault::Name { file, unit } => self.in_units(BrokenRule::Names, file, unit),
            ConfigFault::Kind { file, unit } => self.in_units(BrokenRule::Kinds, file, unit),
            ConfigFault::HoldsItself { file, unit } => self.in_units(
                BrokenRule::Blocks,
                file,
                unit,
            ),
            ConfigFault::Constant { file, unit } => self.in_units(
                BrokenRule::Constants,
                file,
                unit,
            ),
            ConfigFault::Header(mistakes)
            | ConfigFault::Field { mistakes, .. }
            | ConfigFault::Twice { mistakes, .. }
            | ConfigFault::Unknown { mistakes, .. } => self.in_rows(mistakes.as_slice()),
        }
    }
}

/// A refused plant of which nothing is told yet, whose files were gathered, or not; and its sources, but for tables of alarms.
fn untold<'t>(
    alloc: Global,
    texts: &PlantTexts<'t>,
    sources: &'t [(&'t str, &'t [u8])],
    gathered: Option<&'t Gathered>,
) -> Refused<'t> {
    Refused {
        alloc,
        plant: texts.plant,
        listed: texts.sources,
        sources,
        alarms: texts.alarms,
        are_all: gathered.is_none_or(|gathered| gathered.are_all),
        has_alarms: gathered.is_none_or(|gathered| gathered.alarms.is_some()),
        gathered,
        told: Vec::new(alloc),
    }
}

/// The fault of a refused plant, and further ones that are found with it, 20 at most: of the plant file and of rows in order of text, of sources first the one
/// for which it is refused, and then the others in order of text, and behind these those of rows.
fn find_all<'t>(
    alloc: Global,
    texts: &PlantTexts<'t>,
    fault: &ConfigFault,
    gathered: Option<&'t Gathered>,
) -> Result<Vec<Spot>, AllocError>
    ensures least { IfOk result (λ found. 1 ≤ length found.items) }
    ensures most { IfOk result (λ found. length found.items ≤ 20) }
{
    let sources = without_tables(alloc, texts)?;
    let mut refused = untold(alloc, texts, sources.as_slice(), gathered);
    refused.find(fault)?;
    let mut spots = refused.told;
    if spots.is_empty() {
        let said = String::from_str(alloc, "it isn't told where, since memory was refused")?;
        let (file, cause) = (FileOf::Plant, cause_of(said, REFUSALS));
        spots.push(Spot { file, cause })?;
    }
    spots.truncate(MOST_FAULTS);
    Ok(spots)
}

/// The name of the alarm database that a plant file lists, which isn't right as a whole; `alarms` where it isn't certain.
fn alarms_listed(alloc: Global, plant: &[u8]) -> Result<String, AllocError> {
    let alarms = files_listed(alloc, plant)?.alarms;
    let name = alarms.as_ref().map_or("alarms", |file| file.name.as_str());
    String::from_str(alloc, name)
}

/// The name of the alarm database of a plant file, as far as that can be read.
pub fn alarms_name(alloc: Global, plant: &[u8]) -> Result<String, AllocError> {
    let read = Plant::files(alloc, plant);
    let name = match &read {
        Ok(files) => String::from_str(alloc, files.alarms.as_str()),
        Err(ConfigFault::Memory) => Err(AllocError),
        Err(_) => alarms_listed(alloc, plant),
    };
    drop(read);
    name
}

/// Adds a fault, shown, and where to read on, unless that is the page of the fault before it.
fn push_shown(
    told: &mut String,
    alloc: Global,
    texts: &PlantTexts<'_>,
    alarms: &str,
    (spot, page): (&Spot, &str),
) -> Result<(), AllocError> {
    told.push_str(shown(alloc, texts, alarms, spot)?.as_str())?;
    let next = spot.cause.page;
    if next == page {
        return Ok(());
    }
    told.push_str(format!(in alloc; "read on: {next}\n")?.as_str())
}

/// Adds how many faults are told, where it isn't one alone.
fn push_count(told: &mut String, alloc: Global, count: usize) -> Result<(), AllocError> {
    let more = match count {
        0 | 1 => return Ok(()),
        MOST_FAULTS => ", and there may be more",
        _ => "",
    };
    let last = format!(in alloc; "{count} faults told{more}: correct these and check again\n")?;
    told.push_str(last.as_str())
}

/// What is said of faults, each with its place in these texts, and where to read on behind the first one of a page; and how many they are with those that were
/// told before.
fn all_shown(
    alloc: Global,
    texts: &PlantTexts<'_>,
    spots: &[Spot],
    before: usize,
) -> Result<String, AllocError> {
    let alarms = alarms_name(alloc, texts.plant)?;
    let mut told = String::new(alloc);
    let mut page = "";
    for spot in spots {
        push_shown(&mut told, alloc, texts, alarms.as_str(), (spot, page))?;
        page = spot.cause.page;
    }
    push_count(&mut told, alloc, spots.len().saturating_add(before))?;
    Ok(told)
}

/// A line with its line feed, and a text.
fn under(alloc: Global, line: &str, text: &str) -> Result<String, AllocError>
    ensures { IfOk result (λ both. string_bytes both ≡ line.now ++ (codes "\n" ++ text.now)) }
{
    let mut both = String::from_str(alloc, line)?;
    both.push_str("\n")?;
    both.push_str(text)?;
    Ok(both)
}

/// What a person is told when a plant is refused: first the line of the refusal, and then its faults, 20 at most: the place of each in the plant's own texts,
/// the line there with a mark, what is wrong, and where to read on; and how many are told.
pub fn explain_all(
    alloc: Global,
    texts: &PlantTexts<'_>,
    fault: &ConfigFault,
) -> Result<String, AllocError>
    requires { fault.now ≢ config_fault.Memory }
    ensures { IfOk result (λ text. BeginsWith (refusal_line fault.now) (string_bytes text)) }
{
    let line = fault.line(alloc)?;
    let spots = find_all(alloc, texts, fault, None)?;
    let rest = all_shown(alloc, texts, spots.as_slice(), 0)?;
    under(alloc, line.as_str(), rest.as_str())
}

/// The texts of a plant whose files were gathered.
fn texts_of<'t>(
    path: &'t str,
    plant: &'t [u8],
    sources: &'t [(&'t str, &'t [u8])],
    gathered: &'t Gathered,
) -> PlantTexts<'t> {
    let alarms = gathered
        .alarms
        .as_ref()
        .map_or(b"".as_slice(), |text| text.as_slice());
    PlantTexts {
        path,
        plant,
        sources,
        alarms,
    }
}

/// The faults of a plant whose own file is refused, and of the files that it lists, which were gathered, shown.
fn shown_gathered(
    alloc: Global,
    texts: &PlantTexts<'_>,
    fault: &ConfigFault,
    gathered: &Gathered,
) -> Result<String, AllocError> {
    let spots = find_all(alloc, texts, fault, Some(gathered))?;
    let told = all_shown(alloc, texts, spots.as_slice(), 0);
    drop(spots);
    told
}

/// The faults of a plant whose own file is refused, and of the files that it lists, shown.
fn shown_from<S: Shelf>(
    alloc: Global,
    (shelf, path): (&S, &str),
    plant: &[u8],
    fault: &ConfigFault,
) -> Result<String, AllocError> {
    let gathered = Gathered::of(alloc, (shelf, path), plant)?;
    let sources = gathered.lent(alloc)?;
    let texts = texts_of(path, plant, sources.as_slice(), &gathered);
    let told = shown_gathered(alloc, &texts, fault, &gathered);
    drop(sources);
    drop(gathered);
    told
}

/// As `explain_all`, of a plant whose own file is refused before others are read. What is certainly wrong in the files that it lists is told too: as far as the
/// plant file can be read, they are read from a shelf for this, beside the path of the plant file.
pub fn explain_from<S: Shelf>(
    alloc: Global,
    shelf: &S,
    path: &str,
    plant: &[u8],
    fault: &ConfigFault,
) -> Result<String, AllocError>
    requires { fault.now ≢ config_fault.Memory }
    ensures { IfOk result (λ text. BeginsWith (refusal_line fault.now) (string_bytes text)) }
{
    let line = fault.line(alloc)?;
    let told = shown_from(alloc, (shelf, path), plant, fault)?;
    under(alloc, line.as_str(), told.as_str())
}

/// What is said of another file that may be meant by one that is missing; empty where there is none.
fn meant(alloc: Global, missing: &MissingFile) -> Result<String, AllocError> {
    let near = missing.meant.as_str();
    if near.is_empty() {
        let name = missing.name.as_str().as_bytes();
        let dots = name.iter().filter(|byte| **byte == b'.').count();
        let said = if name.contains(&b',') && dots > 1 {
            "; each file stands in quotes of its own, with commas behind these"
        } else {
            ""
        };
        return String::from_str(alloc, said);
    }
    format!(in alloc; "; there is a file '{near}': is that meant?")
}

/// The place in the plant file where a file is named that is missing, with what is said of another one that may be meant, shown; nothing where it isn't certain.
fn named_at(
    alloc: Global,
    texts: &PlantTexts<'_>,
    named: Option<(Mark, String)>,
) -> Result<String, AllocError> {
    let Some((mark, other)) = named else {
        return Ok(String::new(alloc));
    };
    let mut said = String::from_str(alloc, "the plant file names it here")?;
    said.push_str(other.as_str())?;
    let (file, cause) = (FileOf::Plant, cause_at(mark, said, REFUSALS));
    shown(alloc, texts, "", &Spot { file, cause })
}

/// The place in the plant file of a file of a name that is missing, with what is said of another one that may be meant; `None` where it isn't certain.
fn named_in(
    alloc: Global,
    gathered: &Gathered,
    name: &str,
) -> Result<Option<(Mark, String)>, AllocError> {
    let mut missing = gathered.missing.iter();
    match missing.find(|file| file.name.as_str() == name) {
        Some(file) => Ok(Some((file.mark, meant(alloc, file)?))),
        None => Ok(None),
    }
}

/// What is wrong in a plant beside a file that is missing.
fn found_beside(
    alloc: Global,
    texts: &PlantTexts<'_>,
    gathered: &Gathered,
) -> Result<Vec<Spot>, AllocError> {
    let sources = without_tables(alloc, texts)?;
    let mut refused = untold(alloc, texts, sources.as_slice(), Some(gathered));
    refused.in_gathered()?;
    let mut spots = refused.told;
    spots.truncate(MOST_FAULTS.saturating_sub(1));
    Ok(spots)
}

/// What is wrong in a plant beside a file that is missing, shown, and how many faults are told with that.
fn shown_beside(
    alloc: Global,
    texts: &PlantTexts<'_>,
    gathered: &Gathered,
) -> Result<String, AllocError> {
    let spots = found_beside(alloc, texts, gathered)?;
    let told = all_shown(alloc, texts, spots.as_slice(), 1);
    drop(spots);
    told
}

/// The place in the plant file where a file is named that is missing, and what else is wrong, shown.
fn shown_missing(
    alloc: Global,
    (path, plant): (&str, &[u8]),
    gathered: &Gathered,
    named: Option<(Mark, String)>,
) -> Result<String, AllocError> {
    let sources = gathered.lent(alloc)?;
    let texts = texts_of(path, plant, sources.as_slice(), gathered);
    let mut told = named_at(alloc, &texts, named)?;
    told.push_str(shown_beside(alloc, &texts, gathered)?.as_str())?;
    Ok(told)
}

/// What `explain_missing` tells, of a plant file that its shelf has.
fn told_missing<S: Shelf>(
    alloc: Global,
    (shelf, path): (&S, &str),
    plant: &[u8],
    name: &str,
) -> Result<String, AllocError> {
    let mut gathered = Gathered::of(alloc, (shelf, path), plant)?;
    let named = named_in(alloc, &gathered, name)?;
    gathered.forget(name);
    let told = shown_missing(alloc, (path, plant), &gathered, named);
    drop(gathered);
    told
}

/// Where the plant file names a file of a name that is missing, and what else is wrong in the plant: further files that are missing, and what is certainly wrong
/// in the others; and how many faults are told with the missing file. Nothing where a shelf hasn't the plant file itself by its path.
pub fn explain_missing<S: Shelf>(
    alloc: Global,
    shelf: &S,
    path: &str,
    name: &str,
) -> Result<String, AllocError> {
    match shelf.text(alloc, path)? {
        Shelved::Text(plant) => told_missing(alloc, (shelf, path), plant.as_slice(), name),
        Shelved::Missing | Shelved::Unread => Ok(String::new(alloc)),
    }
}

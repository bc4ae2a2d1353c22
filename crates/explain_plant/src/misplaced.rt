//! Files that the plant file names in a wrong place: a table of alarms among the sources, or a source as the table; and sources of which one seems to be missing.

use crate::telling::Refused;
use explain_bodies::{BrokenRule, Mistake};
use explain_files::{Listed, ListedFile, files_listed, keys_of};
use explain_rows::is_table;
use explain_tokens::{Cause, FileOf, part};
use plant_folder::PlantTexts;
use st_parser::{PouKind, Unit};
use std::alloc::{AllocError, Global};

/// Where it stands what a plant file names.
const PAGE: &str = "docs/PLANT.md, \"plant.toml\"";

/// So many names that aren't there are told each, though no source has globals, and so many blocks, though none has blocks.
const MOST_NAMES: usize = 5;

const MOST_BLOCKS: usize = 3;

/// How it is told that a name isn't there.
const NO_VARIABLE: &str = "no variable is called";

const NO_BLOCK: &str = "no block is called";

/// Whether a file of a name is no source: it is the plant file itself, or the table that this lists, by its ending, or begins as one.
fn is_no_source(listed: &Listed, plant: &[u8], (name, text): (&str, &[u8])) -> bool {
    let mut alarms = listed.alarms.iter();
    let is_listed = alarms.any(|file| file.name.as_str() == name);
    text == plant || is_table(text) || is_listed && name.ends_with(".csv")
}

/// The sources of a plant, with nothing in the place of the text of one that is a table of alarms, or the plant file itself.
pub fn without_tables<'t>(
    alloc: Global,
    texts: &PlantTexts<'t>,
) -> Result<Vec<(&'t str, &'t [u8])>, AllocError> {
    let listed = files_listed(alloc, texts.plant)?;
    let mut sources = Vec::new(alloc);
    for source in texts.sources {
        let is_table = is_no_source(&listed, texts.plant, *source);
        let left = if is_table { b"".as_slice() } else { source.1 };
        sources.push((source.0, left))?;
    }
    Ok(sources)
}

/// Whether a text begins as a source, perhaps behind a comment.
fn begins_source(text: &[u8]) -> bool {
    let text = text.trim_ascii_start();
    let mut pairs = text.windows(2);
    let end = pairs.position(|pair| matches!(pair, [b'*', b')']));
    let text = match end {
        Some(end) if text.starts_with(b"(*") => part(text, end.saturating_add(2), text.len()),
        _ => text,
    };
    let text = text.trim_ascii_start();
    let words = ["PROGRAM ", "FUNCTION_BLOCK ", "VAR_GLOBAL"];
    let mut words = words.iter();
    words.any(|word| text.starts_with(word.as_bytes()))
}

/// How many of these mistakes are told by a text that begins so and ends so.
fn count_of(found: &[Mistake], begin: &str, end: &str) -> usize {
    let told = found.iter().filter(|mistake| {
        let said = mistake.cause.said.as_str();
        mistake.rule == BrokenRule::Names && said.starts_with(begin) && said.ends_with(end)
    });
    told.count()
}

/// Whether a unit has a block.
fn has_block(unit: &Unit) -> bool {
    let mut pous = unit.pous.iter();
    pous.any(|pou| matches!(pou.kind, PouKind::Block))
}

/// Whether no source has globals, and whether none has blocks, where so many of these aren't there that a source seems to be missing.
pub fn lacking(units: &[Unit], found: &[Mistake]) -> (bool, bool) {
    let names = count_of(found, NO_VARIABLE, "");
    let blocks = count_of(found, NO_BLOCK, "BOOL, DINT and TIME");
    let (mut all, mut others) = (units.iter(), units.iter());
    let have_none = all.all(|unit| unit.globals.is_empty());
    let are_plain = !others.any(has_block);
    (
        names > MOST_NAMES && have_none,
        blocks > MOST_BLOCKS && are_plain,
    )
}

/// The first name in quotes in what is said of the first of these mistakes that is told by a text that begins so.
fn first_name<'m>(found: &'m [Mistake], begin: &str) -> &'m str {
    let mut told = found.iter().map(|mistake| mistake.cause.said.as_str());
    let said = told.find(|said| said.starts_with(begin)).unwrap_or("");
    let mut parts = said.split("'");
    parts.next();
    parts.next().unwrap_or("")
}

impl<'t> Refused<'t> {
    /// Whether a source isn't looked at, since it is a table of alarms.
    pub fn is_misplaced(&self, file: FileOf) -> bool {
        let FileOf::Source(number) = file else {
            return false;
        };
        let listed = self.listed.get(number).map_or(0, |source| source.1.len());
        let looked_at = self.sources.get(number).map_or(0, |source| source.1.len());
        looked_at < listed
    }

    /// What is said of a source that is none.
    fn said_of(&self, files: &Listed, (name, text): (&str, &[u8])) -> Result<String, AllocError> {
        let mut alarms = files.alarms.iter();
        let what = if text == self.plant {
            "the plant file itself"
        } else if alarms.any(|file| file.name.as_str() == name) {
            "the table of alarms (key 'alarms')"
        } else {
            "a table of alarms"
        };
        format!(in self.alloc; "'{name}' is {what}, and no source")
    }

    /// Tells of a source that is none, where the plant file lists it.
    fn in_no_source(&mut self, files: &Listed, source: (&str, &[u8])) -> Result<(), AllocError> {
        let said = self.said_of(files, source)?;
        let mut sources = files.sources.iter();
        let file = sources.find(|file| file.name.as_str() == source.0);
        let (mark, page) = (file.map(|file| file.mark), PAGE);
        self.tell(FileOf::Plant, Cause { mark, said, page })
    }

    /// Tells of each of these sources that is a table of alarms.
    fn in_no_sources(
        &mut self,
        files: &Listed,
        listed: &[(&str, &[u8])],
    ) -> Result<(), AllocError> {
        for (number, source) in listed.iter().enumerate() {
            if self.is_misplaced(FileOf::Source(number)) {
                self.in_no_source(files, *source)?;
            }
        }
        Ok(())
    }

    /// Tells of each source that is a table of alarms.
    pub fn in_misplaced(&mut self) -> Result<(), AllocError> {
        let (files, listed) = (files_listed(self.alloc, self.plant)?, self.listed);
        let told = self.in_no_sources(&files, listed);
        drop(files);
        told
    }

    /// Tells where what the plant file lists as the table of alarms is a source, or the plant file itself; returns whether it is.
    fn in_table_listed(&mut self, files: &Listed, alarms: &ListedFile) -> Result<bool, AllocError> {
        let name = alarms.name.as_str();
        let mut sources = files.sources.iter();
        let is_source = sources.any(|file| file.name.as_str() == name);
        let is_plant = self.alarms == self.plant;
        let is_none = is_no_source(files, self.plant, (name, self.alarms));
        if !is_plant && (is_source && is_none || !is_source && !begins_source(self.alarms)) {
            return Ok(false);
        }
        let what = if is_plant {
            "the plant file itself, and"
        } else if is_source {
            "listed as a source, and is"
        } else {
            "a source, and"
        };
        let said = format!(in self.alloc; "'{name}' is {what} no table of alarms")?;
        let (mark, page) = (Some(alarms.mark), PAGE);
        self.tell(FileOf::Plant, Cause { mark, said, page })?;
        Ok(true)
    }

    /// Tells where the plant file names one of its sources as the table of alarms; returns whether it does.
    pub fn in_named_source(&mut self) -> Result<bool, AllocError> {
        let files = files_listed(self.alloc, self.plant)?;
        let told = match &files.alarms {
            Some(alarms) => self.in_table_listed(&files, alarms),
            None => Ok(false),
        };
        drop(files);
        told
    }

    /// Tells that no source has globals, or none has blocks, at the list of sources, with the first name of what is missing.
    pub fn in_few_sources(
        &mut self,
        found: &[Mistake],
        lacks_globals: bool,
    ) -> Result<(), AllocError> {
        let keys = keys_of(self.alloc, self.plant)?;
        let mark = keys.find(0, "sources").map(|entry| entry.value);
        let (section, begin) = match lacks_globals {
            true => ("VAR_GLOBAL", NO_VARIABLE),
            false => ("FUNCTION_BLOCK", NO_BLOCK),
        };
        let name = first_name(found, begin);
        let said = format!(in self.alloc;
            "no source has a {section}, and several are used that aren't there, as {name}: is a source missing in this list, or is one empty?"
        )?;
        let page = PAGE;
        self.tell(FileOf::Plant, Cause { mark, said, page })
    }
}

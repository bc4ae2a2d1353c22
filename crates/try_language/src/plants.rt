//! The files of a plant, and what is told of it.

use crate::faults::{fault_of, is_of_tables};
use crate::shelf::{told_from, told_missing};
use explain_plant::{PlantTexts, Warner, explain_all, warn};
use explain_statements::{statement_table, told_of_fault};
use plant_config::{ConfigFault, Plant};
use std::alloc::{AllocError, Global};
use std::thread::Threads;
use try_text::{File, Page};

/// The plant file of a plant that has none of its own.
const PLANT: &[u8] = b"name = \"P\"
epoch = \"2024-01-01T00:00:00Z\"
areas = [\"north\", \"south\"]
sources = [\"p.st\"]
alarms = \"alarms.csv\"
[[console]]
number = 1
areas = [\"north\"]
";

/// The alarm database of a plant that has none of its own.
const ALARMS: &[u8] = b"tag,area,priority,condition,suppress,latch,max_shelve_ms,text
T1,north,2,c,,FALSE,5000,Feed ratio high
";

/// The text of the file of a name, with a line in place of its line `..`; another text where there is none.
fn text_of(
    alloc: Global,
    files: &[File],
    name: &str,
    given: &str,
    other: &[u8],
) -> Result<Vec<u8>, AllocError> {
    for file in files {
        if file.name.as_str() == name {
            return file.text(alloc, given);
        }
    }
    Vec::from_slice(alloc, other)
}

/// The fault for which a plant is refused by a line: where it is of a table, as the plant is read; `Memory` where the plant is accepted.
fn fault_for<H: Threads + Sync>(
    rt: &H,
    alloc: Global,
    texts: &PlantTexts<'_>,
    line: &str,
) -> Result<ConfigFault, AllocError> {
    if !is_of_tables(line) {
        return fault_of(alloc, line);
    }
    match Plant::read(rt, alloc, texts.plant, texts.sources, texts.alarms) {
        Ok(plant) => {
            drop(plant);
            Ok(ConfigFault::Memory)
        }
        Err(fault) => Ok(fault),
    }
}

/// What is told of a plant that is refused by a line, or that is accepted, or of its statements, as a text.
fn told<H: Threads + Sync>(
    rt: &H,
    alloc: Global,
    texts: &PlantTexts<'_>,
    line: &str,
) -> Result<String, AllocError> {
    if line == "accepted" {
        return warned(rt, alloc, texts);
    }
    if line == "lines" {
        return statement_table(alloc, texts);
    }
    if line.starts_with("FAULT ") {
        return told_of_fault(alloc, texts, line);
    }
    if line == "files" {
        return told_from(alloc, texts);
    }
    if let Some(name) = line.strip_prefix("FILE ") {
        return told_missing(alloc, texts, name);
    }
    match fault_for(rt, alloc, texts, line)? {
        ConfigFault::Memory => Ok(String::new(alloc)),
        fault => explain_all(alloc, texts, &fault),
    }
}

/// What is told of a plant that is accepted; nothing of one that isn't.
fn warned<H: Threads + Sync>(
    rt: &H,
    alloc: Global,
    texts: &PlantTexts<'_>,
) -> Result<String, AllocError> {
    let mut warner = Warner::default();
    match Plant::read_observed(
        rt,
        alloc,
        texts.plant,
        texts.sources,
        texts.alarms,
        &mut warner,
    ) {
        Ok(plant) => {
            let told = warn(alloc, texts, &plant, warner);
            drop(plant);
            told
        }
        Err(_) => String::from_str(alloc, "REFUSED\n"),
    }
}

/// The texts of a plant's files.
#[derive(Drop)]
struct Texts<'a> {
    plant: Vec<u8>,
    alarms: Vec<u8>,
    /// The names and texts of its sources.
    sources: Vec<(&'a str, Vec<u8>)>,
}

/// The names and texts of the sources of files, with a line in place of the line `..`.
fn sources_of<'a>(
    alloc: Global,
    files: &'a [File],
    given: &str,
) -> Result<Vec<(&'a str, Vec<u8>)>, AllocError> {
    let mut sources = Vec::new(alloc);
    for file in files {
        if file.name.as_str().ends_with(".st") {
            sources.push((file.name.as_str(), file.text(alloc, given)?))?;
        }
    }
    if sources.is_empty() {
        sources.push(("p.st", Vec::new(alloc)))?;
    }
    Ok(sources)
}

/// The texts of files, with a line in place of the line `..`.
fn texts_of<'a>(alloc: Global, files: &'a [File], given: &str) -> Result<Texts<'a>, AllocError> {
    Ok(Texts {
        plant: text_of(alloc, files, "plant.toml", given, PLANT)?,
        alarms: text_of(alloc, files, "alarms.csv", given, ALARMS)?,
        sources: sources_of(alloc, files, given)?,
    })
}

/// Names and texts, lent.
fn lent<'a>(
    alloc: Global,
    sources: &'a [(&'a str, Vec<u8>)],
) -> Result<Vec<(&'a str, &'a [u8])>, AllocError> {
    let mut lent = Vec::new(alloc);
    for (name, text) in sources {
        lent.push((*name, text.as_slice()))?;
    }
    Ok(lent)
}

/// Adds what is told of the plant of texts that is refused by a line, or accepted.
fn push_of<H: Threads + Sync>(
    rt: &H,
    alloc: Global,
    page: &mut Page,
    texts: &Texts<'_>,
    line: &str,
) {
    let Ok(sources) = lent(alloc, texts.sources.as_slice()) else {
        return page.refuse();
    };
    let lent = PlantTexts {
        path: "plant.toml",
        plant: texts.plant.as_slice(),
        sources: sources.as_slice(),
        alarms: texts.alarms.as_slice(),
    };
    page.add_made(told(rt, alloc, &lent, line));
}

/// Adds what is told of the plant of files that is refused by a line, or accepted, with another line in place of the line `..`.
pub fn push_told<H: Threads + Sync>(
    rt: &H,
    alloc: Global,
    page: &mut Page,
    files: &[File],
    words: (&str, &str),
) {
    let (line, given) = words;
    match texts_of(alloc, files, given) {
        Ok(texts) => push_of(rt, alloc, page, &texts, line),
        Err(_) => page.refuse(),
    }
}

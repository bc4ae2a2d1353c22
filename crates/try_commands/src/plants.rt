//! The files of a plant, as the table gives them, and the plant that they make.

use plant_config::{ConfigFault, Files, Plant};
use std::alloc::{AllocError, Global};
use std::thread::Threads;
use try_text::{File, Page};
use try_twins::{Unready, Walker, walker_of_sources};

/// What stands in `plant.toml` where the table gives a plant none of its own.
const PLANT: &str = "name = \"P\"
epoch = \"2024-01-01T00:00:00Z\"
areas = [\"north\", \"south\"]
sources = [\"p.st\"]
alarms = \"alarms.csv\"
[[console]]
number = 1
areas = [\"north\"]
[[console]]
number = 2
areas = [\"south\"]";

/// What stands in `alarms.csv` likewise.
const ALARMS: &str = "tag,area,priority,condition,suppress,latch,max_shelve_ms,text
T1,north,2,c,,FALSE,5000,Feed ratio high";

/// What is to be done with a plant.
#[derive(Clone, Copy, Drop)]
pub enum Asked {
    /// To read it, and run it beside the server.
    Run,
    /// To read it, and run it by workers that are gone.
    RunGone,
    /// To read it.
    Check,
    /// To list the files that its plant file names.
    List,
    /// To check it from a folder.
    CheckFiles,
    /// To run it from a folder.
    RunFiles,
    /// To run it from the texts of its one source and its alarms.
    RunTexts,
}

/// A plant and what is to be done with it.
#[derive(Clone, Copy, Drop)]
pub struct Plan<'a> {
    pub files: &'a [File],
    /// The sources that are handed in for it, where the table names them.
    pub handed: &'a str,
    /// The text in the gap of its files.
    pub given: &'a str,
    pub asked: Asked,
    /// The lines of its run.
    pub lines: &'a str,
}

impl Plan<'_> {
    /// Whether it serves a plant, and doesn't repeat a command so often that once is enough.
    pub fn is_for_crews(&self) -> bool {
        let is_run = matches!(self.asked, Asked::Run | Asked::RunFiles | Asked::RunTexts);
        is_run && !self.lines.contains("repeat ")
    }
}

fn file_of(alloc: Global, name: &str, lines: &str) -> Result<File, AllocError> {
    let mut file = File::new(alloc, name)?;
    for line in lines.lines() {
        file.source.add(line)?;
    }
    Ok(file)
}

/// Adds a file, and tells whether there was memory for it.
fn is_added(files: &mut Vec<File>, file: Result<File, AllocError>) -> bool {
    match file {
        Ok(file) => files.push(file).is_ok(),
        Err(_) => false,
    }
}

/// Puts in place those files of a plant that the table needn't give: the last of them is `p.st`, and empty. Tells whether there was memory for them.
pub fn put_first(alloc: Global, files: &mut Vec<File>) -> bool {
    files.clear();
    let plant = is_added(files, file_of(alloc, "plant.toml", PLANT));
    let alarms = is_added(files, file_of(alloc, "alarms.csv", ALARMS));
    plant && alarms && put_file(alloc, files, "p.st")
}

/// Adds an empty file, and tells whether there was memory for it.
pub fn put_file(alloc: Global, files: &mut Vec<File>, name: &str) -> bool {
    is_added(files, File::new(alloc, name))
}

/// The bytes of files, with a line in place of a line `..`.
pub fn texts_of(alloc: Global, files: &[File], given: &str) -> Result<Vec<Vec<u8>>, AllocError> {
    let mut texts = Vec::new(alloc);
    for file in files {
        texts.push(file.text(alloc, given)?)?;
    }
    Ok(texts)
}

/// The bytes of the last file with a name, if there is one.
pub fn text_of<'a>(files: &[File], texts: &'a [Vec<u8>], name: &str) -> Option<&'a [u8]> {
    let mut found = None;
    for (file, text) in files.iter().zip(texts) {
        if file.name.as_str() == name {
            found = Some(text.as_slice());
        }
    }
    found
}

/// The names of the sources that are handed in: the words of a line, or else what plant.toml lists.
fn names_of<'a>(
    alloc: Global,
    words: &'a str,
    listed: &'a Files,
) -> Result<Vec<&'a str>, AllocError> {
    let mut names = Vec::new(alloc);
    if words.is_empty() {
        for source in listed.sources.as_slice() {
            names.push(source.as_str())?;
        }
        return Ok(names);
    }
    for word in words.split(" ") {
        names.push(word)?;
    }
    Ok(names)
}

/// Names and the bytes of their files, up to the first name that has none.
fn named<'a>(
    alloc: Global,
    files: &[File],
    texts: &'a [Vec<u8>],
    names: &[&'a str],
) -> Result<Vec<(&'a str, &'a [u8])>, AllocError> {
    let mut found = Vec::new(alloc);
    for name in names {
        match text_of(files, texts, name) {
            Some(text) => found.push((*name, text))?,
            None => return Ok(found),
        }
    }
    Ok(found)
}

/// Adds the line of a refused plant.
fn push_refused(alloc: Global, page: &mut Page, fault: &ConfigFault) {
    match fault {
        ConfigFault::Memory => page.refuse(),
        _ => {
            page.add_made(fault.line(alloc));
            page.add("\n");
        }
    }
}

/// Adds the names of the files that a plant file names, each after a space.
fn push_listed(page: &mut Page, listed: &Files) {
    for source in listed.sources.as_slice() {
        page.word(source.as_str());
    }
    page.word(listed.alarms.as_str());
    page.add("\n");
}

/// The texts of a plan, and the names of its files.
#[derive(Clone, Copy, Drop)]
struct Given<'a> {
    files: &'a [File],
    texts: &'a [Vec<u8>],
    names: &'a [&'a str],
    alarms: &'a str,
}

/// The plant of texts, with a walker of its sources. Where there is none, a line that says why is added.
fn plant_in<H: Threads + Sync>(
    rt: &H,
    alloc: Global,
    page: &mut Page,
    given: Given<'_>,
) -> Option<(Plant, Walker)> {
    let Ok(sources) = named(alloc, given.files, given.texts, given.names) else {
        page.refuse();
        return None;
    };
    let alarms = text_of(given.files, given.texts, given.alarms);
    let lacking = given.names.get(sources.len());
    let (None, Some(alarms)) = (lacking, alarms) else {
        page.add("FILE");
        page.word(lacking.copied().unwrap_or(given.alarms));
        page.add("\n");
        return None;
    };
    let plant = text_of(given.files, given.texts, "plant.toml").unwrap_or(&[]);
    read(rt, alloc, page, (plant, &sources, alarms))
}

/// A plant with a walker of its sources, which a plant that is accepted always has. Where there is none, a line that says so is added.
fn walked(
    alloc: Global,
    page: &mut Page,
    plant: Plant,
    sources: &[(&str, &[u8])],
) -> Option<(Plant, Walker)> {
    match walker_of_sources(alloc, sources) {
        Ok(walker) => Some((plant, walker)),
        Err(why) => {
            drop(plant);
            match why {
                Unready::Memory => page.refuse(),
                _ => page.line("NO WALKER"),
            }
            None
        }
    }
}

/// Reads a plant, and its sources once more for a walker. Where it is refused, a line that says why is added.
fn read<H: Threads + Sync>(
    rt: &H,
    alloc: Global,
    page: &mut Page,
    texts: (&[u8], &[(&str, &[u8])], &[u8]),
) -> Option<(Plant, Walker)> {
    match Plant::read(rt, alloc, texts.0, texts.1, texts.2) {
        Ok(plant) => walked(alloc, page, plant, texts.1),
        Err(fault) => {
            push_refused(alloc, page, &fault);
            None
        }
    }
}

/// The plant of a plan and its texts, of which the plant file lists files. Where there is none, or these are to be listed, lines that say so are added.
fn plant_by<H: Threads + Sync>(
    rt: &H,
    alloc: Global,
    page: &mut Page,
    plan: &Plan<'_>,
    texts: &[Vec<u8>],
    listed: &Files,
) -> Option<(Plant, Walker)> {
    if let Asked::List = plan.asked {
        push_listed(page, listed);
        return None;
    }
    let Ok(names) = names_of(alloc, plan.handed, listed) else {
        page.refuse();
        return None;
    };
    let given = Given {
        files: plan.files,
        texts,
        names: names.as_slice(),
        alarms: listed.alarms.as_str(),
    };
    plant_in(rt, alloc, page, given)
}

/// The plant of a plan and its texts. Where there is none, or its files are to be listed, lines that say so are added.
fn plant_of_texts<H: Threads + Sync>(
    rt: &H,
    alloc: Global,
    page: &mut Page,
    plan: &Plan<'_>,
    texts: &[Vec<u8>],
) -> Option<(Plant, Walker)> {
    let plant = text_of(plan.files, texts, "plant.toml").unwrap_or(&[]);
    match Plant::files(alloc, plant) {
        Ok(listed) => plant_by(rt, alloc, page, plan, texts, &listed),
        Err(fault) => {
            push_refused(alloc, page, &fault);
            None
        }
    }
}

/// The plant of a plan, with a walker of its sources. Where there is none, or its files are to be listed, lines that say so are added.
pub fn plant_of<H: Threads + Sync>(
    rt: &H,
    alloc: Global,
    page: &mut Page,
    plan: &Plan<'_>,
) -> Option<(Plant, Walker)> {
    match texts_of(alloc, plan.files, plan.given) {
        Ok(texts) => plant_of_texts(rt, alloc, page, plan, &texts),
        Err(_) => {
            page.refuse();
            None
        }
    }
}

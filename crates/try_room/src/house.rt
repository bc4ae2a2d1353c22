//! The plants, read from their files.

use engine::Plant;
use plant_folder::{Deaf, Disk, FetchFault, Fetched, PlantFiles, PlantTexts, fetch, verdict};
use std::alloc::{AllocError, Global};
use std::rt::Files;
use std::thread::Threads;
use try_text::Page;

/// The plant file of the house.
const FIRST: &str = "house/plant.toml";

/// That of the house as it is changed: the alarms have other numbers, and there is one more.
const SECOND: &str = "house/changed.toml";

/// The plant with which the day begins, and the one that takes its place.
#[derive(Drop)]
pub struct Houses {
    pub first: Plant,
    pub second: Plant,
}

/// Names and texts of sources, lent.
fn lent(alloc: Global, fetched: &Fetched) -> Result<Vec<(&str, &[u8])>, AllocError> {
    let mut sources = Vec::new(alloc);
    for source in fetched.sources.as_slice() {
        sources.push((source.name.as_str(), source.text.as_slice()))?;
    }
    Ok(sources)
}

/// The plant of texts. Where it is refused, or memory is, there is none, and the line of its refusal is added.
fn judged<H: Threads + Sync>(
    rt: &H,
    alloc: Global,
    texts: &PlantTexts<'_>,
    page: &mut Page,
) -> Option<Plant> {
    match verdict(rt, alloc, texts, &mut Deaf) {
        Ok((plant, line)) => {
            page.add_bytes(line.as_bytes());
            plant
        }
        Err(_) => {
            page.refuse();
            None
        }
    }
}

/// The plant of texts that were fetched. Where it is refused, or memory is, there is none, and the line of its refusal is added.
fn plant_of<H: Threads + Sync>(
    rt: &H,
    alloc: Global,
    path: &str,
    fetched: &Fetched,
    page: &mut Page,
) -> Option<Plant> {
    let Ok(sources) = lent(alloc, fetched) else {
        page.refuse();
        return None;
    };
    let texts = PlantTexts {
        path,
        plant: fetched.plant.as_slice(),
        sources: sources.as_slice(),
        alarms: fetched.alarms.as_slice(),
    };
    judged(rt, alloc, &texts, page)
}

/// Adds why a plant's files can't be read.
fn push_fault(page: &mut Page, fault: FetchFault) {
    match fault {
        FetchFault::Memory => page.refuse(),
        FetchFault::File(name) => {
            page.add("A FILE IS MISSING:");
            page.word(name.as_str());
            page.add("\n");
        }
        FetchFault::Config(_) => page.line("NO PLANT FILE"),
    }
}

/// The plant of a plant file's path. Where it is refused, or a file isn't found, there is none, and a line that says so is added.
fn read_house<R: Files + Threads + Sync>(
    rt: &R,
    alloc: Global,
    path: &str,
    page: &mut Page,
) -> Option<Plant> {
    let files = PlantFiles {
        folder: &Disk { files: rt },
        path,
    };
    match fetch(alloc, &files, &mut Deaf) {
        Ok(fetched) => {
            let plant = plant_of(rt, alloc, path, &fetched, page);
            drop(fetched);
            plant
        }
        Err(fault) => {
            push_fault(page, fault);
            None
        }
    }
}

/// The plant of the house, and that of the house as it is changed. Where one of them is refused, or a file isn't found, there are none, and a line that
/// says so is added.
pub fn read_houses<R: Files + Threads + Sync>(
    rt: &R,
    alloc: Global,
    page: &mut Page,
) -> Option<Houses> {
    let first = read_house(rt, alloc, FIRST, page)?;
    let second = read_house(rt, alloc, SECOND, page)?;
    Some(Houses { first, second })
}

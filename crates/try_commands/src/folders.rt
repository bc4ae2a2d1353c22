//! The files of a plant as a folder in memory, and runs from there and from their texts.

ghost use Rattle.std.specs.Prelude.{◌≡◌, false};

use crate::plants::{Plan, text_of, texts_of};
use engine::{Crew, Done, Job, Start};
use serve_runs::{
    Deaf, Ends, FileFault, Folder, PlantFiles, PlantTexts, Reading, RunEnd, ServeFault, Writing,
    check_from, run, run_from,
};
use std::alloc::Global;
use std::sync::Wait;
use std::thread::Threads;
use try_text::{File, Page};

/// A folder `plant` with the files of a plant.
#[derive(Drop)]
struct Shelf<'a> {
    files: &'a [File],
    texts: &'a [Vec<u8>],
}

impl Folder for Shelf<'_> {
    ghost use Rattle.std.specs.Prelude.{⊤};

    ghost finds = { λ _ _ _. ⊤ };

    fn contents(&self, alloc: Global, path: &str) -> Result<Vec<u8>, FileFault> {
        let name = path.strip_prefix("plant/").unwrap_or("");
        let Some(bytes) = text_of(self.files, self.texts, name) else {
            return Err(FileFault::Missing);
        };
        if bytes.len() > 16_777_217 {
            return Err(FileFault::Missing);
        }
        Ok(Vec::from_slice(alloc, bytes)?)
    }
}

/// The path of the plant file in the folder.
const PATH: &str = "plant/plant.toml";

/// Adds what there is to say of the plant of a folder.
fn push_shelved<H: Threads + Sync>(rt: &H, alloc: Global, page: &mut Page, shelf: &Shelf<'_>) {
    let mut sink = Writing::new(Vec::new(alloc));
    let files = PlantFiles {
        folder: shelf,
        path: PATH,
    };
    match check_from(rt, alloc, &files, &mut Deaf, &mut sink) {
        Ok(_) => page.add_bytes(sink.get_ref().as_slice()),
        Err(_) => page.refuse(),
    }
}

/// Adds what there is to say of the plant of files in a folder.
pub fn push_checked<H: Threads + Sync>(rt: &H, alloc: Global, page: &mut Page, plan: &Plan<'_>) {
    let Ok(texts) = texts_of(alloc, plan.files, plan.given) else {
        return page.refuse();
    };
    let shelf = Shelf {
        files: plan.files,
        texts: &texts,
    };
    push_shelved(rt, alloc, page, &shelf);
}

/// What a run in memory is joined to.
type MemoryEnds<'a> = Ends<Reading<&'a [u8]>, Writing<Vec<u8>>, Deaf>;

/// Runs the plant of a folder to the end of a feed: from its files, or from the texts of its plant file, of `p.st` and of its alarms.
fn ran<H: Threads + Wait + Sync, C: Crew<Job, Start, Done, H>>(
    rt: &H,
    alloc: Global,
    crew: &mut C,
    shelf: &Shelf<'_>,
    is_of_texts: bool,
    ends: &mut MemoryEnds<'_>,
) -> Result<RunEnd, ServeFault>
    requires asked { C.asks }
    requires feed { ends.old.feed.broken ≡ false }
    requires sink { ends.old.sink.broken ≡ false }
{
    if !is_of_texts {
        let files = PlantFiles {
            folder: shelf,
            path: PATH,
        };
        return run_from(rt, alloc, crew, &files, ends);
    }
    let source = text_of(shelf.files, shelf.texts, "p.st").unwrap_or(&[]);
    let texts = PlantTexts {
        path: PATH,
        plant: text_of(shelf.files, shelf.texts, "plant.toml").unwrap_or(&[]),
        sources: &[("p.st", source)],
        alarms: text_of(shelf.files, shelf.texts, "alarms.csv").unwrap_or(&[]),
    };
    run(rt, alloc, crew, &texts, ends)
}

/// Adds what a run writes, how it ends, and how many bytes of the lines it leaves.
fn push_run(page: &mut Page, run: Result<RunEnd, ServeFault>, ends: &MemoryEnds<'_>, lines: &str) {
    page.add_bytes(ends.sink.get_ref().as_slice());
    match run {
        Ok(RunEnd::Served) => page.add("SERVED,"),
        Ok(RunEnd::Refused) => page.add("REFUSED,"),
        Err(_) => page.refuse(),
    }
    page.number(ends.feed.get_ref().len() as i128);
    page.word("of");
    page.number(lines.len() as i128);
    page.line(" bytes left");
}

/// Adds what the run of a plant writes, how it ends, and how many bytes of the input it leaves.
pub fn push_ran<H: Threads + Wait + Sync, C: Crew<Job, Start, Done, H>>(
    rt: &H,
    alloc: Global,
    crew: &mut C,
    page: &mut Page,
    plan: &Plan<'_>,
    is_of_texts: bool,
)
    requires { C.asks }
{
    let Ok(texts) = texts_of(alloc, plan.files, plan.given) else {
        return page.refuse();
    };
    let shelf = Shelf {
        files: plan.files,
        texts: &texts,
    };
    let mut ends = Ends {
        feed: Reading::new(plan.lines.as_bytes()),
        sink: Writing::new(Vec::new(alloc)),
        listener: Deaf,
    };
    let run = ran(rt, alloc, crew, &shelf, is_of_texts, &mut ends);
    push_run(page, run, &ends, plan.lines);
}

//! The rows before the first plant: the plants of the folder `examples`, checked and served from their files; the texts of refusals; and the
//! laws, which do nothing when they are called.

use crate::answers::push_page;
use crate::crews::Crews;
use crate::laws::call_laws;
use crate::shown::push_texts;
use engine::{Alone, Crew, Done, Job, Start};
use serve_runs::{
    Deaf, Disk, Ends, PlantFiles, Reading, ServeFault, Writing, check_from, run_from,
};
use std::alloc::Global;
use std::fs;
use std::rt::Files;
use std::sync::Wait;
use std::thread::Threads;
use try_text::Page;

/// What there is to say of the plant of a plant file's path.
fn checked<R: Files + Threads + Sync>(
    rt: &R,
    alloc: Global,
    path: &str,
) -> Result<Vec<u8>, ServeFault> {
    let mut sink = Writing::new(Vec::new(alloc));
    let files = PlantFiles {
        folder: &Disk { files: rt },
        path,
    };
    check_from(rt, alloc, &files, &mut Deaf, &mut sink)?;
    Ok(sink.into_inner())
}

/// What the plant of a plant file's path is answered on the commands of a file.
fn served<R: Files + Threads + Wait + Sync, C: Crew<Job, Start, Done, R>>(
    rt: &R,
    alloc: Global,
    crew: &mut C,
    path: &str,
    commands: &str,
) -> Result<Vec<u8>, ServeFault>
    requires { C.asks }
{
    let Ok(file) = fs::open(rt, commands) else {
        return Err(ServeFault::Read);
    };
    let mut ends = Ends {
        feed: Reading::new(file),
        sink: Writing::new(Vec::new(alloc)),
        listener: Deaf,
    };
    let files = PlantFiles {
        folder: &Disk { files: rt },
        path,
    };
    run_from(rt, alloc, crew, &files, &mut ends)?;
    Ok(ends.sink.into_inner())
}

/// Adds what an example is answered: `check PLANT`, or `run PLANT COMMANDS`. A session whose commands can't be read has no answers but
/// `RUN READ`; the answers are kept in memory, so that a write fails only where memory was refused.
fn push_example<R: Files + Threads + Wait + Sync, C: Crew<Job, Start, Done, R>>(
    rt: &R,
    alloc: Global,
    crew: &mut C,
    page: &mut Page,
    words: &str,
)
    requires { C.asks }
{
    page.line(words);
    let (word, rest) = words.split_once(" ").unwrap_or((words, ""));
    let answers = match rest.split_once(" ") {
        Some((path, commands)) if word == "run" => served(rt, alloc, crew, path, commands),
        _ => checked(rt, alloc, rest),
    };
    match answers {
        Ok(answers) => page.add_bytes(answers.as_slice()),
        Err(ServeFault::Read) => page.line("RUN READ"),
        Err(_) => page.refuse(),
    }
}

/// Adds the answer to a line `example ..`, `texts` or `laws`; no other line has one.
fn push_row<R: Files + Threads + Wait + Sync, C: Crew<Job, Start, Done, R>>(
    rt: &R,
    alloc: Global,
    crew: &mut C,
    page: &mut Page,
    line: &str,
)
    requires { C.asks }
{
    match line {
        "laws" => call_laws(),
        "texts" => push_texts(alloc, page),
        _ => {
            if let Some(words) = line.strip_prefix("example ") {
                push_example(rt, alloc, crew, page, words);
            }
        }
    }
}

fn row<R: Files + Threads + Wait + Sync, C: Crew<Job, Start, Done, R>>(
    rt: &R,
    alloc: Global,
    crew: &mut C,
    line: &str,
) -> Page
    requires { C.asks }
{
    let mut page = Page::new(alloc);
    push_row(rt, alloc, crew, &mut page, line);
    page
}

/// Adds the answer to a line. Where memory is refused it is answered once more.
fn push_row_again<R: Files + Threads + Wait + Sync, C: Crew<Job, Start, Done, R>>(
    rt: &R,
    alloc: Global,
    crew: &mut C,
    text: &mut Page,
    line: &str,
)
    requires { C.asks }
{
    let page = row(rt, alloc, crew, line);
    if page.is_short() {
        return push_page(text, &row(rt, alloc, crew, line));
    }
    push_page(text, &page);
}

/// The answers to the lines `example ..`, `texts` and `laws` of a table.
fn examples<R: Files + Threads + Wait + Sync, C: Crew<Job, Start, Done, R>>(
    rt: &R,
    alloc: Global,
    crew: &mut C,
    table: &str,
) -> Page
    requires { C.asks }
{
    let mut text = Page::new(alloc);
    for line in table.lines() {
        push_row_again(rt, alloc, crew, &mut text, line);
    }
    text
}

/// Adds the answers to the lines `example ..`, `texts` and `laws` of a table, which each crew of workers answers once more.
pub fn push_examples_by_all<R: Files + Threads + Wait + Sync>(
    rt: &R,
    alloc: Global,
    crews: &mut Crews,
    page: &mut Page,
    table: &str,
) {
    let alone = examples(rt, alloc, &mut Alone, table);
    push_page(page, &alone);
    let two = examples(rt, alloc, &mut crews.two, table);
    crews.hold(page, &alone, "2", &two);
    let eight = examples(rt, alloc, &mut crews.eight, table);
    crews.hold(page, &alone, "8", &eight);
}

//! The lines of the table.

use crate::answers::push_page;
use crate::crews::Crews;
use crate::plants::{Asked, Plan, put_file, put_first};
use crate::scripts::{page_again, push_plan_by_all};
use std::alloc::Global;
use std::sync::Wait;
use std::thread::Threads;
use try_text::{File, Page, have_gap};

/// What the table has said so far.
#[derive(Drop)]
struct Rows<'a> {
    /// The files of the last plant.
    files: Vec<File>,
    /// Whether they go on.
    is_open: bool,
    /// What is to be done with the plant.
    asked: Asked,
    /// The sources that are handed in for it, where the table names them.
    handed: &'a str,
    /// Whether the plant is to be run.
    is_run: bool,
    /// The text in the gap of its files.
    given: &'a str,
    /// The lines of its run so far.
    script: Page,
    /// What is printed.
    page: Page,
}

/// What a line asks to do with a plant, after its files.
fn asked_by(line: &str) -> Option<Asked> {
    match line {
        "run" => Some(Asked::Run),
        "run gone" => Some(Asked::RunGone),
        "list files" => Some(Asked::List),
        "check files" => Some(Asked::CheckFiles),
        "run files" => Some(Asked::RunFiles),
        "run texts" => Some(Asked::RunTexts),
        _ => None,
    }
}

/// The table before its first line.
fn new_table<'a>(alloc: Global) -> Rows<'a> {
    Rows {
        files: Vec::new(alloc),
        is_open: false,
        asked: Asked::Run,
        handed: "",
        is_run: false,
        given: "",
        script: Page::new(alloc),
        page: Page::new(alloc),
    }
}

impl<'a> Rows<'a> {
    /// Runs the plant, if it is to be run, on the lines of its run.
    fn flush<H: Threads + Wait + Sync>(&mut self, rt: &H, alloc: Global, crews: &mut Crews) {
        let plan = Plan {
            files: &self.files,
            handed: self.handed,
            given: self.given,
            asked: self.asked,
            lines: str::from_utf8(self.script.as_slice()).unwrap_or(""),
        };
        if self.script.is_short() {
            self.page.refuse();
        }
        match self.asked {
            _ if !self.is_run => {}
            Asked::RunGone => {
                let gone = page_again(rt, alloc, &mut crews.gone, &plan);
                push_page(&mut self.page, &gone);
            }
            _ => push_plan_by_all(rt, alloc, crews, &mut self.page, &plan),
        }
        self.is_run = false;
        self.script = Page::new(alloc);
    }

    fn plant(&mut self, alloc: Global, line: &str) {
        if !put_first(alloc, &mut self.files) {
            self.page.refuse();
        }
        self.is_open = true;
        self.asked = Asked::Run;
        self.handed = "";
        self.page.line(line);
    }

    /// Begins a run of the plant, with a text in the gap of its files.
    fn begin(&mut self, given: &'a str) {
        self.given = given;
        self.is_run = true;
    }

    /// Takes the end of the files, and what is to be done with the plant.
    fn end(&mut self, asked: Asked) {
        self.is_open = false;
        self.asked = asked;
        if !have_gap(&self.files) {
            self.begin("");
        }
    }

    /// Takes a line of a file.
    fn add_line(&mut self, line: &str) {
        if let Some(file) = self.files.last_mut() {
            if file.source.add(line).is_err() {
                self.page.refuse();
            }
        }
    }

    /// Takes a line of a plant's files, or their end.
    fn file_line(&mut self, alloc: Global, line: &'a str) {
        if let Some(asked) = asked_by(line) {
            return self.end(asked);
        }
        if let Some(words) = line.strip_prefix("check") {
            self.handed = words.trim_start();
            return self.end(Asked::Check);
        }
        match line.strip_prefix("file ") {
            Some(name) => {
                if !put_file(alloc, &mut self.files, name) {
                    self.page.refuse();
                }
            }
            None => self.add_line(line),
        }
    }

    fn take<H: Threads + Wait + Sync>(
        &mut self,
        rt: &H,
        alloc: Global,
        crews: &mut Crews,
        line: &'a str,
    ) {
        if self.is_open {
            return self.file_line(alloc, line);
        }
        if line.starts_with("plant ") {
            self.flush(rt, alloc, crews);
            return self.plant(alloc, line);
        }
        match line.strip_prefix("with ") {
            Some(given) => {
                self.flush(rt, alloc, crews);
                self.page.line(line);
                self.begin(given);
            }
            None => self.script.line(line),
        }
    }
}

/// Adds what a table is answered.
pub fn push_answers_to<H: Threads + Wait + Sync>(
    rt: &H,
    alloc: Global,
    crews: &mut Crews,
    page: &mut Page,
    lines: &str,
) {
    let mut table = new_table(alloc);
    for line in lines.lines() {
        table.take(rt, alloc, crews, line);
    }
    table.flush(rt, alloc, crews);
    push_page(page, &table.page);
}

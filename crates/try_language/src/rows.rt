//! The lines of the table.

use crate::judged::push_judged;
use crate::plants::push_told;
use crate::spelled::{Wanted, push_spelled};
use std::alloc::{AllocError, Global};
use std::thread::Threads;
use try_text::{File, Page, have_gap};

/// What is asked of a text, of the sources of a plant, or of a plant.
#[derive(Clone, Copy, Drop)]
enum Asked {
    /// What the text spells.
    Spelled(Wanted),
    /// Whether the sources are well formed.
    Judged,
    /// What a person is told of the plant.
    Told,
}

/// The words that end a text or the sources of a plant, and what each asks.
const WORDS: &[(&str, Asked)] = &[
    ("tokens", Asked::Spelled(Wanted::Tokens)),
    ("count", Asked::Spelled(Wanted::Count)),
    ("tree", Asked::Spelled(Wanted::Tree)),
    ("folded", Asked::Spelled(Wanted::Folded)),
    ("accepted", Asked::Spelled(Wanted::Accepted)),
    ("run", Asked::Judged),
];

/// What a line asks that ends a text or the sources of a plant.
fn asked_by(line: &str) -> Option<Asked> {
    for (word, asked) in WORDS {
        if *word == line {
            return Some(*asked);
        }
    }
    None
}

/// A text, or a plant.
#[derive(Drop)]
struct Case<'a> {
    /// The plant's name; of a text, its first line.
    name: &'a str,
    /// The plant's files or its sources; of a text, the one that it is.
    files: Vec<File>,
    /// What is asked of them.
    asked: Asked,
    /// How the plant is refused.
    refusal: &'a str,
}

impl Case<'_> {
    /// Adds a line, and the answer with a text in place of `..`: what a text spells on lines of its own, how sources are judged behind the line, and
    /// what is told of a plant on lines of its own with an empty one behind them.
    fn push<H: Threads + Sync>(
        &self,
        rt: &H,
        alloc: Global,
        page: &mut Page,
        line: &str,
        given: &str,
    ) {
        page.add(line);
        match self.asked {
            Asked::Spelled(wanted) => {
                page.add("\n");
                push_spelled(alloc, page, &self.files, wanted, given);
            }
            Asked::Judged => {
                page.add(" ");
                push_judged(alloc, page, &self.files, given);
                page.add("\n");
            }
            Asked::Told => {
                page.add("\n");
                push_told(rt, alloc, page, &self.files, (self.refusal, given));
                page.add("\n");
            }
        }
    }
}

/// What the table has said so far.
#[derive(Drop)]
struct Rows<'a> {
    /// The last text or plant.
    case: Case<'a>,
    /// Whether its lines go on.
    is_open: bool,
    /// Whether a person is told of plants.
    is_told: bool,
    /// What is printed.
    page: Page,
}

impl<'a> Rows<'a> {
    fn new(alloc: Global, is_told: bool) -> Rows<'a> {
        let case = Case {
            name: "",
            files: Vec::new(alloc),
            asked: Asked::Told,
            refusal: "",
        };
        Rows {
            case,
            is_open: false,
            is_told,
            page: Page::new(alloc),
        }
    }

    /// Begins a text or a plant.
    fn begin(&mut self, name: &'a str) {
        self.case.name = name;
        self.case.files.clear();
        self.is_open = true;
    }

    fn begin_file(&mut self, alloc: Global, name: &str) {
        match File::new(alloc, name) {
            Ok(file) => {
                if self.case.files.push(file).is_err() {
                    self.page.refuse();
                }
            }
            Err(_) => self.page.refuse(),
        }
    }

    /// Adds a line to the last file.
    fn add_line(&mut self, line: &str) {
        if let Some(file) = self.case.files.last_mut() {
            if file.source.add(line).is_err() {
                self.page.refuse();
            }
        }
    }

    /// Prints the name, and the answer where no line `..` is among the lines.
    fn print<H: Threads + Sync>(&mut self, rt: &H, alloc: Global) {
        if !have_gap(&self.case.files) {
            let name = self.case.name;
            return self.case.push(rt, alloc, &mut self.page, name, "");
        }
        if !self.is_told {
            self.page.line(self.case.name);
        }
    }

    /// Takes a line of a plant of which a person is told.
    fn plant_line(&mut self, alloc: Global, line: &str) {
        if line == "run" {
            self.is_open = false;
            return;
        }
        match line.strip_prefix("file ") {
            Some(name) => self.begin_file(alloc, name),
            None => self.add_line(line),
        }
    }

    /// Takes a line of a text or of a plant's sources.
    fn source_line<H: Threads + Sync>(&mut self, rt: &H, alloc: Global, line: &str) {
        if let Some(asked) = asked_by(line) {
            self.is_open = false;
            self.case.asked = asked;
            return self.print(rt, alloc);
        }
        match line.strip_prefix("source ") {
            Some(name) => self.begin_file(alloc, name),
            None => self.add_line(line),
        }
    }

    /// Takes how a plant is refused.
    fn refuse<H: Threads + Sync>(&mut self, rt: &H, alloc: Global, refusal: &'a str) {
        self.case.refusal = refusal;
        self.print(rt, alloc);
    }

    /// Takes a line after a text or a plant.
    fn next_line<H: Threads + Sync>(&mut self, rt: &H, alloc: Global, line: &'a str) {
        if let Some(given) = line.strip_prefix("with ") {
            return self.case.push(rt, alloc, &mut self.page, line, given);
        }
        if let Some(name) = line.strip_prefix("plant ") {
            return self.begin(name);
        }
        if let Some(refusal) = line.strip_prefix("as ") {
            return self.refuse(rt, alloc, refusal);
        }
        if line.starts_with("text ") {
            self.begin(line);
            self.begin_file(alloc, "");
        }
    }

    fn take<H: Threads + Sync>(&mut self, rt: &H, alloc: Global, line: &'a str) {
        match (self.is_open, self.is_told) {
            (true, true) => self.plant_line(alloc, line),
            (true, false) => self.source_line(rt, alloc, line),
            (false, _) => self.next_line(rt, alloc, line),
        }
    }
}

/// What a table is answered, of texts and sources, or of plants of which a person is told.
pub fn answers_of<H: Threads + Sync>(
    rt: &H,
    alloc: Global,
    lines: &str,
    is_told: bool,
) -> Result<Vec<u8>, AllocError> {
    let mut table = Rows::new(alloc, is_told);
    for line in lines.lines() {
        table.take(rt, alloc, line);
    }
    table.page.end()
}

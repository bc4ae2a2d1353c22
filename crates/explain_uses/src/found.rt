//! What was found in the sources of a plant.

use crate::comments::has_word;
use explain_tokens::{Cause, cause_at, part};
use explain_trees::filled;
use plant_types::Region;
use std::alloc::{AllocError, Global};
use std::str;

/// The most warnings that are told.
const MOST_WARNINGS: usize = 20;

/// Where variables are described.
const VARIABLES: &str = "docs/LANGUAGE.md, \"Variables\"";

/// Where alarms are described.
const ALARMS: &str = "docs/PLANT.md, \"alarms.csv\"";

/// What is done with what a source declares.
#[derive(Clone, Copy, Drop)]
pub struct Uses {
    pub is_read: bool,
    pub is_assigned: bool,
    /// Whether it is an instance that is called, or a block with an instance.
    pub is_called: bool,
    /// The first program that assigns it, by its number from 1, and the source and the byte at which it does.
    pub writer: Option<(usize, usize, usize)>,
    /// Whether it was told already that two programs assign it, or that nothing does.
    pub is_told: bool,
}

/// Where a name is declared: the number of the source, from 0, and the bytes of the name.
pub type Home = (usize, (usize, usize));

/// A global, and what is done with it.
#[derive(Clone, Copy, Drop)]
pub struct Shared {
    pub home: Home,
    pub region: Option<Region>,
    pub has_initial: bool,
    pub uses: Uses,
}

/// What is nearly surely a mistake: the number of its source, from 0, and none in the alarm database.
pub type Warning = (Option<usize>, Cause);

/// What was found so far in a plant. It holds nothing of the plant's trees.
#[derive(Drop)]
pub struct Found {
    alloc: Global,
    warnings: Vec<Warning>,
    /// Whether memory was refused.
    is_short: bool,
    /// What comments swallow.
    swallowed: Vec<u8>,
    /// The globals, arrays too, in order of text.
    pub globals: Vec<Shared>,
    /// The numbers of those that are variables, in order.
    pub variables: Vec<usize>,
    /// The blocks of which there is no instance.
    pub blocks: Vec<Home>,
}

/// What is nearly surely wrong with a global; empty where nothing is.
fn global_doubt(global: &Shared) -> &'static str {
    let uses = global.uses;
    let is_idle = !uses.is_assigned && !global.has_initial && !uses.is_told;
    match global.region {
        Some(Region::Input) if !uses.is_read => "nothing reads the input @",
        Some(Region::Output) if is_idle => "nothing assigns the output @",
        Some(Region::Input | Region::Output) => "",
        _ if !uses.is_read => "nothing reads the global @",
        _ if is_idle => "nothing assigns the global @, which is read",
        _ => "",
    }
}

impl Found {
    /// Nothing.
    pub fn new(alloc: Global) -> Found {
        Found {
            alloc,
            warnings: Vec::new(alloc),
            is_short: false,
            swallowed: Vec::new(alloc),
            globals: Vec::new(alloc),
            variables: Vec::new(alloc),
            blocks: Vec::new(alloc),
        }
    }

    /// What was allocated; where memory was refused, that is noted.
    pub fn got<T: Drop, E: Drop>(&mut self, outcome: Result<T, E>) -> Option<T> {
        self.is_short = self.is_short || outcome.is_err();
        outcome.ok()
    }

    /// Whether no more warnings would be told.
    pub fn is_full(&self) -> bool {
        self.is_short || self.warnings.len() >= MOST_WARNINGS
    }

    /// Notes what a comment swallows: of the names in it nothing more is told.
    pub fn note_swallowed(&mut self, bytes: &[u8]) {
        let noted = self.swallowed.extend_from_slice(bytes);
        self.got(noted);
    }

    /// Keeps a warning at bytes of a source, or of the alarm database, where it is told: a text that `filled` fills.
    pub fn warn_in(
        &mut self,
        source: Option<usize>,
        mark: (usize, usize),
        text: &str,
        (told, words): (&str, &[&str]),
    ) {
        if self.is_full() || has_word(self.swallowed.as_slice(), told.as_bytes()) {
            return;
        }
        let said = filled(self.alloc, &["warning: ", text], told, words);
        if let Some(said) = self.got(said) {
            let page = source.map_or(ALARMS, |_| VARIABLES);
            let pushed = self.warnings.push((source, cause_at(mark, said, page)));
            self.got(pushed);
        }
    }

    /// The global variable of a number, from 0 in order of text, arrays aside; `None` if there is none.
    fn variable(&mut self, number: u32) -> Option<&mut Shared> {
        let global = self.variables.get(number as usize).copied()?;
        self.globals.get_mut(global)
    }

    /// Notes that the global variable of a number is read.
    pub fn note_read(&mut self, number: u32) {
        if let Some(global) = self.variable(number) {
            global.uses.is_read = true;
        }
    }

    /// Notes that the condition of an alarm, by the number of its global variable, is read; returns whether nothing assigns it and it is no input, which isn't
    /// told again.
    pub fn is_idle_condition(&mut self, number: u32) -> bool {
        let Some(global) = self.variable(number) else {
            return false;
        };
        let is_idle = !global.uses.is_assigned && global.region != Some(Region::Input);
        global.uses.is_read = true;
        global.uses.is_told = global.uses.is_told || is_idle;
        is_idle
    }

    /// Tells of a name at its declaration, in a text.
    fn doubt(&mut self, sources: &[(&str, &[u8])], (source, mark): Home, text: &str) {
        if !text.is_empty() {
            let name = sources
                .get(source)
                .map_or(b"".as_slice(), |source| part(source.1, mark.0, mark.1));
            let name = str::from_utf8(name).unwrap_or("");
            self.warn_in(Some(source), mark, text, (name, &[]));
        }
    }

    /// Tells of globals that nothing reads or assigns, and of blocks of which there is no instance, and returns all warnings, in the order in which they were
    /// found.
    pub fn end(mut self, sources: &[(&str, &[u8])]) -> Result<Vec<Warning>, AllocError> {
        for number in 0..self.globals.len() {
            if let Some(global) = self.globals.get(number).copied() {
                self.doubt(sources, global.home, global_doubt(&global));
            }
        }
        for number in 0..self.blocks.len() {
            if let Some(home) = self.blocks.get(number).copied() {
                self.doubt(sources, home, "nothing uses the block @");
            }
        }
        let Found {
            warnings,
            is_short,
            ..
        } = self;
        if is_short {
            Err(AllocError)
        } else {
            Ok(warnings)
        }
    }
}

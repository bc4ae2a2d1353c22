//! How often names are used in a plant, and as what.

use crate::slips::MOST_NAMES;
use explain_tokens::{opens_section, part, sign_at, sign_before, sign_of, word_at};
use explain_trees::{Form, Source, Step, Trees, steps_of};
use plant_types::{Text, same_word};
use st_lexer::TokenKind;
use st_parser::{Pou, Unit};
use st_tree::Argument;
use std::alloc::{AllocError, Global};

/// So many names are counted at once: one that isn't there, and those that may be meant by it.
const MOST_COUNTED: usize = MOST_NAMES + 1;

/// The calls of so many instances of a block are looked at.
const MOST_INSTANCES: usize = 8;

/// How often a name is used in the bodies of a unit, and in those of others that don't declare it.
#[derive(Clone, Copy, Drop)]
pub struct Count {
    pub here: usize,
    pub elsewhere: usize,
    /// Whether the unit declares it that is read.
    is_declared: bool,
}

impl Count {
    /// In all bodies.
    pub fn all(&self) -> usize {
        self.here.saturating_add(self.elsewhere)
    }
}

/// Not once.
pub const NEVER: Count = Count {
    here: 0,
    elsewhere: 0,
    is_declared: false,
};

/// Names that are counted in the bodies of units.
#[derive(Drop)]
pub struct Uses<'w> {
    words: &'w [&'w str],
    counts: [Count; MOST_COUNTED],
    /// The unit that is here.
    unit: &'w str,
    is_here: bool,
    is_section: bool,
}

/// Whether the token of a number is an output behind a point, or names an argument of a call.
fn is_member(source: &Source<'_>, number: usize) -> bool {
    let tokens = source.tokens.as_slice();
    match sign_before(tokens, number, 1) {
        "." => true,
        "(" | "," => matches!(sign_at(tokens, number.saturating_add(1)), ":=" | "=>"),
        _ => false,
    }
}

impl<'w> Uses<'w> {
    /// Counts names, of which no more are taken than are counted at once; of all sources.
    pub fn of(plant: &Trees<'_>, unit: &'w str, words: &'w [&'w str]) -> Uses<'w> {
        let mut uses = Uses {
            words,
            counts: [NEVER; MOST_COUNTED],
            unit,
            is_here: false,
            is_section: false,
        };
        for source in plant.sources {
            uses.add_source(source);
        }
        uses
    }

    /// Counts the names in a source.
    fn add_source(&mut self, source: &Source<'_>) {
        for (number, token) in source.tokens.iter().enumerate() {
            match token.kind {
                TokenKind::Word => {
                    let bytes = part(source.text, token.from, token.until);
                    self.word(source, number, bytes);
                }
                TokenKind::Keyword(_) => self.keyword(source, number, sign_of(token.kind)),
                _ => {}
            }
        }
    }

    /// Goes past a keyword: a unit or a section begins or ends.
    fn keyword(&mut self, source: &Source<'_>, number: usize, sign: &str) {
        match sign {
            "PROGRAM" | "FUNCTION_BLOCK" => {
                let next = number.saturating_add(1);
                let name = word_at(source.text, source.tokens.as_slice(), next);
                self.is_here = same_word(name.as_bytes(), self.unit.as_bytes());
                for count in self.counts.as_mut_slice() {
                    count.is_declared = false;
                }
            }
            "END_VAR" => self.is_section = false,
            _ if opens_section(sign) => self.is_section = true,
            _ => {}
        }
    }

    /// Counts a word, where it is one of the names.
    fn word(&mut self, source: &Source<'_>, number: usize, bytes: &[u8]) {
        let mut words = self.words.iter();
        let Some(place) = words.position(|word| same_word(word.as_bytes(), bytes)) else {
            return;
        };
        let (is_section, is_here) = (self.is_section, self.is_here);
        let is_use = !is_section && !is_member(source, number);
        let Some(count) = self.counts.get_mut(place) else {
            return;
        };
        count.is_declared = count.is_declared || is_section;
        if is_use && is_here {
            count.here = count.here.saturating_add(1);
        } else if is_use && !count.is_declared {
            count.elsewhere = count.elsewhere.saturating_add(1);
        }
    }

    /// How often the name of a number is used.
    pub fn count(&self, number: usize) -> Count {
        self.counts.get(number).copied().unwrap_or(NEVER)
    }
}

/// Whether a name stands in an alarm database as a condition or a suppression.
pub fn is_in_table(table: &[u8], name: &str) -> bool {
    for line in table.split(|byte| *byte == b'\n') {
        let fields = line.split(|byte| *byte == b',');
        let mut names = fields.skip(3).take(2);
        if names.any(|field| same_word(field.trim_ascii(), name.as_bytes())) {
            return true;
        }
    }
    false
}

/// Whether a call gives an argument of a name, or takes one.
#[derive(Clone, Copy, PartialEq, Eq, Drop)]
pub enum Given {
    Not,
    Input,
    Output,
}

/// How the arguments of a call name a word.
fn given_in(arguments: &[Argument<Text>], name: &str) -> Given {
    for argument in arguments {
        match argument {
            Argument::Input(word, _) if is_word(word, name) => return Given::Input,
            Argument::Output(word, _) if is_word(word, name) => return Given::Output,
            _ => {}
        }
    }
    Given::Not
}

/// How the calls of an instance in a unit name a word as an argument.
fn given_to(alloc: Global, pou: &Pou, instance: &Text, name: &str) -> Result<Given, AllocError> {
    for step in &steps_of(alloc, &pou.body)? {
        if let Step::Call(called, arguments) = step {
            if same_word(called.as_bytes(), instance.as_bytes()) {
                let given = given_in(arguments, name);
                if given != Given::Not {
                    return Ok(given);
                }
            }
        }
    }
    Ok(Given::Not)
}

/// How calls of the instances of a block name a word as an argument: of the first instances, in order of text.
pub fn given_by_calls(plant: &Trees<'_>, block: &str, name: &str) -> Result<Given, AllocError> {
    let mut unit = None;
    let mut instances = 0usize;
    for entry in &plant.entries {
        match &entry.form {
            Form::Block(pou) | Form::Program(pou) => unit = Some(*pou),
            Form::Declared(_) => {
                let is_instance = entry
                    .block()
                    .is_some_and(|word| { same_word(word.as_bytes(), block.as_bytes()) });
                if let (Some(pou), true) = (unit, is_instance && instances < MOST_INSTANCES) {
                    instances = instances.saturating_add(1);
                    let given = given_to(plant.alloc, pou, entry.name, name)?;
                    if given != Given::Not {
                        return Ok(given);
                    }
                }
            }
        }
    }
    Ok(Given::Not)
}

/// Whether a name is that of an instance of a block.
fn is_instance_of(plant: &Trees<'_>, name: &str, block: &str) -> bool {
    let mut entries = plant.entries.iter();
    entries.any(|entry| {
        let word = entry.block();
        let is_of = word.is_some_and(|word| same_word(word.as_bytes(), block.as_bytes()));
        is_of && entry.is_called(name)
    })
}

/// Whether a source reads an output of a name from an instance of a block.
fn reads_output(plant: &Trees<'_>, source: &Source<'_>, block: &str, name: &str) -> bool {
    let tokens = source.tokens.as_slice();
    for number in 2..tokens.len() {
        let word = word_at(source.text, tokens, number);
        let is_behind = sign_before(tokens, number, 1) == ".";
        if is_behind && same_word(word.as_bytes(), name.as_bytes()) {
            let instance = word_at(source.text, tokens, number.saturating_sub(2));
            if is_instance_of(plant, instance, block) {
                return true;
            }
        }
    }
    false
}

/// Whether a body reads an output of a name from an instance of a block.
pub fn is_read(plant: &Trees<'_>, block: &str, name: &str) -> bool {
    let mut sources = plant.sources.iter();
    sources.any(|source| reads_output(plant, source, block, name))
}

/// Whether a word is a name.
fn is_word(word: &Text, name: &str) -> bool {
    same_word(word.as_bytes(), name.as_bytes())
}

/// Whether a step of a body assigns a variable of a name.
fn assigns(step: &Step<'_>, name: &str) -> bool {
    match step {
        Step::Assign(target, _) => is_word(*target, name),
        Step::Call(_, arguments) => {
            let mut arguments = arguments.iter();
            arguments.any(|argument| match argument {
                Argument::Output(_, variable) => is_word(variable, name),
                Argument::Input(_, _) => false,
            })
        }
        _ => false,
    }
}

/// Whether a step of a body assigns a variable of a name or an element of it, controls a FOR by it or calls an instance of it.
fn changes(step: &Step<'_>, name: &str) -> bool {
    match step {
        Step::Store(word, _, _) => is_word(*word, name),
        Step::Call(word, _) if is_word(*word, name) => true,
        Step::For(word, _, _, _) => is_word(*word, name),
        _ => assigns(step, name),
    }
}

/// Whether a body of units assigns a variable of a name.
pub fn is_assigned(alloc: Global, units: &[Unit], name: &str) -> Result<bool, AllocError> {
    for unit in units {
        for pou in &unit.pous {
            let steps = steps_of(alloc, &pou.body)?;
            if steps.iter().any(|step| assigns(step, name)) {
                return Ok(true);
            }
        }
    }
    Ok(false)
}

/// Whether the body of a unit assigns a variable of a name, controls a FOR by it or calls an instance of it: then the unit has it for itself, or all have it.
pub fn is_changed(plant: &Trees<'_>, owner: &str, name: &str) -> Result<bool, AllocError> {
    for unit in plant.units {
        for pou in &unit.pous {
            if is_word(&pou.name, owner) {
                let steps = steps_of(plant.alloc, &pou.body)?;
                if steps.iter().any(|step| changes(step, name)) {
                    return Ok(true);
                }
            }
        }
    }
    Ok(false)
}

//! Declarations are gone through, and what is done with each is told of, or kept.

use crate::found::{Shared, Uses};
use crate::looking::Looking;
use crate::places::address_behind;
use base_words::Names;
use explain_tokens::part;
use explain_trees::{DeclaredName, Form, mark_of, steps_of};
use plant_types::{Region, Text};
use st_names::{Declared, declared_in};
use st_parser::{Pou, PouKind, SectionKind, Sort, Unit};
use std::str;

/// What is nearly surely wrong with what a unit declares itself; empty where nothing is.
fn own_doubt(declared: &Declared<'_>, uses: Uses) -> &'static str {
    let is_idle = !uses.is_assigned && declared.initial().is_none();
    match (declared.sort(), declared.section()) {
        (Sort::Block(_), _) if uses.is_called => "",
        (Sort::Block(_), _) if uses.is_read => {
            "nothing calls the instance @, whose outputs are read"
        }
        (_, SectionKind::Local | SectionKind::Input) if !uses.is_read => {
            "nothing reads the variable @"
        }
        (_, SectionKind::Local) if is_idle => { "nothing assigns the variable @, which is read" }
        (_, SectionKind::Output) if is_idle => "nothing assigns the output @",
        _ => "",
    }
}

impl<'p> Looking<'p> {
    /// The number of the entry of a name that all sources share; `None` if there is none.
    fn find_shared(&self, name: &Text) -> Option<usize> {
        let number = self.shared.find(name.as_str())?;
        self.numbers.get(number).copied()
    }

    /// Lists the names that all sources share.
    pub fn share(&mut self) {
        let entries = self.entries;
        for (number, entry) in entries.iter().enumerate() {
            if entry.owner.is_empty() {
                let added = self.shared.add(self.alloc, entry.name.as_str());
                if self.got(added) == Some(true) {
                    let pushed = self.numbers.push(number);
                    self.got(pushed);
                }
            }
        }
    }

    /// Takes the address of a global, and tells where another one has it.
    fn address(&mut self, name: &'p Text) {
        let mark = address_behind(self.text, mark_of(name).1);
        let word = str::from_utf8(part(self.text, mark.0, mark.1)).unwrap_or("");
        if word.contains('*') {
            return;
        }
        let added = self.addresses.add(self.alloc, word);
        if self.got(added) == Some(true) {
            let pushed = self.holders.push(name.as_str());
            self.got(pushed);
        } else if let Some(first) = self.addresses.find(word) {
            let holder = self.holders.get(first).copied().unwrap_or("");
            self.warn(mark, "@ has the address % too", (holder, &[word]));
        }
    }

    /// Takes a name that a unit declares itself, and tells where it hides a global.
    fn own(&mut self, declared: &Declared<'p>) {
        let name = declared.name();
        let added = self.own.add(self.alloc, name.as_str());
        self.got(added);
        if let Sort::Block(word) = declared.sort() {
            let block = self.find_shared(word).unwrap_or(self.uses.len());
            if let Some(uses) = self.uses.get_mut(block) {
                uses.is_called = true;
            }
        }
        let shared = self.find_shared(name).unwrap_or(self.entries.len());
        let is_global = self
            .entries
            .get(shared)
            .is_some_and(|entry| entry.is_global(None));
        if is_global && !matches!(declared.section(), SectionKind::External) {
            let text = "the global of this name is hidden by @";
            self.warn(mark_of(name), text, (name.as_str(), &[]));
        }
    }

    /// Takes what a unit declares itself.
    fn declarations(&mut self) {
        let entries = self.entries.get(self.first..).unwrap_or(&[]);
        for entry in entries {
            match &entry.form {
                Form::Declared(declared) if !entry.owner.is_empty() => self.own(declared),
                _ => return,
            }
        }
    }

    /// Tells of what a unit declares itself.
    fn end_unit(&mut self) {
        let entries = self.entries;
        for number in self.first..self.first.saturating_add(self.own.len()) {
            let uses = self.uses.get(number).copied();
            if let (Some(entry), Some(uses)) = (entries.get(number), uses) {
                if let Form::Declared(declared) = &entry.form {
                    let text = own_doubt(declared, uses);
                    if !text.is_empty() {
                        self.warn(mark_of(entry.name), text, (entry.name.as_str(), &[]));
                    }
                }
            }
        }
        self.own = Names::new(self.alloc);
    }

    /// Goes through a block or a program.
    fn pou(&mut self, pou: &'p Pou) {
        let entry = self.find_shared(&pou.name).unwrap_or(self.entries.len());
        self.first = entry.saturating_add(1);
        self.program = 0;
        if matches!(pou.kind, PouKind::Program) {
            self.programs = self.programs.saturating_add(1);
            self.program = self.programs;
        }
        self.declarations();
        self.pass(&pou.name);
        let steps = steps_of(self.alloc, &pou.body);
        if let Some(steps) = self.got(steps) {
            for step in steps {
                self.step(step);
            }
        }
        self.end_unit();
    }

    /// Goes through the unit of a source.
    pub fn unit(&mut self, unit: &'p Unit) {
        let globals = declared_in(self.alloc, &unit.globals);
        if let Some(globals) = self.got(globals) {
            for global in &globals {
                if let Some(Region::Input | Region::Output) = global.region() {
                    self.address(global.name());
                }
            }
        }
        for pou in &unit.pous {
            if self.found.is_full() {
                return;
            }
            self.pou(pou);
        }
    }

    /// Keeps a global, by the number of its entry.
    fn keep_global(&mut self, entry: &DeclaredName<'_>, declared: &Declared<'_>, uses: Uses) {
        if let Sort::Kind(_) = declared.sort() {
            let number = self.found.globals.len();
            let pushed = self.found.variables.push(number);
            self.got(pushed);
        }
        let pushed = self.found.globals.push(Shared {
            home: (entry.source, mark_of(entry.name)),
            region: declared.region(),
            has_initial: declared.initial().is_some(),
            uses,
        });
        self.got(pushed);
    }

    /// Keeps what is done with globals, and the blocks of which there is no instance.
    pub fn keep(&mut self) {
        let entries = self.entries;
        for (number, entry) in entries.iter().enumerate() {
            let Some(uses) = self.uses.get(number).copied() else {
                return;
            };
            match &entry.form {
                Form::Declared(declared) if entry.owner.is_empty() => {
                    self.keep_global(entry, declared, uses);
                }
                Form::Block(_) if !uses.is_called => {
                    let home = (entry.source, mark_of(entry.name));
                    let pushed = self.found.blocks.push(home);
                    self.got(pushed);
                }
                _ => {}
            }
        }
    }
}

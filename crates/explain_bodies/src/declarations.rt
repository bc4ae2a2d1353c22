//! Declarations are walked.

use crate::teller::{CIRCLES, KINDS, NAMES, Teller, VARIABLES, alone};
use explain_names::{nearest_global, type_hint};
use explain_trees::{BrokenRule, Cursor, kind_text, leads_back};
use plant_types::{Text, same_word};
use st_names::{Scope, sort_kind};
use st_parser::{Declaration, Section, SectionKind, Sort};

impl<'t> Teller<'t> {
    /// Tells of a name at the token of a number that is there already, by the other one in a source.
    fn tell_taken(&mut self, number: usize, source: usize, other: &Text) {
        if let (Some(source), true) = (self.plant.sources.get(source), self.takes(NAMES)) {
            let line = Cursor::line_of(source.text, other.at() as usize).to_string(self.alloc);
            let line = self.made(line);
            let words = [other.as_str(), line.as_str(), source.name];
            let text = "the name @ is there already: '%' stands in line % of %";
            self.say(NAMES, alone(number), text, &words);
        }
    }

    /// Tells of a name of all sources, at the token of a number, that is taken: by a block that is there from the start, or by an earlier declaration.
    pub fn shared_name(&mut self, name: &Text, number: usize) {
        if self.plant.is_standard(name) {
            return self.say_at(NAMES, number, "is a block that is there from the start");
        }
        match self.plant.find(name) {
            Some(first) if first.source != self.source || first.name.at() != name.at() => {
                self.tell_taken(number, first.source, first.name);
            }
            _ => {}
        }
    }

    /// Tells of a name of a unit's own that it declares a second time, or of a VAR_EXTERNAL whose global isn't there or is of another kind.
    fn own_name(&mut self, name: &'t Text, number: usize, section: SectionKind, sort: &Sort) {
        let first = self.body.scope.find(name).map(|first| first.name());
        match (first, section) {
            (Some(first), _) if first.at() != name.at() => {
                self.tell_taken(number, self.source, first);
            }
            (_, SectionKind::External) => self.external(name, number, sort),
            _ => {}
        }
    }

    /// Tells of a VAR_EXTERNAL whose global isn't there or is of another kind.
    fn external(&mut self, name: &'t Text, number: usize, sort: &Sort) {
        let is_global = self.body.scope.is_global(name);
        if self.plant.doubts(name) || !is_global && self.plant.unknown.globals {
            return;
        }
        if !is_global {
            let entries = self.plant.entries.as_slice();
            let (more, words) = nearest_global(entries, name.as_str());
            let texts = ["no global is called @, which VAR_EXTERNAL names", more];
            self.tell(NAMES, alone(number), texts, &words);
            return;
        }
        let Some(global) = self.plant.find(name).and_then(|entry| entry.sort()) else {
            return;
        };
        let (Some(kind), Some(found)) = (sort_kind(global), sort_kind(sort)) else {
            return self.external_array(number, global, sort);
        };
        if found != kind {
            let text = "@ is a global of the kind %, and here it is a %";
            let words = [kind_text(kind), kind_text(found)];
            self.say(KINDS, alone(number), text, &words);
        }
    }

    /// Tells of a word in the place of a block or a kind that names neither.
    fn tell_no_type(&mut self, word: &'t Text, number: usize) {
        if self.plant.doubts(word) || self.plant.unknown.blocks || !self.takes(NAMES) {
            return;
        }
        let hint = type_hint(self.plant, word.as_str());
        let text = "no block is called @, and the kinds are BOOL, DINT and TIME";
        self.tell(NAMES, alone(number), [text, hint.0], &hint.1);
    }

    /// Tells of the block of instances that isn't there, that can't stand in its section, or that leads back to the block that declares them.
    fn block_of(&mut self, word: &'t Text, section: SectionKind, has_value: bool) {
        let number = self.cursor.pass_name(word);
        if !self.plant.shared.is_block_type(word) {
            self.tell_no_type(word, number);
        } else if !matches!(section, SectionKind::Local) {
            let why = "is a block, and its instances stand in VAR of a program or a block alone";
            self.say_at(KINDS, number, why);
        } else if has_value {
            let why = "is a block, and its instances have no initial value";
            self.say_at(KINDS, number, why);
        } else {
            self.circle(word, number);
        }
    }

    /// Tells of a block whose instances lead back to the block that declares one.
    fn circle(&mut self, word: &'t Text, number: usize) {
        let (name, block) = (self.body.name, word.as_str());
        let is_sought = self.told.refused == Some(BrokenRule::Blocks) || self.blocks_left > 0;
        if !is_sought || !self.is_block || !self.takes(CIRCLES) {
            return;
        }
        let leads = leads_back(self.plant, word, name);
        let (is_circle, blocks) = self.told.got(leads).unwrap_or((false, 0));
        self.blocks_left = self.blocks_left.saturating_sub(blocks);
        if !is_circle {
            return;
        }
        let text = if same_word(name.as_bytes(), block.as_bytes()) {
            "block % holds an instance of itself"
        } else {
            "block % holds an instance of %, whose instances lead back to %"
        };
        self.say(CIRCLES, alone(number), text, &[name, block, name]);
    }

    /// Walks a declaration: its names, what they are declared as, and their initial value.
    fn declaration(&mut self, section: SectionKind, declaration: &'t Declaration) {
        for name in &declaration.names {
            let number = self.cursor.pass_name(name);
            if matches!(section, SectionKind::Global) {
                self.shared_name(name, number);
            } else {
                self.own_name(name, number, section, &declaration.sort);
            }
        }
        match &declaration.sort {
            Sort::Kind(_) => {}
            Sort::Block(word) => self.block_of(word, section, declaration.initial.is_some()),
            Sort::Array(bounds, _) => self.array_of(section, *bounds),
        }
        let Some(initial) = &declaration.initial else {
            return;
        };
        let kind = sort_kind(&declaration.sort);
        let part = self.value(initial, kind, declaration.names.first());
        if let Sort::Array(_, kind) = &declaration.sort {
            self.tell_array_value(*kind, &part);
        } else if matches!(section, SectionKind::External) {
            let text = "a VAR_EXTERNAL has no initial value: its global has one";
            self.say(KINDS, part.tokens, text, &[]);
        } else if kind.is_some() {
            let why = "is a variable, and an initial value is constant";
            self.constant(&part, VARIABLES, why);
        }
    }

    /// Walks declarations.
    pub fn sections(&mut self, sections: &'t [Section]) {
        for section in sections {
            for declaration in &section.declarations {
                self.declaration(section.kind, declaration);
            }
        }
    }
}

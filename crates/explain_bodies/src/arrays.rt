//! Arrays are told of: their declarations, their elements, and their names where no index stands behind them.

use crate::part::Operand;
use crate::teller::{ARRAYS, BOUNDS, Teller, alone};
use explain_names::Wanted;
use explain_trees::{Sought, kind_text};
use plant_types::{Bounds, Kind, Text};
use st_names::Scope;
use st_parser::{SectionKind, Sort};
use st_tree::Expr;
use std::alloc::{AllocError, Global};

/// What variables or arrays are declared as; empty for instances.
fn sort_text(alloc: Global, sort: &Sort) -> Result<String, AllocError> {
    match sort {
        Sort::Kind(kind) => String::from_str(alloc, kind_text(*kind)),
        Sort::Array(bounds, kind) => {
            let (low, high, kind) = (bounds.low, bounds.high, kind_text(*kind));
            format!(in alloc; "ARRAY[{low}..{high}] OF {kind}")
        }
        Sort::Block(_) => Ok(String::new(alloc)),
    }
}

/// What an element is before one is assigned to it.
fn first_value(kind: Kind) -> &'static str {
    match kind {
        Kind::Bool => "FALSE",
        Kind::Dint => "0",
        Kind::Time => "T#0s",
    }
}

impl<'t> Teller<'t> {
    /// Tells of an array, at the token of a number, that is read or assigned without an index.
    pub fn tell_array(&mut self, name: &Text, number: usize) {
        if let Some((bounds, _)) = self.body.scope.array(name) {
            let low = self.made(bounds.low.to_string(self.alloc));
            let text = "@ is an array, and one of its elements is read or assigned as %[%]";
            let words = [self.cursor.word(number), low.as_str()];
            self.say(ARRAYS, alone(number), text, &words);
        }
    }

    /// Tells of an index that is no DINT, of the array of a name.
    fn tell_index(&mut self, name: &Text, index: &Operand) {
        match index.kind {
            None | Some(Kind::Dint) => {}
            Some(kind) => {
                let name = name.as_str();
                let kind = kind_text(kind);
                let text = format!(in self.alloc;
                    "the index of '{name}' is a {kind}, and an index is a DINT"
                );
                let text = self.made(text);
                self.say(ARRAYS, index.tokens, text.as_str(), &[]);
            }
        }
    }

    /// Walks an element of an array; tells where its name is that of no array.
    #[cycle(expressions)]
    pub fn element(&mut self, name: &'t Text, index: &'t Expr<Text>) -> Operand {
        let first = self.cursor.pass_name(name);
        let is_known = self.is_known(name, first, Wanted::Array);
        let index = self.expr(index, Wanted::Of(Kind::Dint));
        let behind = self.cursor.pass(Sought::CloseBracket).saturating_add(1);
        let mut part = Operand::varies((first, behind));
        if is_known {
            if let Some((_, kind)) = self.body.scope.array(name) {
                part.kind = Some(kind);
                self.tell_index(name, &index);
            } else {
                self.say_at(ARRAYS, first, "is no array, and has no elements");
            }
        }
        part
    }

    /// Walks the bounds of arrays that are declared in a section, and tells where they can't stand there, or the low bound is above the high one.
    pub fn array_of(&mut self, section: SectionKind, bounds: Bounds) {
        let low = self.cursor.pass_label();
        let first = self.cursor.first_of(low, bounds.low < 0);
        if matches!(section, SectionKind::Input | SectionKind::Output) {
            let text = "an array stands in VAR, VAR_GLOBAL or VAR_EXTERNAL alone";
            return self.say(ARRAYS, alone(first.saturating_sub(2)), text, &[]);
        }
        if bounds.low > bounds.high {
            let high = if bounds.high < 0 { 4 } else { 3 };
            let low_bound = self.made(bounds.low.to_string(self.alloc));
            let high_bound = self.made(bounds.high.to_string(self.alloc));
            let text = "the low bound % is above the high bound %";
            let words = [low_bound.as_str(), high_bound.as_str()];
            self.say(BOUNDS, (first, low.saturating_add(high)), text, &words);
        }
    }

    /// Tells of the initial value of arrays of elements of a kind.
    pub fn tell_array_value(&mut self, kind: Kind, initial: &Operand) {
        let text = "an array has no initial value: its elements begin with %";
        self.say(ARRAYS, initial.tokens, text, &[first_value(kind)]);
    }

    /// Tells of a name of VAR_EXTERNAL, at the token of a number, whose global is declared as something else, where one of both is an array.
    pub fn external_array(&mut self, number: usize, global: &Sort, sort: &Sort) {
        let global = self.made(sort_text(self.alloc, global));
        let here = self.made(sort_text(self.alloc, sort));
        let words = [global.as_str(), here.as_str()];
        if global.as_str() != here.as_str() && !global.is_empty() && !here.is_empty() {
            let text = "the global @ is declared as %, and here as %";
            self.say(ARRAYS, alone(number), text, &words);
        }
    }
}

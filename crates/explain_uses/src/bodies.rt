//! Statements are gone through.

use crate::looking::Looking;
use crate::places::Sought;
use explain_trees::{Cursor, Step, mark_of};
use plant_types::{Region, Text};
use st_parser::Sort;
use st_tree::{Argument, Binary, Choice, Expr, Label};

/// Of more labels of a CASE none is looked for a second time.
const MOST_LABELS: usize = 256;

/// Whether a label, of the choice of a number and so many behind its first, has a number of one before it in its CASE.
fn is_double(choices: &[Choice<Text>], place: (usize, usize), label: Label) -> bool {
    let mut left = MOST_LABELS;
    for (number, choice) in choices.iter().enumerate() {
        for (other, before) in choice.labels.iter().enumerate() {
            if left == 0 || (number, other) == place {
                return false;
            }
            if label.low <= before.high && before.low <= label.high {
                return true;
            }
            left = left.saturating_sub(1);
        }
    }
    false
}

impl<'p> Looking<'p> {
    /// Notes that a variable is assigned, and tells where a program assigns an output of the plant that another one does.
    fn assign(&mut self, name: &Text) {
        let Some(number) = self.find(name.as_str()) else {
            return;
        };
        let is_output = self.is_in(number, Region::Output);
        let (program, source) = (self.program, self.source);
        let Some(uses) = self.uses.get_mut(number) else {
            return;
        };
        uses.is_assigned = true;
        match uses.writer {
            None if program > 0 => uses.writer = Some((program, source, name.at() as usize)),
            Some((writer, source, at)) if program > 0 && writer != program => {
                if is_output && !uses.is_told {
                    uses.is_told = true;
                    self.warn_written(name, source, at);
                }
            }
            _ => {}
        }
    }

    /// Tells of an output that another program assigns too, at a byte of a source.
    fn warn_written(&mut self, name: &Text, source: usize, at: usize) {
        let Some(source) = self.sources.get(source) else {
            return;
        };
        let line = Cursor::line_of(source.1, at).to_string(self.alloc);
        if let Some(line) = self.got(line) {
            let text =
                "another program assigns the output @ too, in line % of %: the value of the program that runs last stays";
            let words = [line.as_str(), source.0];
            self.warn(mark_of(name), text, (name.as_str(), &words));
        }
    }

    /// Goes past the name of a variable that is read; returns the number of its entry.
    fn read(&mut self, name: &Text) -> usize {
        self.pass(name);
        let number = self.find(name.as_str()).unwrap_or(self.uses.len());
        if let Some(uses) = self.uses.get_mut(number) {
            uses.is_read = true;
        }
        number
    }

    /// Goes through the index of an element of the array of an entry, and tells of an index that is a literal outside of the bounds of the array.
    #[cycle(expressions)]
    fn element(&mut self, array: usize, name: &Text, index: &Expr<Text>) {
        let sort = self.entries.get(array).and_then(|entry| entry.sort());
        if let (Some(Sort::Array(bounds, _)), Expr::Literal(literal)) = (sort, index) {
            let (at, low, high, word) = (literal.worth(), bounds.low, bounds.high, name.as_str());
            if !bounds.has_index(at) {
                let said = format!(in self.alloc;
                    "{word}[{at}] is outside {low}..{high}, and traps here"
                );
                if let Some(said) = self.got(said) {
                    self.warn(mark_of(name), "%", ("", &[said.as_str()]));
                }
            }
        }
        self.expr(index);
    }

    /// Goes through an expression, and tells where it divides by a literal 0.
    #[cycle(expressions)]
    fn expr(&mut self, expr: &Expr<Text>) {
        match expr {
            Expr::Literal(_) => self.passed.literals = self.passed.literals.saturating_add(1),
            Expr::Read(name) | Expr::Output(name, _) => {
                self.read(name);
            }
            Expr::Element(name, _, index) => {
                let array = self.read(name);
                self.element(array, name, index);
            }
            Expr::Unary(_, a) => self.expr(a),
            Expr::Binary(op, a, b) => {
                self.expr(a);
                if matches!(op, Binary::Divide | Binary::Mod) {
                    self.division(b);
                }
                self.expr(b);
            }
        }
    }

    /// Goes past an operator that divides, and tells where it does by a literal 0.
    fn division(&mut self, divisor: &Expr<Text>) {
        let number = self.passed.divisions;
        self.passed.divisions = number.saturating_add(1);
        if let Expr::Literal(literal) = divisor {
            if literal.worth() == 0 {
                let text =
                    "nothing is divided by 0: this stops the program in each scan that comes here";
                self.warn_behind(Sought::Division, number, text);
            }
        }
    }

    /// Goes through an argument of a call.
    fn argument(&mut self, argument: &Argument<Text>) {
        match argument {
            Argument::Input(name, expr) => {
                self.pass(name);
                self.expr(expr);
            }
            Argument::Output(_, name) => {
                self.pass(name);
                self.assign(name);
            }
        }
    }

    /// Goes through the labels of the choice of a number of a CASE.
    fn labels(&mut self, choices: &[Choice<Text>], number: usize) {
        let Some(choice) = choices.get(number) else {
            return;
        };
        for (before, label) in choice.labels.iter().enumerate() {
            let literal = self.passed.literals;
            self.passed.literals = literal.saturating_add(1);
            if is_double(choices, (number, before), *label) {
                let text =
                    "a label with this number stands before in this CASE, and what stands there runs";
                self.warn_behind(Sought::Literal, literal, text);
            }
        }
    }

    /// Goes through a step of a body.
    pub fn step(&mut self, step: Step<'_>) {
        match step {
            Step::Assign(name, expr) => {
                self.pass(name);
                self.assign(name);
                self.expr(expr);
            }
            Step::Store(array, index, value) => {
                self.pass(array);
                self.assign(array);
                let number = self.find(array.as_str()).unwrap_or(self.uses.len());
                self.element(number, array, index);
                self.expr(value);
            }
            Step::Call(instance, arguments) => {
                self.pass(instance);
                if let Some(uses) = self.uses_of(instance.as_str()) {
                    uses.is_called = true;
                }
                for argument in arguments {
                    self.argument(argument);
                }
            }
            Step::Value(expr, _) => self.expr(expr),
            Step::Labels(choices, number) => self.labels(choices, number),
            Step::For(variable, from, to, by) => {
                let number = self.read(variable);
                if let Some(uses) = self.uses.get_mut(number) {
                    uses.is_assigned = true;
                }
                self.expr(from);
                self.expr(to);
                if let Some(by) = by {
                    self.expr(by);
                }
            }
            Step::EndFor => {}
        }
    }
}

//! Statements and calls are walked; what isn't constant, and what controls a FOR (C9).

use crate::expressions::kind_by_words;
use crate::part::{Operand, Worth};
use crate::teller::{Breach, KINDS, MEMBERS, STATEMENTS, Teller, alone};
use base_words::Names;
use explain_names::{Behind, Member, Wanted};
use explain_trees::{Step, kind_text};
use plant_types::{Kind, Text, Trap, same_word};
use st_names::Scope;
use st_parser::SectionKind;
use st_tree::{Argument, Expr};

/// Why a constant has no value.
fn why_none(trap: Trap) -> &'static str {
    match trap {
        Trap::DivZero => "has a 0 behind it, and nothing is divided by 0",
        Trap::Overflow => "makes a number here that is beyond those of its kind",
        Trap::Index => "has an index outside the bounds of its array",
    }
}

impl<'t> Teller<'t> {
    /// Tells of what is of its kind and has to be constant, and isn't, or has no value.
    pub fn constant(&mut self, part: &Operand, breach: Breach, why: &str) {
        match part.worth {
            _ if part.kind.is_none() => {}
            Worth::Varies(number) => self.say_at(breach, number, why),
            Worth::Traps(number, trap) => self.say_at(breach, number, why_none(trap)),
            Worth::Is(_) => {}
        }
    }

    /// Tells of a bound or a step of a FOR that isn't constant, or has no value.
    pub fn bound(&mut self, part: &Operand) {
        if part.kind == Some(Kind::Dint) {
            let why = "is a variable, and the bounds and the step of a FOR are constant";
            self.constant(part, STATEMENTS, why);
        }
    }

    /// Tells of a step of a FOR that isn't constant, or has no value, or is 0.
    pub fn step(&mut self, part: &Operand) {
        match part.worth {
            Worth::Is(0) if part.kind == Some(Kind::Dint) => {
                let text = "@ is no step of a FOR, since it is 0";
                self.say(STATEMENTS, part.tokens, text, &[]);
            }
            _ => self.bound(part),
        }
    }

    /// Tells of a variable that may not control a FOR.
    pub fn control(&mut self, name: &Text, number: usize) {
        if self.body.scope.is_control(name) {
            return;
        }
        let Some(declared) = self.body.scope.find(name) else {
            return;
        };
        let why = match declared.section() {
            _ if self.body.scope.array(name).is_some() => {
                "is an array, and the variable of a FOR is a DINT"
            }
            SectionKind::Global | SectionKind::External => {
                "is a global, and the variable of a FOR is declared in the program or block itself"
            }
            _ => "is no DINT, and the variable of a FOR is one",
        };
        self.say_at(STATEMENTS, number, why);
    }

    /// Tells of a variable that is assigned, where it controls a FOR around the statement.
    pub fn assigned(&mut self, name: &Text, number: usize) {
        let word = name.as_bytes();
        let mut controls = self.controls.iter();
        if controls.any(|control| same_word(control.as_bytes(), word)) {
            let why = "is the variable of the FOR around it, and is assigned here";
            self.say_at(STATEMENTS, number, why);
        }
    }

    /// The kind of an input that a call gives to an instance of a block, or of an output that it takes, where that is sure and it is there once; tells of one that
    /// isn't there, or is there twice.
    fn member(
        &mut self,
        (instance, word): (&Text, &Text),
        name: &'t Text,
        number: usize,
        member: Member,
    ) -> Option<Kind> {
        let (what, kind) = match member {
            Member::Given => ("input", self.body.scope.input_kind(instance, name)),
            _ => ("output", self.body.scope.output_kind(instance, name)),
        };
        if kind.is_none() {
            self.tell_no_member(word, name, number, member);
            return None;
        }
        let added = self.given.add(self.alloc, name.as_str());
        if self.told.got(added) == Some(false) {
            let text = "the % @ is there twice in this call";
            self.say(MEMBERS, alone(number), text, &[what]);
            return None;
        }
        kind
    }

    /// Walks the variable that takes the output of a call at the token of a number, which is of a kind, where that is known.
    fn taker(&mut self, output: usize, kind: Option<Kind>, variable: &'t Text) {
        let number = self.cursor.pass_name(variable);
        let target = self.target(variable, number, Wanted::target_of(kind));
        if let (Some(kind), Some(target)) = (kind, target) {
            if kind != target {
                let word = self.cursor.word(number);
                let (kind, other) = (kind_text(kind), kind_text(target));
                let text = format!(in self.alloc;
                    "@ is a {kind}, and '{word}', which takes it, is a {other}"
                );
                let text = self.made(text);
                self.say(KINDS, alone(output), text.as_str(), &[]);
            }
        }
    }

    /// Tells of an argument of the call of an instance that takes a variable by the block's output, with `=>` between them; returns whether it is one. Its block is
    /// of a word, where that is known.
    fn is_turned(
        &mut self,
        instance: &Text,
        word: Option<&Text>,
        argument: &'t Argument<Text>,
    ) -> bool {
        let (Some(_), Argument::Output(name, variable)) = (word, argument) else {
            return false;
        };
        let scope = &self.body.scope;
        let is_member = scope.output_kind(instance, name).is_some()
            || scope.input_kind(instance, name).is_some();
        let is_output = scope.output_kind(instance, variable).is_some();
        let are_known = scope.find(name).is_some() && scope.find(variable).is_none();
        if is_member || !is_output || !are_known {
            return false;
        }
        let first = self.cursor.pass_name(name);
        let last = self.cursor.pass_name(variable);
        let words = [variable.as_str(), name.as_str()];
        let text = "the block's output stands before =>, and what takes it behind: % => %";
        self.say(MEMBERS, (first, last.saturating_add(1)), text, &words);
        true
    }

    /// Whether the block of an instance, of a word where that is known, has an input of a name.
    fn is_input(&self, instance: &Text, word: Option<&Text>, name: &Text) -> bool {
        word.is_some() && self.body.scope.input_kind(instance, name).is_some()
    }

    /// Walks an argument of the call of an instance, whose block is of a word, where that is known.
    fn argument(&mut self, instance: &Text, word: Option<&Text>, argument: &'t Argument<Text>) {
        let (name, member) = match argument {
            Argument::Input(name, _) => (name, Member::Given),
            Argument::Output(name, _) => (name, Member::Taken),
        };
        let number = self.cursor.pass_name(name);
        let kind = match word {
            Some(word) => self.member((instance, word), name, number, member),
            None => None,
        };
        match argument {
            Argument::Input(_, expr) => {
                self.value(expr, kind, Some(name));
            }
            Argument::Output(_, variable) if self.is_input(instance, word, name) => {
                let number = self.cursor.pass_name(variable);
                self.is_named(variable, number, Wanted::Any);
            }
            Argument::Output(_, variable) => self.taker(number, kind, variable),
        }
    }

    /// Walks a call.
    pub fn call(&mut self, instance: &'t Text, arguments: &'t [Argument<Text>]) {
        let number = self.cursor.pass_name(instance);
        let why = "is no instance of a block, and can't be called";
        self.behind = Behind::Call(arguments);
        self.arguments = arguments;
        let word = self.block_of_instance(instance, number, Wanted::Called, (KINDS, why));
        self.given = Names::new(self.alloc);
        for argument in arguments {
            if !self.is_turned(instance, word, argument) {
                self.argument(instance, word, argument);
            }
        }
    }

    /// The kind of a variable at the token of a number that is assigned, where that is certain; tells where it may not be assigned.
    pub fn target(&mut self, name: &'t Text, number: usize, wanted: Wanted) -> Option<Kind> {
        if !self.is_known(name, number, wanted) {
            return None;
        }
        let kind = self.variable_kind(name, number)?;
        if !self.body.scope.is_assignable(name) {
            let why = "is an input of the plant by its address, and no program may assign it";
            self.say_at(KINDS, number, why);
            return None;
        }
        self.assigned(name, number);
        Some(kind)
    }

    /// Walks the head of a FOR.
    fn head(&mut self, name: &'t Text, bounds: [&'t Expr<Text>; 2], by: &'t Option<Expr<Text>>) {
        let number = self.cursor.pass_name(name);
        if self.is_known(name, number, Wanted::Control) {
            self.control(name, number);
            self.assigned(name, number);
        }
        for bound in bounds {
            let part = self.value(bound, Some(Kind::Dint), None);
            self.bound(&part);
        }
        if let Some(by) = by {
            let part = self.value(by, Some(Kind::Dint), None);
            self.step(&part);
        }
        let pushed = self.controls.push(name);
        self.told.got(pushed);
    }

    /// Walks a step of a body.
    pub fn stmt(&mut self, step: Step<'t>) {
        match step {
            Step::Assign(name, expr) => {
                let number = self.cursor.pass_name(name);
                let wanted = Wanted::target_of(kind_by_words(&self.body.scope, expr));
                let kind = self.target(name, number, wanted);
                self.value(expr, kind, Some(name));
            }
            Step::Store(array, index, value) => {
                let element = self.element(array, index);
                let part = self.expr(value, Wanted::of(element.kind));
                self.judge(&part, element.kind, true, None);
            }
            Step::Call(instance, arguments) => self.call(instance, arguments),
            Step::Value(expr, kind) => {
                self.value(expr, Some(kind), None);
            }
            Step::Labels(choices, number) => {
                let labels = choices.get(number).map_or(0, |choice| choice.labels.len());
                for _ in 0..labels {
                    self.cursor.pass_label();
                }
            }
            Step::For(variable, from, to, by) => self.head(variable, [from, to], by),
            Step::EndFor => {
                self.controls.pop();
            }
        }
    }
}

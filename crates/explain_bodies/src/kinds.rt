//! Names that aren't there (C6), and what isn't of its kind (C7): the operands of operators, and what is given to variables and inputs.

use crate::expressions::wanted_beside;
use crate::part::{Form, Operand};
use crate::teller::{KINDS, MEMBERS, NAMES, Teller, alone};
use explain_names::{Member, Wanted, members_of, other_use, variable_hint};
use explain_tokens::fits;
use explain_trees::kind_text;
use plant_types::{Kind, Text};
use st_names::Scope;
use st_tree::{Argument, Binary, Unary};
use std::alloc::AllocError;

/// The signs that compare.
const COMPARING: &str = "=|<>|<|>|<=|>=";

/// The signs that compute.
const COMPUTING: &str = "+|-|*|/|MOD";

/// What ends a comparison.
const ENDING: &str = "AND|&|OR|XOR|THEN|;|,|)|]";

/// What is said beside two kinds that don't fit: how what is wanted is written.
fn beside(wanted: Kind, part: &Operand) -> &'static str {
    match (wanted, part.kind, part.form) {
        (Kind::Bool, Some(Kind::Dint), Form::Bit | Form::Literal) => "; a BOOL is TRUE or FALSE",
        (Kind::Bool, Some(Kind::Dint), _) => "; a comparison makes a BOOL of it, as in n > 0",
        (Kind::Bool, Some(Kind::Time), _) => "; a comparison makes a BOOL of it, as in t > T#0s",
        (Kind::Time, Some(Kind::Dint), _) => "; a duration is written as T#5s",
        _ => "",
    }
}

/// What is said beside an operand that isn't of its kind.
fn beside_operand(wanted: Option<Kind>, part: &Operand) -> &'static str {
    match (wanted, part.kind) {
        (Some(Kind::Dint), Some(Kind::Time)) => ", which is neither multiplied nor divided",
        (Some(kind), _) => beside(kind, part),
        _ => "",
    }
}

/// What is said of an input that a block hasn't, and that blocks of other dialects have; empty of others.
fn said_of_foreign(block: &Text, name: &Text) -> &'static str {
    let is_reset = fits("TON", block.as_str()) && fits("R|RST|RESET", name.as_str());
    match is_reset {
        true => "a call with IN := FALSE sets it back",
        false if fits("EN", name.as_str()) => {
            "a call that is to be left out at times stands in an IF"
        }
        false => "",
    }
}

/// The kind of a part, as it is told; none of one that isn't known.
fn kind_of(part: &Operand) -> &'static str {
    part.kind.map_or("", kind_text)
}

impl<'t> Teller<'t> {
    /// Tells of a name at the token of a number that is no variable; returns the number of the mistake, where it is told.
    fn tell_no_variable(&mut self, name: &'t Text, number: usize, wanted: Wanted) -> Option<usize> {
        if self.plant.shared.is_block_type(name) {
            let more = "; END_VAR declares one, called t1";
            let text = "@ is a block, and what is called or read is an instance of it: VAR t1 : %";
            return self.tell(NAMES, alone(number), [text, more], &[name.as_str()]);
        }
        if self.plant.is_program(name) {
            let text =
                "@ is a program, and no variable: each program runs once in a scan, by itself";
            return self.tell(NAMES, alone(number), [text, ""], &[]);
        }
        let hint = variable_hint(&self.body, name, wanted, self.behind);
        match hint {
            Ok(said) => {
                let names = said.1;
                self.tell_missing(number, said.0, names)
            }
            Err(error) => {
                let refused: Result<usize, AllocError> = Err(error);
                self.told.got(refused)
            }
        }
    }

    /// Tells that a name at the token of a number isn't there, and what is said beside it.
    fn tell_missing(&mut self, number: usize, more: &str, names: [&str; 3]) -> Option<usize> {
        let [one, other, third] = names;
        let texts = ["no variable is called @ in %", more];
        let words = [self.body.name, one, other, third];
        self.tell(NAMES, alone(number), texts, &words)
    }

    /// Whether it was told of the unit that a name isn't there; then it is counted.
    fn is_told(&mut self, name: &Text) -> bool {
        let Some(number) = self.missing.find(name.as_str()) else {
            return false;
        };
        if let Some(kept) = self.kept.get(number).copied() {
            self.told.count(kept);
        }
        true
    }

    /// Whether a name at the token of a number is a variable's or an instance's; where it certainly isn't, that is told, once in a unit.
    pub fn is_named(&mut self, name: &'t Text, number: usize, wanted: Wanted) -> bool {
        if self.body.scope.find(name).is_some() {
            return true;
        }
        if self.is_told(name) || self.body.doubts(name) || !self.takes(NAMES) {
            return false;
        }
        if let Some(kept) = self.tell_no_variable(name, number, wanted) {
            let added = self.missing.add(self.alloc, name.as_str());
            self.told.got(added);
            let pushed = self.kept.push(kept);
            self.told.got(pushed);
        }
        false
    }

    /// Whether it is certain what a name at the token of a number is; where it isn't there, that is told.
    pub fn is_known(&mut self, name: &'t Text, number: usize, wanted: Wanted) -> bool {
        self.is_named(name, number, wanted) && !self.body.doubts(name)
    }

    /// Tells of a name that isn't what a block has: an input that is given, an output that is taken, or one that is read.
    pub fn tell_no_member(&mut self, word: &Text, name: &'t Text, number: usize, member: Member) {
        if !self.takes(MEMBERS) {
            return;
        }
        let what = match member {
            Member::Given => "input",
            _ => "output",
        };
        let arguments: &[Argument<Text>] = match member {
            Member::Read => &[],
            Member::Given | Member::Taken => self.arguments,
        };
        let members = members_of(self.plant, word, (name, member), arguments);
        let Some((list, hint)) = self.told.got(members) else {
            return;
        };
        let mut other = other_use(self.plant, word, (name, member), list.is_empty());
        if other.is_empty() && member == Member::Given {
            other = said_of_foreign(word, name);
        }
        if !other.is_empty() {
            let (block, own) = (word.as_str(), name.as_str());
            let key = format!(in self.alloc; "{block}.{own}");
            let key = self.made(key);
            let added = self.strays.add(self.alloc, key.as_str());
            let is_new = self.told.got(added) == Some(true);
            if other.starts_with("it stands in VAR") && !is_new {
                return;
            }
            let text = format!(in self.alloc; "block {block} has no {what} @: {other}");
            let text = self.made(text);
            return self.say(MEMBERS, alone(number), text.as_str(), &[]);
        }
        let text = if list.is_empty() {
            "block % has no % @, since it has none"
        } else {
            "block % has no % @; it has:%%"
        };
        let words = [word.as_str(), what, list.as_str(), hint.as_str()];
        self.say(MEMBERS, alone(number), text, &words);
    }

    /// What is said of the one output of a kind of an instance, beside another output that these tokens read; empty where there is none, or there are several.
    fn output_of(&mut self, (from, until): (usize, usize), wanted: Kind) -> String {
        let none = String::new(self.alloc);
        let word = self.cursor.word(from);
        let is_read = self.cursor.word(from.saturating_add(1)) == ".";
        let made = Text::from_str(self.alloc, word);
        let (Some(instance), true) = (self.told.got(made), is_read) else {
            return none;
        };
        let Some(block) = self.body.block_word(&instance) else {
            return none;
        };
        let members = members_of(self.plant, block, (block, Member::Read), &[]);
        let Some((list, _)) = self.told.got(members) else {
            return none;
        };
        let (mut count, mut found) = (0usize, String::new(self.alloc));
        for output in list.as_str().split(" ") {
            let made = Text::from_str(self.alloc, output);
            if let Some(name) = self.told.got(made) {
                if self.body.scope.output_kind(&instance, &name) == Some(wanted) {
                    count = count.saturating_add(1);
                    found = self.made(String::from_str(self.alloc, output));
                }
            }
        }
        if count != 1 || until != from.saturating_add(3) {
            return none;
        }
        let (kind, found) = (kind_text(wanted), found.as_str());
        let text = format!(in self.alloc; ", and the {kind} of its instance is '{word}.{found}'");
        self.made(text)
    }

    /// Tells of a part that isn't of the kind that it has to be, for what takes it. In the place of a name that is given another name may be meant.
    pub fn tell_unfit(&mut self, part: &Operand, wanted: Kind, taker: Option<&Text>) {
        let (from, until) = part.tokens;
        let is_name = part.form == Form::Other && until == from.saturating_add(1);
        let more = if is_name && taker.is_some() {
            ""
        } else {
            beside(wanted, part)
        };
        let output = self.output_of(part.tokens, wanted);
        let (kind, found, output) = (kind_text(wanted), kind_of(part), output.as_str());
        let text = match taker {
            Some(name) => {
                let name = name.as_str();
                format!(in self.alloc; "'{name}' is a {kind}, and @ is a {found}{output}{more}")
            }
            None => format!(in self.alloc;
                "a {kind} is wanted here, and @ is a {found}{output}{more}"
            ),
        };
        let text = self.made(text);
        self.say(KINDS, part.tokens, text.as_str(), &[]);
    }

    /// Tells of an instance that is read or assigned, at the token of a number.
    pub fn tell_instance(&mut self, name: &'t Text, number: usize) {
        let (Some(word), true) = (self.body.block_word(name), self.takes(KINDS)) else {
            return;
        };
        let members = members_of(self.plant, word, (name, Member::Read), &[]);
        let Some((list, _)) = self.told.got(members) else {
            return;
        };
        let hides = if self.body.scope.is_global(name) {
            "; it hides the global of this name"
        } else {
            ""
        };
        let text =
            "@ is an instance of %, and itself neither read nor assigned; its outputs are read behind a point:%%";
        let words = [word.as_str(), list.as_str(), hides];
        self.say(KINDS, alone(number), text, &words);
    }

    /// Tells of an operand of the operator at the token of a number, where it isn't of the kind that it has to be, or where none is given no number.
    fn tell_operand(
        &mut self,
        number: usize,
        (takes, wanted): (&str, Option<Kind>),
        part: &Operand,
        side: &str,
    ) {
        let is_fit = match wanted {
            Some(_) => part.kind == wanted,
            None => part.kind != Some(Kind::Bool),
        };
        if !is_fit {
            let output = match wanted {
                Some(kind) => self.output_of(part.tokens, kind),
                None => String::new(self.alloc),
            };
            let (word, found, output) = (self.cursor.word(number), kind_of(part), output.as_str());
            let more = beside_operand(wanted, part);
            let text = format!(in self.alloc;
                "'{word}' takes {takes}, and @{side} is a {found}{output}{more}"
            );
            let text = self.made(text);
            self.say(KINDS, part.tokens, text.as_str(), &[]);
        }
    }

    /// Tells of the operand of the NOT at the token of a number, which is no BOOL, where a sign behind it compares or computes with it: NOT binds tighter. Returns
    /// whether one does.
    fn tell_tight_not(&mut self, number: usize, part: &Operand) -> bool {
        let (from, until) = part.tokens;
        let sign = self.cursor.word(until);
        let is_compared = fits(COMPARING, sign);
        if !is_compared && !fits(COMPUTING, sign) {
            return false;
        }
        let behind = until.saturating_add(2);
        let (word, found) = (self.cursor.word(number), kind_of(part));
        let text = if is_compared && fits(ENDING, self.cursor.word(behind)) {
            let whole = self.cursor.quote((from, behind));
            format!(in self.alloc;
                "'{word}' takes a BOOL, and @ is a {found}; NOT binds tighter than '{sign}': write NOT ({whole})"
            )
        } else {
            format!(in self.alloc;
                "'{word}' takes a BOOL, and @ is a {found}; NOT binds tighter than '{sign}': a comparison behind it stands in parentheses"
            )
        };
        let text = self.made(text);
        self.say(KINDS, part.tokens, text.as_str(), &[]);
        true
    }

    /// Tells of the operand of NOT or of a minus, which isn't of its kind.
    pub fn tell_unary(&mut self, op: Unary, number: usize, part: &Operand) {
        if matches!(op, Unary::Not) && self.tell_tight_not(number, part) {
            return;
        }
        let takes = match op {
            Unary::Not => ("a BOOL", Some(Kind::Bool)),
            _ => ("a DINT or a TIME", None),
        };
        self.tell_operand(number, takes, part, "");
    }

    /// Tells of two operands that aren't of one kind.
    fn tell_unlike(&mut self, number: usize, left: &Operand, right: &Operand) {
        let (Some(one), Some(other)) = (left.kind, right.kind) else {
            return;
        };
        let words = [
            kind_text(one),
            kind_text(other),
            beside(one, right),
            beside(other, left),
        ];
        let text = "@ compares two of one kind, and here are a % and a %%%";
        self.say(KINDS, alone(number), text, &words);
    }

    /// Tells of a number behind a comparison and AND, OR or XOR, at the token of a number, as in n = 1 OR 2; returns whether there is one.
    fn tell_half(&mut self, number: usize, left: &Operand, right: &Operand) -> bool {
        let is_number = matches!(right.form, Form::Bit | Form::Literal)
            && right.kind == Some(Kind::Dint);
        if !is_number || !matches!(left.form, Form::Order | Form::Comparison) {
            return false;
        }
        let word = self.cursor.word(number);
        let text =
            "'%' takes two BOOL, and @ behind it is a DINT; each comparison is written whole, as in n = 1 % n = 2";
        self.say(KINDS, right.tokens, text, &[word, word]);
        true
    }

    /// Tells of a DINT before AND, OR or XOR at the token of a number, behind which a number stands, as in n AND 16#01 = 0; returns whether there is one.
    fn tell_bits(&mut self, number: usize, left: &Operand, right: &Operand) -> bool {
        let mask = self.cursor.word(right.tokens.0).as_bytes();
        if left.kind != Some(Kind::Dint) || !matches!(mask, [b'0'..=b'9', ..]) {
            return false;
        }
        let word = self.cursor.word(number);
        let text = "'%' takes two BOOL, and @ before it is a DINT: bits of numbers aren't joined";
        self.say(KINDS, left.tokens, text, &[word]);
        true
    }

    /// Tells of the operands of an operator at the token of a number, which it doesn't take.
    pub fn tell_binary(&mut self, op: Binary, number: usize, left: &Operand, right: &Operand) {
        let is_logic = matches!(op, Binary::And | Binary::Or | Binary::Xor);
        if is_logic
            && (self.tell_half(number, left, right) || self.tell_bits(number, left, right))
        {
            return;
        }
        let are_numbers = left.kind != Some(Kind::Bool) && right.kind != Some(Kind::Bool);
        let takes = match wanted_beside(op) {
            Wanted::Of(Kind::Bool) => ("two BOOL", Some(Kind::Bool)),
            Wanted::Of(kind) => ("two DINT", Some(kind)),
            Wanted::Any => return self.tell_unlike(number, left, right),
            _ if left.form == Form::Order => {
                let why =
                    "has a comparison before it, which is a BOOL; a < b < c is written a < b AND b < c";
                return self.say_at(KINDS, number, why);
            }
            _ if are_numbers => {
                let why =
                    "has a TIME and a DINT beside it, and nothing is converted; a duration is written as T#5s";
                return self.say_at(KINDS, number, why);
            }
            _ => ("two DINT or two TIME", None),
        };
        self.tell_operand(number, takes, left, " before it");
        self.tell_operand(number, takes, right, " behind it");
    }
}

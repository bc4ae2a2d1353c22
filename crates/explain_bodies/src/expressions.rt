//! Expressions are walked.

use crate::part::{Form, Operand, Worth};
use crate::teller::{Breach, MEMBERS, Teller, alone};
use explain_names::{Behind, Member, Wanted};
use explain_trees::Sought;
use plant_types::{Kind, Text, Trap};
use st_names::{BodyScope, Scope};
use st_tree::{
    Binary, Expr, Literal, Unary, binary_kind, eval_binary, eval_unary, resolved_binary,
    resolved_unary, unary_kind,
};

/// So deep an expression is looked into for its kind.
const DEEPEST: usize = 64;

/// What the operands of an operator have to be.
pub fn wanted_beside(op: Binary) -> Wanted {
    match op {
        Binary::And | Binary::Xor | Binary::Or => Wanted::Of(Kind::Bool),
        Binary::Multiply | Binary::Divide | Binary::Mod => Wanted::Of(Kind::Dint),
        Binary::Equal | Binary::Unequal => Wanted::Any,
        _ => Wanted::Number,
    }
}

/// What the operand behind an operator has to be, where one of a kind stands before it.
fn wanted_behind(op: Binary, left: Option<Kind>) -> Wanted {
    match (wanted_beside(op), left) {
        (Wanted::Any, Some(kind)) => Wanted::Of(kind),
        (Wanted::Number, Some(Kind::Dint)) => Wanted::Of(Kind::Dint),
        (Wanted::Number, Some(Kind::Time)) => Wanted::Of(Kind::Time),
        (wanted, _) => wanted,
    }
}

/// Whether an operator compares, by order or else, or has a comparison behind it beside AND, OR or XOR.
fn form_of(op: Binary, right: Form) -> Form {
    match (op, right) {
        (Binary::Less | Binary::Greater | Binary::AtMost | Binary::AtLeast, _) => Form::Order,
        (Binary::Equal | Binary::Unequal, _) => Form::Comparison,
        (Binary::And | Binary::Or | Binary::Xor, Form::Order | Form::Comparison) => {
            Form::Comparison
        }
        _ => Form::Other,
    }
}

/// The kind of an expression by its first words, without a look at all of it; `None` where they don't tell.
pub fn kind_by_words(scope: &BodyScope<'_>, expr: &Expr<Text>) -> Option<Kind> {
    let mut part = expr;
    for _ in 0..DEEPEST {
        part = match part {
            Expr::Literal(Literal::Integer(0 | 1)) => return None,
            Expr::Literal(literal) => return Some(literal.kind()),
            Expr::Read(name) => return scope.variable_kind(name),
            Expr::Output(instance, name) => return scope.output_kind(instance, name),
            Expr::Element(name, _, _) => return scope.array(name).map(|array| array.1),
            Expr::Unary(Unary::Not, _) => return Some(Kind::Bool),
            Expr::Unary(_, operand) => operand,
            Expr::Binary(op, left, _) => match wanted_beside(*op) {
                Wanted::Number if form_of(*op, Form::Other) == Form::Other => left,
                Wanted::Of(kind) => return Some(kind),
                _ => return Some(Kind::Bool),
            },
        };
    }
    None
}

/// The value of an operator at the token of a number, by its outcome.
fn worth_of(outcome: Result<i64, Trap>, number: usize) -> Worth {
    match outcome {
        Ok(n) => Worth::Is(n),
        Err(trap) => Worth::Traps(number, trap),
    }
}

/// The value of an operator at the token of a number, by those of its operands, the left one of a kind.
fn binary_worth(op: Binary, number: usize, kind: Kind, worths: (Worth, Worth)) -> Worth {
    match worths {
        (Worth::Varies(name), _) | (_, Worth::Varies(name)) => Worth::Varies(name),
        (Worth::Traps(at, trap), _) | (_, Worth::Traps(at, trap)) => Worth::Traps(at, trap),
        (Worth::Is(x), Worth::Is(y)) => {
            worth_of(eval_binary(resolved_binary(op, kind), x, y), number)
        }
    }
}

impl<'t> Teller<'t> {
    /// Walks a literal.
    fn literal(&mut self, literal: Literal) -> Operand {
        let number = self.cursor.pass(Sought::Literal);
        let worth = literal.worth();
        let form = match literal {
            Literal::Integer(0 | 1) => Form::Bit,
            _ => Form::Literal,
        };
        let first = self.cursor.first_of(number, worth < 0);
        Operand {
            kind: Some(literal.kind()),
            tokens: (first, number.saturating_add(1)),
            form,
            worth: Worth::Is(worth),
        }
    }

    /// The kind of a variable at the token of a number; what is an instance or an array is told.
    pub fn variable_kind(&mut self, name: &'t Text, number: usize) -> Option<Kind> {
        let kind = self.body.scope.variable_kind(name);
        if kind.is_none() {
            self.tell_instance(name, number);
            self.tell_array(name, number);
        }
        kind
    }

    /// Walks a variable that is read.
    fn read(&mut self, name: &'t Text, wanted: Wanted) -> Operand {
        let number = self.cursor.pass_name(name);
        let mut part = Operand::varies(alone(number));
        if self.is_known(name, number, wanted) {
            part.kind = self.variable_kind(name, number);
        }
        part
    }

    /// The block of the instance at the token of a number, which is called or read; `None` where that isn't certain. What is no instance is told.
    pub fn block_of_instance(
        &mut self,
        instance: &'t Text,
        number: usize,
        wanted: Wanted,
        (breach, why): (Breach, &str),
    ) -> Option<&'t Text> {
        if !self.is_known(instance, number, wanted) {
            return None;
        }
        let word = self.body.block_word(instance);
        if word.is_none() {
            self.say_at(breach, number, why);
        }
        word
    }

    /// Walks an output of an instance that is read.
    fn output(&mut self, instance: &'t Text, name: &'t Text) -> Operand {
        let first = self.cursor.pass_name(instance);
        let last = self.cursor.pass_name(name);
        let mut part = Operand::varies((first, last.saturating_add(1)));
        let why = "is no instance of a block, and so no point may stand behind it";
        let wanted = Wanted::Instance;
        self.behind = Behind::Output(name);
        if let Some(word) = self.block_of_instance(instance, first, wanted, (MEMBERS, why)) {
            part.kind = self.body.scope.output_kind(instance, name);
            if part.kind.is_none() {
                self.tell_no_member(word, name, last, Member::Read);
            }
        }
        part
    }

    /// The part that an operator and its operand are.
    fn unary(&mut self, op: Unary, number: usize, part: &Operand) -> Operand {
        let mut whole = Operand {
            kind: None,
            tokens: (number, part.tokens.1),
            form: Form::Other,
            worth: part.worth,
        };
        let Some(kind) = part.kind else {
            return whole;
        };
        whole.kind = unary_kind(op, kind);
        match part.worth {
            _ if whole.kind.is_none() => self.tell_unary(op, number, part),
            Worth::Is(x) => whole.worth = worth_of(eval_unary(resolved_unary(op, kind), x), number),
            _ => {}
        }
        whole
    }

    /// The part that an operator and its operands are.
    fn binary(&mut self, op: Binary, number: usize, left: &Operand, right: &Operand) -> Operand {
        let mut whole = Operand {
            kind: None,
            tokens: (left.tokens.0, right.tokens.1),
            form: form_of(op, right.form),
            worth: Worth::Varies(number),
        };
        if let (Some(one), Some(other)) = (left.kind, right.kind) {
            whole.kind = binary_kind(op, one, other);
            if whole.kind.is_none() {
                self.tell_binary(op, number, left, right);
            } else {
                whole.worth = binary_worth(op, number, one, (left.worth, right.worth));
            }
        }
        whole
    }

    /// Walks an instance and one of its outputs with an operator between them, as edge>Q, which is told; `None` where these operands are no such ones.
    fn pointless(&mut self, left: &'t Expr<Text>, right: &'t Expr<Text>) -> Option<Operand> {
        let mut operand = left;
        if let Expr::Unary(_, inner) = left {
            operand = inner;
        }
        let (Expr::Read(instance), Expr::Read(name)) = (operand, right) else {
            return None;
        };
        let kind = self.body.scope.output_kind(instance, name);
        let is_there = self.body.scope.find(name).is_some() || self.body.doubts(name);
        if kind.is_none() || is_there || self.body.doubts(instance) {
            return None;
        }
        let first = self.cursor.pass_name(instance);
        let last = self.cursor.pass_name(name);
        let tokens = (first, last.saturating_add(1));
        let words = [instance.as_str(), name.as_str()];
        self.say(
            MEMBERS,
            tokens,
            "an output is read with a point, as in %.%",
            &words,
        );
        let mut whole = Operand::varies(tokens);
        whole.kind = kind;
        Some(whole)
    }

    /// Walks an expression; a name that isn't there may be one that is what is wanted.
    #[cycle(expressions)]
    pub fn expr(&mut self, expr: &'t Expr<Text>, wanted: Wanted) -> Operand {
        match expr {
            Expr::Literal(literal) => self.literal(*literal),
            Expr::Read(name) => self.read(name, wanted),
            Expr::Output(instance, name) => self.output(instance, name),
            Expr::Element(name, _, index) => self.element(name, index),
            Expr::Unary(op, a) => {
                let number = self.cursor.pass(Sought::Prefix);
                let wanted = match op {
                    Unary::Not => Wanted::Of(Kind::Bool),
                    _ => Wanted::Number,
                };
                let part = self.expr(a, wanted);
                self.unary(*op, number, &part)
            }
            Expr::Binary(op, a, b) => {
                if let Some(whole) = self.pointless(a, b) {
                    return whole;
                }
                let left = self.expr(a, wanted_beside(*op));
                let number = self.cursor.pass(Sought::Infix);
                let right = self.expr(b, wanted_behind(*op, left.kind));
                self.binary(*op, number, &left, &right)
            }
        }
    }

    /// Tells of a part that isn't of the kind that it has to be, where both are known. Where it is assigned or given, the integer 0 or 1 may stand for a BOOL.
    pub fn judge(
        &mut self,
        part: &Operand,
        wanted: Option<Kind>,
        is_given: bool,
        taker: Option<&Text>,
    ) {
        if let (Some(kind), Some(found)) = (wanted, part.kind) {
            let is_bit = is_given && kind == Kind::Bool && part.form == Form::Bit;
            if found != kind && !is_bit {
                self.tell_unfit(part, kind, taker);
            }
        }
    }

    /// Walks an expression that has to be of a kind, where that is known, and is given to something, where that has a name.
    pub fn value(
        &mut self,
        expr: &'t Expr<Text>,
        wanted: Option<Kind>,
        taker: Option<&Text>,
    ) -> Operand {
        let part = self.expr(expr, Wanted::of(wanted));
        self.judge(&part, wanted, taker.is_some(), taker);
        part
    }
}

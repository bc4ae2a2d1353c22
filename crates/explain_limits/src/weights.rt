//! What bodies weigh, by their size or their cost.

use crate::measures::Measure;
use base_words::Names;
use explain_trees::mark_of;
use plant_types::Text;
use st_tree::{Argument, Branch, Choice, Expr, Stmt};

/// By what a body is weighed: the names of its instances, and what each counts.
#[derive(Drop)]
pub struct Scale {
    pub measure: Measure,
    pub names: Names,
    pub counts: Vec<u64>,
}

/// What a body weighs, and which part of it weighs most.
#[derive(Clone, Copy, Drop)]
pub struct Weight {
    pub total: u64,
    /// What the FOR or the call weighs that weighs most.
    most: u64,
    /// The FOR nearest around that, by the byte of its variable, and how often that one's body runs.
    pub around: Option<(usize, u64)>,
    /// Where it is a call, or an instance, its bytes, and what the block counts.
    pub part: Option<((usize, usize), u64)>,
}

impl Weight {
    /// What has no part that stands out.
    pub fn of(total: u64) -> Weight {
        Weight {
            total,
            most: 0,
            around: None,
            part: None,
        }
    }

    /// What weighs so much more.
    fn plus(self, more: u64) -> Weight {
        self.beside(Weight::of(0), self.total.saturating_add(more))
    }

    /// Two that weigh so much together.
    fn beside(self, other: Weight, total: u64) -> Weight {
        let heavier = if other.most > self.most { other } else { self };
        Weight { total, ..heavier }
    }

    /// A FOR of so many turns with this body, by the byte of its variable.
    fn turned(self, at: usize, turns: u64) -> Weight {
        let (nearest, times) = self.around.unwrap_or((at, 1));
        let each = self.total.saturating_add(3);
        Weight {
            total: each.saturating_mul(turns).saturating_add(2),
            most: self.most.max(1).saturating_mul(turns),
            around: Some((nearest, times.saturating_mul(turns))),
            part: self.part,
        }
    }
}

/// What an expression weighs.
fn of_expr(expr: &Expr<Text>) -> u64 {
    match expr {
        Expr::Element(_, _, index) => of_expr(index).saturating_add(2),
        Expr::Unary(_, a) => of_expr(a).saturating_add(1),
        Expr::Binary(_, a, b) => of_expr(a).saturating_add(of_expr(b)).saturating_add(1),
        _ => 1,
    }
}

/// What the arguments of a call weigh.
fn of_arguments(arguments: &[Argument<Text>]) -> u64 {
    let mut total = arguments.len() as u64;
    for argument in arguments {
        if let Argument::Input(_, expr) = argument {
            total = total.saturating_add(of_expr(expr));
        }
    }
    total
}

impl Scale {
    /// What a call weighs.
    fn of_call(&self, name: &Text, arguments: &[Argument<Text>]) -> Weight {
        let number = self.names.find(name.as_str());
        let called = number.map_or(0, |number| self.counts.get(number).copied().unwrap_or(0));
        let given = of_arguments(arguments).saturating_add(1);
        Weight {
            total: called.saturating_add(given),
            most: called,
            around: None,
            part: Some((mark_of(name), called)),
        }
    }

    /// Two of several bodies of which one runs.
    fn joined(&self, one: Weight, other: Weight) -> Weight {
        one.beside(other, self.measure.join(one.total, other.total))
    }

    /// What branches weigh, with their tests and what is done where none is taken.
    #[cycle(weights)]
    fn of_branches(&self, branches: &[Branch<Text>], last: Weight) -> Weight {
        let mut inside = last;
        let mut tests = 1u64;
        for branch in branches {
            inside = self.joined(inside, self.of_stmts(&branch.body));
            tests = tests.saturating_add(of_expr(&branch.test));
        }
        inside.plus(tests)
    }

    /// What choices weigh, with their labels and what is done where none is taken.
    #[cycle(weights)]
    fn of_choices(&self, choices: &[Choice<Text>], last: Weight) -> Weight {
        let mut inside = last;
        let mut labels = 1u64;
        for choice in choices {
            inside = self.joined(inside, self.of_stmts(&choice.body));
            labels = labels.saturating_add(choice.labels.len() as u64);
        }
        inside.plus(labels)
    }

    /// What a statement weighs.
    #[cycle(weights)]
    fn of_stmt(&self, stmt: &Stmt<Text>) -> Weight {
        match stmt {
            Stmt::Empty(_) => Weight::of(1),
            Stmt::Assign(_, _, expr) => Weight::of(of_expr(expr).saturating_add(1)),
            Stmt::Store { index, value, .. } => {
                let both = of_expr(index).saturating_add(of_expr(value));
                Weight::of(both.saturating_add(2))
            }
            Stmt::Call(_, name, arguments) => self.of_call(name, arguments),
            Stmt::If(_, branches, last) => self.of_branches(branches, self.of_stmts(last)),
            Stmt::Case(_, selector, choices, last) => {
                let inside = self.of_choices(choices, self.of_stmts(last));
                inside.plus(of_expr(selector))
            }
            Stmt::For {
                variable,
                from,
                to,
                by,
                body,
                ..
            } => {
                let turns = self.measure.turns(from, to, by);
                self.of_stmts(body).turned(variable.at() as usize, turns)
            }
        }
    }

    /// What statements weigh.
    #[cycle(weights)]
    pub fn of_stmts(&self, stmts: &[Stmt<Text>]) -> Weight {
        let mut all = Weight::of(0);
        for stmt in stmts {
            let one = self.of_stmt(stmt);
            all = all.beside(one, all.total.saturating_add(one.total));
        }
        all
    }
}

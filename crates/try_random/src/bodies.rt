//! Random bodies, as texts. A body is made from its beginning to its end: what is still to be written waits on a stack.

use crate::dice::Dice;
use crate::names::{
    BLOCKS, BOOL_ROWS, BOOLS, Called, DINT_ROWS, DINTS, GLOBALS, GROUPS, NAMES, NUMS, PROGRAMS,
    Routine, Row, THIRD, TIME_ROWS, TIMES,
};
use plant_types::Kind;
use std::alloc::{AllocError, Global};
use try_text::Page;

/// Something still to be written.
#[derive(Clone, Copy, Drop)]
enum Piece {
    /// These words.
    Words(&'static str),
    /// A name that is assigned.
    Target(&'static str),
    /// An expression of a kind, and at most so deep.
    Expr(Kind, u32),
    /// An index of an array.
    Index(Row),
    /// A list of statements, each at most so deep.
    List(u32),
    /// A statement at most so deep.
    Stmt(u32),
    /// A call of a block.
    Call(Called),
}

/// More pieces than a body has.
const MOST: u32 = 20_000;

const DINT_LITERALS: &[&str] = &[
    "0", "1", "2", "3", "7", "-1", "-5", "10", "100", "16#FF", "2#101", "DINT#-3",
];

const FAR_DINT_LITERALS: &[&str] = &["2147483647", "-2147483648", "65536", "-46341"];

const BOOL_LITERALS: &[&str] = &["TRUE", "FALSE", "BOOL#1", "BOOL#0"];

const TIME_LITERALS: &[&str] = &[
    "T#0s", "T#1ms", "T#500ms", "T#1s", "T#2s", "T#-1s", "T#1m_1s",
];

const FAR_TIME_LITERALS: &[&str] = &["T#9223372036854775807ms", "T#-9223372036854775808ms"];

const DINT_OPERATORS: &[&str] = &[" + ", " - ", " * ", " MOD "];

/// Divisors that aren't 0.
const DIVISORS: &[&str] = &[" / 2)", " / -3)", " / 7)", " / -1)"];

const BOOL_OPERATORS: &[&str] = &[" AND ", " & ", " OR ", " XOR ", " = ", " <> "];

const ORDERS: &[&str] = &[" < ", " > ", " <= ", " >= ", " = ", " <> "];

const TIME_OPERATORS: &[&str] = &[" + ", " - "];

/// The bounds of loops.
const BOUNDS: &[&str] = &[
    " := 1 TO 3 DO ",
    " := 0 TO 4 BY 2 DO ",
    " := 3 TO -1 BY -2 DO ",
    " := 2 TO 1 DO ",
    " := -1 TO 0 BY -1 DO ",
    " := 4 / 2 TO 2 + 1 BY -1 + 2 DO ",
];

/// The bounds of loops that end at a bound of the range.
const FAR_BOUNDS: &[&str] = &[
    " := 2147483646 TO 2147483647 DO ",
    " := 2147483645 TO 2147483647 BY 3 DO ",
    " := -2147483647 TO -2147483648 BY -1 DO ",
    " := 0 TO 2147483647 BY 1073741823 DO ",
];

/// The labels of branches. Some fit nothing, some fit what an earlier branch takes.
const LABELS: &[&str] = &[
    "0: ",
    "1, 2: ",
    "-3..-1: ",
    "3..5, 7: ",
    "5..3: ",
    "4..4, -7: ",
    "2147483647: ",
    "-2147483648..-100: ",
    "6..2147483647: ",
];

/// The control variable of a loop, by the depth of what stands in it: none of the loops around it has the same.
fn control(depth: u32) -> &'static str {
    match depth {
        0 => "i1",
        1 => "i2",
        _ => "i3",
    }
}

/// The names that may be assigned, by kind.
fn targets(kind: Kind) -> &'static [&'static str] {
    match kind {
        Kind::Bool => BOOLS,
        Kind::Dint => DINTS,
        Kind::Time => TIMES,
    }
}

fn rows(kind: Kind) -> &'static [Row] {
    match kind {
        Kind::Bool => BOOL_ROWS,
        Kind::Dint => DINT_ROWS,
        Kind::Time => TIME_ROWS,
    }
}

/// The groups of globals that a body uses: of one it reads globals, of the other it reads and assigns them.
#[derive(Clone, Copy, Drop)]
struct Groups {
    read: &'static str,
    assigned: &'static str,
}

/// A body that is being written.
#[derive(Drop)]
struct Writer<'a> {
    dice: &'a mut Dice,
    routine: Routine,
    groups: Groups,
    /// What is written.
    text: &'a mut Page,
    /// What is still to be written, the next one last.
    pieces: Vec<Piece>,
}

impl Writer<'_> {
    /// Puts a piece before all that waits.
    fn wait(&mut self, piece: Piece) {
        if self.pieces.push(piece).is_err() {
            self.text.refuse();
        }
    }

    /// Puts pieces before all that waits.
    fn next(&mut self, pieces: &[Piece]) {
        for piece in pieces.iter().rev() {
            self.wait(*piece);
        }
    }

    fn kind(&mut self) -> Kind {
        self.dice.pick(
            &[Kind::Bool, Kind::Dint, Kind::Dint, Kind::Time],
            Kind::Dint,
        )
    }

    /// Writes a literal of a kind, now and then one at a bound of its range.
    fn literal(&mut self, kind: Kind) {
        let from = match (kind, self.dice.is_one_of(30)) {
            (Kind::Bool, _) => BOOL_LITERALS,
            (Kind::Dint, false) => DINT_LITERALS,
            (Kind::Dint, true) => FAR_DINT_LITERALS,
            (Kind::Time, false) => TIME_LITERALS,
            (Kind::Time, true) => FAR_TIME_LITERALS,
        };
        let word = self.dice.pick(from, "");
        self.text.add(word);
    }

    /// Writes a name: of a global with its group, and where there is no group, the like name of the body's own.
    fn name(&mut self, name: &'static str, group: &'static str) {
        match name.strip_prefix("g") {
            Some(own) if group.is_empty() => self.text.add(own),
            Some(_) => {
                self.text.add(name);
                self.text.add(group);
            }
            None => self.text.add(name),
        }
    }

    /// Writes an array's name and `[`, and has an index written and what stands behind it.
    fn element(&mut self, kind: Kind, group: &'static str, end: &[Piece]) {
        let row = self.dice.pick(rows(kind), NUMS);
        self.name(row.name, group);
        self.text.add("[");
        self.next(end);
        self.next(&[Piece::Index(row)]);
    }

    /// Writes an index of an array. Few are outside of its bounds.
    fn index(&mut self, row: Row) {
        match self.dice.below(40) {
            0 => {
                let word = self.dice.pick(row.outside, "0");
                self.text.add(word);
            }
            1 => self.next(&[Piece::Expr(Kind::Dint, 1)]),
            2..14 => self.next(&[Piece::Expr(Kind::Dint, 1), Piece::Words(row.rest)]),
            _ => {
                let word = self.dice.pick(row.inside, "0");
                self.text.add(word);
            }
        }
    }

    /// Writes a literal, a name or an element of a kind.
    fn leaf(&mut self, kind: Kind) {
        if self.dice.is_one_of(3) {
            return self.literal(kind);
        }
        let groups = [self.groups.read, self.groups.assigned];
        let group = self.dice.pick(&groups, "");
        if self.dice.is_one_of(5) {
            return self.element(kind, group, &[Piece::Words("]")]);
        }
        let routine = self.routine;
        let from = match kind {
            Kind::Bool => routine.bools,
            Kind::Dint => routine.dints,
            Kind::Time => routine.times,
        };
        let name = self.dice.pick(from, "");
        self.name(name, group);
    }

    /// Has two expressions of a kind written with an operator between them.
    fn binary(&mut self, operators: &[&'static str], kind: Kind, depth: u32) {
        let operator = self.dice.pick(operators, " = ");
        self.next(&[
            Piece::Words("("),
            Piece::Expr(kind, depth),
            Piece::Words(operator),
            Piece::Expr(kind, depth),
            Piece::Words(")"),
        ]);
    }

    /// Has an expression written after an operator.
    fn unary(&mut self, operator: &'static str, kind: Kind, depth: u32) {
        self.next(&[
            Piece::Words(operator),
            Piece::Expr(kind, depth),
            Piece::Words(")"),
        ]);
    }

    /// Has a quotient written. Its divisor is seldom 0.
    fn quotient(&mut self, depth: u32) {
        if self.dice.is_one_of(4) {
            return self.binary(&[" / "], Kind::Dint, depth);
        }
        let end = self.dice.pick(DIVISORS, " / 2)");
        self.next(&[
            Piece::Words("("),
            Piece::Expr(Kind::Dint, depth),
            Piece::Words(end),
        ]);
    }

    /// Writes an expression of a kind, at most so deep.
    fn expression(&mut self, kind: Kind, depth: u32) {
        if depth == 0 || self.dice.is_one_of(4) {
            return self.leaf(kind);
        }
        let below = depth - 1;
        match (kind, self.dice.below(6)) {
            (Kind::Bool, 0) => self.unary("NOT (", Kind::Bool, below),
            (Kind::Bool, 1 | 2) => self.binary(BOOL_OPERATORS, Kind::Bool, below),
            (Kind::Bool, 3) => self.binary(ORDERS, Kind::Time, below),
            (Kind::Bool, _) => self.binary(ORDERS, Kind::Dint, below),
            (Kind::Dint, 0) => self.unary("-(", Kind::Dint, below),
            (Kind::Dint, 1) => self.quotient(below),
            (Kind::Dint, _) => self.binary(DINT_OPERATORS, Kind::Dint, below),
            (Kind::Time, 0) => self.unary("-(", Kind::Time, below),
            (Kind::Time, _) => self.binary(TIME_OPERATORS, Kind::Time, below),
        }
    }

    /// Writes what is assigned, or an array's name and `[`, behind which the rest is to be written.
    fn target(&mut self, kind: Kind) {
        let group = self.groups.assigned;
        if self.dice.is_one_of(4) {
            return self.element(kind, group, &[Piece::Words("] := ")]);
        }
        let target = self.dice.pick(targets(kind), "");
        self.name(target, group);
        self.text.add(" := ");
    }

    /// Writes an assignment. Most of those to numbers and times keep them small, so that not all that follows overflows.
    fn assignment(&mut self) {
        let kind = self.kind();
        let is_free = self.dice.is_one_of(4);
        match (kind, is_free) {
            (Kind::Dint, false) => self.next(&[Piece::Expr(kind, 3), Piece::Words(" MOD 50;\n")]),
            (Kind::Time, false) => self.next(&[Piece::Expr(kind, 0), Piece::Words(";\n")]),
            _ => self.next(&[Piece::Expr(kind, 3), Piece::Words(";\n")]),
        }
        self.target(kind);
    }

    /// Puts the arguments of a call before all that waits, from the last to the first.
    fn arguments(&mut self, called: Called) {
        for (name, kind) in called.outputs {
            if self.dice.is_one_of(2) {
                let target = self.dice.pick(targets(*kind), "");
                self.next(&[
                    Piece::Words(", "),
                    Piece::Words(*name),
                    Piece::Words(" => "),
                    Piece::Target(target),
                ]);
            }
        }
        for (name, kind) in called.inputs {
            if !self.dice.is_one_of(4) {
                self.next(&[
                    Piece::Words(", "),
                    Piece::Words(*name),
                    Piece::Words(" := "),
                    Piece::Expr(*kind, 1),
                ]);
            }
        }
    }

    /// Writes a call of a block.
    fn call_of(&mut self, called: Called) {
        self.next(&[Piece::Words(");\n")]);
        self.arguments(called);
        let is_first_comma = matches!(self.pieces.last(), Some(Piece::Words(", ")));
        if is_first_comma {
            let _comma = self.pieces.pop();
        }
        self.text.add(called.name);
        self.text.add("(");
    }

    fn call(&mut self) {
        let called = self.routine.called;
        match called.first() {
            Some(first) => {
                let chosen = self.dice.pick(called, *first);
                self.call_of(chosen);
            }
            None => self.text.add(";\n"),
        }
    }

    /// Writes a branching by tests.
    fn choice(&mut self, below: u32) {
        self.next(&[Piece::Words("END_IF;\n")]);
        if self.dice.is_one_of(2) {
            self.next(&[Piece::Words("ELSE\n"), Piece::List(below)]);
        }
        for _ in 0..self.dice.below(3) {
            self.next(&[
                Piece::Words("ELSIF "),
                Piece::Expr(Kind::Bool, 2),
                Piece::Words(" THEN\n"),
                Piece::List(below),
            ]);
        }
        self.next(&[
            Piece::Words("IF "),
            Piece::Expr(Kind::Bool, 2),
            Piece::Words(" THEN\n"),
            Piece::List(below),
        ]);
    }

    /// Writes a branching by labels.
    fn labelled(&mut self, below: u32) {
        self.next(&[Piece::Words("END_CASE;\n")]);
        if self.dice.is_one_of(2) {
            self.next(&[Piece::Words("ELSE\n"), Piece::List(below)]);
        }
        for _ in 0..self.dice.below(4) + 1 {
            let labels = self.dice.pick(LABELS, "0: ");
            self.next(&[Piece::Words(labels), Piece::List(below)]);
        }
        let end = self
            .dice
            .pick(&[" OF\n", " MOD 9 OF\n", " MOD 4 OF\n"], " OF\n");
        self.next(&[
            Piece::Words("CASE "),
            Piece::Expr(Kind::Dint, 2),
            Piece::Words(end),
        ]);
    }

    /// Writes a loop.
    fn turns(&mut self, below: u32) {
        let from = if self.dice.is_one_of(12) {
            FAR_BOUNDS
        } else {
            BOUNDS
        };
        let bounds = self.dice.pick(from, "");
        self.next(&[
            Piece::Words("FOR "),
            Piece::Words(control(below)),
            Piece::Words(bounds),
            Piece::List(below),
            Piece::Words("END_FOR;\n"),
        ]);
    }

    /// Writes a statement at most so deep.
    fn statement(&mut self, depth: u32) {
        let chosen = self.dice.below(16);
        if depth == 0 || chosen < 8 {
            return match chosen {
                0 | 1 => self.call(),
                2 => self.text.add(";\n"),
                _ => self.assignment(),
            };
        }
        let below = depth - 1;
        match chosen {
            8 | 9 => self.call(),
            10 | 11 => self.choice(below),
            12 | 13 => self.labelled(below),
            _ => self.turns(below),
        }
    }

    /// Has a list of statements written, perhaps an empty one.
    fn list(&mut self, depth: u32) {
        let length = self.dice.below(self.routine.length.max(1)) + 1;
        for _ in 0..length {
            self.wait(Piece::Stmt(depth));
        }
    }

    fn write(&mut self, piece: Piece) {
        match piece {
            Piece::Words(words) => self.text.add(words),
            Piece::Target(name) => self.name(name, self.groups.assigned),
            Piece::Expr(kind, depth) => self.expression(kind, depth),
            Piece::Index(row) => self.index(row),
            Piece::List(depth) => self.list(depth),
            Piece::Stmt(depth) => self.statement(depth),
            Piece::Call(called) => self.call_of(called),
        }
    }

    fn write_all(&mut self) {
        for _ in 0..MOST {
            match self.pieces.pop() {
                Some(piece) => self.write(piece),
                None => return,
            }
        }
    }
}

/// Adds a routine with a random body, which calls each of its blocks at least once.
fn push_routine(alloc: Global, dice: &mut Dice, text: &mut Page, routine: Routine, groups: Groups) {
    text.add(routine.head);
    let mut writer = Writer {
        dice,
        routine,
        groups,
        text,
        pieces: Vec::new(alloc),
    };
    writer.next(&[Piece::List(routine.depth)]);
    for called in routine.called {
        writer.next(&[Piece::List(routine.depth), Piece::Call(*called)]);
    }
    writer.write_all();
    writer.text.add(routine.end);
}

/// The groups of the block types: the first one, or one time in two none.
fn groups_of_blocks(dice: &mut Dice) -> Groups {
    let group = dice.pick(&["0", ""], "");
    Groups {
        read: group,
        assigned: group,
    }
}

fn groups_of_program(dice: &mut Dice) -> Groups {
    Groups {
        read: dice.pick(GROUPS, ""),
        assigned: dice.pick(GROUPS, ""),
    }
}

/// A program without its name, one of so many.
fn program(dice: &mut Dice, many: u32) -> Routine {
    let chosen = dice.pick(PROGRAMS, THIRD);
    let depth = if many > 4 { 2 } else { chosen.depth };
    Routine { depth, ..chosen }
}

/// A random source: two block types, and 2 to 12 programs with random bodies, which share some of the globals.
pub fn source(alloc: Global, dice: &mut Dice) -> Result<Vec<u8>, AllocError> {
    let mut text = Page::new(alloc);
    text.add(GLOBALS);
    let groups = groups_of_blocks(dice);
    for block in BLOCKS {
        push_routine(alloc, dice, &mut text, block, groups);
    }
    let many = dice.below(11) + 2;
    for name in NAMES.iter().take(many as usize) {
        text.add(name);
        let routine = program(dice, many);
        let groups = groups_of_program(dice);
        push_routine(alloc, dice, &mut text, routine, groups);
    }
    text.end()
}

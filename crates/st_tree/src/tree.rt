//! Expressions and statements.

use plant_types::{Bounds, Value};

/// A literal as it is written (IEC 61131-3).
#[derive(Clone, Copy, Drop)]
pub enum Literal {
    /// An integer without a type prefix, a sign or parentheses. It is a DINT; where only 0 or 1 is assigned to a BOOL, it is FALSE or TRUE (this profile).
    Integer(i32),
    /// Any other literal: a truth, a duration, a DINT with its type prefix, and an integer with a sign or in parentheses.
    Value(Value),
}

/// An operator with one operand (IEC 61131-3).
#[derive(Clone, Copy, Drop)]
pub enum Unary {
    /// `NOT`, of a BOOL.
    Not,
    /// `-`, of a DINT. A parser writes it for every unary `-`.
    Negate,
    /// `-`, of a TIME.
    NegateTime,
}

/// An operator with two operands (IEC 61131-3).
#[derive(Clone, Copy, Drop)]
pub enum Binary {
    /// `AND` and `&`, of two BOOLs.
    And,
    /// `XOR`, of two BOOLs.
    Xor,
    /// `OR`, of two BOOLs.
    Or,
    /// `=`, of two values of one kind.
    Equal,
    /// `<>`, of two values of one kind.
    Unequal,
    /// `<`, of two DINTs or two TIMEs.
    Less,
    /// `>`, of two DINTs or two TIMEs.
    Greater,
    /// `<=`, of two DINTs or two TIMEs.
    AtMost,
    /// `>=`, of two DINTs or two TIMEs.
    AtLeast,
    /// `+`, of two DINTs. A parser writes it for every `+`.
    Add,
    /// `+`, of two TIMEs.
    AddTime,
    /// `-`, of two DINTs. A parser writes it for every `-`.
    Subtract,
    /// `-`, of two TIMEs.
    SubtractTime,
    /// `*`, of two DINTs.
    Multiply,
    /// `/`, of two DINTs.
    Divide,
    /// `MOD`, of two DINTs.
    Mod,
}

/// An expression over variables of the type `V`. Parentheses leave no trace, except that an integer in them is a `Literal::Value`.
#[derive(Drop)]
pub enum Expr<V> {
    Literal(Literal),
    /// The value of a variable.
    Read(V),
    /// `instance.output`: an output of a block's instance.
    Output(V, V),
    /// `array[index]`: an element of an array with these bounds. A parser writes 0..0 for all bounds.
    Element(V, Bounds, Box<Expr<V>>),
    Unary(Unary, Box<Expr<V>>),
    Binary(Binary, Box<Expr<V>>, Box<Expr<V>>),
}

/// An argument of a call, as it is written.
#[derive(Drop)]
pub enum Argument<V> {
    /// `input := expression`
    Input(V, Expr<V>),
    /// `output => variable`
    Output(V, V),
}

/// A label of a `CASE`: the numbers from `low` to `high`. A single number is both.
#[derive(Clone, Copy, Drop)]
pub struct Label {
    pub low: i64,
    pub high: i64,
}

/// A test of an `IF`, and the statements that run where it is the first that is TRUE.
#[derive(Drop)]
#[cycle(stmt)]
pub struct Branch<V> {
    pub test: Expr<V>,
    pub body: Vec<Stmt<V>>,
}

/// Labels of a `CASE`, and the statements that run where they are the first with one that fits.
#[derive(Drop)]
#[cycle(stmt)]
pub struct Choice<V> {
    pub labels: Vec<Label>,
    pub body: Vec<Stmt<V>>,
}

/// A statement over variables of the type `V`.
///
/// Each has a number: the statements of a body, nested and empty ones too, are numbered from 1 in the order of their first tokens.
/// A parser writes 0 for every number.
#[derive(Drop)]
#[cycle(stmt)]
pub enum Stmt<V> {
    /// An empty statement: only a `;`.
    Empty(u32),
    /// `variable := expression`
    Assign(u32, V, Expr<V>),
    /// `array[index] := value`, of an array with these bounds. A parser writes 0..0 for all bounds.
    Store {
        number: u32,
        array: V,
        bounds: Bounds,
        index: Expr<V>,
        value: Expr<V>,
    },
    /// `instance(arguments)`
    Call(u32, V, Vec<Argument<V>>),
    /// `IF`, its branches (those of `ELSIF` too) and the body of `ELSE`, which is empty if none is written.
    If(u32, Vec<Branch<V>>, Vec<Stmt<V>>),
    /// `CASE`, its selector, its choices and the body of `ELSE`, which is empty if none is written.
    Case(u32, Expr<V>, Vec<Choice<V>>, Vec<Stmt<V>>),
    /// `FOR` with its control variable, its bounds, its step, if one is written after `BY`, and its body.
    For {
        number: u32,
        variable: V,
        from: Expr<V>,
        to: Expr<V>,
        by: Option<Expr<V>>,
        body: Vec<Stmt<V>>,
    },
}

//! What a walk has found of an expression.

use plant_types::{Kind, Trap};

/// What an expression is at its top.
#[derive(Clone, Copy, PartialEq, Eq, Drop)]
pub enum Form {
    /// The integer 0 or 1, as it is written.
    Bit,
    Literal,
    /// A comparison by order, as `a < b`.
    Order,
    /// Another comparison, or comparisons beside AND, OR and XOR.
    Comparison,
    Other,
}

/// What is known of the value of an expression.
#[derive(Clone, Copy, Drop)]
pub enum Worth {
    /// It reads a variable or an output, first at the token of a number.
    Varies(usize),
    /// It is constant.
    Is(i64),
    /// It is constant and has no value, by the operator at the token of a number.
    Traps(usize, Trap),
}

/// An expression: its kind, where that is known, the number of its first token and of the one behind its last, and its value.
#[derive(Clone, Copy, Drop)]
pub struct Operand {
    pub kind: Option<Kind>,
    pub tokens: (usize, usize),
    pub form: Form,
    pub worth: Worth,
}

impl Operand {
    /// What reads a variable or an output, and of which the kind isn't known.
    pub fn varies(tokens: (usize, usize)) -> Operand {
        Operand {
            kind: None,
            tokens,
            form: Form::Other,
            worth: Worth::Varies(tokens.0),
        }
    }
}

//! What a token is.

use plant_types::Region;

/// A word with a meaning of its own; letter case has none (IEC 61131-3).
#[derive(Clone, Copy, Debug, PartialEq, Eq, Drop)]
pub enum Keyword {
    And,
    Array,
    At,
    Bool,
    By,
    Case,
    Dint,
    Do,
    Else,
    Elsif,
    EndCase,
    EndFor,
    EndFunctionBlock,
    EndIf,
    EndProgram,
    EndVar,
    False,
    For,
    FunctionBlock,
    If,
    Mod,
    Not,
    Of,
    Or,
    Program,
    Then,
    Time,
    To,
    True,
    Var,
    VarExternal,
    VarGlobal,
    VarInput,
    VarOutput,
    Xor,
}

/// A symbol of one byte or two.
#[derive(Clone, Copy, Debug, PartialEq, Eq, Drop)]
pub enum Symbol {
    /// `:=`
    Becomes,
    /// `=>`
    Gives,
    /// `<=`
    AtMost,
    /// `>=`
    AtLeast,
    /// `<>`
    Unequal,
    /// `..`
    Range,
    /// `:`
    Colon,
    /// `;`
    Semicolon,
    /// `,`
    Comma,
    /// `(`
    Open,
    /// `)`
    Close,
    /// `[`
    OpenBracket,
    /// `]`
    CloseBracket,
    /// `.`
    Point,
    /// `+`
    Plus,
    /// `-`
    Minus,
    /// `*`
    Times,
    /// `/`
    Divide,
    /// `&`
    Ampersand,
    /// `=`
    Equal,
    /// `<`
    Less,
    /// `>`
    Greater,
}

/// The kind of a token, with the value of a literal.
#[derive(Clone, Copy, Debug, PartialEq, Eq, Drop)]
pub enum TokenKind {
    /// A word that is no keyword.
    Word,
    Keyword(Keyword),
    /// A whole number without a sign, of base 2, 8, 10 or 16, at most 2147483648.
    Integer(u32),
    /// `DINT#` and a number of 32 bits with its sign.
    Dint(i32),
    /// `BOOL#` and 1 or TRUE, 0 or FALSE.
    Truth(bool),
    /// `T#` or `TIME#` and a duration, in milliseconds.
    Duration(i64),
    Address(Region),
    Symbol(Symbol),
}

/// A token: its kind, and its bytes in the text, from `from` to before `until`.
#[derive(Clone, Copy, Drop)]
pub struct Token {
    pub kind: TokenKind,
    pub from: usize,
    pub until: usize,
}

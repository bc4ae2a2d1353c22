//! The tokens of a text, and their signs.

use crate::cause::part;
use st_lexer::{Keyword, LexFault, Token, TokenKind, lex};
use std::alloc::{AllocError, Global};
use std::str;

/// The tokens of a text; none where it has a fault.
pub fn tokens_of(alloc: Global, text: &[u8]) -> Result<Vec<Token>, AllocError> {
    match lex(alloc, text) {
        Ok(tokens) => Ok(tokens),
        Err(LexFault::Memory) => Err(AllocError),
        Err(_) => Ok(Vec::new(alloc)),
    }
}

/// How keywords are spelled, in their order.
const KEYWORDS: [&str; 35] = [
    "AND",
    "ARRAY",
    "AT",
    "BOOL",
    "BY",
    "CASE",
    "DINT",
    "DO",
    "ELSE",
    "ELSIF",
    "END_CASE",
    "END_FOR",
    "END_FUNCTION_BLOCK",
    "END_IF",
    "END_PROGRAM",
    "END_VAR",
    "FALSE",
    "FOR",
    "FUNCTION_BLOCK",
    "IF",
    "MOD",
    "NOT",
    "OF",
    "OR",
    "PROGRAM",
    "THEN",
    "TIME",
    "TO",
    "TRUE",
    "VAR",
    "VAR_EXTERNAL",
    "VAR_GLOBAL",
    "VAR_INPUT",
    "VAR_OUTPUT",
    "XOR",
];

/// How symbols are spelled, in their order.
const SYMBOLS: [&str; 22] = [
    ":=", "=>", "<=", ">=", "<>", "..", ":", ";", ",", "(", ")", "[", "]", ".", "+", "-", "*", "/",
    "&", "=", "<", ">",
];

/// The sign of a kind of tokens: `word`, `int` (without a type before it), `literal` or `address`; of keywords, in capitals, and of symbols how they are
/// spelled.
pub fn sign_of(kind: TokenKind) -> &'static str {
    match kind {
        TokenKind::Word => "word",
        TokenKind::Integer(_) => "int",
        TokenKind::Dint(_) | TokenKind::Truth(_) | TokenKind::Duration(_) => "literal",
        TokenKind::Address(_) => "address",
        TokenKind::Keyword(keyword) => KEYWORDS.get(keyword as usize).copied().unwrap_or(""),
        TokenKind::Symbol(symbol) => SYMBOLS.get(symbol as usize).copied().unwrap_or(""),
    }
}

/// What a keyword does to those that stand in one another.
#[derive(Clone, Copy, Drop)]
pub(crate) enum Nesting {
    /// It opens a statement, a section or a unit.
    Opens,
    /// It closes one.
    Closes,
}

/// What a kind of tokens does to those that stand in one another; `None` of one that opens and closes nothing.
pub(crate) fn nesting_of(kind: TokenKind) -> Option<Nesting> {
    let TokenKind::Keyword(keyword) = kind else {
        return None;
    };
    match keyword {
        Keyword::If | Keyword::Case | Keyword::For => Some(Nesting::Opens),
        Keyword::Program | Keyword::FunctionBlock => Some(Nesting::Opens),
        Keyword::Var | Keyword::VarExternal | Keyword::VarGlobal => Some(Nesting::Opens),
        Keyword::VarInput | Keyword::VarOutput => Some(Nesting::Opens),
        Keyword::EndIf | Keyword::EndCase | Keyword::EndFor => Some(Nesting::Closes),
        Keyword::EndVar | Keyword::EndProgram => Some(Nesting::Closes),
        Keyword::EndFunctionBlock => Some(Nesting::Closes),
        _ => None,
    }
}

/// The sign of the token of a number; empty where there is none.
pub fn sign_at(tokens: &[Token], number: usize) -> &'static str {
    tokens.get(number).map_or("", |token| sign_of(token.kind))
}

/// The sign of the token so many before that of a number; empty where there is none.
pub fn sign_before(tokens: &[Token], number: usize, back: usize) -> &'static str {
    number
        .checked_sub(back)
        .map_or("", |number| sign_at(tokens, number))
}

/// Whether a sign is that of a keyword which opens a section of declarations.
pub fn opens_section(sign: &str) -> bool {
    sign.starts_with("VAR")
}

/// Where the token of a number begins, or where the text ends if there is none.
pub fn start_of(text: &[u8], tokens: &[Token], number: usize) -> usize {
    tokens.get(number).map_or(text.len(), |token| token.from)
}

/// The bytes of tokens, from the one of a number to before another: from which to before which.
pub fn span_of(text: &[u8], tokens: &[Token], first: usize, last: usize) -> (usize, usize) {
    let from = start_of(text, tokens, first);
    let last = tokens.get(last.saturating_sub(1));
    (from, last.map_or(from, |token| token.until.max(from)))
}

/// The text of the token of a number, where it is UTF-8; else it is empty.
pub fn word_at<'a>(text: &'a [u8], tokens: &[Token], number: usize) -> &'a str {
    let (from, until) = span_of(text, tokens, number, number.saturating_add(1));
    str::from_utf8(part(text, from, until)).unwrap_or("")
}

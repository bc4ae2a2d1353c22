//! How keywords and symbols are spelled.

ghost use Rattle.std.specs.Prelude.{◌≡◌};
ghost use Rattle.st_lexer.specs.Reading.{keyword_of, single_symbol, double_symbol};
ghost use Rattle.st_lexer.specs.Tables.{spelling};

use crate::token::{Keyword, Symbol};
use plant_types::same_word;

/// Every keyword.
const KEYWORDS: [Keyword; 35] = [
    Keyword::And,
    Keyword::Array,
    Keyword::At,
    Keyword::Bool,
    Keyword::By,
    Keyword::Case,
    Keyword::Dint,
    Keyword::Do,
    Keyword::Else,
    Keyword::Elsif,
    Keyword::EndCase,
    Keyword::EndFor,
    Keyword::EndFunctionBlock,
    Keyword::EndIf,
    Keyword::EndProgram,
    Keyword::EndVar,
    Keyword::False,
    Keyword::For,
    Keyword::FunctionBlock,
    Keyword::If,
    Keyword::Mod,
    Keyword::Not,
    Keyword::Of,
    Keyword::Or,
    Keyword::Program,
    Keyword::Then,
    Keyword::Time,
    Keyword::To,
    Keyword::True,
    Keyword::Var,
    Keyword::VarExternal,
    Keyword::VarGlobal,
    Keyword::VarInput,
    Keyword::VarOutput,
    Keyword::Xor,
];

/// How a keyword is spelled, in capitals.
pub fn spelling(keyword: Keyword) -> &'static [u8]
    ensures { result.now ≡ spelling keyword }
{
    match keyword {
        Keyword::And => b"AND",
        Keyword::Array => b"ARRAY",
        Keyword::At => b"AT",
        Keyword::Bool => b"BOOL",
        Keyword::By => b"BY",
        Keyword::Case => b"CASE",
        Keyword::Dint => b"DINT",
        Keyword::Do => b"DO",
        Keyword::Else => b"ELSE",
        Keyword::Elsif => b"ELSIF",
        Keyword::EndCase => b"END_CASE",
        Keyword::EndFor => b"END_FOR",
        Keyword::EndFunctionBlock => b"END_FUNCTION_BLOCK",
        Keyword::EndIf => b"END_IF",
        Keyword::EndProgram => b"END_PROGRAM",
        Keyword::EndVar => b"END_VAR",
        Keyword::False => b"FALSE",
        Keyword::For => b"FOR",
        Keyword::FunctionBlock => b"FUNCTION_BLOCK",
        Keyword::If => b"IF",
        Keyword::Mod => b"MOD",
        Keyword::Not => b"NOT",
        Keyword::Of => b"OF",
        Keyword::Or => b"OR",
        Keyword::Program => b"PROGRAM",
        Keyword::Then => b"THEN",
        Keyword::Time => b"TIME",
        Keyword::To => b"TO",
        Keyword::True => b"TRUE",
        Keyword::Var => b"VAR",
        Keyword::VarExternal => b"VAR_EXTERNAL",
        Keyword::VarGlobal => b"VAR_GLOBAL",
        Keyword::VarInput => b"VAR_INPUT",
        Keyword::VarOutput => b"VAR_OUTPUT",
        Keyword::Xor => b"XOR",
    }
}

/// The keyword that a word is, in any letter case; `None` for any other word.
pub fn keyword_of(word: &[u8]) -> Option<Keyword>
    ensures { result ≡ keyword_of word.now }
{
    KEYWORDS
        .iter()
        .copied()
        .find(|k| same_word(word, spelling(*k)))
}

/// The symbol of one byte; `None` for any other byte.
#[tactic(auto, unfolding(crate::specs::Reading::single_symbol))]
pub fn single_symbol(byte: u8) -> Option<Symbol>
    ensures { result ≡ single_symbol byte }
{
    match byte {
        b':' => Some(Symbol::Colon),
        b';' => Some(Symbol::Semicolon),
        b',' => Some(Symbol::Comma),
        b'(' => Some(Symbol::Open),
        b')' => Some(Symbol::Close),
        b'[' => Some(Symbol::OpenBracket),
        b']' => Some(Symbol::CloseBracket),
        b'.' => Some(Symbol::Point),
        b'+' => Some(Symbol::Plus),
        b'-' => Some(Symbol::Minus),
        b'*' => Some(Symbol::Times),
        b'/' => Some(Symbol::Divide),
        b'&' => Some(Symbol::Ampersand),
        b'=' => Some(Symbol::Equal),
        b'<' => Some(Symbol::Less),
        b'>' => Some(Symbol::Greater),
        _ => None,
    }
}

/// The symbol of two bytes; `None` for any others.
#[tactic(auto, unfolding(crate::specs::Reading::double_symbol))]
pub fn double_symbol(first: u8, second: u8) -> Option<Symbol>
    ensures { result ≡ double_symbol first second }
{
    match (first, second) {
        (b':', b'=') => Some(Symbol::Becomes),
        (b'=', b'>') => Some(Symbol::Gives),
        (b'<', b'=') => Some(Symbol::AtMost),
        (b'>', b'=') => Some(Symbol::AtLeast),
        (b'<', b'>') => Some(Symbol::Unequal),
        (b'.', b'.') => Some(Symbol::Range),
        _ => None,
    }
}

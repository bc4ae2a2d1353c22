//! Where the words, literals and operators of a tree stand: a walk of the tree in order of text goes along the tokens of its source.

use explain_tokens::{part, sign_at, sign_before, sign_of, span_of, word_at};
use plant_types::Text;
use st_lexer::Token;
use std::str;

/// Of several tokens what has more bytes isn't quoted.
const LONGEST_QUOTE: usize = 48;

/// What is sought among tokens.
#[derive(Clone, Copy, Drop)]
pub enum Sought {
    /// A name that stands at a byte, and whether it is empty, as one is that was put in where a part of the text can't be read.
    Name(usize, bool),
    Literal,
    /// NOT, or a minus before its operand.
    Prefix,
    /// An operator, from the end of what stands before it on.
    Infix,
    /// What closes an index.
    CloseBracket,
}

/// Whether a token is what is sought.
fn is_sought(sought: Sought, token: &Token) -> bool {
    let sign = sign_of(token.kind);
    match sought {
        Sought::Name(at, is_empty) => token.from >= at && (token.from >= token.until) == is_empty,
        Sought::Literal => matches!(sign, "TRUE" | "FALSE" | "int" | "literal"),
        Sought::Prefix => matches!(sign, "NOT" | "-"),
        Sought::Infix => sign != ")",
        Sought::CloseBracket => sign == "]",
    }
}

/// How many parentheses tokens from one number to before another close that were opened before, and how many they leave open.
fn unmatched(tokens: &[Token], first: usize, behind: usize) -> (usize, usize) {
    let (mut closed, mut open) = (0usize, 0usize);
    for number in first..behind {
        match sign_at(tokens, number) {
            "(" => open = open.saturating_add(1),
            ")" if open == 0 => closed = closed.saturating_add(1),
            ")" => open = open.saturating_sub(1),
            _ => {}
        }
    }
    (closed, open)
}

/// The tokens of a source, and how far a walk of its tree has come.
#[derive(Clone, Copy, Drop)]
pub struct Cursor<'t> {
    text: &'t [u8],
    tokens: &'t [Token],
    next: usize,
}

impl<'t> Cursor<'t> {
    /// The beginning of a source.
    pub fn new(text: &'t [u8], tokens: &'t [Token]) -> Cursor<'t> {
        Cursor {
            text,
            tokens,
            next: 0,
        }
    }

    /// Goes past the next token that is sought, and returns its number.
    pub fn pass(&mut self, sought: Sought) -> usize {
        let rest = self.tokens.get(self.next..).unwrap_or(&[]);
        let Some(more) = rest.iter().position(|token| is_sought(sought, token)) else {
            return self.tokens.len();
        };
        let number = self.next.saturating_add(more);
        self.next = number.saturating_add(1);
        number
    }

    /// Goes past a name of the tree, and returns the number of its token.
    pub fn pass_name(&mut self, name: &Text) -> usize {
        self.pass(Sought::Name(name.at() as usize, name.as_bytes().is_empty()))
    }

    /// Goes past a label of a CASE, and returns the number of its first literal.
    pub fn pass_label(&mut self) -> usize {
        let number = self.pass(Sought::Literal);
        if sign_at(self.tokens, self.next) == ".." {
            self.pass(Sought::Literal);
        }
        number
    }

    /// The number of the first token of a literal that ends with the one of a number: its minus, where it has one.
    pub fn first_of(&self, number: usize, is_negative: bool) -> usize {
        let is_plain = sign_at(self.tokens, number) == "int";
        if is_negative && is_plain && sign_before(self.tokens, number, 1) == "-" {
            number.saturating_sub(1)
        } else {
            number
        }
    }

    /// The token of a number, as it is written.
    pub fn word(&self, number: usize) -> &'t str {
        word_at(self.text, self.tokens, number)
    }

    /// The bytes of the token of a number.
    pub fn mark(&self, number: usize) -> (usize, usize) {
        span_of(self.text, self.tokens, number, number.saturating_add(1))
    }

    /// The bytes of tokens, from the one of a number to before another, with the parentheses around them that belong to those among them.
    pub fn marks(&self, (first, behind): (usize, usize)) -> (usize, usize) {
        let (closed, open) = unmatched(self.tokens, first, behind);
        let first = first.saturating_sub(closed);
        let behind = behind.saturating_add(open);
        span_of(self.text, self.tokens, first, behind)
    }

    /// These tokens as they are written; empty where several are long or in several lines.
    pub fn quote(&self, (first, behind): (usize, usize)) -> &'t str {
        let (from, until) = self.marks((first, behind));
        let bytes = part(self.text, from, until);
        let is_short = bytes.len() <= LONGEST_QUOTE && !bytes.contains(&b'\n');
        if is_short || behind == first.saturating_add(1) {
            str::from_utf8(bytes).unwrap_or("")
        } else {
            ""
        }
    }

    /// The number of the line of a byte, from 1.
    pub fn line_of(text: &[u8], at: usize) -> usize {
        let before = text.get(..at).unwrap_or(b"");
        let breaks = before.iter().filter(|byte| **byte == b'\n').count();
        breaks.saturating_add(1)
    }
}

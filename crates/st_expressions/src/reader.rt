//! The tokens of a text that are not parsed yet.

ghost use Rattle.std.specs.Prelude.{◌≡◌, ◌∷◌, [], length, drop, IfOk, MatchOption};
ghost use Rattle.st_expressions.specs.Lexemes.{lexemes, lexeme_of, first_name, slice_of};
ghost use Rattle.st_expressions.specs.Reading.{word_at, is_symbol, is_keyword, is_word, symbol_at, keyword_at};
ghost use Rattle.st_expressions.specs.Outcome.{Returns};

use crate::stop::ParseStop;
use plant_types::Text;
use st_lexer::{Keyword, Symbol, Token, TokenKind};
use std::alloc::Global;
use std::marker::Model;

/// The tokens of a text that are not parsed yet. Contracts see their lexemes.
#[derive(Drop)]
pub struct Reader<'a> {
    text: &'a [u8],
    tokens: &'a [Token],
}

impl<'a> Model for Reader<'a> {
    ghost use Rattle.std.specs.Prelude.{List};
    ghost use Rattle.st_expressions.specs.Lexemes.{Lexeme, lexemes};

    ghost Value = { List Lexeme };

    ghost view = { λ r. lexemes r.text.now r.tokens.now };
}

impl<'a> Reader<'a> {
    /// All tokens of the text.
    pub fn new(text: &'a [u8], tokens: &'a [Token]) -> Reader<'a>
        ensures { result ≡ lexemes text.now tokens.now }
    {
        Reader { text, tokens }
    }

    /// The number of tokens that are left.
    pub fn left(&self) -> usize
        ensures { result ≡ length self.now }
    {
        self.tokens.len()
    }

    /// The fault at the next token.
    pub fn stop(&self) -> ParseStop
        ensures { result ≡ ParseStop.Left (length self.now) }
    {
        ParseStop::Left(self.tokens.len())
    }

    /// The kind of the next token; `None` at the end.
    pub fn peek(&self) -> Option<TokenKind>
        ensures { MatchOption result (self.now ≡ [])
            (λ kind. self.now ≡ lexeme_of kind (first_name self.now) ∷ drop 1 self.now) }
    {
        let (first, _rest) = self.tokens.split_first()?;
        let kind = first.kind;
        Some(kind)
    }

    /// Whether this symbol is next.
    pub fn is_symbol(&self, wanted: Symbol) -> bool
        ensures { result ≡ is_symbol wanted self.now }
    {
        match self.peek() {
            Some(TokenKind::Symbol(found)) => found == wanted,
            _ => false,
        }
    }

    /// Whether this keyword is next.
    pub fn is_keyword(&self, wanted: Keyword) -> bool
        ensures { result ≡ is_keyword wanted self.now }
    {
        match self.peek() {
            Some(TokenKind::Keyword(found)) => found == wanted,
            _ => false,
        }
    }

    /// Whether a word is next.
    pub fn is_word(&self) -> bool
        ensures { result ≡ is_word self.now }
    {
        match self.peek() {
            Some(TokenKind::Word) => true,
            _ => false,
        }
    }

    /// Goes past the next token, if there is one.
    pub fn advance(&mut self)
        ensures { self.new ≡ drop 1 self.old }
    {
        if let Some((_, rest)) = self.tokens.split_first() {
            self.tokens = rest;
        }
    }

    /// Goes past this symbol; fails if another token is next.
    pub fn symbol(&mut self, wanted: Symbol) -> Result<(), ParseStop>
        ensures { Returns (λ _. self.new) result (symbol_at wanted self.old) }
    {
        if self.is_symbol(wanted) {
            self.advance();
            Ok(())
        } else {
            Err(self.stop())
        }
    }

    /// Goes past this keyword; fails if another token is next.
    pub fn keyword(&mut self, wanted: Keyword) -> Result<(), ParseStop>
        ensures { Returns (λ _. self.new) result (keyword_at wanted self.old) }
    {
        if self.is_keyword(wanted) {
            self.advance();
            Ok(())
        } else {
            Err(self.stop())
        }
    }

    /// Goes past this symbol, which stands after what was parsed, and returns that; lets it go and fails if another token is next.
    pub fn symbol_after<T: Drop>(&mut self, parsed: T, wanted: Symbol) -> Result<T, ParseStop>
        ensures read { Returns (λ _. self.new) result (symbol_at wanted self.old) }
        ensures kept { IfOk result (λ kept. kept ≡ parsed) }
    {
        self.symbol(wanted)?;
        Ok(parsed)
    }

    /// Goes past this keyword, which stands after what was parsed, and returns that; lets it go and fails if another token is next.
    pub fn keyword_after<T: Drop>(&mut self, parsed: T, wanted: Keyword) -> Result<T, ParseStop>
        ensures read { Returns (λ _. self.new) result (keyword_at wanted self.old) }
        ensures kept { IfOk result (λ kept. kept ≡ parsed) }
    {
        self.keyword(wanted)?;
        Ok(parsed)
    }

    /// Parses a word, and returns it as it is spelled.
    pub fn word(&mut self, alloc: Global) -> Result<Text, ParseStop>
        ensures { Returns (λ name. (name, self.new)) result (word_at self.old) }
    {
        let Some((first, rest)) = self.tokens.split_first() else {
            return Err(self.stop());
        };
        match first.kind {
            TokenKind::Word => {
                let name = String::from_utf8_lossy(alloc, span(self.text, *first))?;
                self.tokens = rest;
                let at = match u32::try_from(first.from) {
                    Ok(at) => at,
                    Err(_) => 0,
                };
                Ok(Text::new(name).placed(at))
            }
            _ => Err(self.stop()),
        }
    }
}

/// The bytes of a token; none for a token outside the text.
fn span(text: &[u8], token: Token) -> &[u8]
    ensures { result.now ≡ slice_of text.now token.from token.until }
{
    match text.get(token.from..token.until) {
        Some(bytes) => bytes,
        None => &[],
    }
}

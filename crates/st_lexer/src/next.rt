//! The next piece of a text.

ghost use Rattle.std.specs.Prelude.{◌≡◌, ◌<◌, ◌≤◌, ◌^◌, ◌+◌, length, IfSome, IfNone, option_map};
ghost use Rattle.st_lexer.specs.Pieces.{IsNext, IsOver};
ghost use Rattle.st_lexer.specs.ReadingLiterals.{tied_len, lettered_len};
ghost use Rattle.st_lexer.specs.Reading.{word_or_literal, front_token, integer_token, next_address, next_mark, symbol_piece, as_symbol, as_comment, single_symbol, next_piece};

use crate::addresses::parse_address;
use crate::bytes::{First, first_of, stands_apart, tied_len};
use crate::comments::{closing_len, line_len};
use crate::literals::{lettered_len, parse_literal};
use crate::numbers::parse_integer;
use crate::piece::Piece;
use crate::tables::{double_symbol, keyword_of, single_symbol};
use crate::token::{Symbol, TokenKind};
use plant_types::is_name;

// The token of a piece that begins with a letter: a word, a keyword or a literal; `None` where it is none of these.
#[tactic(auto, unfolding(crate::specs::Reading::word_or_literal))]
fn word_or_literal(piece: &[u8]) -> Option<TokenKind>
    ensures { result ≡ word_or_literal piece.now }
{
    if !is_name(piece) {
        return parse_literal(piece);
    }
    match keyword_of(piece) {
        Some(keyword) => Some(TokenKind::Keyword(keyword)),
        None => Some(TokenKind::Word),
    }
}

// The word, keyword or literal at the front of a text, and its length.
#[tactic(auto, unfolding(crate::specs::Reading::front_token))]
fn next_lettered(text: &[u8]) -> Option<(Piece, usize)>
    ensures { result ≡ front_token lettered_len word_or_literal text.now }
{
    let n = lettered_len(text);
    let (piece, _) = text.split_at(n);
    let kind = word_or_literal(piece)?;
    Some((Piece::Token(kind), n))
}

// The whole number at the front of a text, and its length.
#[tactic(auto, unfolding(crate::specs::Reading::front_token))]
fn next_integer(text: &[u8]) -> Option<(Piece, usize)>
    ensures { result ≡ front_token tied_len integer_token text.now }
{
    let n = tied_len(text);
    let (piece, _) = text.split_at(n);
    let value = parse_integer(piece)?;
    Some((Piece::Token(TokenKind::Integer(value)), n))
}

// The address whose `%` is split off, and its length with it.
#[tactic(auto, unfolding(crate::specs::Reading::next_address))]
fn next_address(rest: &[u8]) -> Option<(Piece, usize)>
    requires { length rest.now + 1 < 2 ^ 64 }
    ensures { result ≡ next_address rest.now }
{
    let (region, n) = parse_address(rest)?;
    if stands_apart(&rest[n..]) {
        Some((Piece::Token(TokenKind::Address(region)), n + 1))
    } else {
        None
    }
}

// The comment of so many bytes after its two opening bytes, if it ends.
fn comment_piece(inner: Option<usize>) -> Option<(Piece, usize)>
    requires { IfSome inner (λ n. n + 2 < 2 ^ 64) }
    ensures { result ≡ option_map as_comment inner }
{
    Some((Piece::Comment, inner? + 2))
}

// The symbol of one byte.
fn one_byte_symbol(first: u8) -> Option<(Piece, usize)>
    ensures { result ≡ option_map (as_symbol 1) (single_symbol first) }
{
    let symbol = single_symbol(first)?;
    Some((Piece::Token(TokenKind::Symbol(symbol)), 1))
}

// The symbol of two bytes, or else of the first one.
#[tactic(auto, unfolding(crate::specs::Reading::symbol_piece))]
fn symbol_piece(first: u8, second: u8) -> Option<(Piece, usize)>
    ensures { result ≡ symbol_piece first second }
{
    match double_symbol(first, second) {
        Some(symbol) => Some((Piece::Token(TokenKind::Symbol(symbol)), 2)),
        None => one_byte_symbol(first),
    }
}

// The comment or the symbol that a text begins with, of which the first byte is split off.
fn next_mark(first: u8, rest: &[u8]) -> Option<(Piece, usize)>
    requires { length rest.now + 1 < 2 ^ 64 }
    ensures { result ≡ next_mark first rest.now }
{
    let Some((second, inner)) = rest.split_first() else {
        return one_byte_symbol(first);
    };
    match (first, *second) {
        (b'(', b'*') => comment_piece(closing_len(b')', inner)),
        (b'/', b'*') => comment_piece(closing_len(b'/', inner)),
        (b'/', b'/') => comment_piece(Some(line_len(inner))),
        (first, second) => symbol_piece(first, second),
    }
}

// The next piece of a text and its length, by its first byte.
fn next_piece(text: &[u8]) -> Option<(Piece, usize)>
    ensures { result ≡ next_piece text.now }
{
    let (first, rest) = text.split_first()?;
    match first_of(*first) {
        First::Blank => Some((Piece::Blank, 1)),
        First::Letter => next_lettered(text),
        First::Digit => next_integer(text),
        First::Percent => next_address(rest),
        First::Mark => next_mark(*first, rest),
    }
}

/// The next piece of a text and its length; `None` where no piece is next.
pub fn next(text: &[u8]) -> Option<(Piece, usize)>
    ensures found { IfSome result (λ r. IsNext text.now r.0 r.1) }
    ensures some { IfSome result (λ r. 0 < r.1) }
    ensures none { IfNone result (IsOver text.now) }
{
    next_piece(text)
}

//! The tokens of a text.

ghost use Rattle.std.specs.Prelude.{◌≡◌, ℕ, List, [], ◌∷◌, ◌++◌, ◌+◌, ◌<◌, ◌≤◌, ◌^◌, length, All, IfOk, IfErr, OnOk, count_by, ◌==◌, not};
ghost use Rattle.std.specs.List.{suffix_len};
ghost use Rattle.st_lexer.specs.Lexes.{Lexes, Stops, IsTokenOf, IfBad, tokens_of};

use crate::next::next;
use crate::piece::Piece;
use crate::places::{mark_len, place_after};
use crate::token::Token;
use std::alloc::{AllocFailed, Global};

/// Why a text has no tokens.
#[derive(Clone, Copy, Drop)]
pub enum LexFault {
    /// Memory was refused.
    Memory,
    /// What stands at this line and column begins no token and no separator: another byte, a literal that is not allowed,
    /// or an open comment. Both count from 1, and the column in bytes.
    Bad { line: usize, column: usize },
}

impl<T: Drop> From<AllocFailed<T>> for LexFault {
    ghost use Rattle.std.specs.Prelude.{◌≡◌};
    ghost use Rattle.st_lexer.specs.declared.lexer.LexFault.TheVariants.{Memory};

    ghost from_gives = { λ _ e. e ≡ Memory };

    fn from(_: AllocFailed<T>) -> LexFault {
        LexFault::Memory
    }
}

// Adds the token that a piece is, if it is one.
fn push_piece(tokens: &mut Vec<Token>, piece: Piece, from: usize, n: usize) -> Result<(), LexFault>
    requires { from + n < 2 ^ 64 }
    ensures kept { OnOk result
        (tokens.new.items ≡ tokens.old.items ++ tokens_of from ((piece, n) ∷ [])) }
    ensures fault { IfErr result (λ e. e ≡ LexFault.Memory) }
{
    match piece {
        Piece::Blank | Piece::Comment => {}
        Piece::Token(kind) => tokens.push(Token {
            kind,
            from,
            until: from + n,
        })?,
    }
    Ok(())
}

// The fault of a text in which no piece follows these bytes.
fn bad(before: &[u8]) -> LexFault
    ensures { result
        ≡ LexFault.Bad (count_by (λ b. b == 10) before.now + 1)
        (suffix_len (λ b. not (b == 10)) before.now + 1) }
{
    let (line, column) = place_after(before);
    LexFault::Bad { line, column }
}

/// The tokens of a text, or the place where no piece is next.
///
/// A text is separators and tokens in turn, each the longest that fits; a byte order mark at its start is skipped.
/// A token's place is counted in bytes of the text as it was passed in. `Bad` is returned exactly where the text is not so,
/// `Memory` only where memory was refused.
pub fn lex(alloc: Global, text: &[u8]) -> Result<Vec<Token>, LexFault>
    // The text is a list of pieces, and these are its tokens.
    ensures found { IfOk result (λ tokens. Lexes text.now tokens.items) }
    // Each token's bytes are a slice of the text, and spell its kind.
    ensures each { IfOk result (λ tokens. All (IsTokenOf text.now) tokens.items) }
    // Taken from the start, no piece is next at this place.
    ensures bad { IfBad result (Stops text.now) }
{
    let skipped = mark_len(text);
    let (_, body) = text.split_at(skipped);
    let mut tokens = Vec::new(alloc);
    let mut at = 0;
    let mut rest = body;
    'pieces: while !rest.is_empty() {
        let Some((piece, n)) = next(rest) else {
            return Err(bad(&body[..at]));
        };
        let (_, after) = rest.split_at(n);
        push_piece(&mut tokens, piece, skipped + at, n)?;
        at += n;
        rest = after;
    }
    Ok(tokens)
}

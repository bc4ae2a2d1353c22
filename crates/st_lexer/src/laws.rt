//! Laws of the definitions: a text has one answer, and a word is its own spelling.

ghost use Rattle.std.specs.Prelude.{◌≡◌, ◌⊎◌, ℕ, List, slice_range};
ghost use Rattle.std.specs.Str.Lossy.{utf8_lossy};
ghost use Rattle.st_lexer.specs.declared.piece.Piece.{Piece};
ghost use Rattle.st_lexer.specs.declared.token.Token.{Token};
ghost use Rattle.st_lexer.specs.Pieces.{Cut, IsOver};
ghost use Rattle.st_lexer.specs.Lexes.{IsTokenOf, Lexes, Stops};

use crate::token::TokenKind;

/// A text is cut in one way: up to where no piece is next, the pieces and what is left after them are always the same.
pub fn one_cut()
    ensures { (text rest other : List ℕ) (ps qs : List (Piece × ℕ)) → Cut text ps rest → IsOver rest
        → Cut text qs other → IsOver other → (ps ≡ qs) × (rest ≡ other) }
{}

/// A text has at most one list of tokens and at most one place where it has none, and never both.
pub fn one_answer()
    ensures tokens { (text : List ℕ) (tokens others : List Token) → Lexes text tokens → Lexes text others
        → tokens ≡ others }
    ensures place { (text : List ℕ) (line column other_line other_column : ℕ) → Stops text line column
        → Stops text other_line other_column → (line ≡ other_line) × (column ≡ other_column) }
    ensures apart { (text : List ℕ) (tokens : List Token) (line column : ℕ) → Lexes text tokens
        → Stops text line column → ⊥ }
{}

/// Every text has tokens, or a place where it has none.
pub fn some_answer()
    ensures { (text : List ℕ)
        → ((tokens : List Token) × Lexes text tokens)
        ⊎ ((line : ℕ) × (column : ℕ) × Stops text line column) }
{}

/// The bytes of a word are text: decoded from UTF-8, they are the word as it stands.
pub fn word_spelling()
    ensures { (text : List ℕ) (token : Token) → IsTokenOf text token → token.kind ≡ TokenKind.Word
        → utf8_lossy (slice_range text token.from token.until)
        ≡ slice_range text token.from token.until }
{}

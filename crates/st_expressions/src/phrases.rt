//! Phrases that stand one after another.

ghost use Rattle.std.specs.Prelude.{Bool, List, [], ◌∷◌, Option, map, option_map};
ghost use Rattle.st_expressions.specs.Lexemes.{Lexeme};
ghost use Rattle.st_expressions.specs.Outcome.{Returns};
ghost use Rattle.st_expressions.specs.Reading.{with_first, all_at, perhaps_at};

use crate::reader::Reader;
use crate::stop::ParseStop;
use std::alloc::Global;

/// A phrase of which several may stand one after another.
pub trait Phrase {
    /// What it is parsed as.
    type Tree: Drop;

    // the plain view of one, and its type
    ghost Plain: { Type 0 };

    ghost view: { Self.Tree → Plain };

    // whether one is next, and the one at the front with the lexemes after it
    ghost starts: { Self → List Lexeme → Bool };

    ghost one_at: { Self → List Lexeme → Option (Plain × List Lexeme) };

    /// Parses one, if one is next; `None` otherwise.
    fn parse(&self, alloc: Global, reader: &mut Reader) -> Result<Option<Self::Tree>, ParseStop>
        ensures { Returns (λ tree. (option_map view tree, reader.new)) result
            (perhaps_at (starts self.now) (one_at self.now) reader.old) };
}

/// Parses as many phrases as there are, and puts them after those in `before`.
fn parse_more<P: Phrase>(
    alloc: Global,
    phrase: &P,
    before: Vec<P::Tree>,
    reader: &mut Reader,
) -> Result<Vec<P::Tree>, ParseStop>
    ensures { Returns (λ all. (map P.view all.items, reader.new)) result
        (with_first (map P.view before.items)
        (all_at (P.starts phrase.now) (P.one_at phrase.now) reader.old)) }
{
    let mut all = before;
    // Each takes at least one token.
    for _turn in 0..reader.left() {
        match phrase.parse(alloc, reader)? {
            Some(tree) => all.push(tree)?,
            None => return Ok(all),
        }
    }
    match phrase.parse(alloc, reader)? {
        Some(_) => Err(reader.stop()),
        None => Ok(all),
    }
}

/// Parses as many phrases as there are.
pub fn parse_all<P: Phrase>(
    alloc: Global,
    phrase: &P,
    reader: &mut Reader,
) -> Result<Vec<P::Tree>, ParseStop>
    ensures { Returns (λ all. (map P.view all.items, reader.new)) result
        (all_at (P.starts phrase.now) (P.one_at phrase.now) reader.old) }
{
    parse_more(alloc, phrase, Vec::new(alloc), reader)
}

/// Parses as many phrases as there are after a first one.
pub fn parse_after<P: Phrase>(
    alloc: Global,
    phrase: &P,
    first: P::Tree,
    reader: &mut Reader,
) -> Result<Vec<P::Tree>, ParseStop>
    ensures { Returns (λ all. (map P.view all.items, reader.new)) result
        (with_first (P.view first ∷ [])
        (all_at (P.starts phrase.now) (P.one_at phrase.now) reader.old)) }
{
    let mut all = Vec::new(alloc);
    all.push(first)?;
    parse_more(alloc, phrase, all, reader)
}

//! From the texts of sources to their units.

ghost use Rattle.std.specs.Prelude.{◌≡◌, map, MatchResult};
ghost use Rattle.st_lexer.specs.Lexes.{Lexes};
ghost use Rattle.st_parser.specs.Declarations.{SpellsUnit};
ghost use Rattle.st_expressions.specs.Lexemes.{lexemes};
ghost use Rattle.st_parser.specs.Units.{view_unit};
ghost use Rattle.st_sources.specs.Sources.{HasUnit, HaveUnits, IsTextFault, IsSourceFault};

use crate::fault::SourceFault;
use st_lexer::{LexFault, Token, lex, place_of};
use st_parser::{ParseFault, Unit, parse};
use std::alloc::Global;

/// The tokens of the text of a source, or C4.
fn tokens(alloc: Global, source: usize, text: &[u8]) -> Result<Vec<Token>, SourceFault>
    ensures { MatchResult result (λ tokens. Lexes text.now tokens.items) (IsTextFault source text.now) }
{
    match lex(alloc, text) {
        Ok(tokens) => Ok(tokens),
        Err(LexFault::Memory) => Err(SourceFault::Memory),
        Err(LexFault::Bad { line, column }) => Err(SourceFault::Spelling {
            source,
            line,
            column,
        }),
    }
}

/// The unit that the tokens of a source's text spell, or C5.
fn parsed(alloc: Global, source: usize, text: &[u8], tokens: &[Token]) -> Result<Unit, SourceFault>
    requires { Lexes text.now tokens.now }
    ensures { MatchResult result (λ unit. SpellsUnit (lexemes text.now tokens.now) (view_unit unit))
        (IsTextFault source text.now) }
{
    match parse(alloc, text, tokens) {
        Ok(unit) => Ok(unit),
        Err(ParseFault::Memory) => Err(SourceFault::Memory),
        Err(ParseFault::At { token }) => {
            let (line, column) = place_of(text, tokens, token);
            Err(SourceFault::Grammar {
                source,
                line,
                column,
            })
        }
    }
}

/// The unit of the text of a source, or its fault.
pub(crate) fn unit(alloc: Global, source: usize, text: &[u8]) -> Result<Unit, SourceFault>
    ensures { MatchResult result (λ unit. HasUnit text.now (view_unit unit))
        (IsTextFault source text.now) }
{
    let tokens = match tokens(alloc, source, text) {
        Ok(tokens) => tokens,
        Err(fault) => return Err(fault),
    };
    parsed(alloc, source, text, tokens.as_slice())
}

/// The units of sources, each given by its name and its text.
///
/// Every fault but `Memory` is that of the first source that has one: C4 where its text has no tokens, else C5. `Memory` comes if
/// memory is refused.
pub fn units(alloc: Global, sources: &[(&str, &[u8])]) -> Result<Vec<Unit>, SourceFault>
    ensures { MatchResult result
        (λ units. HaveUnits (map (λ s. s.1.now) sources.now) (map view_unit units.items))
        (IsSourceFault (map (λ s. s.1.now) sources.now)) }
{
    let mut units = Vec::new(alloc);
    for source in sources {
        let text: &[u8] = source.1;
        match unit(alloc, units.len(), text) {
            Ok(unit) => units.push(unit)?,
            Err(fault) => return Err(fault),
        }
    }
    Ok(units)
}

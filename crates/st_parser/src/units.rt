//! Blocks, programs and units.

ghost use Rattle.std.specs.Prelude.{◌≡◌, ◌-◌, List, length, IfErr, MatchResult};
ghost use Rattle.st_parser.specs.Declarations.{SpellsUnit, closing_keyword};
ghost use Rattle.st_expressions.specs.Lexemes.{Lexeme, lexemes};
ghost use Rattle.st_expressions.specs.Outcome.{Returns};
ghost use Rattle.st_parser.specs.Outcome.{SpellNone, NamesOneOf};
ghost use Rattle.st_expressions.specs.Reading.{table_next};
ghost use Rattle.st_parser.specs.ReadingUnits.{pou_of, is_pou, pou_at, unit_at};
ghost use Rattle.st_parser.specs.Units.{PlainUnit, view_unit, view_pou};

use crate::declare::{globals, is_section, section};
use crate::fault::ParseFault;
use crate::stmt::statements;
use crate::unit::{Pou, PouKind, Section, Unit};
use st_expressions::{ParseStop, Phrase, Reader, parse_all};
use st_lexer::{Keyword, Token, TokenKind};
use std::alloc::Global;

/// A section of globals.
#[derive(Drop)]
struct GlobalSection;

impl Phrase for GlobalSection {
    type Tree = Section;

    ghost use Rattle.st_lexer.specs.declared.token.Keyword.TheVariants.{VarGlobal};
    ghost use Rattle.st_expressions.specs.Reading.{is_keyword};
    ghost use Rattle.st_parser.specs.ReadingUnits.{globals_at};
    ghost use Rattle.st_parser.specs.Units.{PlainSection, view_section};

    ghost Plain = { PlainSection };

    ghost view = { view_section };

    ghost starts = { λ _. is_keyword VarGlobal };

    ghost one_at = { λ _. globals_at };

    fn parse(&self, alloc: Global, reader: &mut Reader) -> Result<Option<Section>, ParseStop> {
        if !reader.is_keyword(Keyword::VarGlobal) {
            return Ok(None);
        }
        Ok(Some(globals(alloc, reader)?))
    }
}

/// A section of a block or a program.
#[derive(Drop)]
struct LocalSection {
    pou: PouKind,
}

impl Phrase for LocalSection {
    type Tree = Section;

    ghost use Rattle.st_parser.specs.ReadingUnits.{is_section, section_at};
    ghost use Rattle.st_parser.specs.Units.{PlainSection, view_section};

    ghost Plain = { PlainSection };

    ghost view = { view_section };

    ghost starts = { λ phrase. is_section phrase.pou };

    ghost one_at = { λ phrase. section_at phrase.pou };

    fn parse(&self, alloc: Global, reader: &mut Reader) -> Result<Option<Section>, ParseStop> {
        if !is_section(self.pou, reader) {
            return Ok(None);
        }
        Ok(Some(section(alloc, self.pou, reader)?))
    }
}

/// The kind of unit that the next token opens, if it opens one.
fn next_pou_kind(reader: &Reader) -> Option<PouKind>
    ensures { result ≡ table_next pou_of reader.now }
{
    match reader.peek()? {
        TokenKind::Keyword(Keyword::FunctionBlock) => Some(PouKind::Block),
        TokenKind::Keyword(Keyword::Program) => Some(PouKind::Program),
        _ => None,
    }
}

/// Whether a block or a program is next.
fn is_pou(reader: &Reader) -> bool
    ensures { result ≡ is_pou reader.now }
{
    next_pou_kind(reader).is_some()
}

/// The keyword at the end of a block or a program.
fn closing_keyword(kind: PouKind) -> Keyword
    ensures { result ≡ closing_keyword kind }
{
    match kind {
        PouKind::Block => Keyword::EndFunctionBlock,
        PouKind::Program => Keyword::EndProgram,
    }
}

/// Parses a block or a program.
#[tactic(auto, unfolding(crate::specs::ReadingUnits::pou_at))]
fn pou(alloc: Global, reader: &mut Reader) -> Result<Pou, ParseStop>
    ensures { Returns (λ p. (view_pou p, reader.new)) result (pou_at reader.old) }
{
    let Some(kind) = next_pou_kind(reader) else {
        return Err(reader.stop());
    };
    reader.advance();
    let name = reader.word(alloc)?;
    let sections = parse_all(alloc, &LocalSection { pou: kind }, reader)?;
    let body = statements(alloc, reader)?;
    reader.keyword(closing_keyword(kind))?;
    Ok(Pou {
        kind,
        name,
        sections,
        body,
    })
}

/// A block or a program.
#[derive(Drop)]
struct AnyPou;

impl Phrase for AnyPou {
    type Tree = Pou;

    ghost use Rattle.st_parser.specs.ReadingUnits.{is_pou, pou_at};
    ghost use Rattle.st_parser.specs.Units.{PlainPou, view_pou};

    ghost Plain = { PlainPou };

    ghost view = { view_pou };

    ghost starts = { λ _. is_pou };

    ghost one_at = { λ _. pou_at };

    fn parse(&self, alloc: Global, reader: &mut Reader) -> Result<Option<Pou>, ParseStop> {
        if !is_pou(reader) {
            return Ok(None);
        }
        Ok(Some(pou(alloc, reader)?))
    }
}

#[tactic(auto, unfolding(crate::specs::ReadingUnits::unit_at))]
fn unit(alloc: Global, reader: &mut Reader) -> Result<Unit, ParseStop>
    ensures { Returns (λ unit. (view_unit unit, reader.new)) result (unit_at reader.old) }
{
    let globals = parse_all(alloc, &GlobalSection, reader)?;
    let pous = parse_all(alloc, &AnyPou, reader)?;
    Ok(Unit { globals, pous })
}

/// The fault at the token with which so many are left.
fn refused(tokens: &[Token], left: usize) -> ParseFault
    ensures { result ≡ ParseFault.At (length tokens.now - left) }
{
    ParseFault::At {
        token: tokens.len().saturating_sub(left),
    }
}

/// Parses all tokens of a text as one unit. The error is `Memory` where memory was refused; else the tokens spell no unit, and it names one of them, or their end.
/// The token named is the first with which no unit can go on; contracts don't say so.
pub fn parse(alloc: Global, text: &[u8], tokens: &[Token]) -> Result<Unit, ParseFault>
    ensures spelled { MatchResult result
        (λ unit. SpellsUnit (lexemes text.now tokens.now) (view_unit unit))
        (SpellNone (lexemes text.now tokens.now)) }
    ensures within { IfErr result (NamesOneOf (length tokens.now)) }
{
    let mut reader = Reader::new(text, tokens);
    match unit(alloc, &mut reader) {
        Ok(unit) => {
            let left = reader.left();
            if left == 0 {
                Ok(unit)
            } else {
                Err(refused(tokens, left))
            }
        }
        Err(ParseStop::Memory) => Err(ParseFault::Memory),
        Err(ParseStop::Left(left)) => Err(refused(tokens, left)),
    }
}

/// A text's tokens spell at most one unit.
pub fn one_unit()
    ensures { (ts : List Lexeme) (a b : PlainUnit) → SpellsUnit ts a → SpellsUnit ts b → a ≡ b }
{}

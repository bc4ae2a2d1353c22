//! Declarations and their sections.

ghost use Rattle.std.specs.Prelude.{◌≡◌, ◌∷◌, [], option_map};
ghost use Rattle.st_parser.specs.Declarations.{kind_of_word, sort_of, section_of};
ghost use Rattle.st_expressions.specs.Outcome.{Returns};
ghost use Rattle.st_expressions.specs.Reading.{with_first, others_at, word_at, perhaps_at, is_symbol, after_symbol, expression_at, table_next, table_at};
ghost use Rattle.st_parser.specs.ReadingUnits.{address_at, limits_at, array_at, sort_at, initial_at, declared_at, placed_at, declaration_at, global_at, globals_at, is_section, section_at};
ghost use Rattle.st_parser.specs.Units.{view_declaration, view_section};
ghost use Rattle.st_tree.specs.View.{view_expr};

use crate::labels::number;
use crate::unit::{Declaration, PouKind, Section, SectionKind, Sort};
use plant_types::{Bounds, Kind, Region, Text};
use st_expressions::{ParseStop, Phrase, Reader, expression, parse_after, parse_all};
use st_lexer::{Keyword, Symbol, TokenKind};
use st_tree::Expr;
use std::alloc::Global;

/// The kind that the next token names, if it names one.
fn next_kind(reader: &Reader) -> Option<Kind>
    ensures { result ≡ table_next kind_of_word reader.now }
{
    match reader.peek()? {
        TokenKind::Keyword(Keyword::Bool) => Some(Kind::Bool),
        TokenKind::Keyword(Keyword::Dint) => Some(Kind::Dint),
        TokenKind::Keyword(Keyword::Time) => Some(Kind::Time),
        _ => None,
    }
}

fn kind(reader: &mut Reader) -> Result<Kind, ParseStop>
    ensures { Returns (λ kind. (kind, reader.new)) result (table_at kind_of_word reader.old) }
{
    match next_kind(reader) {
        Some(kind) => {
            reader.advance();
            Ok(kind)
        }
        None => Err(reader.stop()),
    }
}

/// Parses the bounds of an array in their brackets.
#[tactic(auto, unfolding(crate::specs::ReadingUnits::limits_at))]
fn limits(reader: &mut Reader) -> Result<Bounds, ParseStop>
    ensures { Returns (λ bounds. (bounds, reader.new)) result (limits_at reader.old) }
{
    reader.symbol(Symbol::OpenBracket)?;
    let low = number(reader)?;
    reader.symbol(Symbol::Range)?;
    let high = number(reader)?;
    reader.symbol(Symbol::CloseBracket)?;
    Ok(Bounds { low, high })
}

/// Parses the rest of what arrays are declared as after `ARRAY`.
#[tactic(auto, unfolding(crate::specs::ReadingUnits::array_at))]
fn array(reader: &mut Reader) -> Result<Sort, ParseStop>
    ensures { Returns (λ sort. (sort, reader.new)) result (array_at reader.old) }
{
    let bounds = limits(reader)?;
    reader.keyword(Keyword::Of)?;
    let kind = kind(reader)?;
    Ok(Sort::Array(bounds, kind))
}

/// Parses what variables are declared as.
#[tactic(auto, unfolding(crate::specs::ReadingUnits::sort_at))]
fn sort(alloc: Global, reader: &mut Reader) -> Result<Sort, ParseStop>
    ensures { Returns (λ sort. (sort, reader.new)) result (sort_at reader.old) }
{
    if reader.is_keyword(Keyword::Array) {
        reader.advance();
        array(reader)
    } else {
        simple_sort(alloc, reader)
    }
}

/// Parses a kind or the name of a block type.
fn simple_sort(alloc: Global, reader: &mut Reader) -> Result<Sort, ParseStop>
    ensures { Returns (λ sort. (sort, reader.new)) result (table_at sort_of reader.old) }
{
    match reader.peek() {
        Some(TokenKind::Word) => {
            let name = reader.word(alloc)?;
            Ok(Sort::Block(name))
        }
        Some(TokenKind::Keyword(Keyword::Bool)) => {
            reader.advance();
            Ok(Sort::Kind(Kind::Bool))
        }
        Some(TokenKind::Keyword(Keyword::Dint)) => {
            reader.advance();
            Ok(Sort::Kind(Kind::Dint))
        }
        Some(TokenKind::Keyword(Keyword::Time)) => {
            reader.advance();
            Ok(Sort::Kind(Kind::Time))
        }
        _ => Err(reader.stop()),
    }
}

fn address(reader: &mut Reader) -> Result<Region, ParseStop>
    ensures { Returns (λ region. (region, reader.new)) result (address_at reader.old) }
{
    match reader.peek() {
        Some(TokenKind::Address(region)) => {
            reader.advance();
            Ok(region)
        }
        _ => Err(reader.stop()),
    }
}

/// Parses `:=` and an initial value, if it is next.
fn initial_value(alloc: Global, reader: &mut Reader) -> Result<Option<Expr<Text>>, ParseStop>
    ensures { Returns (λ o. (option_map view_expr o, reader.new)) result
        (perhaps_at (is_symbol Symbol.Becomes) (after_symbol Symbol.Becomes expression_at) reader.old) }
{
    if reader.is_symbol(Symbol::Becomes) {
        reader.symbol(Symbol::Becomes)?;
        let value = expression(alloc, reader)?;
        Ok(Some(value))
    } else {
        Ok(None)
    }
}

/// Parses the rest of a declaration after its sort.
#[tactic(auto, unfolding(crate::specs::ReadingUnits::initial_at))]
fn end_of_declaration(
    alloc: Global,
    names: Vec<Text>,
    region: Option<Region>,
    sort: Sort,
    reader: &mut Reader,
) -> Result<Declaration, ParseStop>
    ensures { Returns (λ d. (view_declaration d, reader.new)) result
        (initial_at names.items region sort reader.old) }
{
    let initial = initial_value(alloc, reader)?;
    reader.symbol(Symbol::Semicolon)?;
    Ok(Declaration {
        names,
        region,
        sort,
        initial,
    })
}

/// A comma and a name.
#[derive(Drop)]
struct CommaName;

impl Phrase for CommaName {
    type Tree = Text;

    ghost use Rattle.std.specs.Prelude.{List, ℕ};
    ghost use Rattle.st_lexer.specs.declared.token.Symbol.TheVariants.{Comma};
    ghost use Rattle.st_expressions.specs.Reading.{is_symbol, after_symbol, word_at};

    ghost Plain = { List ℕ };

    ghost view = { λ name. name };

    ghost starts = { λ _. is_symbol Comma };

    ghost one_at = { λ _. after_symbol Comma word_at };

    fn parse(&self, alloc: Global, reader: &mut Reader) -> Result<Option<Text>, ParseStop> {
        if !reader.is_symbol(Symbol::Comma) {
            return Ok(None);
        }
        reader.symbol(Symbol::Comma)?;
        Ok(Some(reader.word(alloc)?))
    }
}

/// Parses the names after a first one, each with its comma.
fn more_names(alloc: Global, first: Text, reader: &mut Reader) -> Result<Vec<Text>, ParseStop>
    ensures { Returns (λ names. (names.items, reader.new)) result
        (with_first (first ∷ []) (others_at word_at reader.old)) }
{
    parse_after(alloc, &CommaName, first, reader)
}

/// Parses the rest of a declaration after its first name.
#[tactic(auto, unfolding(crate::specs::ReadingUnits::declared_at))]
fn declared(alloc: Global, first: Text, reader: &mut Reader) -> Result<Declaration, ParseStop>
    ensures { Returns (λ d. (view_declaration d, reader.new)) result (declared_at first reader.old) }
{
    let names = more_names(alloc, first, reader)?;
    reader.symbol(Symbol::Colon)?;
    let sort = sort(alloc, reader)?;
    end_of_declaration(alloc, names, None, sort, reader)
}

/// Parses the rest of a declaration after a global's name and `AT`.
#[tactic(auto, unfolding(crate::specs::ReadingUnits::placed_at))]
fn placed(alloc: Global, name: Text, reader: &mut Reader) -> Result<Declaration, ParseStop>
    ensures { Returns (λ d. (view_declaration d, reader.new)) result (placed_at name reader.old) }
{
    let mut names = Vec::new(alloc);
    names.push(name)?;
    let region = address(reader)?;
    reader.symbol(Symbol::Colon)?;
    let kind = kind(reader)?;
    end_of_declaration(alloc, names, Some(region), Sort::Kind(kind), reader)
}

/// Parses a declaration of a block or a program.
#[tactic(auto, unfolding(crate::specs::ReadingUnits::declaration_at))]
fn declaration(alloc: Global, reader: &mut Reader) -> Result<Declaration, ParseStop>
    ensures { Returns (λ d. (view_declaration d, reader.new)) result (declaration_at reader.old) }
{
    let name = reader.word(alloc)?;
    declared(alloc, name, reader)
}

#[tactic(auto, unfolding(crate::specs::ReadingUnits::global_at))]
fn global(alloc: Global, reader: &mut Reader) -> Result<Declaration, ParseStop>
    ensures { Returns (λ d. (view_declaration d, reader.new)) result (global_at reader.old) }
{
    let name = reader.word(alloc)?;
    if reader.is_keyword(Keyword::At) {
        reader.advance();
        placed(alloc, name, reader)
    } else {
        declared(alloc, name, reader)
    }
}

/// A declaration of a block or a program.
#[derive(Drop)]
struct LocalDeclaration;

impl Phrase for LocalDeclaration {
    type Tree = Declaration;

    ghost use Rattle.st_expressions.specs.Reading.{is_word};
    ghost use Rattle.st_parser.specs.ReadingUnits.{declaration_at};
    ghost use Rattle.st_parser.specs.Units.{PlainDeclaration, view_declaration};

    ghost Plain = { PlainDeclaration };

    ghost view = { view_declaration };

    ghost starts = { λ _. is_word };

    ghost one_at = { λ _. declaration_at };

    fn parse(&self, alloc: Global, reader: &mut Reader) -> Result<Option<Declaration>, ParseStop> {
        if !reader.is_word() {
            return Ok(None);
        }
        Ok(Some(declaration(alloc, reader)?))
    }
}

/// A declaration of globals.
#[derive(Drop)]
struct GlobalDeclaration;

impl Phrase for GlobalDeclaration {
    type Tree = Declaration;

    ghost use Rattle.st_expressions.specs.Reading.{is_word};
    ghost use Rattle.st_parser.specs.ReadingUnits.{global_at};
    ghost use Rattle.st_parser.specs.Units.{PlainDeclaration, view_declaration};

    ghost Plain = { PlainDeclaration };

    ghost view = { view_declaration };

    ghost starts = { λ _. is_word };

    ghost one_at = { λ _. global_at };

    fn parse(&self, alloc: Global, reader: &mut Reader) -> Result<Option<Declaration>, ParseStop> {
        if !reader.is_word() {
            return Ok(None);
        }
        Ok(Some(global(alloc, reader)?))
    }
}

/// Parses a section of globals.
#[tactic(auto, unfolding(crate::specs::ReadingUnits::globals_at))]
pub fn globals(alloc: Global, reader: &mut Reader) -> Result<Section, ParseStop>
    ensures { Returns (λ s. (view_section s, reader.new)) result (globals_at reader.old) }
{
    reader.keyword(Keyword::VarGlobal)?;
    let declarations = parse_all(alloc, &GlobalDeclaration, reader)?;
    reader.keyword(Keyword::EndVar)?;
    Ok(Section {
        kind: SectionKind::Global,
        declarations,
    })
}

/// The section that the next token opens in a block or a program, if it opens one.
fn next_section(pou: PouKind, reader: &Reader) -> Option<SectionKind>
    ensures { result ≡ table_next (section_of pou) reader.now }
{
    match (pou, reader.peek()?) {
        (_, TokenKind::Keyword(Keyword::Var)) => Some(SectionKind::Local),
        (_, TokenKind::Keyword(Keyword::VarExternal)) => Some(SectionKind::External),
        (PouKind::Block, TokenKind::Keyword(Keyword::VarInput)) => Some(SectionKind::Input),
        (PouKind::Block, TokenKind::Keyword(Keyword::VarOutput)) => Some(SectionKind::Output),
        _ => None,
    }
}

/// Whether a section of a block or a program is next.
pub fn is_section(pou: PouKind, reader: &Reader) -> bool
    ensures { result ≡ is_section pou reader.now }
{
    next_section(pou, reader).is_some()
}

/// Parses a section of a block or a program.
#[tactic(auto, unfolding(crate::specs::ReadingUnits::section_at))]
pub fn section(alloc: Global, pou: PouKind, reader: &mut Reader) -> Result<Section, ParseStop>
    ensures { Returns (λ s. (view_section s, reader.new)) result (section_at pou reader.old) }
{
    let Some(kind) = next_section(pou, reader) else {
        return Err(reader.stop());
    };
    reader.advance();
    let declarations = parse_all(alloc, &LocalDeclaration, reader)?;
    reader.keyword(Keyword::EndVar)?;
    Ok(Section { kind, declarations })
}

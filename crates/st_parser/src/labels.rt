//! The labels of a CASE.

ghost use Rattle.std.specs.Prelude.{◌≡◌};
ghost use Rattle.st_expressions.specs.Outcome.{Returns};
ghost use Rattle.st_expressions.specs.Reading.{listed_at, perhaps_at, is_symbol, after_symbol};
ghost use Rattle.st_parser.specs.ReadingStatements.{number_at, label_at, is_label, negative_at};

use st_expressions::{ParseStop, Phrase, Reader, negated, parse_after};
use st_lexer::{Symbol, TokenKind};
use st_tree::Label;
use std::alloc::Global;

/// Whether a label is next.
pub fn is_label(reader: &Reader) -> bool
    ensures { result ≡ is_label reader.now }
{
    match reader.peek() {
        Some(TokenKind::Integer(_)) => true,
        Some(TokenKind::Symbol(Symbol::Minus)) => true,
        _ => false,
    }
}

/// Parses the integer after a minus, and returns the negative number.
fn negative(reader: &mut Reader) -> Result<i32, ParseStop>
    ensures { Returns (λ n. (n, reader.new)) result (negative_at reader.old) }
{
    match reader.peek() {
        Some(TokenKind::Integer(n)) if n <= 2147483648 => {
            reader.advance();
            Ok(negated(n))
        }
        _ => Err(reader.stop()),
    }
}

/// Parses an integer of a label or a bound, with its minus if it has one.
#[tactic(auto, unfolding(crate::specs::ReadingStatements::number_at))]
pub fn number(reader: &mut Reader) -> Result<i32, ParseStop>
    ensures { Returns (λ n. (n, reader.new)) result (number_at reader.old) }
{
    match reader.peek() {
        Some(TokenKind::Integer(n)) if n <= 2147483647 => {
            reader.advance();
            Ok(n as i32)
        }
        Some(TokenKind::Symbol(Symbol::Minus)) => {
            reader.advance();
            negative(reader)
        }
        _ => Err(reader.stop()),
    }
}

/// Parses `..` and the end of a range, if they are next.
fn range_end(reader: &mut Reader) -> Result<Option<i64>, ParseStop>
    ensures { Returns (λ high. (high, reader.new)) result
        (perhaps_at (is_symbol Symbol.Range) (after_symbol Symbol.Range number_at) reader.old) }
{
    if reader.is_symbol(Symbol::Range) {
        reader.symbol(Symbol::Range)?;
        let high = number(reader)?;
        Ok(Some(i64::from(high)))
    } else {
        Ok(None)
    }
}

#[tactic(auto, unfolding(crate::specs::ReadingStatements::label_at))]
fn label(reader: &mut Reader) -> Result<Label, ParseStop>
    ensures { Returns (λ label. (label, reader.new)) result (label_at reader.old) }
{
    let low = i64::from(number(reader)?);
    let high = range_end(reader)?.unwrap_or(low);
    Ok(Label { low, high })
}

/// A comma and a label.
#[derive(Drop)]
struct CommaLabel;

impl Phrase for CommaLabel {
    type Tree = Label;

    ghost use Rattle.st_lexer.specs.declared.token.Symbol.TheVariants.{Comma};
    ghost use Rattle.st_expressions.specs.Reading.{is_symbol, after_symbol};
    ghost use Rattle.st_parser.specs.ReadingStatements.{label_at};
    ghost use Rattle.st_tree.specs.declared.tree.Label.{Label};

    ghost Plain = { Label };

    ghost view = { λ label. label };

    ghost starts = { λ _. is_symbol Comma };

    ghost one_at = { λ _. after_symbol Comma label_at };

    fn parse(&self, _alloc: Global, reader: &mut Reader) -> Result<Option<Label>, ParseStop> {
        if !reader.is_symbol(Symbol::Comma) {
            return Ok(None);
        }
        reader.symbol(Symbol::Comma)?;
        Ok(Some(label(reader)?))
    }
}

/// Parses the labels of a choice, with commas between them.
pub fn labels(alloc: Global, reader: &mut Reader) -> Result<Vec<Label>, ParseStop>
    ensures { Returns (λ labels. (labels.items, reader.new)) result (listed_at label_at reader.old) }
{
    let first = label(reader)?;
    parse_after(alloc, &CommaLabel, first, reader)
}

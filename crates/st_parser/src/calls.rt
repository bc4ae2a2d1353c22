//! The arguments of a call.

ghost use Rattle.std.specs.Prelude.{map};
ghost use Rattle.st_expressions.specs.Outcome.{Returns};
ghost use Rattle.st_parser.specs.ReadingStatements.{argument_at, arguments_at};
ghost use Rattle.st_tree.specs.View.{view_argument};

use plant_types::Text;
use st_expressions::{ParseStop, Phrase, Reader, expression, parse_after};
use st_lexer::Symbol;
use st_tree::Argument;
use std::alloc::Global;

#[tactic(auto, unfolding(crate::specs::ReadingStatements::argument_at, crate::specs::ReadingStatements::argued_at))]
fn argument(alloc: Global, reader: &mut Reader) -> Result<Argument<Text>, ParseStop>
    ensures { Returns (λ a. (view_argument a, reader.new)) result (argument_at reader.old) }
{
    let name = reader.word(alloc)?;
    if reader.is_symbol(Symbol::Gives) {
        reader.advance();
        let target = reader.word(alloc)?;
        return Ok(Argument::Output(name, target));
    }
    reader.symbol(Symbol::Becomes)?;
    let value = expression(alloc, reader)?;
    Ok(Argument::Input(name, value))
}

/// A comma and an argument.
#[derive(Drop)]
struct CommaArgument;

impl Phrase for CommaArgument {
    type Tree = Argument<Text>;

    ghost use Rattle.std.specs.Prelude.{List, ℕ};
    ghost use Rattle.st_lexer.specs.declared.token.Symbol.TheVariants.{Comma};
    ghost use Rattle.st_expressions.specs.Reading.{is_symbol, after_symbol};
    ghost use Rattle.st_parser.specs.ReadingStatements.{argument_at};
    ghost use Rattle.st_tree.specs.Plain.{PlainArgument};
    ghost use Rattle.st_tree.specs.View.{view_argument};

    ghost Plain = { PlainArgument (List ℕ) };

    ghost view = { view_argument };

    ghost starts = { λ _. is_symbol Comma };

    ghost one_at = { λ _. after_symbol Comma argument_at };

    fn parse(
        &self,
        alloc: Global,
        reader: &mut Reader,
    ) -> Result<Option<Argument<Text>>, ParseStop> {
        if !reader.is_symbol(Symbol::Comma) {
            return Ok(None);
        }
        reader.symbol(Symbol::Comma)?;
        Ok(Some(argument(alloc, reader)?))
    }
}

/// Parses the arguments of a call, up to its closing parenthesis.
#[tactic(auto, unfolding(crate::specs::ReadingStatements::arguments_at))]
pub fn arguments(alloc: Global, reader: &mut Reader) -> Result<Vec<Argument<Text>>, ParseStop>
    ensures { Returns (λ a. (map view_argument a.items, reader.new)) result (arguments_at reader.old) }
{
    if reader.is_symbol(Symbol::Close) {
        return Ok(Vec::new(alloc));
    }
    let first = argument(alloc, reader)?;
    parse_after(alloc, &CommaArgument, first, reader)
}

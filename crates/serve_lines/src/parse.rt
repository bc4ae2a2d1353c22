ghost use Rattle.std.specs.Prelude.{◌≡◌, ◌∷◌, ℕ, List, IfOk};
ghost use Rattle.serve_lines.specs.Words.{words_of};
ghost use Rattle.serve_lines.specs.Commands.{scan_of, order_of, shelve_of, alone, verb_named, command_in, command_of, is_remark, plain_command};

use crate::command::Command;
use crate::given::list_pairs;
use crate::numbers::{number, short_number};
use crate::pool::Pool;
use crate::words::{is_word, next_word};
use alarm_machine::Verb;
use std::alloc::{AllocError, Global};

/// The greatest number of bytes of a line.
pub(crate) const LONGEST_LINE: usize = 1_048_576;

/// Parses the words after `scan`: a moment, then a pair for each input that is given.
#[tactic(auto, unfolding(crate::specs::Commands::scan_of))]
fn parse_scan<'a>(
    alloc: Global,
    pool: &'a mut Pool,
    words: &'a [u8],
) -> Result<Command<'a>, AllocError>
    ensures { IfOk result (λ c. plain_command c ≡ scan_of (words_of words.now)) }
{
    let Some((moment, image)) = next_word(words) else {
        return Ok(Command::Unknown);
    };
    let Some(moment) = number(moment) else {
        return Ok(Command::Unknown);
    };
    if list_pairs(alloc, image, pool)? {
        Ok(Command::Scan(moment, pool.as_slice()))
    } else {
        Ok(Command::Unknown)
    }
}

/// Parses the words after an order's name: a console and a target.
#[tactic(auto, unfolding(crate::specs::Commands::order_of))]
fn parse_order<'a>(verb: Verb, words: &'a [u8]) -> Command<'a>
    ensures { plain_command result ≡ order_of verb (words_of words.now) }
{
    let Some((console, rest)) = next_word(words) else {
        return Command::Unknown;
    };
    let Some((target, rest)) = next_word(rest) else {
        return Command::Unknown;
    };
    if next_word(rest).is_some() {
        return Command::Unknown;
    }
    match short_number(console) {
        Some(console) => Command::Order(verb, console, target),
        None => Command::Unknown,
    }
}

/// Parses the words after `shelve`: a console, a tag and a time in milliseconds.
#[tactic(auto, unfolding(crate::specs::Commands::shelve_of))]
fn parse_shelve<'a>(words: &'a [u8]) -> Command<'a>
    ensures { plain_command result ≡ shelve_of (words_of words.now) }
{
    let Some((console, rest)) = next_word(words) else {
        return Command::Unknown;
    };
    let Some((tag, rest)) = next_word(rest) else {
        return Command::Unknown;
    };
    let Some((time, rest)) = next_word(rest) else {
        return Command::Unknown;
    };
    if next_word(rest).is_some() {
        return Command::Unknown;
    }
    match (short_number(console), number(time)) {
        (Some(console), Some(time)) => Command::Order(Verb::Shelve(time), console, tag),
        _ => Command::Unknown,
    }
}

/// The command of a name that stands alone: with a word after it there is no command.
#[tactic(auto, unfolding(crate::specs::Commands::alone))]
fn parse_alone<'a>(command: Command<'a>, words: &'a [u8]) -> Command<'a>
    ensures { plain_command result ≡ alone (plain_command command.entry) (words_of words.now) }
{
    if next_word(words).is_some() {
        Command::Unknown
    } else {
        command
    }
}

/// The order that a word names where only a console and a target come after it; `None` for any other word, also for `shelve`.
#[tactic(auto, unfolding(crate::specs::Commands::verb_named))]
fn verb_named(word: &[u8]) -> Option<Verb>
    ensures { result ≡ verb_named word.now }
{
    if is_word(word, b"ack") {
        Some(Verb::Ack)
    } else if is_word(word, b"reset") {
        Some(Verb::Reset)
    } else if is_word(word, b"unshelve") {
        Some(Verb::Unshelve)
    } else if is_word(word, b"remove") {
        Some(Verb::Remove)
    } else if is_word(word, b"return") {
        Some(Verb::PutBack)
    } else if is_word(word, b"restart") {
        Some(Verb::Restart)
    } else {
        None
    }
}

/// Parses the words of a line, of which the first is the command's name.
#[tactic(auto, unfolding(crate::specs::Commands::command_in))]
fn parse_words<'a>(
    alloc: Global,
    pool: &'a mut Pool,
    first: &'a [u8],
    others: &'a [u8],
) -> Result<Command<'a>, AllocError>
    ensures { IfOk result (λ c. plain_command c ≡ command_in (first.now ∷ words_of others.now)) }
{
    if is_word(first, b"scan") {
        return parse_scan(alloc, pool, others);
    }
    if is_word(first, b"shelve") {
        return Ok(parse_shelve(others));
    }
    if is_word(first, b"list") {
        return Ok(parse_alone(Command::List, others));
    }
    if is_word(first, b"journal") {
        return Ok(parse_alone(Command::Journal, others));
    }
    match verb_named(first) {
        Some(verb) => Ok(parse_order(verb, others)),
        None => Ok(Command::Unknown),
    }
}

/// Whether a line of which this is the first word is a remark: the word begins with `#`.
fn is_remark(first: &[u8]) -> bool
    ensures { (others : List (List ℕ)) → result ≡ is_remark (first.now ∷ others) }
{
    match first.split_first() {
        Some((byte, _)) => *byte == b'#',
        None => false,
    }
}

/// Parses a line, without its line end. A line of more than 1,048,576 bytes is no command. The pairs of a scan stand in the pool, in place of those
/// of an earlier line.
#[tactic(auto, unfolding(crate::specs::Commands::command_of, crate::specs::Commands::command_in))]
pub fn read_command<'a>(
    alloc: Global,
    pool: &'a mut Pool,
    line: &'a [u8],
) -> Result<Command<'a>, AllocError>
    ensures { IfOk result (λ c. plain_command c ≡ command_of line.now) }
{
    if line.len() > LONGEST_LINE {
        return Ok(Command::Unknown);
    }
    let Some((first, others)) = next_word(line) else {
        return Ok(Command::Nothing);
    };
    if is_remark(first) {
        return Ok(Command::Nothing);
    }
    parse_words(alloc, pool, first, others)
}

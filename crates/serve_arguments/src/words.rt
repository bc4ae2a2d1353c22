ghost use Rattle.std.specs.Prelude.{◌≡◌, ◌<◌, IfOk, length, map, option_map};
ghost use Rattle.clap.specs.Words.{FailsBy, fault_of, found_of, kind_of, rows_of, subcommand_of, subcommand_rows_of};
ghost use Rattle.serve_arguments.specs.Line.{alarmd};
ghost use Rattle.serve_arguments.specs.Choices.{HasWorkers, IsAnswer, IsFaultOf, allowed, check_choice, choice_in, plant_path, run_choice, workers_in};

use crate::choice::{Choice, UsageFault};
use crate::line::{MOST_WORKERS, alarmd};
use clap::error::ErrorKind;
use clap::{ArgMatches, Error};
use plant_types::Text;
use std::alloc::{AllocError, Global};

/// PLANT among the values of a subcommand.
fn plant_path<'a>(values: &ArgMatches<'a>) -> Option<&'a str>
    ensures { option_map (λ s. s.now) result ≡ plant_path (rows_of (found_of values.now)) }
{
    values.get_str("plant")
}

/// N among the values of `run`, as a number.
fn workers_in(values: &ArgMatches<'_>) -> Option<u32>
    ensures { result ≡ workers_in (rows_of (found_of values.now)) }
{
    values.get_one::<u32>("workers")
}

/// The number of workers, where the program can have so many.
fn allowed(workers: u32) -> Option<u32>
    ensures { result ≡ allowed workers }
{
    if 0 < workers && workers <= MOST_WORKERS {
        Some(workers)
    } else {
        None
    }
}

/// The choice of `check`, by its values.
fn check_choice(alloc: Global, values: &ArgMatches<'_>) -> Result<Option<Choice>, AllocError>
    ensures { IfOk result (λ c. c ≡ check_choice (rows_of (found_of values.now))) }
{
    let Some(path) = plant_path(values) else {
        return Ok(None);
    };
    Ok(Some(Choice::Check(Text::from_str(alloc, path)?)))
}

/// The choice of `run`, by its values.
fn run_choice(alloc: Global, values: &ArgMatches<'_>) -> Result<Option<Choice>, AllocError>
    ensures { IfOk result (λ c. c ≡ run_choice (rows_of (found_of values.now))) }
{
    let Some(path) = plant_path(values) else {
        return Ok(None);
    };
    let Some(workers) = workers_in(values) else {
        return Ok(None);
    };
    let Some(workers) = allowed(workers) else {
        return Ok(None);
    };
    Ok(Some(Choice::Run(Text::from_str(alloc, path)?, workers)))
}

/// The choice of a command line that was read.
fn choice_in(alloc: Global, matches: &ArgMatches<'_>) -> Result<Option<Choice>, AllocError>
    ensures { IfOk result (λ c. c ≡ choice_in (subcommand_rows_of matches.now)) }
{
    match matches.subcommand() {
        Some(("check", values)) => check_choice(alloc, values),
        Some(("run", values)) => run_choice(alloc, values),
        _ => Ok(None),
    }
}

/// What is said beside the text of an error: how a plant is named, where a word is no command.
fn tip(kind: ErrorKind) -> &'static str {
    match kind {
        ErrorKind::InvalidSubcommand => {
            "\n  tip: 'alarmd run PLANT' serves a plant, and 'alarmd check PLANT' tells whether it is accepted\n"
        }
        _ => "",
    }
}

/// The text of an error, for people.
fn text_of(alloc: Global, error: &Error) -> Result<Text, AllocError> {
    let mut text = error.to_string(alloc)?;
    text.push_str(tip(error.kind()))?;
    Ok(Text::new(text))
}

/// The fault of words that are refused, with its text.
fn fault(alloc: Global, error: &Error) -> Result<UsageFault, AllocError>
    ensures { IfOk result (IsFaultOf (kind_of error.now)) }
{
    let text = text_of(alloc, error)?;
    Ok(match error.kind() {
        ErrorKind::OutOfMemory => UsageFault::Memory,
        ErrorKind::DisplayHelp => UsageFault::Help(text),
        ErrorKind::DisplayVersion => UsageFault::Version(text),
        _ => UsageFault::Usage(text),
    })
}

/// Reads the words by the command line. Fails if they don't fit it, if they ask for help or the version, and if memory is refused.
fn matches<'a>(alloc: Global, words: &'a [&'a str]) -> Result<ArgMatches<'a>, Error>
    ensures subcommand { IfOk result (λ m. subcommand_rows_of m
        ≡ subcommand_of alarmd (map (λ w. w.now) words.entry.now)) }
    ensures kinds { FailsBy (fault_of alarmd (map (λ w. w.now) words.entry.now)) result }
{
    let command = alarmd(alloc)?;
    command.try_get_matches_from(words)
}

/// What the words choose, of which there is one at least. Fails as `choose`.
fn chosen<'a>(alloc: Global, words: &'a [&'a str]) -> Result<Choice, UsageFault>
    requires { 0 < length words.now }
    ensures { IsAnswer (map (λ w. w.now) words.entry.now) result }
{
    match matches(alloc, words) {
        Ok(matches) => match choice_in(alloc, &matches)? {
            Some(choice) => Ok(choice),
            None => Err(UsageFault::Usage(Text::from_str(alloc, "error: a value is missing\n")?)),
        },
        Err(error) => Err(fault(alloc, &error)?),
    }
}

/// Chooses what the program is asked for, by the words after its name. `choose` fails if the words ask for help or the version, or are no command
/// line; the fault then has the text to show. It also fails if memory is refused.
///
/// Without words the example plant is chosen. A plant is served by 1 to `MOST_WORKERS` workers.
pub fn choose<'a>(alloc: Global, words: &'a [&'a str]) -> Result<Choice, UsageFault>
    ensures answer { IsAnswer (map (λ w. w.now) words.entry.now) result }
    ensures workers { IfOk result HasWorkers }
{
    if words.is_empty() {
        return Ok(Choice::Example);
    }
    chosen(alloc, words)
}

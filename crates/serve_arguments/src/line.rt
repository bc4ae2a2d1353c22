ghost use Rattle.std.specs.Prelude.{◌≡◌, IfOk, false};
ghost use Rattle.clap.specs.Words.{app_of, rule_of};
ghost use Rattle.clap.specs.declared.builder.command.Command.TheViews.{out-Command};
ghost use Rattle.serve_arguments.specs.Line.{alarmd, bare, check, plant, run, workers};

use clap::{Arg, Command, value_parser};
use std::alloc::{AllocError, Global};

/// The version of the program.
const VERSION: &str = "0.1.0";

/// The greatest number of workers.
pub const MOST_WORKERS: u32 = 64;

fn plant<'a>(alloc: Global) -> Arg<'a>
    ensures rule { rule_of result ≡ plant }
    ensures local { result.global ≡ false }
{
    Arg::new(alloc, "plant")
        .value_name("PLANT")
        .help("Path of plant.toml; the files that it names are sought beside it")
        .required(true)
}

/// The option `--workers N`.
fn workers<'a>(alloc: Global) -> Arg<'a>
    ensures rule { rule_of result ≡ workers }
    ensures local { result.global ≡ false }
{
    Arg::new(alloc, "workers")
        .long("workers")
        .value_name("N")
        .help("Number of workers that run the programs, 1 to 64; the answers are the same with any")
        .value_parser(value_parser!(u32).range(1..=i64::from(MOST_WORKERS)))
        .default_value("1")
}

/// The subcommand `check`.
fn check<'a>(alloc: Global) -> Result<Command<'a>, AllocError>
    ensures app { IfOk result (λ c. app_of c ≡ check) }
    ensures local { IfOk result (λ c. (out-Command c).has_globals ≡ false) }
{
    Command::new(alloc, "check")
        .about(
            "Tells whether a plant is accepted (status 0), or why it is refused (status 3); docs/PLANT.md explains each CONFIG line",
        )
        .arg(plant(alloc))
}

/// The subcommand `run`.
fn run<'a>(alloc: Global) -> Result<Command<'a>, AllocError>
    ensures app { IfOk result (λ c. app_of c ≡ run) }
    ensures local { IfOk result (λ c. (out-Command c).has_globals ≡ false) }
{
    Command::new(alloc, "run")
        .about(
            "Serves a plant: commands on the standard input, answers on the standard output, until the input ends; docs/PROTOCOL.md has them all",
        )
        .arg(plant(alloc))?
        .arg(workers(alloc))
}

/// The command with its name in the text of usage, where it has no first word.
fn named<'a>(command: Command<'a>) -> Result<Command<'a>, AllocError>
    ensures { IfOk result (λ c. app_of c ≡ app_of command.entry) }
{
    command.bin_name("alarmd")
}

/// The command line without its subcommands, one of which has to be there.
fn bare<'a>(alloc: Global) -> Command<'a>
    ensures { app_of result ≡ bare }
{
    Command::new(alloc, "alarmd")
        .about(
            "A plant alarm server, whose logic is Structured Text. Without a command it serves its example plant",
        )
        // Without a command the program doesn't come to ask for one.
        .override_usage("alarmd [COMMAND]")
        .version(VERSION)
        .after_help(
            "Exit status:\n  0  done: the input has ended, the plant is accepted, help or the version was asked for\n  1  memory, the input, the output or the workers failed; a line RUN .. on the standard error tells which\n  2  the words are no command line\n  3  the plant is refused; the standard output has the line, the standard error the place and what is wrong",
        )
        .no_binary_name(true)
        .subcommand_required(true)
}

/// The whole command line.
pub(crate) fn alarmd<'a>(alloc: Global) -> Result<Command<'a>, AllocError>
    ensures app { IfOk result (λ c. app_of c ≡ alarmd) }
{
    named(bare(alloc))?
        .subcommand(check(alloc)?)?
        .subcommand(run(alloc)?)
}

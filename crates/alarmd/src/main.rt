//! The alarm server.
//!
//! Without words it serves its example plant: commands from standard input, one on each line, and answers on standard output. `check PLANT` tells
//! whether a plant is accepted, and `run PLANT` serves it, with `--workers N` by N workers. What is chosen, accepted, refused and answered is proved in the libraries
//! `serve_arguments` and `serve_runs`.
//!
//! Layer serve_: it must not know consoles in threads, nor, but for `main`, what people are told.
#![tactic(auto)]

ghost use Rattle.serve_arguments.specs.Choices.{HasWorkers};

mod copies;
mod crews;
mod example;
mod greeting;
mod missing;
mod plants;
mod prints;
mod shelves;
mod telling;
mod watching;
mod words;

use crate::plants::{check, serve_example, serve_files};
use crate::prints::{asked, stopped, usage};
use crate::words::choice;
use serve_arguments::{Choice, Ended, UsageFault, status};
use serve_runs::ServeFault;
use std::io::IsTerminal;
use std::process::ExitCode;
use std::rt::Runtime;
use std::sync::Wait;
use std::thread::Threads;

/// Whether a person sits at the ends of the program: one who types, and one who reads standard error.
#[derive(Clone, Copy)]
struct Terminals {
    input: bool,
    error: bool,
}

/// Does what was chosen.
fn done<R: Runtime + Threads + Wait + AllocGlobal + Send + Sync + 'static>(
    rt: &R,
    choice: &Choice,
    terminals: Terminals,
) -> Ended
    requires { HasWorkers choice.now }
{
    match choice {
        Choice::Example => serve_example(rt, terminals.input),
        Choice::Check(path) => check(rt, path.as_str(), terminals.error),
        Choice::Run(path, workers) => serve_files(rt, path.as_str(), *workers, terminals.input),
    }
}

/// Does what the words ask for; a person at a terminal is told more.
fn ended<R: Runtime + Threads + Wait + AllocGlobal + Send + Sync + 'static>(
    rt: &R,
    terminals: Terminals,
) -> Ended {
    match choice(rt) {
        Ok(choice) => done(rt, &choice, terminals),
        Err(UsageFault::Memory) => stopped(rt, ServeFault::Memory),
        Err(UsageFault::Help(text) | UsageFault::Version(text)) => asked(rt, text.as_str()),
        Err(UsageFault::Usage(text)) => usage(rt, text.as_str()),
    }
}

fn main(rt: HostRuntime) -> ExitCode {
    let terminals = Terminals {
        input: rt.reader().is_terminal(),
        error: rt.stderr().is_terminal(),
    };
    ExitCode::from(status(&ended(&rt, terminals)))
}

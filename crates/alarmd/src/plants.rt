//! Plants, checked and served.

ghost use Rattle.std.specs.Prelude.{◌≡◌, ◌<◌, ◌≤◌, false};

use crate::copies::KeptSources;
use crate::crews::workers;
use crate::example::{ALARMS, PLANT, PLANT_NAME, SOURCE, SOURCE_NAME};
use crate::prints::{stopped, stopped_by};
use crate::telling::{OfAccepted, Telling};
use crate::watching::{Looker, Watching};
use engine::{Alone, Crew, Done, Job, Start};
use serve_arguments::Ended;
use serve_runs::{
    Disk, Ends, Feed, Listener, PlantFiles, PlantTexts, Reading, RunEnd, ServeFault, Sink, Writing,
    check_from, run, run_from,
};
use std::alloc::Global;
use std::io;
use std::rt::{Files, Runtime};
use std::sync::Wait;
use std::thread::Threads;

/// How the program ends after a run.
fn ended<R: Eprint>(
    rt: &R,
    run: Result<RunEnd, ServeFault>,
    input: Option<io::Error>,
    output: Option<io::Error>,
) -> Ended {
    match run {
        Ok(RunEnd::Served) => Ended::Done,
        Ok(RunEnd::Refused) => Ended::Refused,
        Err(fault) => stopped_by(rt, fault, input, output),
    }
}

/// How the program ends after a check; tells a person first what there is to tell.
fn checked<R: Files + Eprint + Threads + AllocGlobal + Sync>(
    rt: &R,
    telling: &Telling<'_, R>,
    accepted: Result<bool, ServeFault>,
    output: Option<io::Error>,
) -> Ended {
    match accepted {
        Ok(is_accepted) => {
            telling.tell(rt);
            if is_accepted {
                Ended::Done
            } else {
                Ended::Refused
            }
        }
        Err(fault) => stopped_by(rt, fault, None, output),
    }
}

/// Tells whether the plant of a plant file's path is accepted. A person is told why it is refused, or what is likely to be wrong in it; at a terminal also
/// what there is in it.
pub fn check<'a, R: Files + Print + Eprint + Threads + AllocGlobal + Sync>(
    rt: &'a R,
    path: &'a str,
    is_terminal: bool,
) -> Ended {
    let mut sink = Writing::new(io::writer(rt));
    let mut telling = Telling::new(
        rt,
        path,
        if is_terminal {
            OfAccepted::Listing
        } else {
            OfAccepted::Warnings
        },
    );
    let files = PlantFiles {
        folder: &Disk { files: rt },
        path,
    };
    let accepted = check_from(rt, rt.alloc(), &files, &mut telling, &mut sink);
    let checked = checked(rt, &telling, accepted, sink.error());
    drop(telling);
    checked
}

/// Who looks on at a terminal, to whom statements are shown from the sources that are kept.
fn looker(alloc: Global, kept: &KeptSources, is_terminal: bool) -> Option<Looker<'_>> {
    if is_terminal {
        Some(Looker { alloc, kept })
    } else {
        None
    }
}

/// What a person is told of plants that are accepted and served: at a terminal how to begin, with a command that may be the first.
fn of_served<'a>(kept: &'a KeptSources, first: &'static str, is_terminal: bool) -> OfAccepted<'a> {
    if is_terminal {
        OfAccepted::Greeting(kept, first)
    } else {
        OfAccepted::Nothing
    }
}

/// Runs the example plant to lent ends.
fn run_example<
    R: Threads + Wait + AllocGlobal + Sync,
    C: Crew<Job, Start, Done, R>,
    F: Feed,
    S: Sink,
    L: Listener,
>(rt: &R, crew: &mut C, ends: &mut Ends<F, S, L>) -> Result<RunEnd, ServeFault>
    requires asked { C.asks }
    requires feed { F.broken ends.old.feed ≡ false }
    requires sink { S.broken ends.old.sink ≡ false }
{
    let sources = [(SOURCE_NAME, SOURCE)];
    let texts = PlantTexts {
        path: PLANT_NAME,
        plant: PLANT,
        sources: &sources,
        alarms: ALARMS,
    };
    run(rt, rt.alloc(), crew, &texts, ends)
}

/// Runs the plant of a plant file's path to lent ends; the example plant where there is no path.
fn run_to<
    R: Files + Threads + Wait + AllocGlobal + Sync,
    C: Crew<Job, Start, Done, R>,
    F: Feed,
    S: Sink,
    L: Listener,
>(rt: &R, crew: &mut C, path: Option<&str>, ends: &mut Ends<F, S, L>) -> Result<RunEnd, ServeFault>
    requires asked { C.asks }
    requires feed { F.broken ends.old.feed ≡ false }
    requires sink { S.broken ends.old.sink ≡ false }
{
    let Some(path) = path else {
        return run_example(rt, crew, ends);
    };
    let files = PlantFiles {
        folder: &Disk { files: rt },
        path,
    };
    run_from(rt, rt.alloc(), crew, &files, ends)
}

/// A command that may be the first to the plant of a plant file's path, or to the example plant.
fn first_command(path: Option<&str>) -> &'static str {
    match path {
        Some(_) => "scan 0",
        None => "scan 0 a=5",
    }
}

/// Serves the plant of a plant file's path over standard input and output, its programs run by the crew; the example plant where there is no path. A person is
/// told why it is refused, or one that is to take its place, and at a terminal, once it is accepted, how to begin. The ends are let go here alone.
fn serve_by<
    R: Files + Input + Print + Eprint + Threads + Wait + AllocGlobal + Sync,
    C: Crew<Job, Start, Done, R>,
>(rt: &R, crew: &mut C, path: Option<&str>, is_terminal: bool) -> Ended
    requires { C.asks }
{
    let kept = KeptSources::new();
    let looker = looker(rt.alloc(), &kept, is_terminal);
    let of_served = of_served(&kept, first_command(path), is_terminal);
    let mut ends = Ends {
        feed: Reading::new(rt.reader()),
        sink: Watching::new(rt, Writing::new(io::writer(rt)), looker),
        listener: Telling::new(rt, path.unwrap_or(""), of_served),
    };
    let run = run_to(rt, crew, path, &mut ends);
    if path.is_some() && matches!(run, Ok(RunEnd::Refused)) {
        ends.listener.tell(rt);
    }
    let ended = ended(rt, run, ends.feed.error(), ends.sink.to.error());
    drop(ends);
    drop(kept);
    ended
}

/// Serves the plant of a plant file's path over standard input and output, its programs run by so many workers. One is the caller alone.
pub fn serve_files<R: Runtime + Threads + Wait + AllocGlobal + Send + Sync + 'static>(
    rt: &R,
    path: &str,
    number: u32,
    is_terminal: bool,
) -> Ended
    requires { (0 < number) × (number ≤ 64) }
{
    if number == 1 {
        return serve_by(rt, &mut Alone, Some(path), is_terminal);
    }
    match workers(rt, rt.alloc(), number) {
        Ok(workers) => {
            let mut crew = workers;
            let ended = serve_by(rt, &mut crew, Some(path), is_terminal);
            crew.close(rt);
            ended
        }
        Err(fault) => stopped(rt, fault),
    }
}

/// Serves the example plant over standard input and output.
pub fn serve_example<R: Files + Input + Print + Eprint + Threads + Wait + AllocGlobal + Sync>(
    rt: &R,
    is_terminal: bool,
) -> Ended {
    serve_by(rt, &mut Alone, None, is_terminal)
}

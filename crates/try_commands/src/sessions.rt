//! The real `serve` over feeds and sinks that fail, or take little at a time.

ghost use Rattle.std.specs.Prelude.{◌≡◌, false};

use engine::{Crew, Done, Engine, Job, Start};
use plant_config::Plant;
use serve_runs::{Deaf, Failed, Feed, ServeFault, Sink, serve};
use std::alloc::{AllocError, Global};
use std::sync::Wait;
use std::thread::Threads;
use try_text::Page;

/// More calls than a session makes, and more bytes than it reads or writes.
const NO_LIMIT: usize = 1_000_000_000;

/// A feed that gives at most so many bytes a read, and fails after so many reads.
#[derive(Drop)]
struct Pieces<'a> {
    bytes: &'a [u8],
    most: usize,
    reads: usize,
    broken: bool,
}

impl Feed for Pieces<'_> {
    ghost use Rattle.std.specs.Prelude.{None};

    ghost remaining = { λ _. None };

    ghost broken = { λ s. s.broken };

    fn read(&mut self, buf: &mut [u8]) -> Result<usize, Failed> {
        if self.reads == 0 {
            self.broken = true;
            return Err(Failed);
        }
        self.reads -= 1;
        let n = self.bytes.len().min(self.most).min(buf.len());
        let (now, rest) = self.bytes.split_at(n);
        for (place, byte) in buf.iter_mut().zip(now) {
            *place = *byte;
        }
        self.bytes = rest;
        Ok(n)
    }

    fn failed(&self) -> bool {
        self.broken
    }
}

/// A sink that takes at most so many bytes a write, and fails after so many writes.
#[derive(Drop)]
struct Taken {
    bytes: Vec<u8>,
    most: usize,
    writes: usize,
    broken: bool,
}

impl Sink for Taken {
    ghost use Rattle.std.specs.Prelude.{None};

    ghost written = { λ _. None };

    ghost broken = { λ s. s.broken };

    fn write(&mut self, buf: &[u8]) -> Result<usize, Failed> {
        let n = buf.len().min(self.most.max(1));
        let (now, _) = buf.split_at(n);
        if self.writes == 0 || self.bytes.extend_from_slice(now).is_err() {
            self.broken = true;
            return Err(Failed);
        }
        self.writes -= 1;
        Ok(n)
    }

    fn failed(&self) -> bool {
        self.broken
    }
}

/// How many bytes a read and a write take at most, and how many reads and writes there are before one fails.
#[derive(Clone, Copy, Drop)]
struct Ends {
    read: usize,
    reads: usize,
    write: usize,
    writes: usize,
}

/// How a session ended, after how many events, and what it wrote.
#[derive(Drop)]
struct Ended {
    outcome: &'static str,
    events: u64,
    bytes: Vec<u8>,
}

/// Serves an input to an engine that is lent.
fn served<H: Threads + Wait + Sync, C: Crew<Job, Start, Done, H>>(
    rt: &H,
    alloc: Global,
    engine: &mut Engine,
    crew: &mut C,
    input: &[u8],
    ends: Ends,
) -> Result<Ended, AllocError>
    requires { C.asks }
{
    // Room for all answers: a growth that is refused would look like a write that failed.
    let bytes = Vec::with_capacity(alloc, 1000)?;
    let mut feed = Pieces {
        bytes: input,
        most: ends.read,
        reads: ends.reads,
        broken: false,
    };
    let mut sink = Taken {
        bytes,
        most: ends.write,
        writes: ends.writes,
        broken: false,
    };
    let outcome = match serve(rt, alloc, engine, crew, &mut feed, &mut sink, &mut Deaf) {
        Ok(()) => "DONE",
        Err(ServeFault::Memory) => return Err(AllocError),
        Err(fault) => fault.text(),
    };
    Ok(Ended {
        outcome,
        events: engine.events(),
        bytes: sink.bytes,
    })
}

fn engine_of(alloc: Global, plant: &Plant) -> Result<Engine, AllocError> {
    Engine::new(alloc, plant.copy(alloc)?)
}

/// A plant, and the input that a new engine of it is served.
#[derive(Drop)]
pub struct PlantInput<'a> {
    pub plant: &'a Plant,
    pub input: &'a [u8],
}

/// Serves an input to a new engine of a plant, which is let go here alone.
fn session<H: Threads + Wait + Sync, C: Crew<Job, Start, Done, H>>(
    rt: &H,
    alloc: Global,
    crew: &mut C,
    given: &PlantInput<'_>,
    ends: Ends,
) -> Result<Ended, AllocError>
    requires { C.asks }
{
    let mut engine = engine_of(alloc, given.plant)?;
    let ended = served(rt, alloc, &mut engine, crew, given.input, ends);
    drop(engine);
    ended
}

/// Adds how a session ended, how many bytes and line ends it wrote, and after how many events; `APART` where it wrote no beginning of the
/// whole answers.
fn push_ended(page: &mut Page, ended: &Ended, whole: &[u8]) {
    let wrote = ended.bytes.as_slice();
    let lines = wrote.iter().filter(|byte| **byte == b'\n').count();
    page.word(ended.outcome);
    page.number(wrote.len() as i128);
    page.number(lines as i128);
    page.number(i128::from(ended.events));
    page.line(if whole.starts_with(wrote) {
        ""
    } else {
        " APART"
    });
}

/// The ends of a word: `feed 5` gives at most 5 bytes a read, `sink 5` takes at most 5 a write; the first call that fails is the one after so
/// many.
fn ends_of(word: &str, calls: usize) -> Ends {
    let (name, most) = word.split_once(" ").unwrap_or((word, ""));
    let most = most.parse::<usize>().unwrap_or(NO_LIMIT);
    let is_feed = name == "feed";
    Ends {
        read: if is_feed { most } else { NO_LIMIT },
        reads: if is_feed { calls } else { NO_LIMIT },
        write: if is_feed { NO_LIMIT } else { most },
        writes: if is_feed { NO_LIMIT } else { calls },
    }
}

/// Sessions that are tried: of a plant and its input, by the words of a line, and held against the whole answers.
#[derive(Drop)]
struct Tried<'a> {
    given: &'a PlantInput<'a>,
    words: &'a str,
    whole: &'a [u8],
}

/// Adds the sessions of a plant in which the first call of a feed or sink fails, the second one, the third, and so on until none does.
fn push_failing<H: Threads + Wait + Sync, C: Crew<Job, Start, Done, H>>(
    rt: &H,
    alloc: Global,
    crew: &mut C,
    page: &mut Page,
    tried: &Tried<'_>,
)
    requires { C.asks }
{
    for calls in 0..1_000_000usize {
        let ends = ends_of(tried.words, calls);
        let Ok(ended) = session(rt, alloc, crew, tried.given, ends) else {
            return page.refuse();
        };
        page.add_number(calls as i128);
        push_ended(page, &ended, tried.whole);
        if ended.outcome == "DONE" {
            return;
        }
    }
}

/// The ends of words: `5 7` gives at most 5 bytes a read, and takes at most 7 a write.
fn little_ends(words: &str) -> Ends {
    let (read, write) = words.split_once(" ").unwrap_or((words, ""));
    Ends {
        read: read.parse::<usize>().unwrap_or(NO_LIMIT),
        reads: NO_LIMIT,
        write: write.parse::<usize>().unwrap_or(NO_LIMIT),
        writes: NO_LIMIT,
    }
}

/// Adds the session of a plant whose feed and sink take little: `little 5 7` gives at most 5 bytes a read, and takes at most 7 a write.
fn push_little<H: Threads + Wait + Sync, C: Crew<Job, Start, Done, H>>(
    rt: &H,
    alloc: Global,
    crew: &mut C,
    page: &mut Page,
    tried: &Tried<'_>,
)
    requires { C.asks }
{
    match session(rt, alloc, crew, tried.given, little_ends(tried.words)) {
        Ok(ended) => {
            page.add(tried.words);
            push_ended(page, &ended, tried.whole);
        }
        Err(_) => page.refuse(),
    }
}

/// Adds what a session wrote, how it ended, and after how many events.
fn push_served(page: &mut Page, ended: &Ended) {
    page.add_bytes(ended.bytes.as_slice());
    page.add(ended.outcome);
    page.number(i128::from(ended.events));
    page.add("\n");
}

/// Adds what a session of a plant writes, how it ends, and after how many events.
pub fn push_session<H: Threads + Wait + Sync, C: Crew<Job, Start, Done, H>>(
    rt: &H,
    alloc: Global,
    crew: &mut C,
    page: &mut Page,
    given: &PlantInput<'_>,
)
    requires { C.asks }
{
    match session(rt, alloc, crew, given, ends_of("sink", NO_LIMIT)) {
        Ok(ended) => push_served(page, &ended),
        Err(_) => page.refuse(),
    }
}

/// Whether a line of a run asks for sessions.
pub fn asks_for_sessions(line: &str) -> bool {
    line.starts_with("feed ") || line.starts_with("sink ") || line.starts_with("little ")
}

/// Adds the sessions of a line: each of a new engine of the plant, on the commands so far.
pub fn push_sessions<H: Threads + Wait + Sync, C: Crew<Job, Start, Done, H>>(
    rt: &H,
    alloc: Global,
    crew: &mut C,
    page: &mut Page,
    given: &PlantInput<'_>,
    line: &str,
)
    requires { C.asks }
{
    page.line(line);
    let Ok(ended) = session(rt, alloc, crew, given, ends_of("sink", NO_LIMIT)) else {
        return page.refuse();
    };
    let little = line.strip_prefix("little ");
    let tried = Tried {
        given,
        words: little.unwrap_or(line),
        whole: ended.bytes.as_slice(),
    };
    match little {
        Some(_) => push_little(rt, alloc, crew, page, &tried),
        None => push_failing(rt, alloc, crew, page, &tried),
    }
}

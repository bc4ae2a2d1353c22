//! What the server answers.

use engine::{Crew, Done, Engine, Job, Start};
use plant_config::Plant;
use serve_runs::{Deaf, Feed, Reading, ServeFault, Sink, Writing, serve};
use std::alloc::Global;
use std::sync::Wait;
use std::thread::Threads;
use try_text::Page;

/// Adds the line of a plant that is only checked.
pub fn push_accepted(page: &mut Page, plant: &Plant) {
    page.add("ACCEPTED PROGRAMS");
    page.number(i128::from(plant.programs()));
    page.word("ALARMS");
    page.number(i128::from(plant.alarms()));
    page.add("\n");
}

/// What an input is answered. Neither the feed nor the sink has failed then.
fn served<H: Threads + Wait + Sync, C: Crew<Job, Start, Done, H>>(
    rt: &H,
    alloc: Global,
    engine: &mut Engine,
    crew: &mut C,
    input: &[u8],
) -> Result<Vec<u8>, ServeFault>
    requires { C.asks }
{
    let mut feed = Reading::new(input);
    let mut sink = Writing::new(Vec::new(alloc));
    serve(rt, alloc, engine, crew, &mut feed, &mut sink, &mut Deaf)?;
    if feed.failed() || sink.failed() {
        return Err(ServeFault::Read);
    }
    Ok(sink.into_inner())
}

/// Adds what an input is answered. Over memory a session stops only where memory was refused.
pub fn push_answers<H: Threads + Wait + Sync, C: Crew<Job, Start, Done, H>>(
    rt: &H,
    alloc: Global,
    page: &mut Page,
    engine: &mut Engine,
    crew: &mut C,
    input: &[u8],
)
    requires { C.asks }
{
    match served(rt, alloc, engine, crew, input) {
        Ok(answers) => page.add_bytes(answers.as_slice()),
        Err(_) => page.refuse(),
    }
}

/// Adds how many events an engine has taken, its last moment and the state of its first alarm.
pub fn push_seen(page: &mut Page, engine: &Engine) {
    page.add("SEEN");
    page.number(i128::from(engine.events()));
    page.number(i128::from(engine.moment()));
    page.word(if engine.plant().alarms() > 0 {
        engine.state(0).code().text()
    } else {
        "-"
    });
    page.add("\n");
}

/// Adds another page.
pub fn push_page(page: &mut Page, other: &Page) {
    page.add_bytes(other.as_slice());
    if other.is_short() {
        page.refuse();
    }
}

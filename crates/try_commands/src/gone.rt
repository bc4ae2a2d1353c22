//! Commands by workers that are gone: what the engine's own calls answer, and how the server ends.

use crate::sessions::{PlantInput, push_session};
use crate::steps::push_step;
use engine::{Crew, Done, Engine, Job, Start};
use plant_config::Plant;
use std::alloc::Global;
use std::sync::Wait;
use std::thread::Threads;
use try_text::Page;

/// Gives an engine the commands of lines, each by the engine's call for it.
fn give<H, C: Crew<Job, Start, Done, H>>(
    rt: &H,
    alloc: Global,
    engine: &mut Engine,
    crew: &mut C,
    page: &mut Page,
    lines: &str,
)
    requires { C.asks }
{
    for line in lines.lines() {
        if !line.is_empty() {
            push_step(rt, alloc, page, engine, crew, false, line);
        }
    }
}

/// Gives an engine of a plant the commands of lines, each by the engine's call for it, and serves them to another. An engine is let go here
/// alone.
pub fn run_gone<H: Threads + Wait + Sync, C: Crew<Job, Start, Done, H>>(
    rt: &H,
    alloc: Global,
    crew: &mut C,
    page: &mut Page,
    plant: Plant,
    lines: &str,
)
    requires { C.asks }
{
    match Engine::new(alloc, plant) {
        Ok(mut engine) => {
            give(rt, alloc, &mut engine, crew, page, lines);
            let given = PlantInput {
                plant: engine.plant(),
                input: lines.as_bytes(),
            };
            push_session(rt, alloc, crew, page, &given);
            drop(engine);
        }
        Err(_) => page.refuse(),
    }
}

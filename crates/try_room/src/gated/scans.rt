//! Scans of a plant by a crew, and what its gate saw of each.

use crate::gated::gates::Watch;
use engine::{Crew, Done, Engine, EngineFault, Job, Pair, Plant, Start};
use std::alloc::Global;
use try_text::Page;

/// Adds the values of the outputs.
fn push_outputs(page: &mut Page, engine: &Engine) {
    for (_, value) in engine.outputs() {
        page.number(i128::from(value.worth()));
    }
    page.add("\n");
}

/// Takes a scan without an image, and adds what the gate saw of it and the outputs, or why it was refused.
fn push_scan<H, C: Crew<Job, Start, Done, H>>(
    rt: &H,
    alloc: Global,
    page: &mut Page,
    engine: &mut Engine,
    crew: &mut C,
    watch: &Watch,
    moment: u64,
)
    requires { C.asks }
{
    let pairs = Vec::<Pair>::new(alloc);
    watch.forget();
    match engine.scan(rt, alloc, crew, pairs.as_slice(), moment) {
        Ok(report) => {
            page.add_number(i128::from(report.moment));
            page.word(watch.told());
            push_outputs(page, engine);
        }
        Err(EngineFault::Memory) => page.refuse(),
        Err(fault) => {
            page.add("REFUSED ");
            page.line(fault.text());
        }
    }
}

/// Takes so many scans of a plant by a crew, at the moments from 1 on: of two, one at an odd and one at an even moment. An engine is let go
/// here alone.
pub fn push_scans<H, C: Crew<Job, Start, Done, H>>(
    rt: &H,
    alloc: Global,
    page: &mut Page,
    crew: &mut C,
    watch: &Watch,
    plant: Plant,
    many: u64,
)
    requires { C.asks }
{
    match Engine::new(alloc, plant) {
        Ok(mut engine) => {
            for moment in 1..=many {
                push_scan(rt, alloc, page, &mut engine, crew, watch, moment);
            }
            drop(engine);
        }
        Err(_) => page.refuse(),
    }
}

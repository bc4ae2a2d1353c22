//! The lines of a run: commands, and the table's own words between them.

use crate::answers::{push_accepted, push_answers, push_page, push_seen};
use crate::beside::Beside;
use crate::crews::Crews;
use crate::folders::{push_checked, push_ran};
use crate::gone::run_gone;
use crate::plants::{Asked, Plan, plant_of};
use crate::sessions::{PlantInput, asks_for_sessions, push_sessions};
use crate::shown::push_shown;
use crate::steps::push_step;
use engine::{Alone, Crew, Done, Engine, Job, Start};
use explain_listing::listing;
use plant_config::Plant;
use std::alloc::Global;
use std::sync::Wait;
use std::thread::Threads;
use try_text::{Page, push_line};
use try_twins::Walker;

fn add_command(page: &mut Page, commands: &mut Vec<u8>, line: &str) {
    if push_line(commands, line).is_err() {
        page.refuse();
    }
}

/// Who takes the commands of a run: an engine and its crew, and the programs beside it; and the commands that they haven't been given yet.
#[derive(Drop)]
struct Stage<'a, C> {
    engine: &'a mut Engine,
    crew: &'a mut C,
    beside: &'a mut Beside,
    commands: &'a mut Vec<u8>,
}

/// Gives an engine its commands, and adds its answers. The programs beside it take the same commands.
fn give<H: Threads + Wait + Sync, C: Crew<Job, Start, Done, H>>(
    rt: &H,
    alloc: Global,
    stage: &mut Stage<'_, C>,
    page: &mut Page,
)
    requires { C.asks }
{
    let commands = stage.commands.as_slice();
    push_answers(rt, alloc, page, stage.engine, stage.crew, commands);
    stage.beside.take(alloc, page, stage.engine, commands);
    stage.commands.clear();
}

/// Gives a command so many times, and adds the answer to the last.
fn repeat<H: Threads + Wait + Sync, C: Crew<Job, Start, Done, H>>(
    rt: &H,
    alloc: Global,
    stage: &mut Stage<'_, C>,
    page: &mut Page,
    words: &str,
)
    requires { C.asks }
{
    let (times, command) = words.split_once(" ").unwrap_or((words, ""));
    let times = times.parse::<u32>().unwrap_or(0);
    let mut unseen = Page::new(alloc);
    for _ in 1..times {
        add_command(page, stage.commands, command);
    }
    give(rt, alloc, stage, &mut unseen);
    if unseen.is_short() {
        page.refuse();
    }
    add_command(page, stage.commands, command);
    give(rt, alloc, stage, page);
}

/// Gives an engine the command of a line `ready ..` or `step ..` by its own calls. The programs beside it take the same command.
fn step<H, C: Crew<Job, Start, Done, H>>(
    rt: &H,
    alloc: Global,
    stage: &mut Stage<'_, C>,
    page: &mut Page,
    line: &str,
)
    requires { C.asks }
{
    let (word, command) = line.split_once(" ").unwrap_or((line, ""));
    let is_ready = word == "ready";
    push_step(rt, alloc, page, stage.engine, stage.crew, is_ready, command);
    stage
        .beside
        .take(alloc, page, stage.engine, command.as_bytes());
}

/// Whether a line of a run is the table's own, and asks what the engine is given or shows next.
fn is_own(line: &str) -> bool {
    let (word, _) = line.split_once(" ").unwrap_or((line, ""));
    matches!(
        word,
        "seen" | "repeat" | "show" | "listed" | "ready" | "step"
    )
}

/// Takes a line that is the table's own. All commands before it were given.
fn take_own<H: Threads + Wait + Sync, C: Crew<Job, Start, Done, H>>(
    rt: &H,
    alloc: Global,
    stage: &mut Stage<'_, C>,
    page: &mut Page,
    line: &str,
)
    requires { C.asks }
{
    let (word, words) = line.split_once(" ").unwrap_or((line, ""));
    match word {
        "repeat" => repeat(rt, alloc, stage, page, words),
        "show" => push_shown(alloc, page, stage.engine.plant(), words),
        "listed" => page.add_made(listing(alloc, stage.engine.plant())),
        "ready" | "step" => step(rt, alloc, stage, page, line),
        _ => push_seen(page, stage.engine),
    }
}

fn take<H: Threads + Wait + Sync, C: Crew<Job, Start, Done, H>>(
    rt: &H,
    alloc: Global,
    stage: &mut Stage<'_, C>,
    page: &mut Page,
    line: &str,
)
    requires { C.asks }
{
    if line.is_empty() {
        return;
    }
    if asks_for_sessions(line) {
        let given = PlantInput {
            plant: stage.engine.plant(),
            input: stage.commands.as_slice(),
        };
        return push_sessions(rt, alloc, stage.crew, page, &given, line);
    }
    if !is_own(line) {
        return add_command(page, stage.commands, line);
    }
    give(rt, alloc, stage, page);
    take_own(rt, alloc, stage, page, line);
}

fn take_all<H: Threads + Wait + Sync, C: Crew<Job, Start, Done, H>>(
    rt: &H,
    alloc: Global,
    stage: &mut Stage<'_, C>,
    page: &mut Page,
    lines: &str,
)
    requires { C.asks }
{
    for line in lines.lines() {
        take(rt, alloc, stage, page, line);
    }
    give(rt, alloc, stage, page);
}

/// Runs an engine's plant on the lines of a run. The programs beside it are let go here alone.
fn run_beside<H: Threads + Wait + Sync, C: Crew<Job, Start, Done, H>>(
    rt: &H,
    alloc: Global,
    engine: &mut Engine,
    crew: &mut C,
    page: &mut Page,
    walker: Walker,
    lines: &str,
)
    requires { C.asks }
{
    match Beside::new(alloc, engine.plant(), walker) {
        Ok(mut beside) => {
            let mut commands = Vec::new(alloc);
            let mut stage = Stage {
                engine,
                crew,
                beside: &mut beside,
                commands: &mut commands,
            };
            take_all(rt, alloc, &mut stage, page, lines);
            drop(beside);
        }
        Err(_) => page.refuse(),
    }
}

/// Runs a plant on the lines of a run. An engine is let go here alone.
fn run_plant<H: Threads + Wait + Sync, C: Crew<Job, Start, Done, H>>(
    rt: &H,
    alloc: Global,
    crew: &mut C,
    page: &mut Page,
    plant: (Plant, Walker),
    lines: &str,
)
    requires { C.asks }
{
    let (plant, walker) = plant;
    match Engine::new(alloc, plant) {
        Ok(mut engine) => {
            run_beside(rt, alloc, &mut engine, crew, page, walker, lines);
            drop(engine);
        }
        Err(_) => {
            drop(walker);
            page.refuse()
        }
    }
}

/// Adds what there is of the plant of a plan: why there is no such plant, what it has if it is only checked, or its answers.
fn push_read<H: Threads + Wait + Sync, C: Crew<Job, Start, Done, H>>(
    rt: &H,
    alloc: Global,
    crew: &mut C,
    page: &mut Page,
    plan: &Plan<'_>,
)
    requires { C.asks }
{
    let Some((plant, walker)) = plant_of(rt, alloc, page, plan) else {
        return;
    };
    match plan.asked {
        Asked::Run => run_plant(rt, alloc, crew, page, (plant, walker), plan.lines),
        Asked::RunGone => {
            drop(walker);
            run_gone(rt, alloc, crew, page, plant, plan.lines)
        }
        _ => {
            drop(walker);
            push_accepted(page, &plant);
            drop(plant);
        }
    }
}

fn push_plan<H: Threads + Wait + Sync, C: Crew<Job, Start, Done, H>>(
    rt: &H,
    alloc: Global,
    crew: &mut C,
    page: &mut Page,
    plan: &Plan<'_>,
)
    requires { C.asks }
{
    match plan.asked {
        Asked::Run | Asked::RunGone | Asked::Check | Asked::List => push_read(
            rt, alloc, crew, page, plan,
        ),
        Asked::CheckFiles => push_checked(rt, alloc, page, plan),
        Asked::RunFiles => push_ran(rt, alloc, crew, page, plan, false),
        Asked::RunTexts => push_ran(rt, alloc, crew, page, plan, true),
    }
}

fn page_of<H: Threads + Wait + Sync, C: Crew<Job, Start, Done, H>>(
    rt: &H,
    alloc: Global,
    crew: &mut C,
    plan: &Plan<'_>,
) -> Page
    requires { C.asks }
{
    let mut page = Page::new(alloc);
    push_plan(rt, alloc, crew, &mut page, plan);
    page
}

/// What a plan asks for. Where memory is refused it is asked for once more.
pub fn page_again<H: Threads + Wait + Sync, C: Crew<Job, Start, Done, H>>(
    rt: &H,
    alloc: Global,
    crew: &mut C,
    plan: &Plan<'_>,
) -> Page
    requires { C.asks }
{
    let page = page_of(rt, alloc, crew, plan);
    if page.is_short() {
        return page_of(rt, alloc, crew, plan);
    }
    page
}

/// Adds what a plan asks for. Where it serves a plant, it is asked for once more by each crew of workers.
pub fn push_plan_by_all<H: Threads + Wait + Sync>(
    rt: &H,
    alloc: Global,
    crews: &mut Crews,
    text: &mut Page,
    plan: &Plan<'_>,
) {
    let alone = page_again(rt, alloc, &mut Alone, plan);
    push_page(text, &alone);
    if plan.is_for_crews() {
        let two = page_again(rt, alloc, &mut crews.two, plan);
        crews.hold(text, &alone, "2", &two);
        let eight = page_again(rt, alloc, &mut crews.eight, plan);
        crews.hold(text, &alone, "8", &eight);
    }
}

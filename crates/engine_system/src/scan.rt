//! How a scan is made ready.

ghost use Rattle.std.specs.Prelude.{◌≡◌, ◌≤◌, All, Ok, IfOk, OnOk, IfErr, IfSome};
ghost use Rattle.alarm_machine.specs.declared.limits.TheConstants.{LAST_MOMENT};
ghost use Rattle.engine_history.specs.Names.{globals_of};
ghost use Rattle.engine_history.specs.declared.event.Event.TheVariants.{Scan};
ghost use Rattle.level_scans.specs.Levels.{AreLevelsOf};
ghost use Rattle.engine_system.specs.Faults.{faults_by};
ghost use Rattle.engine_system.specs.Image.{IsDue, FitsGlobal};
ghost use Rattle.engine_system.specs.System.{taken_scan};
ghost use Rattle.engine_system.specs.States.{after_effect};
ghost use Rattle.engine_system.specs.Steps.{ScanRan, IsPreparedScan, IsReady};

use crate::event::{EngineFault, Report};
use crate::image::{Input, taken_image};
use crate::state::{ScanEffect, State, copy_cells, copy_flags, empty_effect};
use crate::steps::{list_changed, renew, set_inputs, step_alarms};
use alarm_bank::Marks;
use crew::Crew;
use engine_history::Plant;
use level_scans::{Done, Job, Levelled, ScanChanged, ScanGiven, Start, Workspace, run_programs};
use plant_types::{Pair, Value};
use std::alloc::{AllocError, Global};
use std::marker::Model;
use std::mem::swap;

/// What a scan is made ready in.
#[derive(Drop)]
pub struct ReadyScan {
    /// Its image: inputs by number, with their values.
    pub image: Vec<(u32, Value)>,
    /// Its moment in milliseconds.
    pub moment: u64,
    /// What it does to the state.
    pub effect: ScanEffect,
    /// What it reports.
    pub report: Report,
}

/// A scan that was made ready to be committed. It lies in a place of its own, so it isn't copied where it is handed on.
#[derive(Drop)]
pub struct Prepared {
    /// The scan.
    pub scan: Box<ReadyScan>,
}

impl Model for Prepared {
    ghost use Rattle.std.specs.Coded.{codes};
    ghost use Rattle.engine_history.specs.contracts.event.Event as event_row;
    ghost use Rattle.engine_history.specs.declared.event.Event.TheVariants.{Scan};
    ghost use Rattle.engine_system.specs.States.{PlainPrepared};

    ghost Value = { PlainPrepared };

    ghost coded = { Prim.hlevel (codes, event_row.the_row.coded) };

    ghost view = { λ p. record { event = Scan p.scan.value.image.items p.scan.value.moment; effect = p.scan.value.effect; report = p.scan.value.report } };
}

/// Memory that one scan after another uses. What it holds doesn't matter.
#[derive(Drop)]
pub struct Room {
    /// The memory that lists are made of.
    pub alloc: Global,
    /// For the inputs of an image.
    pub inputs: Vec<Input>,
    /// For an image.
    pub image: Vec<(u32, Value)>,
    /// For a scan: what an earlier one was made ready in, with what that replaced.
    pub spare: Option<Box<ReadyScan>>,
    /// For the run of the programs and the look at the alarms.
    pub run: RunRoom,
}

/// Memory for the run of the programs of a scan, and for what comes of it. What it holds doesn't matter.
#[derive(Drop)]
pub struct RunRoom {
    /// For the programs' runs.
    pub space: Workspace,
    /// For the marks of the alarms that may move.
    pub marks: Marks,
}

/// What a scan begins from.
#[derive(Clone, Copy)]
pub struct Before<'a> {
    /// The plant.
    pub plant: &'a Plant,
    /// The state after the events so far.
    pub state: &'a State,
    /// How many events these are.
    pub events: usize,
    /// The levels by which a crew runs the programs, if they were made.
    pub levels: &'a Option<Levelled>,
}

/// A scan that is taken.
#[derive(Clone, Copy)]
struct TakenScan<'a> {
    /// What it begins from.
    before: &'a Before<'a>,
    /// Its image: inputs by number, with their values.
    image: &'a [(u32, Value)],
    /// Its moment in milliseconds.
    moment: u64,
}

/// A report of nothing, to be written over.
pub fn empty_report(alloc: Global) -> Report {
    Report {
        moment: 0,
        faults: Vec::new(alloc),
        changes: Vec::new(alloc),
        outs: Vec::new(alloc),
    }
}

/// What an earlier scan was made ready in, or a new place.
fn spare_scan(
    alloc: Global,
    spare: &mut Option<Box<ReadyScan>>,
) -> Result<Box<ReadyScan>, AllocError> {
    if let Some(scan) = spare.take() {
        return Ok(scan);
    }
    let empty = ReadyScan {
        image: Vec::new(alloc),
        moment: 0,
        effect: empty_effect(alloc),
        report: empty_report(alloc),
    };
    Ok(Box::new(alloc, empty)?)
}

/// Runs a scan on copies of what a state has, and puts what it does to the state and what it reports in the place of another's. Fails if memory is
/// refused, or the crew.
fn run_scan<C: Crew<Job, Start, Done, H>, H>(
    rt: &H,
    alloc: Global,
    crew: &mut C,
    taken: &TakenScan<'_>,
    room: &mut RunRoom,
    scan: &mut ReadyScan,
) -> Result<(), EngineFault>
    requires asked { C.asks }
    requires ready { IsReady taken.now.before.now.plant.now taken.now.before.now.state.now }
    requires levels { IfSome taken.now.before.now.levels.now
        (AreLevelsOf taken.now.before.now.plant.now.source) }
    requires later { taken.now.before.now.state.now.moment ≤ taken.now.moment }
    requires range { taken.now.moment ≤ LAST_MOMENT }
    requires image { All (FitsGlobal (globals_of taken.now.before.now.plant.now)) taken.now.image.now }
    ensures ok { OnOk result
        (ScanRan taken.now.before.now.plant.now taken.now.before.now.state.now taken.now.image.now
        taken.now.moment (after_effect scan.new.effect taken.now.before.now.state.now) scan.new.report) }
    ensures err { IfErr result (λ e. IsDue e (Ok (Scan taken.now.image.now taken.now.moment))) }
    ensures crew { C.faulted crew.new ≡ faults_by (C.faulted crew.old) result }
{
    let TakenScan {
        before,
        image,
        moment,
    } = *taken;
    let Before {
        plant,
        state: old,
        events: _,
        levels,
    } = *before;
    let ReadyScan {
        image: _,
        moment: _,
        effect,
        report,
    } = scan;
    let cells = &mut effect.cells;
    let flags = &mut effect.faulted;
    copy_cells(alloc, &old.cells, cells)?;
    set_inputs(image, cells);
    copy_flags(old.faulted.as_slice(), flags)?;
    let given = ScanGiven {
        framed: plant.logic(),
        levels,
        moment,
    };
    let mut changed = ScanChanged {
        cells,
        faulted: flags,
        faults: &mut report.faults,
        space: &mut room.space,
    };
    run_programs(rt, alloc, crew, &given, &mut changed)?;
    let cells = &effect.cells;
    let marks = &mut room.marks;
    step_alarms(alloc, old, cells, moment, marks, &mut effect.listed)?;
    swap(&mut report.changes, &mut effect.listed.moves.changes);
    renew(old.outputs.as_slice(), cells, &mut effect.outputs)?;
    let outputs = effect.outputs.as_slice();
    list_changed(outputs, &old.cells, cells, &mut report.outs)?;
    effect.moment = moment;
    report.moment = moment;
    Ok(())
}

/// Makes a scan ready, in the room that there is, or returns why it is refused.
pub fn prepared_scan<C: Crew<Job, Start, Done, H>, H>(
    rt: &H,
    alloc: Global,
    crew: &mut C,
    before: &Before<'_>,
    room: &mut Room,
    pairs: &[Pair],
    moment: u64,
) -> Result<Prepared, EngineFault>
    requires asked { C.asks }
    requires ready { IsReady before.now.plant.now before.now.state.now }
    requires levels { IfSome before.now.levels.now (AreLevelsOf before.now.plant.now.source) }
    ensures ok { IfOk result
        (IsPreparedScan before.now.plant.now before.now.state.now before.now.events pairs.now moment) }
    ensures err { IfErr result (λ e. IsDue e
        (taken_scan (globals_of before.now.plant.now) before.now.state.now.moment before.now.events
        pairs.now moment)) }
    ensures crew { C.faulted crew.new ≡ faults_by (C.faulted crew.old) result }
{
    let old = before.state;
    let last = old.bank.moment();
    taken_image(
        alloc,
        before.plant,
        room,
        last,
        before.events,
        pairs,
        moment,
    )?;
    let mut scan = spare_scan(alloc, &mut room.spare)?;
    let taken = TakenScan {
        before,
        image: room.image.as_slice(),
        moment,
    };
    match run_scan(rt, alloc, crew, &taken, &mut room.run, &mut scan) {
        Ok(()) => {
            scan.moment = moment;
            swap(&mut room.image, &mut scan.image);
            Ok(Prepared { scan })
        }
        Err(fault) => {
            room.spare = Some(scan);
            Err(fault)
        }
    }
}

//! The owner's day: the turns of the script, and those in between.

ghost use Rattle.station.specs.Lanes.{KeepsConsoles};

use crate::change::{change, is_due};
use crate::crews::Workers;
use crate::events::Events;
use engine::{AlarmState, Engine, EngineFault, Pair, Plant};
use serve_lines::{Command, Pool, read_command};
use station::Station;
use std::alloc::{AllocError, Global};
use std::sync::Wait;
use std::sync::ledger::Ledger;
use std::thread;
use std::thread::Threads;
use std::time::{Clock, Duration};
use try_desks::Watch;

/// How many turns the owner takes at most between two scans of the script.
const MOST_TURNS: u32 = 100_000;

/// How many it takes at least.
const LEAST_TURNS: u32 = 2;

/// For how long the owner lets the consoles go on after a turn that found no order, in microseconds.
const PAUSE: u64 = 50;

/// Why a day ended before its script.
#[derive(Clone, Copy, Drop)]
pub enum DayFault {
    /// Memory was refused for what the owner keeps.
    Memory,
    /// A turn was refused.
    Refused(EngineFault),
    /// The reload was refused.
    NotReloaded(EngineFault),
    /// An order was refused as an event.
    Stopped,
    /// Something still waits after so many turns as the owner takes at most.
    Unsettled,
    /// A line of the script is no scan.
    NoScan,
}

impl From<AllocError> for DayFault {
    ghost use Rattle.std.specs.Prelude.{⊤};

    ghost from_gives = { λ _ _. ⊤ };

    fn from(_refused: AllocError) -> DayFault {
        DayFault::Memory
    }
}

/// Whether an alarm in this state waits for an operator.
fn waits(state: AlarmState) -> bool {
    match state {
        AlarmState::Unack | AlarmState::Rtnun | AlarmState::Latun | AlarmState::Latak => true,
        _ => false,
    }
}

/// Whether no alarm waits for an operator.
fn is_quiet(engine: &Engine) -> bool {
    for alarm in 0..engine.plant().alarms() {
        if waits(engine.state(alarm)) {
            return false;
        }
    }
    true
}

/// Whether no alarm waits for an operator, each console is done with its drill, and the journal so far is kept.
fn is_settled(engine: &Engine, watch: &Watch) -> bool {
    watch.drilled() >= engine.plant().consoles().len() as u64
        && is_quiet(engine)
        && watch.kept() >= engine.journal().len()
}

/// Takes a turn, and tells how many orders it took.
#[tactic(auto, using(station::proofs::Ends::keeps_equal, try_desks::proofs::Seats::keeps_on))]
fn take_turn<L: Ledger, R: Threads + Wait>(
    rt: &R,
    alloc: Global,
    station: &mut Station<L, Workers>,
    events: &mut Events,
    pairs: &[Pair],
    moment: u64,
) -> Result<u32, DayFault>
    ensures { KeepsConsoles station.old.lanes station.new.lanes }
{
    match station.turn(rt, alloc, pairs, moment) {
        Ok(turn) => {
            events.add(&turn)?;
            if turn.stopped {
                return Err(DayFault::Stopped);
            }
            Ok(turn.taken)
        }
        Err(fault) => Err(DayFault::Refused(fault)),
    }
}

/// Changes the plant, where one is left that is to come and its time has come.
#[tactic(auto, using(station::proofs::Ends::keeps_equal, try_desks::proofs::Seats::keeps_on))]
fn change_once<L: Ledger, R: Threads + Wait + Clock>(
    rt: &R,
    alloc: Global,
    station: &mut Station<L, Workers>,
    events: &mut Events,
    watch: &Watch,
    later: &mut Option<Plant>,
) -> Result<(), DayFault>
    ensures { KeepsConsoles station.old.lanes station.new.lanes }
{
    if !is_due(station.engine(), watch) {
        return Ok(());
    }
    match later.take() {
        Some(plant) => change(rt, alloc, station, events, watch, plant),
        None => Ok(()),
    }
}

/// Takes turns at the moment of the last scan until nothing waits.
#[tactic(auto, using(station::proofs::Ends::keeps_equal, try_desks::proofs::Seats::keeps_on))]
fn settle<L: Ledger, R: Threads + Wait + Clock>(
    rt: &R,
    alloc: Global,
    station: &mut Station<L, Workers>,
    events: &mut Events,
    watch: &Watch,
    later: &mut Option<Plant>,
) -> Result<(), DayFault>
    ensures { KeepsConsoles station.old.lanes station.new.lanes }
{
    for turns in 0..MOST_TURNS {
        if turns >= LEAST_TURNS && is_settled(station.engine(), watch) {
            return Ok(());
        }
        change_once(rt, alloc, station, events, watch, later)?;
        let moment = station.engine().moment();
        let taken = take_turn(rt, alloc, station, events, &[], moment)?;
        if taken == 0 {
            thread::sleep(rt, Duration::from_micros(PAUSE));
        }
    }
    Err(DayFault::Unsettled)
}

/// Takes the turn of a line of the script, and turns after it until nothing waits. A remark is passed over.
#[tactic(auto, using(station::proofs::Ends::keeps_equal, try_desks::proofs::Seats::keeps_on))]
fn go_on<L: Ledger, R: Threads + Wait + Clock>(
    rt: &R,
    alloc: Global,
    station: &mut Station<L, Workers>,
    events: &mut Events,
    watch: &Watch,
    later: &mut Option<Plant>,
    line: &str,
) -> Result<(), DayFault>
    ensures { KeepsConsoles station.old.lanes station.new.lanes }
{
    let mut pool = Pool::new(alloc);
    match read_command(alloc, &mut pool, line.as_bytes())? {
        Command::Nothing => Ok(()),
        Command::Scan(moment, pairs) => {
            take_turn(rt, alloc, station, events, pairs, moment)?;
            events.scripted = events.scripted.saturating_add(1);
            settle(rt, alloc, station, events, watch, later)
        }
        _ => Err(DayFault::NoScan),
    }
}

/// Goes through the script. The plant that is to come takes the place of the station's in the middle of the drill.
#[tactic(auto, using(station::proofs::Ends::keeps_equal, try_desks::proofs::Seats::keeps_on))]
pub fn go_through<L: Ledger, R: Threads + Wait + Clock>(
    rt: &R,
    alloc: Global,
    station: &mut Station<L, Workers>,
    events: &mut Events,
    watch: &Watch,
    later: &mut Option<Plant>,
    script: &str,
) -> Result<(), DayFault>
    ensures { KeepsConsoles station.old.lanes station.new.lanes }
{
    for line in script.lines() {
        go_on(rt, alloc, station, events, watch, later, line)?;
    }
    Ok(())
}

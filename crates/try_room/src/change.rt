//! The change of the plant in the middle of the drill.

ghost use Rattle.std.specs.Prelude.{◌≡◌};

use crate::crews::Workers;
use crate::day::DayFault;
use crate::events::Events;
use engine::{Engine, Plant};
use station::Station;
use std::alloc::Global;
use std::sync::Wait;
use std::sync::ledger::Ledger;
use std::thread;
use std::thread::Threads;
use std::time::{Clock, Duration};
use try_desks::Watch;

/// How often the owner looks at most whether orders are under way.
const MOST_LOOKS: u32 = 1_000_000;

/// For how long it lets the consoles go on after a look, in microseconds.
const PAUSE: u64 = 50;

/// Whether the plant is to change: each console has the answers of half its drill, and nothing more is under way.
pub fn is_due(engine: &Engine, watch: &Watch) -> bool {
    watch.halved() >= engine.plant().consoles().len() as u64
}

/// Waits until so many consoles have orders under way. Tells whether they have.
fn wait_for_orders<R: Threads + Clock>(rt: &R, watch: &Watch, consoles: u64) -> bool {
    watch.hold();
    for _ in 0..MOST_LOOKS {
        if watch.waiting() >= consoles {
            return true;
        }
        thread::sleep(rt, Duration::from_micros(PAUSE));
    }
    false
}

/// Lets a plant take the place of the station's, and tells the events.
fn reload<L: Ledger, R: Wait>(
    rt: &R,
    alloc: Global,
    station: &mut Station<L, Workers>,
    events: &mut Events,
    plant: Plant,
) -> Result<(), DayFault>
    ensures { station.new.lanes ≡ station.old.lanes }
{
    match station.reload(rt, alloc, plant) {
        Ok(_) => {
            events.reloads = events.reloads.saturating_add(1);
            Ok(())
        }
        Err(refused) => Err(DayFault::NotReloaded(refused.fault)),
    }
}

/// Waits until each console has orders under way, and lets a plant take the place of the station's.
pub fn change<L: Ledger, R: Threads + Wait + Clock>(
    rt: &R,
    alloc: Global,
    station: &mut Station<L, Workers>,
    events: &mut Events,
    watch: &Watch,
    plant: Plant,
) -> Result<(), DayFault>
    ensures { station.new.lanes ≡ station.old.lanes }
{
    let consoles = station.engine().plant().consoles().len() as u64;
    if !wait_for_orders(rt, watch, consoles) {
        return Err(DayFault::Unsettled);
    }
    reload(rt, alloc, station, events, plant)
}

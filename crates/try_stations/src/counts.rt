//! What a turn that is refused, or stopped, leaves as it was.

ghost use Rattle.try_stations.specs.Seated.{AreSame};

use crate::asking::{Asked, Told, ask};
use crate::workers::Workers;
use engine::{EngineFault, Plant};
use station::{Archive, Console, Station, Turn};
use std::sync::Wait;
use std::sync::ledger::Ledger;

/// How many events the engine and the archive have, and how many places for orders all consoles know to be free.
#[derive(Clone, Copy, PartialEq, Eq, Drop)]
pub struct Counts {
    events: u64,
    kept: u64,
    room: u64,
}

impl Counts {
    /// What they are after a turn, by what it answered: each order that it took is an event, and gives its place back.
    fn after(self, answer: &Result<Turn, EngineFault>) -> Counts {
        let (events, room) = match answer {
            Ok(turn) => (u64::from(turn.taken) + 1, u64::from(turn.taken)),
            Err(_) => (0, 0),
        };
        Counts {
            events: self.events.saturating_add(events),
            kept: self.kept.saturating_add(events),
            room: self.room.saturating_add(room),
        }
    }
}

/// How many events the archive has.
fn kept_events<L: Ledger, R: Wait>(rt: &R, archive: &Archive<L>) -> u64 {
    let book = archive.lock(rt);
    book.engine().events()
}

/// How many places for orders the consoles of a plant know to be free.
#[tactic(auto, using(crate::proofs::Seats::same_all, crate::proofs::Seats::same_more))]
fn all_room(plant: &Plant, consoles: &mut [Console]) -> u64
    ensures { AreSame consoles.old consoles.new }
{
    let mut room = 0u64;
    for listed in plant.consoles() {
        if let Some(Told::Room(places)) = ask(consoles, listed.number, Asked::Room) {
            room = room.saturating_add(u64::from(places));
        }
    }
    room
}

/// Whether the board shows just so many events, at each console of a plant.
#[tactic(auto, using(crate::proofs::Seats::same_all, crate::proofs::Seats::same_more))]
fn all_show(plant: &Plant, consoles: &mut [Console], events: u64) -> bool
    ensures { AreSame consoles.old consoles.new }
{
    let mut showing = true;
    for listed in plant.consoles() {
        let shown = match ask(consoles, listed.number, Asked::Board(0)) {
            Some(Told::Board(Some((shown, _)))) => shown == events,
            _ => false,
        };
        showing = showing && shown;
    }
    showing
}

/// How things stand.
pub fn count<L: Ledger, R: Wait>(
    rt: &R,
    station: &Station<L, Workers>,
    consoles: &mut [Console],
) -> Counts
    ensures { AreSame consoles.old consoles.new }
{
    let engine = station.engine();
    Counts {
        events: engine.events(),
        kept: kept_events(rt, &**station.archive()),
        room: all_room(engine.plant(), consoles),
    }
}

/// Whether things stand as they have to after a turn, by how they stood before it and what it answered: an event for its scan and for each order that it
/// took, in the engine, in the archive and on each board, and no other; and no order gone but those that it took.
#[tactic(auto, using(crate::proofs::Seats::same_more))]
pub fn is_kept<L: Ledger, R: Wait>(
    rt: &R,
    station: &Station<L, Workers>,
    consoles: &mut [Console],
    before: Counts,
    answer: &Result<Turn, EngineFault>,
) -> bool
    ensures { AreSame consoles.old consoles.new }
{
    let now = count(rt, station, consoles);
    let showing = all_show(station.engine().plant(), consoles, now.events);
    showing && now == before.after(answer)
}

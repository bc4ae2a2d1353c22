//! The station: its public calls.

ghost use Rattle.std.specs.Prelude.{◌≡◌, ◌≢◌, ◌<◌, ◌↔◌, IsTrue, [], length, map, All, IfOk, IfErr, OnErr};
ghost use Rattle.console_recorder.specs.Faults.{faults_by};
ghost use Rattle.console_recorder.specs.Records.{IsReloadDue, IsScanDue};
ghost use Rattle.station.specs.Lanes.{numbers_of, numbers_in, links_of, AreConsolesIn, IsEndIn, IsFresh, HasNotLooked, KeepsConsoles};
ghost use Rattle.station.specs.Stations.{IsReload, IsTurn, IsWhole, SameButRoom, AreBeginnings, AreClosed, TellWithin, SawBeginnings};
ghost use Rattle.console_recorder.specs.Entries.{entries_of, history_story};

use crate::closing::{Closing, end_lanes};
use crate::opening::StationFault;
use crate::recording::open_consoles;
use console_link::Lane;
use console_operator::{Console, Finished};
use console_recorder::{
    Archive, Crew, Done, Engine, EngineFault, Job, Order, Pair, Plant, Recorder, ReloadRefused,
    Reloaded, Reply, Report, Start, take_parts,
};
use std::alloc::Global;
use std::marker::Model;
use std::sync::ledger::{Blank, Ledger};
use std::sync::{Arc, Wait};

/// What a turn did.
pub struct Turn {
    /// What its scan did.
    pub report: Report,
    /// How many orders were taken and answered.
    pub taken: u32,
    /// Whether memory was refused for an order, or the history is full. That order stays in its ring, and no other was taken after it.
    pub stopped: bool,
    /// Whether the board lacks events: memory was refused to show them. The next event that is shown shows them too.
    pub late: bool,
}

impl Drop for Turn {
    fn drop(self) {
        let Turn {
            report: _,
            taken: _,
            stopped: _,
            late: _,
        } = self;
    }
}

/// An engine whose events are recorded in an archive, the crew that runs its programs, and the owner's ends of the rings of its consoles. `L` is the ledger
/// that counts the events.
///
/// It is not `Drop`: end it by `close`.
pub struct Station<L: Ledger, C> {
    recorder: Recorder<L>,
    crew: C,
    lanes: Vec<Lane<Order, Reply>>,
}

impl<L: Ledger, C> Model for Station<L, C> {
    ghost use Rattle.std.specs.Prelude.{length};
    ghost use Rattle.console_boards.specs.Readers.{log_kept, published};
    ghost use Rattle.station.specs.Stations.{PlainStation, IsStation, station_code};

    ghost Value = { PlainStation C };

    ghost coded = { station_code C.code };

    ghost view = { λ s. record { engine = s.recorder.engine; parts = s.recorder.share.parts; crew = s.crew; lanes = s.lanes.items; shown = length (published s.recorder.board).1; refusals = length s.recorder.refusals } };

    ghost invariant = { λ s. IsStation s.recorder.engine.plant s.recorder.engine.history (log_kept s.recorder.board) s.lanes.items };
}

impl<L: Ledger, C: Drop> Station<L, C> {
    /// The station of a plant before the first event, and a console for each that the plant lists, in the same order. Its archive is before the
    /// first event too. The blank is that of the ledger `L`. Each console has a reader of the board, which
    /// shows the plant before the first event. Fails if memory was refused, or a reader isn't given; the plant and the crew are then gone.
    pub fn new<H: Wait>(
        rt: &H,
        alloc: Global,
        plant: Plant,
        crew: C,
        blank: Blank,
    ) -> Result<(Station<L, C>, Vec<Console<Order, Reply>>), StationFault>
        requires name { blank.name ≡ L.name }
        requires parts { (blank.parts ≡ L.parts) × (0 < L.parts) }
        ensures engine { IfOk result (λ r. (r.0.engine.plant ≡ plant) × (r.0.engine.history ≡ [])) }
        ensures whole { IfOk result (λ r. r.0.parts ≡ L.parts) }
        ensures crew { IfOk result (λ r. r.0.crew ≡ crew) }
        ensures listed { IfOk result (λ r. map (λ c. c.number) (links_of r.1.items)
            ≡ numbers_of plant.consoles) }
        ensures lanes { IfOk result (λ r. numbers_in r.0.lanes ≡ numbers_of plant.consoles) }
        ensures consoles { IfOk result (λ r. AreConsolesIn r.0.lanes r.1.items) }
        ensures fresh { IfOk result (λ r. All IsFresh (links_of r.1.items)) }
        ensures looks { IfOk result (λ r. All (HasNotLooked (history_story plant [])) r.1.items) }
    {
        let Ok(mut recorder) = Recorder::open(rt, alloc, plant, blank) else {
            return Err(StationFault::Memory);
        };
        match open_consoles(alloc, &mut recorder) {
            Ok((consoles, lanes)) => Ok((
                Station {
                    recorder,
                    crew,
                    lanes,
                },
                consoles,
            )),
            Err(fault) => {
                drop(recorder.end(rt));
                Err(fault)
            }
        }
    }

    /// The engine.
    pub fn engine(&self) -> &Engine
        ensures { result.now ≡ self.now.engine }
    {
        &self.recorder.engine
    }

    /// The archive, which other threads may read. Its book has as many events as the engine whenever nobody has its lock.
    pub fn archive(&self) -> &Arc<Archive<L>> {
        &self.recorder.archive
    }

    /// A scan, and then the orders that wait, console by console as the plant lists them, at most 64 of each. The scan is refused as the engine
    /// refuses it, or where the archive refuses it, and then no order is taken and nothing changes.
    ///
    /// For each event, the scan too, the archive's lock is taken; the event is made ready in the engine and in the archive, and its entry laid by for the
    /// board; then it is committed in both, the lock is given back, and the board is shown. An answer goes into its ring after that. A console that
    /// holds a view of the board keeps the turn waiting once two events were shown since.
    ///
    /// Each order that is taken is an event of the history, also where it is refused by its reply, and its answer goes into its console's ring. A
    /// console's part ends where no order is known to wait or no place for an answer is known to be free. An order for which memory is
    /// refused, or which finds the history full, stays in its ring, unanswered and no event; then the turn is over, and `stopped`. That is counted, as is
    /// each event that isn't shown since memory is refused for that. Unless one such refusal more was counted, a turn isn't `stopped`, and
    /// the board shows all events.
    pub fn turn<H: Wait>(
        &mut self,
        rt: &H,
        alloc: Global,
        pairs: &[Pair],
        moment: u64,
    ) -> Result<Turn, EngineFault>
    where
        C: Crew<Job, Start, Done, H>,
        requires asked { C.asks }
        ensures ok { IfOk result (λ t. IsTurn self.old self.new pairs.now moment
            t.report t.taken t.stopped) }
        ensures whole { IfOk result (λ t. IsWhole self.old self.new t.stopped) }
        ensures late { IfOk result (λ t. IsTrue t.late
            ↔ (self.new.shown ≢ length self.new.engine.history)) }
        ensures err { IfErr result (λ e. IsScanDue (self.old.parts ≡ L.parts) e
            self.old.engine pairs.now moment) }
        ensures kept { OnErr result (SameButRoom self.old self.new) }
        ensures crew { C.faulted self.new.crew ≡ faults_by (C.faulted self.old.crew) result }
        ensures consoles { KeepsConsoles self.old.lanes self.new.lanes }
        ensures share { self.new.parts ≡ self.old.parts }
    {
        let report = self
            .recorder
            .scan(rt, alloc, &mut self.crew, pairs, moment)?;
        let part = take_parts(rt, alloc, &mut self.recorder, self.lanes.as_mut_slice());
        let late = self.recorder.is_late();
        Ok(Turn {
            report,
            taken: part.taken,
            stopped: part.stopped,
            late,
        })
    }

    /// Replaces the plant while it runs, as `Engine::reload`, and takes no order: the reload is the next event of the history, of the board and of the archive,
    /// which has a copy of the plant. An order that was submitted before, and is taken after it, is for an older plant, and is refused as that. A reload is
    /// refused as the engine refuses it, or where the archive refuses it; then nothing changes, and the plant comes back.
    pub fn reload<H: Wait>(
        &mut self,
        rt: &H,
        alloc: Global,
        plant: Plant,
    ) -> Result<Reloaded, ReloadRefused>
        ensures ok { IfOk result (λ r. IsReload self.old self.new plant r) }
        ensures err { IfErr result (λ r. (r.plant ≡ plant)
            × IsReloadDue (self.old.parts ≡ L.parts) r.fault self.old.engine plant) }
        ensures kept { OnErr result (SameButRoom self.old self.new) }
        ensures crew { self.new.crew ≡ self.old.crew }
        ensures share { self.new.parts ≡ self.old.parts }
    {
        let reloaded = self.recorder.reload(rt, alloc, plant)?;
        Ok(reloaded)
    }

    /// Ends the station, once its consoles have ended: the orders that the history has of a console, followed by those that are left, are all that it
    /// submitted, each once and in order; and the answers that it took, followed by those that are left, are those that the history has of it. Of two
    /// ended consoles of one number, which no station has, the first counts.
    ///
    /// The lists that the ended consoles saw on the board, and the entries of the history, are beginnings of one list. So where a console saw no more
    /// events than the history has, which `Closing::within` tells, what it saw is a beginning of the history's entries.
    pub fn close<H: Wait>(self, rt: &H, finished: Vec<Finished<Order, Reply>>) -> Closing<C>
        requires { All (IsEndIn self.lanes) finished.items }
        ensures engine { result.engine ≡ self.engine }
        ensures crew { result.crew ≡ self.crew }
        ensures closed { AreClosed self.engine finished.items result.lanes }
        ensures within { TellWithin self.engine finished.items result.lanes }
        ensures one { AreBeginnings (entries_of self.engine.plant self.engine.history) finished.items }
        ensures begins { SawBeginnings self.engine finished.items result.lanes }
    {
        let Station {
            recorder,
            crew,
            mut lanes,
        } = self;
        let mut all = recorder.board.mark();
        end_lanes(lanes.as_mut_slice(), &mut all, finished);
        Closing {
            engine: recorder.end(rt),
            crew,
            lanes,
        }
    }
}

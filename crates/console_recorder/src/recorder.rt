//! The recorder: the engine of a station, whose events are recorded in its archive too, and shown on a board.

ghost use Rattle.std.specs.Prelude.{◌≡◌, ◌↔◌, IsTrue, ◌<◌, ◌≤◌, length, IfOk, IfErr, OnOk, OnErr};
ghost use Rattle.engine.specs.Faults.{faults_by};
ghost use Rattle.engine.specs.Engines.{TakesScan};
ghost use Rattle.console_boards.specs.Readers.{laid, published, log_kept};
ghost use Rattle.console_recorder.specs.Showing.{HasHistory};
ghost use Rattle.console_recorder.specs.Records.{IsReloadDue, IsScanDue, ShowsUnlessRefused, ShowsAll, TakesReload};
ghost use Rattle.console_orders.specs.Turns.{UnlessRefused};

use crate::both::{
    ReadyReload, commit_order, commit_reload, commit_scan, ready_order, ready_reload, ready_scan,
};
use crate::laying::{lay_order, lay_reload, lay_scan};
use base_trace::Trace;
use console_archive::Archive;
use console_boards::BoardWriter;
use console_orders::{NotTaken, Recording};
use engine::{
    Crew, Done, Engine, EngineFault, Job, Order, Pair, Plant, ReloadRefused, Reloaded, Reply,
    Report, Start,
};
use std::alloc::Global;
use std::sync::ledger::{Ledger, Share};
use std::sync::{Arc, Wait};

/// That an order was no event, or that an event isn't shown: memory was refused, or the history is full.
#[derive(Drop)]
pub struct Refusal;

/// An engine, its archive, the share of the ledger that counts the events of both, and the board that shows them. Who owns it takes it apart to end it.
///
/// The share is as great as the engine's number of events, and is raised only by the book of the archive, which counts its own events by it.
pub struct Recorder<L: Ledger> {
    pub engine: Engine,
    pub share: Share<L>,
    pub archive: Arc<Archive<L>>,
    pub board: BoardWriter,
    /// Each time that it refused an order, or to show an event, for contracts alone.
    pub refusals: Trace<Refusal>,
    pub ghost counted: { length engine.history ≡ share.amount },
    pub ghost part: { 0 < share.parts },
    pub ghost has: { HasHistory engine.plant engine.history board },
}

/// Shows readers what was laid by. Where memory is refused for that, the board is late, which is counted: the next event shows it.
fn show<R: Wait>(rt: &R, board: &mut BoardWriter, refusals: &mut Trace<Refusal>)
    ensures same { (laid board.new ≡ laid board.old) × (log_kept board.new ≡ log_kept board.old) }
    ensures shown { ShowsUnlessRefused board.new refusals.old refusals.new }
{
    if board.publish(rt).is_err() {
        *refusals = refusals.then(&Refusal);
    }
}

impl<L: Ledger> Recorder<L> {
    /// Whether the board lacks events: memory was refused to show them.
    pub fn is_late(&self) -> bool
        ensures { IsTrue result ↔ ¬ (ShowsAll self.now.engine.history self.now.board) }
    {
        self.board.published().events() != self.engine.events()
    }

    /// A scan: it is made ready in both engines, and its entry laid by for the board; then it is committed in both, under the archive's lock, and
    /// shown, or the board is late. A scan that is refused changes neither the history nor what the board shows, and isn't counted.
    pub fn scan<C, H: Wait>(
        &mut self,
        rt: &H,
        alloc: Global,
        crew: &mut C,
        pairs: &[Pair],
        moment: u64,
    ) -> Result<Report, EngineFault>
    where
        C: Crew<Job, Start, Done, H>,
        requires asked { C.asks }
        ensures plant { self.new.engine.plant ≡ self.old.engine.plant }
        ensures ok { IfOk result (λ r. TakesScan self.old.engine self.new.engine pairs.now moment r) }
        ensures err { IfErr result (λ e. IsScanDue (self.old.share.parts ≡ L.parts) e self.old.engine
            pairs.now moment) }
        ensures kept { OnErr result (self.new.engine.history ≡ self.old.engine.history) }
        ensures unshown { OnErr result
            ((published self.new.board ≡ published self.old.board)
            × (self.new.refusals ≡ self.old.refusals)) }
        ensures crew { C.faulted crew.new ≡ faults_by (C.faulted crew.old) result }
        ensures share { self.new.share.parts ≡ self.old.share.parts }
        ensures log { log_kept self.new.board ≡ log_kept self.old.board }
        ensures counted { length self.old.refusals ≤ length self.new.refusals }
        ensures shown { OnOk result
            (length self.new.refusals ≡ length self.old.refusals
            → ShowsAll self.new.engine.history self.new.board) }
    {
        let Recorder {
            engine,
            share,
            archive,
            board,
            refusals,
        } = self;
        let mut book = archive.lock(rt);
        book.audit(share);
        let ready = match ready_scan(rt, alloc, engine, crew, &mut *book, pairs, moment) {
            Ok(ready) => ready,
            Err(fault) => {
                drop(book);
                return Err(fault);
            }
        };
        let Ok(()) = lay_scan(alloc, board, engine, &ready.own) else {
            drop(ready);
            drop(book);
            return Err(EngineFault::Memory);
        };
        let report = commit_scan(engine, &mut *book, share, ready);
        drop(book);
        show(rt, board, refusals);
        Ok(report)
    }

    /// A reload: it is made ready in both engines, in the archive's by a copy of the plant, and its entry laid by for the board; then it is committed in both,
    /// under the archive's lock, and shown, or the board is late. One that is refused changes neither the history nor what the board shows, isn't counted,
    /// and hands the plant back.
    pub fn reload<H: Wait>(
        &mut self,
        rt: &H,
        alloc: Global,
        plant: Plant,
    ) -> Result<Reloaded, ReloadRefused>
        ensures plant { self.new.engine.plant ≡ self.old.engine.plant }
        ensures ok { IfOk result (λ r. TakesReload self.old.engine self.new.engine plant r) }
        ensures err { IfErr result (λ r. (r.plant ≡ plant)
            × IsReloadDue (self.old.share.parts ≡ L.parts) r.fault self.old.engine plant) }
        ensures kept { OnErr result (self.new.engine.history ≡ self.old.engine.history) }
        ensures unshown { OnErr result
            ((published self.new.board ≡ published self.old.board)
            × (self.new.refusals ≡ self.old.refusals)) }
        ensures share { self.new.share.parts ≡ self.old.share.parts }
        ensures log { log_kept self.new.board ≡ log_kept self.old.board }
        ensures counted { length self.old.refusals ≤ length self.new.refusals }
        ensures shown { OnOk result
            (length self.new.refusals ≡ length self.old.refusals
            → ShowsAll self.new.engine.history self.new.board) }
    {
        let Recorder {
            engine,
            share,
            archive,
            board,
            refusals,
        } = self;
        let mut book = archive.lock(rt);
        book.audit(share);
        let ready = match ready_reload(alloc, engine, &mut *book, plant) {
            Ok(ready) => ready,
            Err(refused) => {
                drop(book);
                return Err(refused);
            }
        };
        let Ok(()) = lay_reload(alloc, board, engine, ready.own.plant()) else {
            drop(book);
            let ReadyReload { own, kept } = ready;
            drop(kept);
            return Err(ReloadRefused {
                plant: own.into_plant(),
                fault: EngineFault::Memory,
            });
        };
        let reloaded = commit_reload(engine, &mut *book, share, ready);
        drop(book);
        show(rt, board, refusals);
        Ok(reloaded)
    }
}

/// An order of a console is made ready in both engines, and its entry laid by for the board; then it is committed in both, under the archive's lock, and
/// shown. Where memory is refused, or the history is full, that is counted.
impl<L: Ledger, H: Wait> Recording<H> for Recorder<L> {
    ghost plant_of = { λ r. r.engine.plant };

    ghost history_of = { λ r. r.engine.history };

    ghost parts_of = { λ r. r.share.parts };

    ghost log_of = { λ r. log_kept r.board };

    ghost refusals_of = { λ r. length r.refusals };

    ghost shows_all = { λ r. ShowsAll r.engine.history r.board };

    fn order(
        &mut self,
        rt: &H,
        alloc: Global,
        console: u32,
        order: Order,
    ) -> Result<Reply, NotTaken> {
        let Recorder {
            engine,
            share,
            archive,
            board,
            refusals,
        } = self;
        let mut book = archive.lock(rt);
        let ready = match ready_order(alloc, engine, &mut *book, console, order) {
            Ok(ready) => ready,
            Err(_) => {
                drop(book);
                *refusals = refusals.then(&Refusal);
                return Err(NotTaken);
            }
        };
        let Ok(()) = lay_order(board, engine, &ready.own) else {
            drop(ready);
            drop(book);
            *refusals = refusals.then(&Refusal);
            return Err(NotTaken);
        };
        let reply = commit_order(engine, &mut *book, share, ready);
        drop(book);
        show(rt, board, refusals);
        Ok(reply)
    }
}

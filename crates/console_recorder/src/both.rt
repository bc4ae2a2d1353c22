//! One event in two engines: a station's own and its book's.

ghost use Rattle.std.specs.Prelude.{◌≡◌, ◌+◌, ◌<◌, ◌++◌, [], ◌∷◌, Ok, IfOk, IfErr};
ghost use Rattle.engine.specs.Event.TheVariants as event;
ghost use Rattle.engine.specs.Faults.{faults_by};
ghost use Rattle.engine.specs.States.{IsReport};
ghost use Rattle.engine.specs.System.{scan_event, order_event, reply_to};
ghost use Rattle.engine.specs.Engines.{state_of, Fits, FitsOrder, FitsReload, IsReloadRefusal, TellsReload};
ghost use Rattle.console_archive.specs.Refusals.{IsOrderFault};
ghost use Rattle.console_recorder.specs.Refusals.{IsDueInBoth, IsReloadRefusedInBoth};

use console_archive::{Book, order_in};
use engine::{
    Crew, Done, Engine, EngineFault, Job, Order, Pair, Plant, Prepared, PreparedOrder,
    PreparedReload, ReloadRefused, Reloaded, Reply, Report, Start,
};
use std::alloc::Global;
use std::sync::ledger::{Ledger, Share};

/// A scan that was made ready in an engine and in a book.
#[derive(Drop)]
pub struct ReadyScan {
    /// In the engine.
    pub own: Prepared,
    /// In the book.
    pub kept: Prepared,
}

/// An order that was made ready in an engine and in a book.
#[derive(Drop)]
pub struct ReadyOrder {
    /// In the engine.
    pub own: PreparedOrder,
    /// In the book.
    pub kept: PreparedOrder,
}

/// A reload that was made ready in an engine and in a book.
#[derive(Drop)]
pub struct ReadyReload {
    /// In the engine.
    pub own: PreparedReload,
    /// In the book, of a copy of the plant.
    pub kept: PreparedReload,
}

/// Makes a scan ready in both: in the engine with this crew, in the book by the caller alone. A refusal, of the one or the other, changes neither but for
/// room.
pub fn ready_scan<L: Ledger, C: Crew<Job, Start, Done, H>, H>(
    rt: &H,
    alloc: Global,
    engine: &mut Engine,
    crew: &mut C,
    book: &mut Book<L>,
    pairs: &[Pair],
    moment: u64,
) -> Result<ReadyScan, EngineFault>
    requires asked { C.asks }
    ensures engine { (engine.new.plant ≡ engine.old.plant) × (engine.new.history ≡ engine.old.history) }
    ensures book { (book.new.plant ≡ book.old.plant) × (book.new.history ≡ book.old.history) }
    ensures own { IfOk result (λ r. Fits engine.new r.own
        × (scan_event (state_of engine.old) pairs.now moment ≡ Ok r.own.event)) }
    ensures kept { IfOk result (λ r. Fits book.new r.kept
        × (scan_event (state_of book.old) pairs.now moment ≡ Ok r.kept.event)) }
    ensures err { IfErr result (λ e. IsDueInBoth e (scan_event (state_of engine.old) pairs.now moment)
        (scan_event (state_of book.old) pairs.now moment)) }
    ensures crew { C.faulted crew.new ≡ faults_by (C.faulted crew.old) result }
{
    let own = engine.prepare(rt, alloc, crew, pairs, moment)?;
    let kept = match book.prepare(rt, alloc, pairs, moment) {
        Ok(kept) => kept,
        Err(fault) => {
            drop(own);
            return Err(fault);
        }
    };
    Ok(ReadyScan { own, kept })
}

/// Commits a scan that was made ready in both, adds one to the share, and returns what the scan did in the engine. It allocates nothing and can't fail.
pub fn commit_scan<L: Ledger>(
    engine: &mut Engine,
    book: &mut Book<L>,
    share: &mut Share<L>,
    ready: ReadyScan,
) -> Report
    requires own { Fits engine.old ready.own }
    requires kept { Fits book.old ready.kept }
    requires part { 0 < share.old.parts }
    ensures plants { (engine.new.plant ≡ engine.old.plant) × (book.new.plant ≡ book.old.plant) }
    ensures engine { engine.new.history ≡ engine.old.history ++ ready.own.event ∷ [] }
    ensures book { book.new.history ≡ book.old.history ++ ready.kept.event ∷ [] }
    ensures share { (share.new.amount ≡ share.old.amount + 1) × (share.new.parts ≡ share.old.parts) }
    ensures report { IsReport (state_of engine.old) ready.own.event result }
{
    let ReadyScan { own, kept } = ready;
    book.commit(kept, share);
    engine.commit(own)
}

/// Makes an order of the console of a number ready in both. A refusal, of the one or the other, changes neither but for room.
pub fn ready_order<L: Ledger>(
    alloc: Global,
    engine: &mut Engine,
    book: &mut Book<L>,
    console: u32,
    order: Order,
) -> Result<ReadyOrder, EngineFault>
    ensures engine { (engine.new.plant ≡ engine.old.plant) × (engine.new.history ≡ engine.old.history) }
    ensures book { (book.new.plant ≡ book.old.plant) × (book.new.history ≡ book.old.history) }
    ensures own { IfOk result (λ r. FitsOrder engine.new r.own
        × (order_event (state_of engine.old) console order ≡ Ok (event.Order console order))
        × (r.own.console ≡ console) × (r.own.order ≡ order)) }
    ensures kept { IfOk result (λ r. FitsOrder book.new r.kept × (r.kept.console ≡ console)
        × (r.kept.order ≡ order)) }
    ensures err { IfErr result (λ e. IsDueInBoth e (order_event (state_of engine.old) console order)
        (order_event (state_of book.old) console order)) }
    ensures fault { IfErr result (λ e. IsOrderFault e) }
{
    let own = order_in(alloc, engine, console, order)?;
    let kept = book.prepare_order(alloc, console, order)?;
    Ok(ReadyOrder { own, kept })
}

/// Commits an order that was made ready in both, adds one to the share, and returns the engine's reply. It allocates nothing and can't fail.
pub fn commit_order<L: Ledger>(
    engine: &mut Engine,
    book: &mut Book<L>,
    share: &mut Share<L>,
    ready: ReadyOrder,
) -> Reply
    requires own { FitsOrder engine.old ready.own }
    requires kept { FitsOrder book.old ready.kept }
    requires part { 0 < share.old.parts }
    ensures plants { (engine.new.plant ≡ engine.old.plant) × (book.new.plant ≡ book.old.plant) }
    ensures engine { engine.new.history
        ≡ engine.old.history ++ event.Order ready.own.console ready.own.order ∷ [] }
    ensures book { book.new.history
        ≡ book.old.history ++ event.Order ready.kept.console ready.kept.order ∷ [] }
    ensures share { (share.new.amount ≡ share.old.amount + 1) × (share.new.parts ≡ share.old.parts) }
    ensures reply { result ≡ reply_to (state_of engine.old) ready.own.console ready.own.order }
{
    let ReadyOrder { own, kept } = ready;
    book.commit_order(kept, share);
    engine.commit_order(own)
}

/// A copy of a plant that was made ready, made ready in a book. Fails as the book refuses it.
fn kept_reload<L: Ledger>(
    alloc: Global,
    book: &mut Book<L>,
    plant: &Plant,
) -> Result<PreparedReload, EngineFault>
    ensures book { (book.new.plant ≡ book.old.plant) × (book.new.history ≡ book.old.history) }
    ensures ok { IfOk result (λ p. FitsReload book.new p × (p.plant ≡ plant.now)) }
    ensures err { IfErr result (IsReloadRefusal (state_of book.old) plant.now) }
{
    let copy = plant.copy(alloc)?;
    match book.prepare_reload(alloc, copy) {
        Ok(kept) => Ok(kept),
        Err(refused) => Err(refused.fault),
    }
}

/// Makes a reload ready in both, in the book by a copy of the plant. A refusal, of the one or the other, changes neither but for room, and hands the plant back.
pub fn ready_reload<L: Ledger>(
    alloc: Global,
    engine: &mut Engine,
    book: &mut Book<L>,
    plant: Plant,
) -> Result<ReadyReload, ReloadRefused>
    ensures engine { (engine.new.plant ≡ engine.old.plant) × (engine.new.history ≡ engine.old.history) }
    ensures book { (book.new.plant ≡ book.old.plant) × (book.new.history ≡ book.old.history) }
    ensures own { IfOk result (λ r. FitsReload engine.new r.own × (r.own.plant ≡ plant)) }
    ensures kept { IfOk result (λ r. FitsReload book.new r.kept × (r.kept.plant ≡ plant)) }
    ensures err { IfErr result (λ r. IsReloadRefusedInBoth (state_of engine.old) (state_of book.old)
        plant r.fault × (r.plant ≡ plant)) }
{
    let own = engine.prepare_reload(alloc, plant)?;
    match kept_reload(alloc, book, own.plant()) {
        Ok(kept) => Ok(ReadyReload { own, kept }),
        Err(fault) => Err(ReloadRefused {
            plant: own.into_plant(),
            fault,
        }),
    }
}

/// Commits a reload that was made ready in both, adds one to the share, and returns what the reload did in the engine. It allocates nothing and can't fail.
pub fn commit_reload<L: Ledger>(
    engine: &mut Engine,
    book: &mut Book<L>,
    share: &mut Share<L>,
    ready: ReadyReload,
) -> Reloaded
    requires own { FitsReload engine.old ready.own }
    requires kept { FitsReload book.old ready.kept }
    requires part { 0 < share.old.parts }
    ensures plants { (engine.new.plant ≡ engine.old.plant) × (book.new.plant ≡ book.old.plant) }
    ensures engine { engine.new.history ≡ engine.old.history ++ event.Reload ready.own.plant ∷ [] }
    ensures book { book.new.history ≡ book.old.history ++ event.Reload ready.kept.plant ∷ [] }
    ensures share { (share.new.amount ≡ share.old.amount + 1) × (share.new.parts ≡ share.old.parts) }
    ensures told { TellsReload (state_of engine.old) ready.own.plant result.kept result.fresh }
{
    let ReadyReload { own, kept } = ready;
    book.commit_reload(kept, share);
    engine.commit_reload(own)
}

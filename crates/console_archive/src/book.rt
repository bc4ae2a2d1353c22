//! The book of an archive: a second engine, and the tally of its events.

ghost use Rattle.std.specs.Prelude.{◌≡◌, ◌+◌, ◌<◌, ◌++◌, [], ◌∷◌, length, map, string_bytes, Ok, IfOk, IfErr};
ghost use Rattle.engine.specs.Event.TheVariants as event;
ghost use Rattle.engine.specs.Faults.{IsNoCrews};
ghost use Rattle.engine.specs.Image.{IsDue};
ghost use Rattle.engine.specs.System.{scan_event, order_event};
ghost use Rattle.engine.specs.Engines.{state_of, Fits, FitsOrder, FitsReload, IsReloadRefusal};
ghost use Rattle.engine.specs.Lawful.{IsLawfulHistory};
ghost use Rattle.engine.specs.Journal.{journal_of};
ghost use Rattle.console_archive.specs.Pages.{IsPage};
ghost use Rattle.console_archive.specs.Refusals.{IsOrderFault};

use crate::page::page_of;
use engine::{
    Alone, Engine, EngineFault, Order, Pair, Plant, Prepared, PreparedOrder, PreparedReload,
    ReloadRefused,
};
use std::alloc::{AllocError, Global};
use std::marker::Model;
use std::sync::ledger::{Book as Tally, Ledger, Share};

/// An engine, with a tally that counts its events for a ledger.
pub struct Book<L: Ledger> {
    engine: Engine,
    tally: Tally<L>,
}

impl<L: Ledger> Drop for Book<L> {
    fn drop(self) {
        let Book {
            engine: _,
            tally: _,
        } = self;
    }
}

impl<L: Ledger> Model for Book<L> {
    ghost use Rattle.std.specs.Prelude.{◌≡◌, length};
    ghost use Rattle.engine.specs.Engines.{PlainEngine, engine_code};

    ghost Value = { PlainEngine };

    ghost coded = { engine_code };

    ghost view = { λ b. b.engine };

    ghost invariant = { λ b. length b.engine.history ≡ b.tally.total };
}

/// Makes an order of the console of a number ready in an engine, as `Engine::prepare_order`. Fails for memory or a full history alone: no crew refuses an order.
pub fn order_in(
    alloc: Global,
    engine: &mut Engine,
    console: u32,
    order: Order,
) -> Result<PreparedOrder, EngineFault>
    ensures engine { (engine.new.plant ≡ engine.old.plant) × (engine.new.history ≡ engine.old.history) }
    ensures ok { IfOk result (λ p. FitsOrder engine.new p
        × (order_event (state_of engine.old) console order ≡ Ok (event.Order p.console p.order))
        × (p.console ≡ console) × (p.order ≡ order)) }
    ensures err { IfErr result (λ e. IsDue e (order_event (state_of engine.old) console order)) }
    ensures fault { IfErr result (λ e. IsOrderFault e) }
{
    engine.prepare_order(alloc, console, order)
}

impl<L: Ledger> Book<L> {
    /// The book of a plant before the first event.
    pub fn new(alloc: Global, plant: Plant, tally: Tally<L>) -> Result<Book<L>, AllocError>
        requires { tally.total ≡ 0 }
        ensures { IfOk result (λ b. (b.plant ≡ plant) × (b.history ≡ [])) }
    {
        match Engine::new(alloc, plant) {
            Ok(engine) => Ok(Book { engine, tally }),
            Err(refused) => Err(refused),
        }
    }

    /// The engine. Its history is lawful: each event was taken in the state before it.
    pub fn engine(&self) -> &Engine
        ensures engine { result.now ≡ self.now }
        ensures lawful { IsLawfulHistory self.now.plant self.now.history }
    {
        let _shown = self.engine.outputs();
        &self.engine
    }

    /// The texts of exactly the journal's rows whose numbers are `from` and the next, `n` in all, in order: fewer where the journal ends before, and
    /// none behind its end. Rows are numbered from 1.
    pub fn page(&self, alloc: Global, from: u64, n: u32) -> Result<Vec<String>, AllocError>
        ensures { IfOk result (λ lines. IsPage self.now.plant.epoch
            (journal_of self.now.plant self.now.history) from n (map string_bytes lines.items)) }
    {
        page_of(alloc, &self.engine, from, n)
    }

    /// Makes a scan ready, as `Engine::prepare`: the programs are run by the caller alone.
    #[tactic(auto, using(crate::proofs::Crews::no_crews))]
    pub fn prepare<H>(
        &mut self,
        rt: &H,
        alloc: Global,
        pairs: &[Pair],
        moment: u64,
    ) -> Result<Prepared, EngineFault>
        ensures plant { self.new.plant ≡ self.old.plant }
        ensures history { self.new.history ≡ self.old.history }
        ensures ok { IfOk result (λ p. Fits self.new p
            × (scan_event (state_of self.old) pairs.now moment ≡ Ok p.event)) }
        ensures err { IfErr result (λ e. IsDue e (scan_event (state_of self.old) pairs.now moment)) }
        ensures no_crew { IsNoCrews result }
    {
        let mut crew = Alone;
        self.engine.prepare(rt, alloc, &mut crew, pairs, moment)
    }

    /// Adds a scan that was made ready, and one to the share. It allocates nothing and can't fail.
    pub fn commit(&mut self, prepared: Prepared, share: &mut Share<L>)
        requires fits { Fits self.old prepared }
        requires part { 0 < share.old.parts }
        ensures plant { self.new.plant ≡ self.old.plant }
        ensures history { self.new.history ≡ self.old.history ++ prepared.event ∷ [] }
        ensures amount { share.new.amount ≡ share.old.amount + 1 }
        ensures parts { share.new.parts ≡ share.old.parts }
    {
        let Book { engine, tally } = self;
        tally.add(share, 1);
        engine.commit_told(prepared);
    }

    /// Makes an order of the console of a number ready, as `Engine::prepare_order`.
    pub fn prepare_order(
        &mut self,
        alloc: Global,
        console: u32,
        order: Order,
    ) -> Result<PreparedOrder, EngineFault>
        ensures plant { self.new.plant ≡ self.old.plant }
        ensures history { self.new.history ≡ self.old.history }
        ensures ok { IfOk result (λ p. FitsOrder self.new p
            × (order_event (state_of self.old) console order ≡ Ok (event.Order p.console p.order))
            × (p.console ≡ console) × (p.order ≡ order)) }
        ensures err { IfErr result (λ e. IsDue e (order_event (state_of self.old) console order)) }
        ensures fault { IfErr result (λ e. IsOrderFault e) }
    {
        order_in(alloc, &mut self.engine, console, order)
    }

    /// Adds an order that was made ready and does it, and adds one to the share. It allocates nothing and can't fail.
    pub fn commit_order(&mut self, prepared: PreparedOrder, share: &mut Share<L>)
        requires fits { FitsOrder self.old prepared }
        requires part { 0 < share.old.parts }
        ensures plant { self.new.plant ≡ self.old.plant }
        ensures history { self.new.history
            ≡ self.old.history ++ event.Order prepared.console prepared.order ∷ [] }
        ensures amount { share.new.amount ≡ share.old.amount + 1 }
        ensures parts { share.new.parts ≡ share.old.parts }
    {
        let Book { engine, tally } = self;
        tally.add(share, 1);
        engine.commit_order(prepared);
    }

    /// Makes a reload ready, as `Engine::prepare_reload`: a refusal hands the plant back.
    pub fn prepare_reload(
        &mut self,
        alloc: Global,
        plant: Plant,
    ) -> Result<PreparedReload, ReloadRefused>
        ensures plant { self.new.plant ≡ self.old.plant }
        ensures history { self.new.history ≡ self.old.history }
        ensures ok { IfOk result (λ p. FitsReload self.new p × (p.plant ≡ plant)) }
        ensures err { IfErr result (λ r. IsReloadRefusal (state_of self.old) plant r.fault
            × (r.plant ≡ plant)) }
    {
        self.engine.prepare_reload(alloc, plant)
    }

    /// Adds a reload that was made ready and does it, and adds one to the share. It allocates nothing and can't fail.
    pub fn commit_reload(&mut self, prepared: PreparedReload, share: &mut Share<L>)
        requires fits { FitsReload self.old prepared }
        requires part { 0 < share.old.parts }
        ensures plant { self.new.plant ≡ self.old.plant }
        ensures history { self.new.history ≡ self.old.history ++ event.Reload prepared.plant ∷ [] }
        ensures amount { share.new.amount ≡ share.old.amount + 1 }
        ensures parts { share.new.parts ≡ share.old.parts }
    {
        let Book { engine, tally } = self;
        tally.add(share, 1);
        engine.commit_reload(prepared);
    }

    /// Holds a share against the tally: if it is the whole one, it is as great as the number of events. It does nothing when it runs.
    pub fn audit(&mut self, share: &mut Share<L>)
        ensures book { self.new ≡ self.old }
        ensures share { (share.new.amount ≡ share.old.amount) × (share.new.parts ≡ share.old.parts) }
        ensures count { share.old.parts ≡ L.parts → length self.old.history ≡ share.old.amount }
    {
        self.tally.audit(share);
    }
}

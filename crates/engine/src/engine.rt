//! The engine: its public calls.

ghost use Rattle.std.specs.Prelude.{◌≡◌, ◌+◌, ◌<◌, ◌≤◌, ◌++◌, [], ◌∷◌, length, slice_get, string_bytes, Some, Ok, Err, IfOk, OnOk, OnErr, IfErr};
ghost use Rattle.std.specs.Option.{option_map};
ghost use Rattle.alarm_machine.specs.declared.limits.TheConstants.{LAST_MOMENT};
ghost use Rattle.engine_system.specs.Faults.{faults_by, IsNoCrews};
ghost use Rattle.engine_system.specs.Image.{IsDue};
ghost use Rattle.engine_system.specs.Orders.{restart_of};
ghost use Rattle.engine_system.specs.System.{scan_event, order_event, reload_event, reply_to, outputs_of, summary_of};
ghost use Rattle.engine.specs.Lawful.{IsLawfulHistory};
ghost use Rattle.engine.specs.Journal.{IsJournal, IsLine, added_entries, journal_of};
ghost use Rattle.engine.specs.Engines.{state_of, Fits, FitsOrder, FitsReload, IsEngine, IsReloadRefusal, LeavesAlarms, TakesScan, TellsReload};
ghost use Rattle.engine_system.specs.States.{IsReport};

use crate::journal::{keep_names, line_text, push_order, push_scan, row_count};
use crate::reload::{PreparedReload, ReloadRefused, Reloaded};
use alarm_bank::{Marks, Summary};
use alarm_machine::{Alarm, AlarmState, Verb};
use alarm_orders::Order;
use base_names::NameList;
use base_trace::Shown;
use crew::Crew;
use engine_system::{
    Before, EngineFault, Event, History, Levelled, MOST_EVENTS, Plant, Prepared, PreparedOrder,
    ReadyReload, ReadyScan, Reply, Report, Room, RunRoom, State, Workspace, alarm_state, apply,
    apply_scan, empty_report, may_reload, opening_state, plan_levels, prepared_order,
    prepared_scan, ready_reload,
};
use journal_core::{Entry, Log, row_text};
use plant_types::{Items, Pair, Value};
use slice_store::{Done, Job, Start};
use std::alloc::{AllocError, Global};
use std::marker::Model;
use std::mem::replace;

/// A plant, and what the events so far made of it.
pub struct Engine {
    /// The plant with which it began, for contracts alone.
    began: Shown<Plant>,
    /// The plant now.
    plant: Plant,
    /// The plant whose place it took, where a commit left it: to free it takes time.
    left: Option<Plant>,
    history: History,
    log: Log,
    /// The names of the first rows, those of earlier plants among them.
    names: NameList,
    state: State,
    room: Room,
    levels: Option<Levelled>,
}

impl Drop for Engine {
    fn drop(self) {
        let Engine {
            began: _,
            plant: _,
            left: _,
            history: _,
            log: _,
            names: _,
            state: _,
            room: _,
            levels: _,
        } = self;
    }
}

impl Model for Engine {
    ghost use Rattle.std.specs.Prelude.{IfSome, length};
    ghost use Rattle.engine_system.specs.Levels.{AreLevelsOf};
    ghost use Rattle.engine.specs.Engines.{PlainEngine, IsEngine, engine_code};

    ghost Value = { PlainEngine };

    ghost coded = { engine_code };

    ghost view = { λ e. record { plant = e.began; history = e.history; row_room = e.log.room; named = length e.names } };

    ghost invariant = { λ e. IsEngine e.began e.history e.log.rows e.state e.plant e.names × IfSome e.levels (AreLevelsOf e.plant.source) };
}

/// The state before the first event, and memory for scans.
fn opening(alloc: Global, plant: &Plant) -> Result<(State, Room), AllocError>
    ensures { IfOk result (λ made. IsEngine plant.now [] [] made.0 plant.now []) }
{
    let state = opening_state(alloc, plant)?;
    let run = RunRoom {
        space: Workspace::new(alloc),
        marks: Marks::new(alloc)?,
    };
    let room = Room {
        alloc,
        inputs: Vec::new(alloc),
        image: Vec::new(alloc),
        spare: None,
        run,
    };
    Ok((state, room))
}

/// Adds a scan to a history. Returns the list of its image, whose memory is used again.
fn push_taken(history: &mut History, image: Vec<(u32, Value)>, moment: u64) -> Vec<(u32, Value)>
    requires { length history.old < 18446744073709551615 }
    ensures { history.new ≡ history.old ++ Event.Scan image.items moment ∷ [] }
{
    let event = Event::Scan(Items::from_vec(image), moment);
    history.push(&event);
    match event {
        Event::Scan(image, _) => image.into_vec(),
        Event::Order(..) | Event::Reload(_) => unreachable!(),
    }
}

impl Engine {
    /// The engine of a plant before the first event: each variable has its initial value, no program is faulted, and each alarm is normal.
    pub fn new(alloc: Global, plant: Plant) -> Result<Engine, AllocError>
        ensures { IfOk result (λ e. (e.plant ≡ plant) × (e.history ≡ [])) }
    {
        let Ok((state, room)) = opening(alloc, &plant) else {
            drop(plant);
            return Err(AllocError);
        };
        Ok(Engine {
            began: Shown::of(&plant),
            plant,
            left: None,
            history: History::new(),
            log: Log::new(alloc),
            names: NameList::new(alloc),
            state,
            room,
            levels: None,
        })
    }

    /// The plant.
    pub fn plant(&self) -> &Plant
        ensures { result.now ≡ (state_of self.now).plant }
    {
        &self.plant
    }

    /// How many events the history has, at most 1,000,000.
    pub fn events(&self) -> u64
        ensures { result ≡ length self.now.history }
    {
        self.history.len() as u64
    }

    /// The state of the alarm of a number.
    pub fn state(&self, alarm: u32) -> AlarmState
        requires { alarm < length (state_of self.now).plant.alarms }
        ensures { option_map (λ a. a.state) (slice_get (state_of self.now).alarms alarm) ≡ Some result }
    {
        alarm_state(&self.state, alarm)
    }

    /// How many alarms of each area and priority have each code now. Areas are numbered from 0, in the order of the plant file.
    pub fn summary(&self) -> &Summary
        ensures { result.now ≡ summary_of (state_of self.now) }
    {
        self.state.bank.summary()
    }

    /// The alarms, in the order of the database.
    pub fn alarms(&self) -> &[Alarm]
        ensures { result.now ≡ (state_of self.now).alarms }
    {
        self.state.bank.alarms()
    }

    /// How many reloads there were. An order is for the plant after so many.
    pub fn reloads(&self) -> u32
        ensures { result ≡ (state_of self.now).reloads }
    {
        self.state.reloads
    }

    /// The moment of the last scan in milliseconds, 0 before the first.
    pub fn moment(&self) -> u64
        ensures moment { result ≡ (state_of self.now).moment }
        ensures in_range { result ≤ LAST_MOMENT }
    {
        self.state.bank.moment()
    }

    /// The outputs (`%Q`) and their values, in order of declaration. The history is lawful: each event was taken in the state before it.
    pub fn outputs(&self) -> &[(u32, Value)]
        ensures outputs { result.now ≡ outputs_of (state_of self.now) }
        ensures lawful { IsLawfulHistory self.now.plant self.now.history }
    {
        self.state.outputs.as_slice()
    }

    /// The journal: the rows that the events so far added, numbered from 1.
    pub fn journal(&self) -> &Log
        ensures journal { IsJournal self.now.plant self.now.history result.now.rows }
        ensures rows { length result.now.rows ≡ length (journal_of self.now.plant self.now.history) }
        ensures row_room { result.now.room ≡ self.now.row_room }
    {
        &self.log
    }

    /// The text of the journal's row of a number, from 1, with the name that it bears since its event: a fault's path, an alarm's tag, an order's
    /// target as declared, or `?` where the order was refused because there is none.
    pub fn line(&self, alloc: Global, number: u64) -> Result<String, AllocError>
        requires first { 1 ≤ number }
        requires last { number ≤ length (journal_of self.now.plant self.now.history) }
        ensures { IfOk result (λ text. IsLine self.now.plant.epoch
            (journal_of self.now.plant self.now.history) number (string_bytes text)) }
    {
        let row = self.log.row(number);
        let place = number as usize - 1;
        if place < self.names.len() {
            return row_text(alloc, self.plant.epoch(), &row, self.names.get(place));
        }
        line_text(alloc, self.plant.epoch(), &self.plant, &row)
    }

    /// Makes what a crew of several needs to run the programs: the levels in which they may run together. The first scan by such a crew makes it too,
    /// unless it is there. The engine stays as it is.
    pub fn plan_levels(&mut self, alloc: Global) -> Result<(), AllocError>
        ensures { self.new ≡ self.old }
    {
        plan_levels(alloc, self.plant.logic(), false, &mut self.levels)
    }

    /// Makes a scan ready: runs the programs on copies, and allocates all that `commit` needs, room for the rows of the journal too. It
    /// changes neither plant nor history. A crew that is alone leaves the programs to the caller, who runs them in order; any other runs those of
    /// one level after another. Both leave the same.
    ///
    /// The pairs name inputs, letter case ignored; the moment is in milliseconds. The refusals, in the order in which they are tested:
    /// `MomentRange` (E2) above 4,000,000,000,000, `MomentBack` (E1) before the last scan, `ImageName` (E3) for a name that is no input
    /// or comes twice, `ImageKind` (E4) for a value that doesn't fit its input, `HistoryFull` (E6) at 1,000,000 events. `Memory` comes
    /// only if memory is refused: of room for the image and its inputs, for what it leaves of the variables and outputs and for the alarms that it
    /// moves, of a mark for each alarm, of a flag for each global if the image has more than 16 inputs, of the report's lists and of its rows; by a
    /// crew, of the levels, and of what a crew's jobs need. `Crew` (E5) comes only if the crew failed, and not for memory: just then does its
    /// count of faults rise, or stay at its end.
    pub fn prepare<C: Crew<Job, Start, Done, H>, H>(
        &mut self,
        rt: &H,
        alloc: Global,
        crew: &mut C,
        pairs: &[Pair],
        moment: u64,
    ) -> Result<Prepared, EngineFault>
        requires asked { C.asks }
        ensures plant { self.new.plant ≡ self.old.plant }
        ensures history { self.new.history ≡ self.old.history }
        ensures row_room { self.old.row_room ≤ self.new.row_room }
        ensures ok { IfOk result (λ p. Fits self.new p
            × (scan_event (state_of self.old) pairs.now moment ≡ Ok p.event)) }
        ensures err { IfErr result (λ e. IsDue e (scan_event (state_of self.old) pairs.now moment)) }
        ensures crew { C.faulted crew.new ≡ faults_by (C.faulted crew.old) result }
    {
        let is_alone = crew.is_alone();
        plan_levels(alloc, self.plant.logic(), is_alone, &mut self.levels)?;
        let events = self.history.len();
        let before = Before {
            plant: &self.plant,
            state: &self.state,
            events,
            levels: &self.levels,
        };
        let room = &mut self.room;
        let prepared = prepared_scan(rt, alloc, crew, &before, room, pairs, moment)?;
        let Ok(()) = self.log.reserve(row_count(&prepared.scan.report)) else {
            drop(prepared);
            return Err(EngineFault::Memory);
        };
        Ok(prepared)
    }

    /// Adds a scan that was made ready to the history and its rows to the journal. What it reports stays, and what it replaces takes the place of what
    /// it leaves, for its memory.
    fn put_scan(&mut self, ready: &mut ReadyScan)
        requires { Fits self.old
            (record {
              event = Event.Scan ready.old.image.items ready.old.moment;
              effect = ready.old.effect;
              report = ready.old.report;
            }) }
        ensures plant { self.new.plant ≡ self.old.plant }
        ensures history { self.new.history
            ≡ self.old.history ++ Event.Scan ready.old.image.items ready.old.moment ∷ [] }
        ensures row_room { self.new.row_room +
            (length ready.old.report.faults + length ready.old.report.changes) ≡ self.old.row_room }
        ensures report { ready.new.report ≡ ready.old.report }
    {
        push_scan(&mut self.log, &ready.report);
        let image = replace(&mut ready.image, Vec::new(self.room.alloc));
        ready.image = push_taken(&mut self.history, image, ready.moment);
        apply_scan(&mut ready.effect, &mut self.state);
    }

    /// Adds a scan that was made ready to the history and its rows to the journal, and returns what it did. It allocates nothing and can't fail.
    pub fn commit(&mut self, prepared: Prepared) -> Report
        requires { Fits self.old prepared }
        ensures plant { self.new.plant ≡ self.old.plant }
        ensures history { self.new.history ≡ self.old.history ++ prepared.event ∷ [] }
        ensures row_room { self.new.row_room + (length result.faults + length result.changes)
            ≡ self.old.row_room }
        ensures report { IsReport (state_of self.old) prepared.event result }
    {
        let Prepared { mut scan } = prepared;
        self.put_scan(&mut scan);
        let report = replace(&mut scan.report, empty_report(self.room.alloc));
        self.room.spare = Some(scan);
        report
    }

    /// Does as `commit` does for a caller who has told what the scan that was made ready reports. The report isn't copied, and the next scan's lists
    /// take its memory.
    pub fn commit_told(&mut self, prepared: Prepared)
        requires { Fits self.old prepared }
        ensures plant { self.new.plant ≡ self.old.plant }
        ensures history { self.new.history ≡ self.old.history ++ prepared.event ∷ [] }
        ensures row_room { self.new.row_room +
            (length prepared.report.faults + length prepared.report.changes) ≡ self.old.row_room }
    {
        let Prepared { mut scan } = prepared;
        self.put_scan(&mut scan);
        self.room.spare = Some(scan);
    }

    /// A law, which does nothing: the alarms, with those in their places that a scan moves which was made ready, are those of the system after it.
    pub fn leaves_alarms(&self, prepared: &Prepared)
        requires { Fits self.now prepared.now }
        ensures { LeavesAlarms self.now prepared.now }
    {
        let _kept = &self.state;
    }

    /// Tells whether a plant may take the place of the present one, and if not, why. Nothing changes.
    ///
    /// The refusals, in the order in which they are tested: `ReloadConsoles` (E7) where the consoles' numbers, in their order, aren't those of the
    /// present plant, `ReloadEpoch` (E8) where the epoch is another, `HistoryFull` (E6) at 1,000,000 events.
    pub fn may_reload(&self, plant: &Plant) -> Result<(), EngineFault>
        ensures ok { OnOk result
            (reload_event (state_of self.now) plant.now ≡ Ok (Event.Reload plant.now)) }
        ensures err { IfErr result (λ e. reload_event (state_of self.now) plant.now ≡ Err e) }
    {
        may_reload(&self.plant, self.history.len(), plant)
    }

    /// Makes what a reload leaves of the state, and room for its row, and keeps the names of the rows so far, or returns why it is refused.
    fn ready_reload(&mut self, alloc: Global, plant: &Plant) -> Result<ReadyReload, EngineFault>
        ensures plant { self.new.plant ≡ self.old.plant }
        ensures history { self.new.history ≡ self.old.history }
        ensures row_room { self.old.row_room ≤ self.new.row_room }
        ensures named { self.old.named ≤ self.new.named }
        ensures ok { IfOk result (λ r. FitsReload self.new
            (record { plant = plant.now; state = r.state; kept = r.kept; fresh = r.fresh })) }
        ensures err { IfErr result (IsReloadRefusal (state_of self.old) plant.now) }
    {
        self.may_reload(plant)?;
        self.log.reserve(1)?;
        keep_names(alloc, &self.plant, &self.log, &mut self.names)?;
        Ok(ready_reload(alloc, &self.plant, &self.state, plant)?)
    }

    /// Makes ready that a plant takes the place of the present one, or returns the plant with why that is refused. It changes neither plant nor history.
    ///
    /// The refusals, in the order in which they are tested: `ReloadConsoles` (E7) where the consoles' numbers, in their order, aren't those of the
    /// present plant, `ReloadEpoch` (E8) where the epoch is another, `HistoryFull` (E6) at 1,000,000 events, and `Memory` if memory is refused.
    pub fn prepare_reload(
        &mut self,
        alloc: Global,
        plant: Plant,
    ) -> Result<PreparedReload, ReloadRefused>
        ensures plant { self.new.plant ≡ self.old.plant }
        ensures history { self.new.history ≡ self.old.history }
        ensures row_room { self.old.row_room ≤ self.new.row_room }
        ensures named { self.old.named ≤ self.new.named }
        ensures ok { IfOk result (λ p. FitsReload self.new p × (p.plant ≡ plant)) }
        ensures err { IfErr result (λ r. IsReloadRefusal (state_of self.old) plant r.fault
            × (r.plant ≡ plant)) }
    {
        self.left = None;
        match self.ready_reload(alloc, &plant) {
            Ok(ready) => Ok(PreparedReload { plant, ready }),
            Err(fault) => Err(ReloadRefused { plant, fault }),
        }
    }

    /// Adds a reload that was made ready to the history, puts its plant in the place of the present one, and returns how many alarms kept their states,
    /// and how many are new. Its row in the journal bears the last moment. The scan after it asks all alarms. It allocates nothing and can't fail.
    pub fn commit_reload(&mut self, prepared: PreparedReload) -> Reloaded
        requires { FitsReload self.old prepared }
        ensures plant { self.new.plant ≡ self.old.plant }
        ensures history { self.new.history ≡ self.old.history ++ Event.Reload prepared.plant ∷ [] }
        ensures row_room { self.new.row_room + 1 ≡ self.old.row_room }
        ensures told { TellsReload (state_of self.old) prepared.plant result.kept result.fresh }
    {
        let (plant, ready) = prepared.into_parts();
        let (state, kept, fresh) = ready.into_parts();
        let moment = self.moment();
        self.log.push(moment, Entry::Reload { kept, fresh });
        self.history.push(&Event::Reload(Shown::of(&plant)));
        self.left = Some(replace(&mut self.plant, plant));
        self.state = state;
        self.levels = None;
        Reloaded { kept, fresh }
    }

    /// Makes a reload ready, commits it, and frees the plant whose place it took. The refusals are those of `prepare_reload`.
    pub fn reload(&mut self, alloc: Global, plant: Plant) -> Result<Reloaded, ReloadRefused>
        ensures plant { self.new.plant ≡ self.old.plant }
        ensures ok { OnOk result (self.new.history ≡ self.old.history ++ Event.Reload plant ∷ []) }
        ensures allowed { OnOk result
            (reload_event (state_of self.old) plant ≡ Ok (Event.Reload plant)) }
        ensures told { IfOk result (λ r. TellsReload (state_of self.old) plant r.kept r.fresh) }
        ensures err { IfErr result (λ r. IsReloadRefusal (state_of self.old) plant r.fault
            × (r.plant ≡ plant)) }
        ensures kept { OnErr result (self.new.history ≡ self.old.history) }
        ensures row_room { OnErr result (self.old.row_room ≤ self.new.row_room) }
    {
        let prepared = self.prepare_reload(alloc, plant)?;
        let reloaded = self.commit_reload(prepared);
        self.left = None;
        Ok(reloaded)
    }

    /// Makes an order of the console of a number ready. It changes neither plant nor history.
    ///
    /// The refusals: `HistoryFull` (E6) at 1,000,000 events, and `Memory` if memory is refused.
    pub fn prepare_order(
        &mut self,
        _alloc: Global,
        console: u32,
        order: Order,
    ) -> Result<PreparedOrder, EngineFault>
        ensures plant { self.new.plant ≡ self.old.plant }
        ensures history { self.new.history ≡ self.old.history }
        ensures row_room { self.old.row_room ≤ self.new.row_room }
        ensures ok { IfOk result (λ p. FitsOrder self.new p
            × (order_event (state_of self.old) console order ≡ Ok (Event.Order p.console p.order))
            × (p.console ≡ console) × (p.order ≡ order)) }
        ensures err { IfErr result (λ e. IsDue e (order_event (state_of self.old) console order)) }
        ensures no_crew { IsNoCrews result }
    {
        if self.history.len() >= MOST_EVENTS {
            return Err(EngineFault::HistoryFull);
        }
        self.log.reserve(2)?;
        Ok(prepared_order(&self.plant, &self.state, console, order))
    }

    /// Adds an order that was made ready to the history, does it, and returns the reply: the change of the alarm's code if there is one,
    /// or the refusal (O1 to O6). The order has a row in the journal, and so has that change. A refused order is in the history too, and
    /// changes no alarm and no program. It allocates nothing and can't fail.
    pub fn commit_order(&mut self, prepared: PreparedOrder) -> Reply
        requires { FitsOrder self.old prepared }
        ensures plant { self.new.plant ≡ self.old.plant }
        ensures history { self.new.history
            ≡ self.old.history ++ Event.Order prepared.console prepared.order ∷ [] }
        ensures row_room { self.new.row_room + length
            (added_entries (state_of self.old) (Event.Order prepared.console prepared.order))
            ≡ self.old.row_room }
        ensures reply { result ≡ reply_to (state_of self.old) prepared.console prepared.order }
    {
        let PreparedOrder {
            console,
            order,
            done,
            reply,
        } = prepared;
        push_order(&mut self.log, &self.state, console, order, &done);
        apply(&done, &mut self.state);
        self.history.push(&Event::Order(console, order));
        reply
    }

    /// Makes a scan ready and commits it. The refusals are those of `prepare`.
    pub fn scan<C: Crew<Job, Start, Done, H>, H>(
        &mut self,
        rt: &H,
        alloc: Global,
        crew: &mut C,
        pairs: &[Pair],
        moment: u64,
    ) -> Result<Report, EngineFault>
        requires asked { C.asks }
        ensures plant { self.new.plant ≡ self.old.plant }
        ensures ok { IfOk result (λ r. TakesScan self.old self.new pairs.now moment r) }
        ensures err { IfErr result (λ e. IsDue e (scan_event (state_of self.old) pairs.now moment)) }
        ensures kept { OnErr result (self.new.history ≡ self.old.history) }
        ensures row_room { OnErr result (self.old.row_room ≤ self.new.row_room) }
        ensures crew { C.faulted crew.new ≡ faults_by (C.faulted crew.old) result }
    {
        let prepared = self.prepare(rt, alloc, crew, pairs, moment)?;
        Ok(self.commit(prepared))
    }

    /// Makes an order ready and commits it. The refusals are those of `prepare_order`.
    pub fn order(&mut self, alloc: Global, console: u32, order: Order) -> Result<Reply, EngineFault>
        ensures plant { self.new.plant ≡ self.old.plant }
        ensures ok { OnOk result
            (self.new.history ≡ self.old.history ++ Event.Order console order ∷ []) }
        ensures allowed { OnOk result
            (order_event (state_of self.old) console order ≡ Ok (Event.Order console order)) }
        ensures reply { IfOk result (λ r. r ≡ reply_to (state_of self.old) console order) }
        ensures err { IfErr result (λ e. IsDue e (order_event (state_of self.old) console order)) }
        ensures no_crew { IsNoCrews result }
        ensures kept { OnErr result (self.new.history ≡ self.old.history) }
        ensures row_room { OnErr result (self.old.row_room ≤ self.new.row_room) }
    {
        let prepared = self.prepare_order(alloc, console, order)?;
        Ok(self.commit_order(prepared))
    }

    /// Gives the order to restart the program of a number, from 0; `None` is for a program that isn't there. The program runs again from
    /// the next scan on, and no variable changes.
    ///
    /// The order is for the present plant. The replies are `Done(None)`, or in the order in which they are tested: O1 for no such program, O2 for a console that isn't
    /// listed, O5 for a program that isn't faulted. The refusals are those of `prepare_order`.
    pub fn restart(
        &mut self,
        alloc: Global,
        console: u32,
        program: Option<u32>,
    ) -> Result<Reply, EngineFault>
        ensures plant { self.new.plant ≡ self.old.plant }
        ensures ok { OnOk result
            (self.new.history
            ≡ self.old.history ++ Event.Order console (restart_of program (state_of self.old).reloads)
            ∷ []) }
        ensures allowed { OnOk result
            (order_event (state_of self.old) console (restart_of program (state_of self.old).reloads)
            ≡ Ok (Event.Order console (restart_of program (state_of self.old).reloads))) }
        ensures reply { IfOk result (λ r. r
            ≡ reply_to (state_of self.old) console (restart_of program (state_of self.old).reloads)) }
        ensures err { IfErr result (λ e. IsDue e
            (order_event (state_of self.old) console (restart_of program (state_of self.old).reloads))) }
        ensures no_crew { IsNoCrews result }
        ensures kept { OnErr result (self.new.history ≡ self.old.history) }
        ensures row_room { OnErr result (self.old.row_room ≤ self.new.row_room) }
    {
        let plant = self.reloads();
        self.order(alloc, console, Order::of(Verb::Restart, program, plant))
    }
}

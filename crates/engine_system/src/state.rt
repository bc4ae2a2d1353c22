//! What is kept of a system beside its plant, and what a scan and an order do to it.

ghost use Rattle.std.specs.Prelude.{◌≡◌, ◌<◌, ◌≤◌, length, map, slice_get, Some, IfOk, OnOk};
ghost use Rattle.std.specs.Option.{option_map};
ghost use Rattle.alarm_machine.specs.declared.limits.TheConstants.{LAST_MOMENT};
ghost use Rattle.engine_history.specs.Plants.{IsPlant};
ghost use Rattle.logic_cells.specs.Cells.{value_at};
ghost use Rattle.engine_history.specs.Names.{globals_of};
ghost use Rattle.engine_system.specs.Steps.{AreShowable};
ghost use Rattle.engine_system.specs.States.{IsState, after_effect, delays_in, unscanned};
ghost use Rattle.engine_system.specs.Orders.{alarms_by, faulted_by};
ghost use Rattle.engine_system.specs.System.{opening_alarm, opening_system, sites_of};
ghost use Rattle.engine_system.specs.Watches.{watches_of};

use crate::steps::{delays_of, opening_alarms, opening_sites, outputs, watches_of};
use alarm_bank::Bank;
use alarm_delays::{Delays, Listed};
use alarm_machine::{Alarm, AlarmState, OrderFault};
use alarm_watch::Watches;
use engine_history::Plant;
use logic_cells::Cells;
use plant_types::Value;
use std::alloc::{AllocError, Global};
use std::marker::Model;
use std::mem::swap;

/// What is kept of a system beside its plant.
#[derive(Drop)]
pub struct State {
    /// The values of the variables, by number, and the clocks of standard blocks.
    pub cells: Cells,
    /// For each program whether it is faulted.
    pub faulted: Vec<bool>,
    /// The alarms, in the order of the database, and the moment of the last scan.
    pub bank: Bank,
    /// The alarms' delays, and since when their conditions have been met.
    pub delays: Delays,
    /// What each alarm watches.
    pub watches: Watches,
    /// Whether there was a scan: then the condition and the suppression of each alarm's last scan are what its globals hold in the cells.
    pub follows: bool,
    /// The outputs and their values, in order of declaration.
    pub outputs: Vec<(u32, Value)>,
    /// How many reloads there were.
    pub reloads: u32,
}

impl Model for State {
    ghost use Rattle.engine_system.specs.States.{PlainState};

    ghost Value = { PlainState };

    ghost view = { λ s. record { cells = s.cells; faulted = s.faulted.items; sites = s.bank.sites; watches = s.watches; follows = s.follows; alarms = s.bank.alarms; delays = s.delays; outputs = s.outputs.items; moment = s.bank.moment; reloads = s.reloads } };
}

/// What a scan does to a state.
#[derive(Drop)]
pub struct ScanEffect {
    /// The values that it leaves of the variables, by number, and the clocks of standard blocks.
    pub cells: Cells,
    /// For each program whether it is faulted then.
    pub faulted: Vec<bool>,
    /// The outputs and the values that it leaves of them.
    pub outputs: Vec<(u32, Value)>,
    /// The conditions that it may have changed, and the alarms that it moves. The changes of codes are what an earlier scan left: those of this one
    /// are in its report.
    pub listed: Listed,
    /// Its moment in milliseconds.
    pub moment: u64,
}

impl Model for ScanEffect {
    ghost use Rattle.engine_system.specs.States.{PlainScanEffect};

    ghost Value = { PlainScanEffect };

    ghost view = { λ s. record { cells = s.cells; faulted = s.faulted.items; outputs = s.outputs.items; met = s.listed.met.items; moved = s.listed.moves.moved.items; moment = s.moment } };
}

/// What an order that isn't refused does to a state.
#[derive(Clone, Copy)]
pub enum Effect {
    /// The alarm of a number becomes this one.
    Changed(u32, Alarm),
    /// The program of a number is restarted.
    Restarted(u32),
}

/// The alarms of a plant before the first event.
fn opening_bank(alloc: Global, plant: &Plant) -> Result<Bank, AllocError>
    ensures { IfOk result (λ bank. bank
        ≡ record
        { sites = sites_of plant.now.alarms; alarms = map opening_alarm plant.now.alarms; moment = 0 }) }
{
    let rows = plant.alarm_rows();
    let sites = opening_sites(alloc, rows)?;
    let alarms = opening_alarms(alloc, rows)?;
    Bank::new(alloc, plant.areas(), sites, alarms)
}

/// The delays of a plant's alarms before the first scan.
fn opening_delays(alloc: Global, plant: &Plant) -> Result<Delays, AllocError>
    ensures { IfOk result (λ delays. delays ≡ delays_in (opening_system plant.now)) }
{
    let delays = delays_of(alloc, plant.alarm_rows())?;
    Delays::new(alloc, delays)
}

/// What the alarms of a plant watch.
fn opening_watches(alloc: Global, plant: &Plant) -> Result<Watches, AllocError>
    ensures { IfOk result (λ watches. watches ≡ watches_of plant.now.alarms) }
{
    let watches = watches_of(alloc, plant.alarm_rows())?;
    Watches::new(alloc, watches)
}

/// What is kept of a plant with these cells, alarms and delays, after so many reloads, before the next scan.
pub fn state_with(
    alloc: Global,
    plant: &Plant,
    cells: Cells,
    bank: Bank,
    delays: Delays,
    reloads: u32,
) -> Result<State, AllocError>
    requires { AreShowable (globals_of plant.now) (value_at cells) }
    ensures { IfOk result (λ state. state ≡ unscanned plant.now cells bank delays reloads) }
{
    let outputs = outputs(alloc, plant.globals(), &cells)?;
    let watches = opening_watches(alloc, plant)?;
    let faulted = vec![in alloc; false; plant.programs() as usize]?;
    Ok(State {
        cells,
        faulted,
        bank,
        delays,
        watches,
        follows: false,
        outputs,
        reloads,
    })
}

/// The state before the first event: each variable has its initial value, no program is faulted, and each alarm is normal.
pub fn opening_state(alloc: Global, plant: &Plant) -> Result<State, AllocError>
    ensures state { IfOk result (IsState (opening_system plant.now)) }
    ensures is_plant { OnOk result (IsPlant plant.now) }
{
    let cells = plant.logic().opening(alloc)?;
    let bank = opening_bank(alloc, plant)?;
    let delays = opening_delays(alloc, plant)?;
    state_with(alloc, plant, cells, bank, delays, 0)
}

/// What holds nothing, to be written over.
pub fn empty_effect(alloc: Global) -> ScanEffect {
    ScanEffect {
        cells: Cells::new(Vec::new(alloc), Vec::new(alloc)),
        faulted: Vec::new(alloc),
        outputs: Vec::new(alloc),
        listed: Listed::new(alloc),
        moment: 0,
    }
}

/// Makes cells a copy of others, in their own memory if they have as many values and clocks.
pub fn copy_cells(alloc: Global, cells: &Cells, copy: &mut Cells) -> Result<(), AllocError>
    ensures { OnOk result (copy.new ≡ cells.now) }
{
    if copy.len() != cells.len() || copy.clock_count() != cells.clock_count() {
        *copy = cells.copy(alloc)?;
        return Ok(());
    }
    copy.copy_from(cells);
    Ok(())
}

/// Makes flags a copy of others, in their own memory.
pub fn copy_flags(flags: &[bool], copy: &mut Vec<bool>) -> Result<(), AllocError>
    ensures { OnOk result (copy.new.items ≡ flags.now) }
{
    copy.clear();
    copy.extend_from_slice(flags)
}

/// The state of the alarm of a number.
pub fn alarm_state(state: &State, alarm: u32) -> AlarmState
    requires { alarm < length state.now.alarms }
    ensures { option_map (λ a. a.state) (slice_get state.now.alarms alarm) ≡ Some result }
{
    state.bank.state(alarm)
}

/// Does what a scan does, and leaves in its place what the state had, for its memory. It takes none.
pub fn apply_scan(effect: &mut ScanEffect, state: &mut State)
    requires later { state.old.delays.last ≤ effect.old.moment }
    requires range { effect.old.moment ≤ LAST_MOMENT }
    ensures { state.new ≡ after_effect effect.old state.old }
{
    let met = effect.listed.met.as_slice();
    let moved = effect.listed.moves.moved.as_slice();
    state.delays.apply(met, moved, effect.moment);
    state.bank.apply(moved, effect.moment);
    state.follows = true;
    swap(&mut state.cells, &mut effect.cells);
    swap(&mut state.faulted, &mut effect.faulted);
    swap(&mut state.outputs, &mut effect.outputs);
}

/// Does what an order does: nothing, if it is refused.
pub fn apply(done: &Result<Effect, OrderFault>, state: &mut State)
    ensures { state.new
        ≡ record state.old
        { faulted = faulted_by done.now state.old.faulted; alarms = alarms_by done.now state.old.alarms } }
{
    match done {
        Ok(Effect::Changed(number, alarm)) => {
            state.bank.replace(*number, *alarm);
        }
        Ok(Effect::Restarted(number)) => {
            let at = *number as usize;
            if at < state.faulted.len() {
                state.faulted[at] = false;
            }
        }
        Err(_) => {}
    }
}

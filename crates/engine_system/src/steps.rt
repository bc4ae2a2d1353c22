//! The parts of a scan: inputs, alarms and outputs.

ghost use Rattle.std.specs.Prelude.{◌≡◌, ◌<◌, ◌^◌, true, length, fold, map, IfOk, OnOk, All, ◌≤◌};
ghost use Rattle.std.specs.List.{filter};
ghost use Rattle.alarm_machine.specs.declared.limits.TheConstants.{LONGEST_SHELVE_MS};
ghost use Rattle.logic_cells.specs.Cells.{value_at};
ghost use Rattle.engine_system.specs.System.{delays_of, opening_alarm, sites_of, is_output, outputs_from};
ghost use Rattle.engine_system.specs.Watches.{watches_of};
ghost use Rattle.alarm_delays.specs.Delays.{after_conditions, after_met};
ghost use Rattle.alarm_watch.specs.Watched.{alarms_watched, watched_conditions, Follow};
ghost use Rattle.alarm_bank.specs.Moves.{put_all, changes_from};
ghost use Rattle.engine_system.specs.Steps.{with_cell, output_in, differs, IsShowable, AreShowable};

use crate::state::State;
use alarm_bank::{Marks, Site};
use alarm_delays::Listed;
use alarm_machine::Alarm;
use alarm_watch::{LastScan, Watch, value_at};
use engine_history::AlarmRow;
use logic_cells::Cells;
use logic_source::Variable;
use plant_types::{Region, Value};
use std::alloc::{AllocError, Global};

/// Gives the inputs of an image their values.
pub fn set_inputs(image: &[(u32, Value)], cells: &mut Cells)
    ensures { cells.new ≡ fold with_cell cells.old image.now }
{
    for (global, value) in image {
        let slot = *global as usize;
        if slot < cells.len() {
            cells.set(slot, value.worth());
        }
    }
}

/// The alarms before the first scan, one for each row.
pub fn opening_alarms(alloc: Global, rows: &[AlarmRow]) -> Result<Vec<Alarm>, AllocError>
    requires { All (λ row. row.max_shelve_ms ≤ LONGEST_SHELVE_MS) rows.now }
    ensures { IfOk result (λ alarms. alarms.items ≡ map opening_alarm rows.now) }
{
    let mut alarms = Vec::new(alloc);
    for row in rows {
        alarms.push(Alarm::new(row.latching, row.max_shelve_ms))?;
    }
    Ok(alarms)
}

/// The area and the priority of each alarm, one for each row.
pub fn opening_sites(alloc: Global, rows: &[AlarmRow]) -> Result<Vec<Site>, AllocError>
    ensures { IfOk result (λ sites. sites.items ≡ sites_of rows.now) }
{
    let mut sites = Vec::new(alloc);
    for row in rows {
        sites.push(Site {
            area: row.area,
            priority: row.priority,
        })?;
    }
    Ok(sites)
}

/// The delay of each alarm, one for each row.
pub fn delays_of(alloc: Global, rows: &[AlarmRow]) -> Result<Vec<u32>, AllocError>
    ensures { IfOk result (λ delays. delays.items ≡ delays_of rows.now) }
{
    let mut delays = Vec::new(alloc);
    for row in rows {
        delays.push(row.on_delay_ms)?;
    }
    Ok(delays)
}

/// What each alarm watches, one for each row.
pub fn watches_of(alloc: Global, rows: &[AlarmRow]) -> Result<Vec<Watch>, AllocError>
    ensures { IfOk result (λ watches. watches.items ≡ watches_of rows.now) }
{
    let mut watches = Vec::new(alloc);
    for row in rows {
        watches.push(Watch {
            condition: row.condition,
            suppress: row.suppress,
        })?;
    }
    Ok(watches)
}

/// Lists the alarms of a state that a scan moves which leaves these cells, each as it leaves it, the changes of their codes in the order of the
/// database, and what the delays take of the conditions that may have changed, all in place of what was listed before. The state stays.
pub fn step_alarms(
    alloc: Global,
    old: &State,
    cells: &Cells,
    moment: u64,
    marks: &mut Marks,
    listed: &mut Listed,
) -> Result<(), AllocError>
    requires later { old.now.delays.last ≤ moment }
    requires each { length old.now.alarms ≡ length old.now.watches }
    requires delays { length old.now.delays.delays ≡ length old.now.watches }
    requires follow { old.now.follows ≡ true
        → Follow (value_at old.now.cells) old.now.watches old.now.delays old.now.alarms }
    ensures alarms { OnOk result
        (put_all old.now.alarms listed.new.moves.moved.items
        ≡ alarms_watched (value_at cells.now) moment old.now.watches old.now.delays old.now.alarms) }
    ensures changes { OnOk result
        (listed.new.moves.changes.items
        ≡ changes_from 0 old.now.alarms
        (alarms_watched (value_at cells.now) moment old.now.watches old.now.delays old.now.alarms)) }
    ensures met { OnOk result
        (after_met listed.new.met.items moment listed.new.moves.moved.items old.now.delays
        ≡ after_conditions (watched_conditions (value_at cells.now) old.now.watches) moment
        old.now.delays) }
{
    let last = LastScan {
        bank: &old.bank,
        delays: &old.delays,
        follows: old.follows,
        cells: &old.cells,
    };
    old.watches
        .list_moved(alloc, &last, cells, moment, marks, listed)?;
    Ok(())
}

fn is_output(region: Option<Region>) -> bool
    ensures { result ≡ is_output region }
{
    matches!(region, Some(Region::Output))
}

/// The outputs and their values, in order of declaration: each is in the range of its kind.
pub fn outputs(
    alloc: Global,
    globals: &[Variable],
    cells: &Cells,
) -> Result<Vec<(u32, Value)>, AllocError>
    requires few { length globals.now < 2 ^ 32 }
    requires ranges { AreShowable globals.now (value_at cells.now) }
    ensures { IfOk result (λ outputs. outputs.items ≡ outputs_from 0 globals.now (value_at cells.now)) }
{
    let mut outputs = Vec::new(alloc);
    for (i, global) in globals.iter().enumerate() {
        if is_output(global.region) {
            let number = i as u32;
            let value = Value::of_kind(global.kind, value_at(cells, number));
            outputs.push((number, value))?;
        }
    }
    Ok(outputs)
}

/// Lists the outputs with the values that they have in cells, in place of what was listed before; each is in the range of its kind.
pub fn renew(
    outputs: &[(u32, Value)],
    cells: &Cells,
    renewed: &mut Vec<(u32, Value)>,
) -> Result<(), AllocError>
    requires { All (IsShowable (value_at cells.now)) outputs.now }
    ensures { OnOk result (renewed.new.items ≡ map (output_in (value_at cells.now)) outputs.now) }
{
    renewed.clear();
    for (global, value) in outputs {
        let value = Value::of_kind(value.kind(), value_at(cells, *global));
        renewed.push((*global, value))?;
    }
    Ok(())
}

/// Lists the outputs whose number isn't what it was before, in order, in place of what was listed before.
pub fn list_changed(
    outputs: &[(u32, Value)],
    before: &Cells,
    now: &Cells,
    changed: &mut Vec<(u32, Value)>,
) -> Result<(), AllocError>
    ensures { OnOk result
        (changed.new.items ≡ filter (differs (value_at before.now) (value_at now.now)) outputs.now) }
{
    changed.clear();
    for (global, value) in outputs {
        if value_at(before, *global) != value_at(now, *global) {
            changed.push((*global, *value))?;
        }
    }
    Ok(())
}

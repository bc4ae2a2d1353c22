//! Whether a plant may take the place of the present one, and which alarms go on.

ghost use Rattle.std.specs.Prelude.{◌≡◌, ◌<◌, ◌≤◌, length, slice_get, Some, Ok, Err, IfErr, IfOk, OnOk};
ghost use Rattle.std.specs.Option.{option_and_then, option_map};
ghost use Rattle.engine_history.specs.declared.event.Event.TheVariants as event;
ghost use Rattle.engine_system.specs.Reloads.{fresh_count, kept_count, kept_number, kept_of, new_of, news_of, numbers_of, same_numbers};
ghost use Rattle.engine_system.specs.System.{taken_reload};

use crate::event::{EngineFault, MOST_EVENTS};
use alarm_bank::{NewAlarm, Site};
use engine_history::Plant;
use plant_file::ListedConsole;
use std::alloc::{AllocError, Global};

/// Whether two lists of consoles have the same numbers in the same order.
fn same_numbers(old: &[ListedConsole], new: &[ListedConsole]) -> bool
    ensures { result ≡ same_numbers (numbers_of old.now) (numbers_of new.now) }
{
    if old.len() != new.len() {
        return false;
    }
    for at in 0..old.len() {
        if old[at].number != new[at].number {
            return false;
        }
    }
    true
}

/// Tells whether a plant may take the place of the present one after so many events, and if not, why.
#[tactic(auto, unfolding(crate::specs::System::taken_reload))]
pub fn may_reload(plant: &Plant, events: usize, new: &Plant) -> Result<(), EngineFault>
    ensures ok { OnOk result (taken_reload plant.now events new.now ≡ Ok (event.Reload new.now)) }
    ensures err { IfErr result (λ e. taken_reload plant.now events new.now ≡ Err e) }
{
    if !same_numbers(plant.consoles(), new.consoles()) {
        return Err(EngineFault::ReloadConsoles);
    }
    if plant.epoch().seconds() != new.epoch().seconds() {
        return Err(EngineFault::ReloadEpoch);
    }
    if events >= MOST_EVENTS {
        return Err(EngineFault::HistoryFull);
    }
    Ok(())
}

/// The number of the alarm of an old plant as which an alarm of a new plant goes on, if there is one.
fn kept_number(old: &Plant, new: &Plant, alarm: u32) -> Option<u32>
    requires { alarm < length new.now.alarms }
    ensures { result ≡ option_and_then (kept_number old.now) (slice_get new.now.alarms alarm) }
{
    let number = old.alarm_number(new.tag(alarm))?;
    let was = &old.alarm_rows()[number as usize];
    let row = &new.alarm_rows()[alarm as usize];
    if was.latching == row.latching {
        Some(number)
    } else {
        None
    }
}

/// An alarm of a new plant, with the number of the old one as which it goes on, if there is one.
fn new_of(old: &Plant, new: &Plant, alarm: u32) -> NewAlarm
    requires { alarm < length new.now.alarms }
    ensures { option_map (new_of old.now) (slice_get new.now.alarms alarm) ≡ Some result }
{
    let kept = kept_number(old, new, alarm);
    let row = &new.alarm_rows()[alarm as usize];
    NewAlarm {
        site: Site {
            area: row.area,
            priority: row.priority,
        },
        latching: row.latching,
        max_shelve_ms: row.max_shelve_ms as u32,
        kept,
    }
}

/// The alarms of a new plant, each with the number of the old one as which it goes on, if there is one.
pub fn news_of(alloc: Global, old: &Plant, new: &Plant) -> Result<Vec<NewAlarm>, AllocError>
    ensures { IfOk result (λ news. news.items ≡ news_of old.now new.now) }
{
    let count = new.alarms();
    let mut news = Vec::with_capacity(alloc, count as usize)?;
    for alarm in 0..count {
        news.push(new_of(old, new, alarm))?;
    }
    Ok(news)
}

/// The numbers of the old alarms as which new ones go on.
pub fn kept_of(alloc: Global, news: &[NewAlarm]) -> Result<Vec<Option<u32>>, AllocError>
    ensures { IfOk result (λ kept. kept.items ≡ kept_of news.now) }
{
    let mut kept = Vec::new(alloc);
    for new in news {
        kept.push(new.kept)?;
    }
    Ok(kept)
}

/// How many go on.
pub fn kept_count(kept: &[Option<u32>]) -> usize
    ensures count { result ≡ kept_count kept.now }
    ensures within { result ≤ length kept.now }
{
    kept.iter().filter(|kept| kept.is_some()).count()
}

/// How many begin anew.
pub fn fresh_count(kept: &[Option<u32>]) -> usize
    ensures count { result ≡ fresh_count kept.now }
    ensures within { result ≤ length kept.now }
{
    kept.iter().filter(|kept| kept.is_none()).count()
}

//! The alarms of a plant that takes the place of another one while it runs.

ghost use Rattle.std.specs.Prelude.{◌≡◌, map, All, IfOk};
ghost use Rattle.alarm_bank.specs.Reloads.{IsShelvable, alarm_of, all_fit, fits_in, is_there, sites_of};

use crate::rows::{NewAlarm, Site};
use alarm_machine::{Alarm, LONGEST_SHELVE_MS};
use std::alloc::{AllocError, Global};

/// Whether the old alarm whose state a new one keeps is there, of so many.
fn is_there(count: usize, kept: Option<u32>) -> bool
    ensures { result ≡ is_there count kept }
{
    match kept {
        None => true,
        Some(number) => (number as usize) < count,
    }
}

/// Whether a new alarm may take its place after so many old ones.
fn fits_in(count: usize, new: &NewAlarm) -> bool
    ensures { result ≡ fits_in count new.now }
{
    u64::from(new.max_shelve_ms) <= LONGEST_SHELVE_MS && is_there(count, new.kept)
}

/// Whether all new alarms may.
pub fn all_fit(count: usize, news: &[NewAlarm]) -> bool
    ensures { result ≡ all_fit count news.now }
{
    for new in news {
        if !fits_in(count, new) {
            return false;
        }
    }
    true
}

/// The areas and priorities of new alarms.
pub fn sites_of(alloc: Global, news: &[NewAlarm]) -> Result<Vec<Site>, AllocError>
    ensures { IfOk result (λ sites. sites.items ≡ sites_of news.now) }
{
    let mut sites = Vec::new(alloc);
    for new in news {
        sites.push(new.site)?;
    }
    Ok(sites)
}

/// What a new alarm is after old ones.
pub fn alarm_of(old: &[Alarm], new: &NewAlarm) -> Alarm
    requires { IsShelvable new.now }
    ensures { result ≡ alarm_of old.now new.now }
{
    let alarm = Alarm::new(new.latching, u64::from(new.max_shelve_ms));
    match new.kept {
        None => alarm,
        Some(number) => match old.get(number as usize) {
            Some(kept) => alarm.keeping(kept),
            None => alarm,
        },
    }
}

/// What new alarms are after old ones.
pub fn alarms_of(alloc: Global, old: &[Alarm], news: &[NewAlarm]) -> Result<Vec<Alarm>, AllocError>
    requires { All IsShelvable news.now }
    ensures { IfOk result (λ alarms. alarms.items ≡ map (alarm_of old.now) news.now) }
{
    let mut alarms = Vec::new(alloc);
    for new in news {
        alarms.push(alarm_of(old, new))?;
    }
    Ok(alarms)
}

//! The alarms of a plant with room for those of another one.

ghost use Rattle.std.specs.Prelude.{◌≡◌, ◌≤◌, ◌<◌, ◌^◌, true, length, map, slice_get, slice_set, vec_capacity, All, IfOk, Some};
ghost use Rattle.alarm_machine.specs.declared.limits.TheConstants.{LAST_MOMENT};
ghost use Rattle.alarm_bank.specs.Banks.{scan_each, after_event, reply_of};
ghost use Rattle.alarm_bank.specs.Reloads.{IsShelvable, alarm_of, annunciator_after, reload_fits, reloaded_in, sites_of};

use crate::bank::Bank;
use crate::event::BankEvent;
use crate::news::{alarm_of, all_fit};
use crate::rows::{NewAlarm, Site};
use alarm_machine::{Alarm, AlarmState, Change, LAST_MOMENT, OrderFault, Verb};
use std::alloc::{AllocError, Global};
use std::marker::Model;
use std::mem::swap;

/// The alarms of a plant as a `Bank` has them, each in one of so many places, so that those of another plant can take the places without memory: as an
/// annunciator's windows are labelled anew. It has no summary of codes and no index of shelves.
pub struct Annunciator {
    sites: Vec<Site>,
    alarms: Vec<Alarm>,
    /// The room in which the alarms of another plant are made.
    spare: Vec<Alarm>,
    moment: u64,
    places: usize,
}

impl Drop for Annunciator {
    fn drop(self) {
        let Annunciator {
            sites: _,
            alarms: _,
            spare: _,
            moment: _,
            places: _,
        } = self;
    }
}

impl Model for Annunciator {
    ghost use Rattle.std.specs.Prelude.{vec_capacity};
    ghost use Rattle.alarm_bank.specs.Reloads.{PlainAnnunciator, IsAnnunciator};

    ghost Value = { PlainAnnunciator };

    ghost view = { λ p. record { bank = record { sites = p.sites.items; alarms = p.alarms.items; moment = p.moment }; places = p.places } };

    ghost invariant = { λ p. IsAnnunciator p.alarms.items p.moment p.places (vec_capacity p.sites) (vec_capacity p.alarms) (vec_capacity p.spare) };
}

/// Alarms with room for so many.
fn alarms_in(alloc: Global, alarms: &[Alarm], places: usize) -> Result<Vec<Alarm>, AllocError>
    ensures items { IfOk result (λ room. room.items ≡ alarms.now) }
    ensures room { IfOk result (λ room. places ≤ vec_capacity room) }
{
    let mut room = Vec::with_capacity(alloc, places)?;
    room.extend_from_slice(alarms)?;
    Ok(room)
}

/// Areas and priorities with room for so many.
fn sites_in(alloc: Global, sites: &[Site], places: usize) -> Result<Vec<Site>, AllocError>
    ensures items { IfOk result (λ room. room.items ≡ sites.now) }
    ensures room { IfOk result (λ room. places ≤ vec_capacity room) }
{
    let mut room = Vec::with_capacity(alloc, places)?;
    room.extend_from_slice(sites)?;
    Ok(room)
}

/// Puts what new alarms are after old ones in a room for them.
fn fill_alarms(old: &[Alarm], news: &[NewAlarm], room: &mut Vec<Alarm>)
    requires shelving { All IsShelvable news.now }
    requires room { length news.now ≤ vec_capacity room.old }
    ensures items { room.new.items ≡ map (alarm_of old.now) news.now }
    ensures room { vec_capacity room.new ≡ vec_capacity room.old }
{
    room.clear();
    for new in news {
        room.push_reserved(alarm_of(old, new));
    }
}

/// Puts the areas and priorities of new alarms in a room for them.
fn fill_sites(news: &[NewAlarm], room: &mut Vec<Site>)
    requires room { length news.now ≤ vec_capacity room.old }
    ensures items { room.new.items ≡ sites_of news.now }
    ensures room { vec_capacity room.new ≡ vec_capacity room.old }
{
    room.clear();
    for new in news {
        room.push_reserved(new.site);
    }
}

impl Annunciator {
    /// The alarms of a bank, with places for so many.
    pub fn of(alloc: Global, bank: &Bank, places: usize) -> Result<Annunciator, AllocError>
        requires within { length bank.now.alarms ≤ places }
        ensures { IfOk result (λ made. made ≡ record { bank = bank.now; places = places }) }
    {
        let sites = sites_in(alloc, bank.sites(), places)?;
        let alarms = alarms_in(alloc, bank.alarms(), places)?;
        let spare = Vec::with_capacity(alloc, places)?;
        Ok(Annunciator {
            sites,
            alarms,
            spare,
            moment: bank.moment(),
            places,
        })
    }

    /// The alarms, in order.
    pub fn alarms(&self) -> &[Alarm]
        ensures { result.now ≡ self.now.bank.alarms }
    {
        self.alarms.as_slice()
    }

    /// The state of an alarm that is there.
    pub fn state(&self, alarm: u32) -> AlarmState
        requires { alarm < length self.now.bank.alarms }
        ensures { slice_get (map (λ a. a.state) self.now.bank.alarms) alarm ≡ Some result }
    {
        self.alarms[alarm as usize].state()
    }

    /// The moment of the last scan in milliseconds, 0 before the first.
    pub fn moment(&self) -> u64
        ensures moment { result ≡ self.now.bank.moment }
        ensures in_range { result ≤ LAST_MOMENT }
    {
        self.moment
    }

    /// For how many alarms it has places.
    pub fn places(&self) -> usize
        ensures { result ≡ self.now.places }
    {
        self.places
    }

    /// Puts an alarm in the place of another one.
    fn put(&mut self, at: usize, alarm: &Alarm)
        requires { at < length self.old.bank.alarms }
        ensures { self.new
            ≡ record self.old
            { bank = record self.old.bank { alarms = slice_set self.old.bank.alarms at alarm.now } } }
    {
        self.alarms[at] = *alarm;
    }

    /// Takes a scan, which steps the alarms that don't rest.
    fn scan(&mut self, conds: &[bool], sups: &[bool], moment: u64)
        requires conds { length conds.now ≡ length self.old.bank.alarms }
        requires sups { length sups.now ≡ length self.old.bank.alarms }
        requires moment { moment ≤ LAST_MOMENT }
        ensures { self.new
            ≡ record self.old {
              bank = record self.old.bank
                  { alarms = scan_each conds.now sups.now moment self.old.bank.alarms; moment = moment };
            } }
    {
        for at in 0..conds.len() {
            let mut alarm = self.alarms[at];
            if !alarm.rests(conds[at], sups[at], moment) {
                let _ = alarm.scan(conds[at], sups[at], moment);
                self.put(at, &alarm);
            }
        }
        self.moment = moment;
    }

    /// What an order to an alarm would be answered now: the change of its code, if there is one, or a refusal. `UnknownTarget` (O1) if the alarm isn't there.
    pub fn reply(&self, alarm: u32, verb: Verb) -> Result<Option<Change>, OrderFault>
        ensures { result ≡ reply_of alarm verb self.now.bank }
    {
        match self.alarms.get(alarm as usize) {
            Some(found) => {
                let mut copy = *found;
                copy.order(verb, self.moment)
            }
            None => Err(OrderFault::UnknownTarget),
        }
    }

    /// Takes an order, if its alarm is there and takes it.
    fn order(&mut self, alarm: u32, verb: Verb)
        ensures { self.new
            ≡ record self.old { bank = after_event (BankEvent.Order alarm verb) self.old.bank } }
    {
        let at = alarm as usize;
        if let Some(found) = self.alarms.get(at) {
            let mut changed = *found;
            match changed.order(verb, self.moment) {
                Ok(_) => self.put(at, &changed),
                Err(_) => {}
            }
        }
    }

    /// Takes an event; it takes no memory. One that doesn't fit changes nothing: a scan or an order as of `Bank::advance`, a reload with more alarms than
    /// there are places, with the number of an old alarm that isn't there, or with a longest shelving above 30 days.
    pub fn advance(&mut self, event: &BankEvent)
        ensures { self.new ≡ annunciator_after event.now self.old }
    {
        match event {
            BankEvent::Scan {
                moment,
                conds,
                sups,
            } => {
                let count = self.alarms.len();
                let conds = conds.as_slice();
                let sups = sups.as_slice();
                if conds.len() == count && sups.len() == count && *moment <= LAST_MOMENT {
                    self.scan(conds, sups, *moment);
                }
            }
            BankEvent::Order { alarm, verb } => {
                self.order(*alarm, *verb);
            }
            BankEvent::Reload(news) => {
                let news = news.as_slice();
                if self.fits(news) {
                    self.reload(news);
                }
            }
        }
    }

    /// Whether new alarms may take the places of the alarms: there are places for them, each old alarm whose state one keeps is there, and no longest
    /// shelving is above 30 days.
    pub fn fits(&self, news: &[NewAlarm]) -> bool
        ensures { result ≡ reload_fits news.now self.now }
    {
        news.len() <= self.places && all_fit(self.alarms.len(), news)
    }

    /// Puts new alarms in the places of the alarms; it takes no memory. One that keeps the state of an old alarm has that alarm's state, the end of its
    /// shelf and its last condition and suppression; the others are as before their first scan. The moment stays.
    pub fn reload(&mut self, news: &[NewAlarm])
        requires { reload_fits news.now self.old ≡ true }
        ensures { self.new ≡ reloaded_in news.now self.old }
    {
        fill_alarms(self.alarms.as_slice(), news, &mut self.spare);
        swap(&mut self.alarms, &mut self.spare);
        fill_sites(news, &mut self.sites);
    }
}

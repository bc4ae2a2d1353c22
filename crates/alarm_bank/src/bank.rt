//! The alarms of a plant.

ghost use Rattle.std.specs.Prelude.{◌≡◌, ℕ, ◌≤◌, ◌<◌, ◌+◌, ◌*◌, ◌^◌, List, length, min, slice_get, IfSome, IfNone, IfOk, OnOk, All, Some, slice_set, slice_index, map, true, false};
ghost use Rattle.std.specs.Option.{option_map};
ghost use Rattle.alarm_machine.specs.declared.limits.TheConstants.{LAST_MOMENT};
ghost use Rattle.alarm_machine.specs.Alarms.{PlainAlarm, end_of, EndsInRange};
ghost use Rattle.alarm_bank.specs.Banks.{IsSite, scan_each, after_event, reply_of, counted, end_or_never, IsNextEnd, NoneShelved, IsSettled};
ghost use Rattle.alarm_bank.specs.Reloads.{all_fit, bank_reloaded, sites_of};
ghost use Rattle.alarm_bank.specs.Moves.{AreMoved, AddsMove, AreMovesBefore, AreScanMoves, UnmarkedStay, NoShelfEnds, put_all};

use crate::event::BankEvent;
use crate::marks::{BITS, Marks};
use crate::moves::Moves;
use crate::news::{alarms_of, all_fit, sites_of};
use crate::rows::{NewAlarm, Site};
use crate::shelf::Shelf;
use crate::signals::Signals;
use alarm_counts::{Counted, Summary};
use alarm_machine::{Alarm, AlarmState, Change, LAST_MOMENT, OrderFault, Verb};
use std::alloc::{AllocError, Global};
use std::marker::Model;

/// The alarms of a plant, numbered from 0, with the area and the priority of each, and the moment of the last scan. Contracts see these;
/// beside them stand a summary of their codes and an index of the ends of shelves.
pub struct Bank {
    sites: Vec<Site>,
    alarms: Vec<Alarm>,
    moment: u64,
    summary: Summary,
    shelf: Shelf,
}

impl Drop for Bank {
    fn drop(self) {
        let Bank {
            sites: _,
            alarms: _,
            moment: _,
            summary: _,
            shelf: _,
        } = self;
    }
}

impl Model for Bank {
    ghost use Rattle.alarm_bank.specs.Banks.{PlainBank, IsBank};

    ghost Value = { PlainBank };

    ghost view = { λ b. record { sites = b.sites.items; alarms = b.alarms.items; moment = b.moment } };

    ghost invariant = { λ b. IsBank b.sites.items b.alarms.items b.moment b.summary b.shelf };
}

/// The end of an alarm's shelf, or the greatest number of 64 bits.
fn end_or_never(alarm: &Alarm) -> u64
    ensures end { result ≡ end_or_never (end_of alarm.now.state) }
    ensures in_range { EndsInRange alarm.now.state }
    ensures settled { IsSettled alarm.now }
{
    match alarm.end() {
        Some(end) => end,
        None => u64::MAX,
    }
}

/// Puts the end of an alarm's shelf in the place of another alarm's.
// Few alarms are shelved, and where neither is, the tree isn't touched.
#[inline(always)]
fn put_end(shelf: &mut Shelf, at: usize, old: &Alarm, new: &Alarm)
    requires at { at < length shelf.old }
    requires few { length shelf.old < 2 ^ 32 }
    requires was { slice_index shelf.old at ≡ end_or_never (end_of old.now.state) }
    ensures shelf { shelf.new ≡ slice_set shelf.old at (end_or_never (end_of new.now.state)) }
    ensures in_range { EndsInRange new.now.state }
    ensures settled { IsSettled new.now }
{
    if old.end().is_some() || new.end().is_some() {
        shelf.put(at, end_or_never(new));
    }
}

/// The ends of the shelves of alarms.
fn shelf_of(alloc: Global, alarms: &[Alarm]) -> Result<Shelf, AllocError>
    requires { length alarms.now < 2 ^ 32 }
    ensures ends { IfOk result (λ shelf. shelf ≡ map (λ a. end_or_never (end_of a.state)) alarms.now) }
    ensures in_time { OnOk result (All (λ a. EndsInRange a.state) alarms.now) }
    ensures settled { OnOk result (All IsSettled alarms.now) }
{
    let mut shelf = Shelf::new(alloc, alarms.len())?;
    for at in 0..alarms.len() {
        let end = end_or_never(&alarms[at]);
        shelf.put(at, end);
    }
    Ok(shelf)
}

/// The alarms as a summary counts them.
fn counted(alloc: Global, sites: &[Site], alarms: &[Alarm]) -> Result<Vec<Counted>, AllocError>
    requires { length sites.now ≡ length alarms.now }
    ensures { IfOk result (λ rows. rows.items ≡ counted sites.now alarms.now) }
{
    let mut rows = Vec::new(alloc);
    for at in 0..alarms.len() {
        let Site { area, priority } = sites[at];
        let code = alarms[at].state().code();
        rows.push(Counted {
            area,
            priority,
            code,
        })?;
    }
    Ok(rows)
}

/// The summary of alarms of so many areas.
fn summary_of(
    alloc: Global,
    areas: u32,
    sites: &[Site],
    alarms: &[Alarm],
) -> Result<Summary, AllocError>
    requires each { length sites.now ≡ length alarms.now }
    requires few { length alarms.now < 2 ^ 32 }
    requires sites { All (IsSite areas) sites.now }
    ensures { IfOk result (λ summary. summary ≡ counted sites.now alarms.now) }
{
    let rows = counted(alloc, sites, alarms)?;
    Summary::new(alloc, areas, rows)
}

impl Bank {
    /// Makes a bank of alarms before its first scan, with the area and the priority of each. There are at most 64 areas.
    pub fn new(
        alloc: Global,
        areas: u32,
        sites: Vec<Site>,
        alarms: Vec<Alarm>,
    ) -> Result<Bank, AllocError>
        requires each { length sites.items ≡ length alarms.items }
        requires few { length alarms.items < 2 ^ 32 }
        requires areas { areas ≤ 64 }
        requires sites { All (IsSite areas) sites.items }
        ensures { IfOk result (λ bank. bank
            ≡ record { sites = sites.items; alarms = alarms.items; moment = 0 }) }
    {
        Bank::at(alloc, areas, sites, alarms, 0)
    }

    /// Makes a bank of alarms after a last scan at a moment, or before the first at 0.
    fn at(
        alloc: Global,
        areas: u32,
        sites: Vec<Site>,
        alarms: Vec<Alarm>,
        moment: u64,
    ) -> Result<Bank, AllocError>
        requires each { length sites.items ≡ length alarms.items }
        requires few { length alarms.items < 2 ^ 32 }
        requires sites { All (IsSite areas) sites.items }
        requires moment { moment ≤ LAST_MOMENT }
        ensures { IfOk result (λ bank. bank
            ≡ record { sites = sites.items; alarms = alarms.items; moment = moment }) }
    {
        let summary = summary_of(alloc, areas, sites.as_slice(), alarms.as_slice())?;
        let shelf = shelf_of(alloc, alarms.as_slice())?;
        Ok(Bank {
            sites,
            alarms,
            moment,
            summary,
            shelf,
        })
    }

    /// Whether new alarms may take the place of its own: each old alarm whose state one keeps is there, and no longest shelving is above 30 days.
    pub fn fits(&self, news: &[NewAlarm]) -> bool
        ensures { result ≡ all_fit (length self.now.alarms) news.now }
    {
        all_fit(self.alarms.len(), news)
    }

    /// The bank with new alarms that fit in the place of its own, of at most 64 areas. One that keeps the state of an old alarm has that alarm's
    /// state, the end of its shelf and its last condition and suppression; the others are as before their first scan. The moment stays. The old bank
    /// stays as it is.
    pub fn reloaded(&self, alloc: Global, areas: u32, news: &[NewAlarm]) -> Result<Bank, AllocError>
        requires few { length news.now < 2 ^ 32 }
        requires areas { areas ≤ 64 }
        requires sites { All (IsSite areas) (sites_of news.now) }
        requires fit { all_fit (length self.now.alarms) news.now ≡ true }
        ensures { IfOk result (λ bank. bank ≡ bank_reloaded news.now self.now) }
    {
        let sites = sites_of(alloc, news)?;
        let alarms = alarms_of(alloc, self.alarms.as_slice(), news)?;
        Bank::at(alloc, areas, sites, alarms, self.moment)
    }

    /// The state of an alarm that is there.
    pub fn state(&self, alarm: u32) -> AlarmState
        requires { alarm < length self.now.alarms }
        ensures { slice_get (map (λ a. a.state) self.now.alarms) alarm ≡ Some result }
    {
        self.alarms[alarm as usize].state()
    }

    /// The area of an alarm that is there. It is read where the code of the alarm is counted, which an order that is taken changes next.
    pub fn area(&self, alarm: u32) -> u32
        requires { alarm < length self.now.alarms }
        ensures { option_map (λ site. site.area) (slice_get self.now.sites alarm) ≡ Some result }
    {
        self.summary.area(alarm as usize)
    }

    /// The alarms, in order.
    pub fn alarms(&self) -> &[Alarm]
        ensures { result.now ≡ self.now.alarms }
    {
        self.alarms.as_slice()
    }

    /// The area and the priority of each alarm.
    pub(crate) fn sites(&self) -> &[Site]
        ensures { result.now ≡ self.now.sites }
    {
        self.sites.as_slice()
    }

    /// The moment of the last scan in milliseconds, 0 before the first.
    pub fn moment(&self) -> u64
        ensures moment { result ≡ self.now.moment }
        ensures in_range { result ≤ LAST_MOMENT }
    {
        self.moment
    }

    /// How many alarms of each area and priority have each code now.
    pub fn summary(&self) -> &Summary
        ensures { result.now ≡ counted self.now.sites self.now.alarms }
    {
        &self.summary
    }

    /// The least end of the alarms that are shelved now, in milliseconds; `None` where none is.
    pub fn next_end(&self) -> Option<u64>
        ensures some { IfSome result (λ e. IsNextEnd e self.now.alarms) }
        ensures none { IfNone result (NoneShelved self.now.alarms) }
    {
        let least = self.shelf.least();
        if least == u64::MAX { None } else { Some(least) }
    }

    /// Puts an alarm in the place of another one.
    // The alarm is lent, so that it is copied as it lies there; by value its parts would be copied one by one.
    fn put(&mut self, at: usize, alarm: &Alarm)
        requires { at < length self.old.alarms }
        ensures { self.new ≡ record self.old { alarms = slice_set self.old.alarms at alarm.now } }
    {
        put_end(&mut self.shelf, at, &self.alarms[at], alarm);
        self.alarms[at] = *alarm;
        self.summary.put(at, alarm.state().code());
    }

    /// Takes a scan, which steps the alarms that don't rest.
    fn scan(&mut self, conds: &[bool], sups: &[bool], moment: u64)
        requires conds { length conds.now ≡ length self.old.alarms }
        requires sups { length sups.now ≡ length self.old.alarms }
        requires moment { moment ≤ LAST_MOMENT }
        ensures { self.new
            ≡ record self.old
            { alarms = scan_each conds.now sups.now moment self.old.alarms; moment = moment } }
    {
        for at in 0..conds.len() {
            let mut alarm = self.alarms[at];
            if !alarm.rests(conds[at], sups[at], moment) {
                let _ = alarm.scan(conds[at], sups[at], moment);
                self.put(at, &alarm);
            }
        }
        self.moment = moment;
    }

    /// What an order to an alarm would be answered now: the change of its code, if there is one, or a refusal. `UnknownTarget` (O1) if the alarm isn't there.
    pub fn reply(&self, alarm: u32, verb: Verb) -> Result<Option<Change>, OrderFault>
        ensures { result ≡ reply_of alarm verb self.now }
    {
        match self.alarms.get(alarm as usize) {
            Some(found) => {
                let mut copy = *found;
                copy.order(verb, self.moment)
            }
            None => Err(OrderFault::UnknownTarget),
        }
    }

    /// Takes an order, if its alarm is there and takes it.
    fn order(&mut self, alarm: u32, verb: Verb)
        ensures { self.new ≡ after_event (BankEvent.Order alarm verb) self.old }
    {
        let at = alarm as usize;
        if let Some(found) = self.alarms.get(at) {
            let mut changed = *found;
            match changed.order(verb, self.moment) {
                Ok(_) => self.put(at, &changed),
                Err(_) => {}
            }
        }
    }

    /// Takes an event. One that doesn't fit changes nothing: a scan with another number of conditions or suppressions or a moment above
    /// the last one of all, an order to an alarm that isn't there, or one that is refused; and a reload, for which an `Annunciator` has places.
    pub fn advance(&mut self, event: &BankEvent)
        ensures { self.new ≡ after_event event.now self.old }
    {
        match event {
            BankEvent::Scan {
                moment,
                conds,
                sups,
            } => {
                let count = self.alarms.len();
                let conds = conds.as_slice();
                let sups = sups.as_slice();
                if conds.len() == count && sups.len() == count && *moment <= LAST_MOMENT {
                    self.scan(conds, sups, *moment);
                }
            }
            BankEvent::Order { alarm, verb } => {
                self.order(*alarm, *verb);
            }
            BankEvent::Reload(_) => {}
        }
    }

    fn shelf_ends(&self, moment: u64) -> bool
        ensures { result ≡ false → NoShelfEnds moment self.now.alarms }
    {
        match self.next_end() {
            Some(end) => end <= moment,
            None => false,
        }
    }

    /// Lists the alarm of a number as a scan leaves it, unless it rests, and the change of its code, if there is one, behind what is listed.
    #[inline(always)]
    fn list_move<S: Signals>(
        &self,
        number: u32,
        signals: &S,
        moment: u64,
        moves: &mut Moves,
    ) -> Result<(), AllocError>
        requires there { number < length self.now.alarms }
        requires conditions { length (S.conditions signals.now) ≡ length self.now.alarms }
        requires suppressions { length (S.suppressions signals.now) ≡ length self.now.alarms }
        ensures { OnOk result
            (AddsMove number (S.conditions signals.now) (S.suppressions signals.now) moment
            self.now.alarms moves.old.moved.items moves.new.moved.items moves.old.changes.items
            moves.new.changes.items) }
    {
        let condition = signals.condition(number);
        let suppression = signals.suppression(number);
        let mut alarm = self.alarms[number as usize];
        if alarm.rests(condition, suppression, moment) {
            return Ok(());
        }
        let change = alarm.scan(condition, suppression, moment);
        moves.moved.push((number, alarm))?;
        if let Some(change) = change {
            moves.changes.push((number, change))?;
        }
        Ok(())
    }

    /// Lists the alarms that a scan moves, in order, each by its number and as the scan leaves it, and the changes of their codes, both in place of
    /// what was listed before; alarms that rest are passed over. The bank stays as it is. The lists take memory only where they grow beyond their
    /// room.
    pub fn list_moved<S: Signals>(
        &self,
        signals: &S,
        moment: u64,
        moves: &mut Moves,
    ) -> Result<(), AllocError>
        requires conditions { length (S.conditions signals.now) ≡ length self.now.alarms }
        requires suppressions { length (S.suppressions signals.now) ≡ length self.now.alarms }
        ensures { OnOk result
            (AreScanMoves (S.conditions signals.now) (S.suppressions signals.now) moment self.now.alarms
            moves.new) }
    {
        moves.moved.clear();
        moves.changes.clear();
        for at in 0..self.alarms.len() {
            self.list_move(at as u32, signals, moment, moves)?;
        }
        Ok(())
    }

    /// Lists those of the marked alarms of one word of marks that a scan moves, and the changes of their codes, where those of the words before it
    /// are listed and no shelf ends by the scan's moment.
    // The bits of the word are taken off one by one, lowest first, which is the shortest way from one mark to the next.
    #[inline(always)]
    fn list_word<S: Signals>(
        &self,
        marks: &Marks,
        index: usize,
        signals: &S,
        moment: u64,
        moves: &mut Moves,
    ) -> Result<(), AllocError>
        requires marks { length marks.now ≡ length self.now.alarms }
        requires there { index * 64 ≤ length self.now.alarms }
        requires later { NoShelfEnds moment self.now.alarms }
        requires unmarked { UnmarkedStay marks.now (S.conditions signals.now)
            (S.suppressions signals.now) self.now.alarms }
        requires conditions { length (S.conditions signals.now) ≡ length self.now.alarms }
        requires suppressions { length (S.suppressions signals.now) ≡ length self.now.alarms }
        requires before { AreMovesBefore (index * 64) (S.conditions signals.now)
            (S.suppressions signals.now) moment self.now.alarms moves.old }
        ensures { OnOk result
            (AreMovesBefore (min ((index + 1) * 64) (length self.now.alarms))
            (S.conditions signals.now) (S.suppressions signals.now) moment self.now.alarms moves.new) }
    {
        let _ = &self.sites;
        let words = marks.words();
        let mut left = words[index];
        while left != 0 {
            let at = index * BITS + left.trailing_zeros() as usize;
            self.list_move(at as u32, signals, moment, moves)?;
            left &= left - 1;
        }
        Ok(())
    }

    /// Lists the alarms that a scan moves, and the changes of their codes, as `list_moved` does. It looks at the marked alarms alone, which lie from
    /// a first place up to before an end, unless a shelf ends by the scan's moment: each of the others has the condition and the suppression that it
    /// had in the last scan.
    pub fn list_moved_among<S: Signals>(
        &self,
        marks: &Marks,
        first: usize,
        end: usize,
        signals: &S,
        moment: u64,
        moves: &mut Moves,
    ) -> Result<(), AllocError>
        requires marks { length marks.now ≡ length self.now.alarms }
        requires first { first ≤ length marks.now }
        requires clear { (n : ℕ) → n < first → slice_get marks.now n ≡ Some false }
        requires rest { (n : ℕ) → end ≤ n → n < length marks.now → slice_get marks.now n ≡ Some false }
        requires unmarked { UnmarkedStay marks.now (S.conditions signals.now)
            (S.suppressions signals.now) self.now.alarms }
        requires conditions { length (S.conditions signals.now) ≡ length self.now.alarms }
        requires suppressions { length (S.suppressions signals.now) ≡ length self.now.alarms }
        ensures { OnOk result
            (AreScanMoves (S.conditions signals.now) (S.suppressions signals.now) moment self.now.alarms
            moves.new) }
    {
        if self.shelf_ends(moment) {
            return self.list_moved(signals, moment, moves);
        }
        moves.moved.clear();
        moves.changes.clear();
        let end = end.min(self.alarms.len());
        for index in first / BITS..end / BITS + 1 {
            self.list_word(marks, index, signals, moment, moves)?;
        }
        Ok(())
    }

    /// Puts an alarm in the place of the one of a number. A number that isn't there changes nothing.
    #[inline(always)]
    fn put_at(&mut self, number: u32, alarm: &Alarm)
        ensures { self.new ≡ record self.old { alarms = slice_set self.old.alarms number alarm.now } }
    {
        let at = number as usize;
        if at < self.alarms.len() {
            self.put(at, alarm);
        }
    }

    /// Puts an alarm in the place of the one of a number, as an order has made it; it takes no memory. A number that isn't there changes
    /// nothing.
    pub fn replace(&mut self, number: u32, alarm: Alarm)
        ensures { self.new ≡ record self.old { alarms = slice_set self.old.alarms number alarm } }
    {
        self.put_at(number, &alarm);
    }

    /// Takes a scan by the alarms that it moves; it takes no memory and looks at no other alarm. After what `list_moved` lists of this bank,
    /// each alarm is what the scan makes of it.
    pub fn apply(&mut self, moved: &[(u32, Alarm)], moment: u64)
        requires { moment ≤ LAST_MOMENT }
        ensures put { self.new
            ≡ record self.old { alarms = put_all self.old.alarms moved.now; moment = moment } }
        ensures scanned { (new : List PlainAlarm) → AreMoved 0 self.old.alarms new moved.now
            → self.new ≡ record self.old { alarms = new; moment = moment } }
    {
        for (number, alarm) in moved {
            self.put_at(*number, alarm);
        }
        self.moment = moment;
    }
}

mod parallel;

//! The delays of alarms, and since when their conditions have been met.

ghost use Rattle.std.specs.Prelude.{◌≡◌, ◌<◌, ◌≤◌, ◌^◌, ◌+◌, ◌-◌, ℕ, Bool, List, Some, None, Option, true, false, length, map, fold, replicate, slice_get, slice_set, IfOk, OnOk};
ghost use Rattle.alarm_machine.specs.declared.limits.TheConstants.{LAST_MOMENT};
ghost use Rattle.alarm_bank.specs.Moves.{AreScanMoves};
ghost use Rattle.alarm_delays.specs.Delays.{AreMet, ConditionsStay, DelaysAgree, Follows, IsFirstMark, FollowsOn, KeptAgree, RawStay, after_conditions, after_met, delayed, delayed_each, delays_reloaded, have_none, kept_since, last_conditions, put_since, since_after};

use crate::listed::Listed;
use crate::since::Since;
use alarm_bank::{BITS, Bank, Marks, Shelf, Signals};
use alarm_machine::Alarm;
use std::alloc::{AllocError, Global};
use std::marker::Model;

/// The delay of each alarm in milliseconds, since when its condition has been met, and the moment of the last scan. Beside them stand an index
/// of the moments at which conditions come to count by time alone, and whether no alarm has a delay. Then conditions count at once, and the index is at rest:
/// since when they have been met is kept for alarms that take the places of these, which may have delays.
pub struct Delays {
    delays: Vec<u32>,
    since: Vec<Since>,
    last: u64,
    due: Shelf,
    is_plain: bool,
}

impl Drop for Delays {
    fn drop(self) {
        let Delays {
            delays: _,
            since: _,
            last: _,
            due: _,
            is_plain: _,
        } = self;
    }
}

impl Model for Delays {
    ghost use Rattle.alarm_delays.specs.Delays.{PlainDelays, IsDelays};

    ghost Value = { PlainDelays };

    ghost view = { λ d. record { delays = d.delays.items; since = d.since.items; last = d.last } };

    ghost invariant = { λ d. IsDelays d.delays.items d.since.items d.last d.due d.is_plain };
}

/// Whether a condition counts in a scan, by since when it had been met before.
fn delayed(condition: bool, delay: u32, moment: u64, since: Option<u64>) -> bool
    ensures { result ≡ delayed condition delay moment since }
{
    if !condition {
        return false;
    }
    match since {
        Some(start) => u64::from(delay) <= moment.saturating_sub(start),
        None => delay == 0,
    }
}

fn have_none(delays: &[u32]) -> bool
    ensures { result ≡ have_none delays.now }
{
    for delay in delays {
        if *delay > 0 {
            return false;
        }
    }
    true
}

/// Of so many conditions none is met.
fn none_yet(alloc: Global, count: usize) -> Result<Vec<Since>, AllocError>
    ensures { IfOk result (λ since. since.items ≡ replicate count None) }
{
    let mut since = Vec::new(alloc);
    for at in 0..count {
        let _ = at;
        since.push(Since::never())?;
    }
    Ok(since)
}

/// Takes the last conditions of alarms, by their numbers, in a scan at a moment: since when each has been met. A number that isn't there changes nothing.
fn put_last(since: &mut [Since], moved: &[(u32, Alarm)], moment: u64)
    requires { moment ≤ LAST_MOMENT }
    ensures { since.new ≡ fold (put_since moment) since.old (last_conditions moved.now) }
{
    for (number, alarm) in moved {
        let at = *number as usize;
        if at < since.len() {
            since[at] = since[at].after(alarm.condition(), moment);
        }
    }
}

/// A moment before which a condition doesn't come to count by time alone, where it doesn't count at a last moment; else one that doesn't matter.
fn due_at(last: u64, delay: u32, since: Option<u64>) -> u64
    requires { (r : ℕ) → since ≡ Some r → r ≤ LAST_MOMENT }
    ensures { (r : ℕ) → since ≡ Some r → last - r < delay → result ≤ r + delay }
{
    match since {
        Some(start) => {
            let delay = u64::from(delay);
            if last.saturating_sub(start) < delay {
                start + delay
            } else {
                u64::MAX
            }
        }
        None => u64::MAX,
    }
}

/// What counts in a scan, by the conditions that its programs leave.
pub struct Counting<'a, S: Signals> {
    raw: &'a S,
    delays: &'a Delays,
    moment: u64,
}

impl<'a, S: Signals> Drop for Counting<'a, S> {
    fn drop(self) {
        let Counting {
            raw: _,
            delays: _,
            moment: _,
        } = self;
    }
}

impl<'a, S: Signals> Signals for Counting<'a, S> {
    ghost use Rattle.alarm_delays.specs.Delays.{delayed_each};

    ghost conditions = { λ d. delayed_each (S.conditions d.raw.now) d.moment d.delays.now.delays d.delays.now.since };

    ghost suppressions = { λ d. S.suppressions d.raw.now };

    fn condition(&self, alarm: u32) -> bool {
        let delays: &Delays = self.delays;
        delays.counts(alarm as usize, self.raw.condition(alarm), self.moment)
    }

    fn suppression(&self, alarm: u32) -> bool {
        self.raw.suppression(alarm)
    }
}

impl Delays {
    /// The delays of alarms before the first scan.
    pub fn new(alloc: Global, delays: Vec<u32>) -> Result<Delays, AllocError>
        requires { length delays.items < 2 ^ 32 }
        ensures { IfOk result (λ made. made
            ≡ record { delays = delays.items; since = replicate (length delays.items) None; last = 0 }) }
    {
        let since = none_yet(alloc, delays.len())?;
        let due = Shelf::new(alloc, delays.len())?;
        let is_plain = have_none(delays.as_slice());
        Ok(Delays {
            delays,
            since,
            last: 0,
            due,
            is_plain,
        })
    }

    /// Since when the condition of a new alarm has been met that keeps the scans of the alarm of a number, or of none.
    fn kept_since(&self, kept: Option<u32>) -> Since
        ensures since { result ≡ kept_since self.now.since kept }
        ensures past { (r : ℕ) → result ≡ Some r → r ≤ self.now.last }
    {
        match kept {
            Some(number) if (number as usize) < self.since.len() => self.since[number as usize],
            _ => Since::never(),
        }
    }

    /// Takes since when the condition of one alarm has been met.
    fn keep(&mut self, at: usize, since: Since)
        requires there { at < length self.old.delays }
        requires past { (r : ℕ) → since ≡ Some r → r ≤ self.old.last }
        ensures { self.new ≡ record self.old { since = slice_set self.old.since at since } }
    {
        self.since[at] = since;
        if self.is_plain {
            return;
        }
        let delay = self.delays[at];
        if delay == 0 {
            return;
        }
        self.due.put(at, due_at(self.last, delay, since.start()));
    }

    /// Whether no alarm has a delay.
    pub fn is_plain(&self) -> bool
        ensures { result ≡ have_none self.now.delays }
    {
        self.is_plain
    }

    /// The moment of the last scan.
    fn last(&self) -> u64
        ensures last { result ≡ self.now.last }
        ensures range { result ≤ LAST_MOMENT }
    {
        self.last
    }

    /// The delays of new alarms, after the same last scan. One that keeps the scans of the old alarm of a number has been met since when that one
    /// has, whatever its own delay is; the others have had no scan yet. The old delays stay as they are.
    pub fn reloaded(
        &self,
        alloc: Global,
        delays: Vec<u32>,
        kept: &[Option<u32>],
    ) -> Result<Delays, AllocError>
        requires few { length delays.items < 2 ^ 32 }
        requires each { length kept.now ≡ length delays.items }
        ensures { IfOk result (λ made. made ≡ delays_reloaded delays.items kept.now self.now) }
    {
        let mut made = Delays::new(alloc, delays)?;
        made.go_on(self.last());
        for at in 0..kept.len() {
            made.keep(at, self.kept_since(kept[at]));
        }
        Ok(made)
    }

    /// Whether the condition of an alarm counts in a scan.
    fn counts(&self, at: usize, condition: bool, moment: u64) -> bool
        requires { at < length self.now.delays }
        ensures { (delay : ℕ) (r : Option ℕ) → slice_get self.now.delays at ≡ Some delay
            → slice_get self.now.since at ≡ Some r → result ≡ delayed condition delay moment r }
    {
        delayed(condition, self.delays[at], moment, self.since[at].start())
    }

    /// Goes on to a scan's moment.
    fn go_on(&mut self, moment: u64)
        requires later { self.old.last ≤ moment }
        requires range { moment ≤ LAST_MOMENT }
        ensures { self.new ≡ record self.old { last = moment } }
    {
        self.last = moment;
    }

    /// Takes the condition of one alarm in the scan of the last moment. It allocates nothing.
    fn put(&mut self, at: usize, condition: bool)
        requires { at < length self.old.delays }
        ensures { self.new
            ≡ record self.old { since = put_since self.old.last self.old.since (at, condition) } }
    {
        let last = self.last;
        let before = self.since[at];
        self.keep(at, before.after(condition, last));
    }

    /// Takes the condition of the alarm of a number in the scan of the last moment. A number that isn't there changes nothing.
    fn put_at(&mut self, number: u32, condition: bool)
        ensures { self.new
            ≡ record self.old { since = put_since self.old.last self.old.since (number, condition) } }
    {
        let at = number as usize;
        if at < self.delays.len() {
            self.put(at, condition);
        }
    }

    /// Takes the last conditions of alarms, by their numbers, in the scan of the last moment, where no alarm has a delay.
    fn take_moved(&mut self, moved: &[(u32, Alarm)])
        requires { have_none self.old.delays ≡ true }
        ensures { self.new
            ≡ record self.old
            { since = fold (put_since self.old.last) self.old.since (last_conditions moved.now) } }
    {
        put_last(&mut self.since, moved, self.last);
    }

    /// Takes a scan by the alarms whose conditions it changed, or may have, each by its number with its condition, in order, and by the alarms that it moves;
    /// it takes no memory and looks at no other alarm. After what `list_moved` or `list_plain` lists, all are what the scan makes of them.
    pub fn apply(&mut self, met: &[(u32, bool)], moved: &[(u32, Alarm)], moment: u64)
        requires later { self.old.last ≤ moment }
        requires range { moment ≤ LAST_MOMENT }
        ensures { self.new ≡ after_met met.now moment moved.now self.old }
    {
        self.go_on(moment);
        for (number, condition) in met {
            self.put_at(*number, *condition);
        }
        if self.is_plain() {
            self.take_moved(moved);
        }
    }

    /// Lists the marked alarms, of which none comes before a first place, in order, each by its number with its condition, in place of what was
    /// listed before. Returns a place before which all of them are.
    // The bits of a word are taken off one by one, lowest first, which is the shortest way from one mark to the next.
    fn list_met<S: Signals>(
        &self,
        raw: &S,
        marks: &Marks,
        first: usize,
        met: &mut Vec<(u32, bool)>,
    ) -> Result<usize, AllocError>
        requires first { IsFirstMark marks.now first }
        requires few { length self.now.since < 2 ^ 32 }
        requires each { length (S.conditions raw.now) ≡ length self.now.since }
        requires marks { length marks.now ≡ length self.now.since }
        requires unmarked { ConditionsStay marks.now (S.conditions raw.now) self.now.since }
        ensures met { OnOk result (AreMet 0 (S.conditions raw.now) self.now.since met.new.items) }
        ensures end { IfOk result (λ end. (n : ℕ) → end ≤ n → n < length marks.now
            → slice_get marks.now n ≡ Some false) }
    {
        met.clear();
        let words = marks.words();
        let mut end = first;
        for index in first / BITS..words.len() {
            let mut left = words[index];
            while left != 0 {
                let at = index * BITS + left.trailing_zeros() as usize;
                let number = at as u32;
                met.push((number, raw.condition(number)))?;
                end = at + 1;
                left &= left - 1;
            }
        }
        Ok(end)
    }

    /// Lists the alarms of a bank that a scan moves, and the changes of their codes, as `Bank::list_moved` does, by the conditions that count; and
    /// the alarms whose conditions may have changed, for `apply`. It looks at the marked alarms, and marks and looks at those whose conditions may
    /// come to count by time alone.
    pub fn list_moved<S: Signals>(
        &self,
        bank: &Bank,
        raw: &S,
        moment: u64,
        marks: &mut Marks,
        listed: &mut Listed,
    ) -> Result<(), AllocError>
        requires later { self.now.last ≤ moment }
        requires each { length bank.now.alarms ≡ length self.now.delays }
        requires marks { length marks.old ≡ length self.now.delays }
        requires conditions { length (S.conditions raw.now) ≡ length self.now.delays }
        requires suppressions { length (S.suppressions raw.now) ≡ length self.now.delays }
        requires unmarked { RawStay marks.old (S.conditions raw.now) (S.suppressions raw.now) self.now
            bank.now.alarms }
        ensures moved { OnOk result
            (AreScanMoves (delayed_each (S.conditions raw.now) moment self.now.delays self.now.since)
            (S.suppressions raw.now) moment bank.now.alarms listed.new.moves) }
        ensures met { OnOk result
            (after_met listed.new.met.items moment listed.new.moves.moved.items self.now
            ≡ after_conditions (S.conditions raw.now) moment self.now) }
    {
        self.due.mark_most(moment, marks);
        let first = marks.first();
        let end = self.list_met(raw, marks, first, &mut listed.met)?;
        let counted = Counting {
            raw,
            delays: self,
            moment,
        };
        let moves = &mut listed.moves;
        bank.list_moved_among(marks, first, end, &counted, moment, moves)?;
        Ok(())
    }

    /// Lists the same where no alarm has a delay, and where the last condition of each alarm is the one that counted in the last scan. It looks at
    /// the marked alarms once: that a condition has changed is told by the alarm, which moves.
    pub fn list_plain<S: Signals>(
        &self,
        bank: &Bank,
        raw: &S,
        moment: u64,
        marks: &Marks,
        listed: &mut Listed,
    ) -> Result<(), AllocError>
        requires plain { have_none self.now.delays ≡ true }
        requires follow { Follows self.now bank.now.alarms }
        requires later { self.now.last ≤ moment }
        requires each { length bank.now.alarms ≡ length self.now.delays }
        requires marks { length marks.now ≡ length self.now.delays }
        requires conditions { length (S.conditions raw.now) ≡ length self.now.delays }
        requires suppressions { length (S.suppressions raw.now) ≡ length self.now.delays }
        requires unmarked { RawStay marks.now (S.conditions raw.now) (S.suppressions raw.now) self.now
            bank.now.alarms }
        ensures moved { OnOk result
            (AreScanMoves (delayed_each (S.conditions raw.now) moment self.now.delays self.now.since)
            (S.suppressions raw.now) moment bank.now.alarms listed.new.moves) }
        ensures met { OnOk result
            (after_met listed.new.met.items moment listed.new.moves.moved.items self.now
            ≡ after_conditions (S.conditions raw.now) moment self.now) }
    {
        let _last = self.last;
        listed.met.clear();
        let first = marks.first();
        let moves = &mut listed.moves;
        bank.list_moved_among(marks, first, marks.len(), raw, moment, moves)?;
        Ok(())
    }
}

/// Law: since when a condition has been met, kept from scan to scan, tells whether it counts, by the list of all scans. (It does nothing when it
/// is called.)
pub fn delays_agree()
    ensures { DelaysAgree }
{}

/// Law: alarms that take their scans by the conditions that count go on following the delays. (It does nothing when it is called.)
pub fn alarms_follow()
    ensures { FollowsOn }
{}

/// Law: since when the conditions of new alarms have been met is what the scans tell that they keep. (It does nothing when it is called.)
pub fn kept_scans_agree()
    ensures { KeptAgree }
{}

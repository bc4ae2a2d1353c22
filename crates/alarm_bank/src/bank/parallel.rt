//! An event whose steps are shared out among threads.

ghost use Rattle.std.specs.Prelude.{◌≡◌, ◌<◌, ◌≤◌, ◌^◌, false, length, slice_index_or, IfOk, OnOk, OnErr};
ghost use Rattle.alarm_machine.specs.declared.limits.TheConstants.{LAST_MOMENT};
ghost use Rattle.alarm_machine.specs.Alarms.{after_scan};
ghost use Rattle.alarm_bank.specs.Banks.{scan_each, scan_fits, after_event};
ghost use Rattle.alarm_bank.specs.Moves.{AddsMove, AreMovesOf, changes_from, told_change};

use super::Bank;
use crate::event::BankEvent;
use crate::moves::Moves;
use alarm_machine::{Alarm, Change, LAST_MOMENT, OrderFault};
use rayon::prelude::*;
use std::alloc::{AllocError, Global};
use std::thread::Threads;

/// What a scan gives to the alarms.
#[derive(Clone, Copy, Drop)]
struct Given<'a> {
    conds: &'a [bool],
    sups: &'a [bool],
    moment: u64,
}

/// Takes a scan of each alarm, of several at once.
fn scan_all<H: Threads + Sync>(
    rt: &H,
    alarms: &mut [Alarm],
    conds: &[bool],
    sups: &[bool],
    moment: u64,
)
    requires conds { length conds.now ≡ length alarms.old }
    requires sups { length sups.now ≡ length alarms.old }
    ensures { alarms.new ≡ scan_each conds.now sups.now moment alarms.old }
{
    par_for_each_mut(
        rt,
        alarms,
        |at: usize, alarm: &mut Alarm|
            requires { (at < length conds.now) × (at < length sups.now) }
            ensures { alarm.new
                ≡ after_scan (slice_index_or conds.entry.now at false)
                (slice_index_or sups.entry.now at false) moment alarm.old }
        {
            let _ = alarm.scan(conds[at], sups[at], moment);
        },
    );
}

/// Alarms as a scan leaves them.
fn scanned<H: Threads + Sync>(
    rt: &H,
    alloc: Global,
    alarms: &[Alarm],
    given: &Given<'_>,
) -> Result<Vec<Alarm>, AllocError>
    requires conds { length given.now.conds.now ≡ length alarms.now }
    requires sups { length given.now.sups.now ≡ length alarms.now }
    ensures { IfOk result (λ next. next.items
        ≡ scan_each given.now.conds.now given.now.sups.now given.now.moment alarms.now) }
{
    let mut next = Vec::from_slice(alloc, alarms)?;
    scan_all(
        rt,
        next.as_mut_slice(),
        given.conds,
        given.sups,
        given.moment,
    );
    Ok(next)
}

/// Adds the alarm of a number as a scan has left it, unless it rests, and the change of its code, if there is one.
fn add_move(
    at: usize,
    alarms: &[Alarm],
    next: &[Alarm],
    given: &Given<'_>,
    moves: &mut Moves,
) -> Result<(), AllocError>
    requires there { at < length alarms.now }
    requires few { length alarms.now < 2 ^ 32 }
    requires conds { length given.now.conds.now ≡ length alarms.now }
    requires sups { length given.now.sups.now ≡ length alarms.now }
    requires next { next.now
        ≡ scan_each given.now.conds.now given.now.sups.now given.now.moment alarms.now }
    ensures { OnOk result
        (AddsMove at given.now.conds.now given.now.sups.now given.now.moment alarms.now
        moves.old.moved.items moves.new.moved.items moves.old.changes.items moves.new.changes.items) }
{
    let old = &alarms[at];
    if old.rests(given.conds[at], given.sups[at], given.moment) {
        return Ok(());
    }
    let new = next[at];
    let number = at as u32;
    let change = Change::between(old.state().code(), new.state().code());
    moves.moved.push((number, new))?;
    if let Some(change) = change {
        moves.changes.push((number, change))?;
    }
    Ok(())
}

/// The alarms that a scan has moved, and the changes of their codes, in order.
fn moves_of(
    alloc: Global,
    alarms: &[Alarm],
    next: &[Alarm],
    given: &Given<'_>,
) -> Result<Moves, AllocError>
    requires few { length alarms.now < 2 ^ 32 }
    requires conds { length given.now.conds.now ≡ length alarms.now }
    requires sups { length given.now.sups.now ≡ length alarms.now }
    requires next { next.now
        ≡ scan_each given.now.conds.now given.now.sups.now given.now.moment alarms.now }
    ensures { IfOk result (λ moves. AreMovesOf alarms.now next.now moves.moved.items
        moves.changes.items) }
{
    let mut moves = Moves::new(alloc);
    for at in 0..alarms.len() {
        add_move(at, alarms, next, given, &mut moves)?;
    }
    Ok(moves)
}

/// The change that a reply to an order of an alarm tells, if it tells one.
fn told(
    alloc: Global,
    alarm: u32,
    reply: Result<Option<Change>, OrderFault>,
) -> Result<Vec<(u32, Change)>, AllocError>
    ensures { IfOk result (λ changes. changes.items ≡ told_change alarm reply) }
{
    let mut changes = Vec::new(alloc);
    if let Ok(Some(change)) = reply {
        changes.push((alarm, change))?;
    }
    Ok(changes)
}

impl Bank {
    /// Takes a scan that fits. Fails if memory was refused; then the bank stays as it is.
    fn step_scan<H: Threads + Sync>(
        &mut self,
        rt: &H,
        alloc: Global,
        given: &Given<'_>,
    ) -> Result<Vec<(u32, Change)>, AllocError>
        requires conds { length given.now.conds.now ≡ length self.old.alarms }
        requires sups { length given.now.sups.now ≡ length self.old.alarms }
        requires moment { given.now.moment ≤ LAST_MOMENT }
        ensures bank { OnOk result
            (self.new
            ≡ record self.old {
              alarms = scan_each given.now.conds.now given.now.sups.now given.now.moment self.old.alarms;
              moment = given.now.moment;
            }) }
        ensures changes { IfOk result (λ changes. changes.items
            ≡ changes_from 0 self.old.alarms self.new.alarms) }
        ensures err { OnErr result (self.new ≡ self.old) }
    {
        let _ = &self.sites;
        let next = scanned(rt, alloc, self.alarms(), given)?;
        let Moves { moved, changes } = moves_of(alloc, self.alarms(), next.as_slice(), given)?;
        self.apply(moved.as_slice(), given.moment);
        Ok(changes)
    }

    /// Takes an event as `advance` does, and lists the changes of codes that it makes, in the order of the alarms. The alarms' steps of a scan
    /// are shared out among as many threads as there are processors. Fails if memory was refused; then the bank stays as it is.
    pub fn step_parallel<H: Threads + Sync>(
        &mut self,
        rt: &H,
        alloc: Global,
        event: &BankEvent,
    ) -> Result<Vec<(u32, Change)>, AllocError>
        ensures bank { OnOk result (self.new ≡ after_event event.now self.old) }
        ensures changes { IfOk result (λ changes. changes.items
            ≡ changes_from 0 self.old.alarms self.new.alarms) }
        ensures err { OnErr result (self.new ≡ self.old) }
    {
        match event {
            BankEvent::Scan {
                moment,
                conds,
                sups,
            } => {
                let count = self.alarms().len();
                let given = Given {
                    conds: conds.as_slice(),
                    sups: sups.as_slice(),
                    moment: *moment,
                };
                if given.conds.len() != count
                    || given.sups.len() != count
                    || *moment > LAST_MOMENT
                {
                    return Ok(Vec::new(alloc));
                }
                self.step_scan(rt, alloc, &given)
            }
            BankEvent::Order { alarm, verb } => {
                let changes = told(alloc, *alarm, self.reply(*alarm, *verb))?;
                self.advance(event);
                Ok(changes)
            }
            BankEvent::Reload(_) => Ok(Vec::new(alloc)),
        }
    }
}

//! A bank whose alarms are stepped by several threads (`alarm_bank`), beside one whose alarms the caller steps.

use alarm_bank::{Bank, BankEvent, Site};
use alarm_machine::{Alarm, Change, Code, Verb};
use plant_types::Items;
use std::alloc::{AllocError, Global};
use std::thread::Threads;
use try_text::Page;

/// A bank of so many alarms, none of which latches; each may be shelved for 5000 ms.
fn bank(alloc: Global, count: u32) -> Result<Bank, AllocError> {
    let site = Site {
        area: 0,
        priority: 2,
    };
    let sites = Vec::from_elem(alloc, site, count as usize)?;
    let alarms = Vec::from_elem(alloc, Alarm::new(false, 5000), count as usize)?;
    if sites.len() != alarms.len() || alarms.len() > 20_000 {
        return Err(AllocError);
    }
    Bank::new(alloc, 1, sites, alarms)
}

/// A truth for each of so many alarms, which is TRUE for each of so many; for none where that is 0.
fn truths_of(alloc: Global, count: u32, each: u32) -> Result<Items<bool>, AllocError> {
    let mut truths = Vec::new(alloc);
    for at in 0..count {
        truths.push(each > 0 && at % each == 0)?;
    }
    Ok(Items::from_vec(truths))
}

/// A scan of so many alarms, in which each of so many has its condition met, and each of so many is suppressed.
fn scan_of(
    alloc: Global,
    moment: u64,
    count: u32,
    met: u32,
    suppressed: u32,
) -> Result<BankEvent, AllocError> {
    let conds = truths_of(alloc, count, met)?;
    let sups = truths_of(alloc, count, suppressed)?;
    Ok(BankEvent::Scan {
        moment,
        conds,
        sups,
    })
}

fn codes_of(alloc: Global, bank: &Bank) -> Result<Vec<Code>, AllocError> {
    let mut codes = Vec::new(alloc);
    for alarm in bank.alarms() {
        codes.push(alarm.state().code())?;
    }
    Ok(codes)
}

/// Whether two changes are of the same codes.
fn same_change(one: Change, other: Change) -> bool {
    one.from().text() == other.from().text() && one.to().text() == other.to().text()
}

/// Whether the changes from these codes to those of a bank are the ones that are listed, in order.
fn are_listed(before: &[Code], bank: &Bank, listed: &[(u32, Change)]) -> bool {
    let mut rest = listed;
    for (at, alarm) in bank.alarms().iter().enumerate() {
        let from = before.get(at).copied().unwrap_or(Code::Norm);
        if let Some(change) = Change::between(from, alarm.state().code()) {
            let Some(((number, found), more)) = rest.split_first() else {
                return false;
            };
            if *number as usize != at || !same_change(*found, change) {
                return false;
            }
            rest = more;
        }
    }
    rest.is_empty()
}

fn same_alarm(one: &Alarm, other: &Alarm) -> bool {
    one.state().code().text() == other.state().code().text()
        && one.end().unwrap_or(0) == other.end().unwrap_or(0)
        && one.condition() == other.condition()
        && one.suppressed() == other.suppressed()
}

/// Whether two banks are alike: their alarms, their moment, their next end, and what their summaries count.
fn are_alike(one: &Bank, other: &Bank) -> bool {
    for (a, b) in one.alarms().iter().zip(other.alarms()) {
        if !same_alarm(a, b) {
            return false;
        }
    }
    let (ours, theirs) = (one.summary(), other.summary());
    one.moment() == other.moment()
        && one.next_end().unwrap_or(0) == other.next_end().unwrap_or(0)
        && ours.count(0, 2, Code::Unack) == theirs.count(0, 2, Code::Unack)
        && ours.count(0, 2, Code::Suppr) == theirs.count(0, 2, Code::Suppr)
}

/// Gives two banks the same event, one of them by several threads. Adds how many changes it listed, and whether these are the changes of
/// the other one, and the banks are alike.
fn push_stepped<H: Threads + Sync>(
    rt: &H,
    alloc: Global,
    page: &mut Page,
    banks: &mut (Bank, Bank),
    event: &BankEvent,
) -> Result<(), AllocError> {
    let (shared, own) = banks;
    let before = codes_of(alloc, own)?;
    let listed = shared.step_parallel(rt, alloc, event)?;
    own.advance(event);
    page.number(listed.len() as i128);
    let same = are_listed(before.as_slice(), own, listed.as_slice()) && are_alike(shared, own);
    page.word(if same { "alike" } else { "otherwise" });
    Ok(())
}

/// The same of a scan: its moment, of how many alarms it is, and how many of them have their condition met, and are suppressed.
fn push_scanned<H: Threads + Sync>(
    rt: &H,
    alloc: Global,
    page: &mut Page,
    banks: &mut (Bank, Bank),
    scan: (u64, u32, u32, u32),
) -> Result<(), AllocError> {
    let (moment, count, met, suppressed) = scan;
    let event = scan_of(alloc, moment, count, met, suppressed)?;
    push_stepped(rt, alloc, page, banks, &event)
}

/// The same of an order.
fn push_ordered<H: Threads + Sync>(
    rt: &H,
    alloc: Global,
    page: &mut Page,
    banks: &mut (Bank, Bank),
    order: (u32, Verb),
) -> Result<(), AllocError> {
    let (alarm, verb) = order;
    push_stepped(rt, alloc, page, banks, &BankEvent::Order { alarm, verb })
}

/// Gives two banks of so many alarms the same events: scans, and orders to alarms.
fn push_all_stepped<H: Threads + Sync>(
    rt: &H,
    alloc: Global,
    page: &mut Page,
    banks: &mut (Bank, Bank),
    count: u32,
) -> Result<(), AllocError> {
    push_scanned(rt, alloc, page, banks, (10, count, 3, 0))?;
    for order in [(0, Verb::Ack), (1, Verb::Ack), (3, Verb::Shelve(5000))] {
        push_ordered(rt, alloc, page, banks, order)?;
    }
    push_scanned(rt, alloc, page, banks, (20, count, 3, 2))?;
    push_scanned(rt, alloc, page, banks, (30, 3, 1, 1))?;
    push_scanned(rt, alloc, page, banks, (5010, count, 0, 0))
}

/// Shows two banks of so many alarms, of which one is stepped by several threads, after each of some events.
pub fn push_shared<H: Threads + Sync>(rt: &H, alloc: Global, page: &mut Page, count: u32) {
    let (Ok(shared), Ok(own)) = (bank(alloc, count), bank(alloc, count)) else {
        return page.refuse();
    };
    let mut banks = (shared, own);
    if push_all_stepped(rt, alloc, page, &mut banks, count).is_err() {
        page.refuse();
    }
}

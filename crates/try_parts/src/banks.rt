//! The alarms of a bank (`alarm_bank`): what an order would be answered, which events it takes, when the next shelf ends, and which reloads an annunciator takes.

use crate::alarms::verb_of;
use crate::printing::{number_of, parts_of};
use alarm_bank::{Annunciator, Bank, BankEvent, NewAlarm, Site};
use alarm_machine::{Alarm, Change, OrderFault, Verb};
use plant_types::Items;
use std::alloc::{AllocError, Global};
use try_text::Page;

/// A bank of three alarms before its first scan, of which the second one latches; each may be shelved for 5000 ms.
fn bank(alloc: Global) -> Result<Bank, AllocError> {
    let site = Site {
        area: 0,
        priority: 2,
    };
    let sites = Vec::from_slice(alloc, [site, site, site].as_slice())?;
    let (plain, latching) = (Alarm::new(false, 5000), Alarm::new(true, 5000));
    let alarms = Vec::from_slice(alloc, [plain, latching, plain].as_slice())?;
    Bank::new(alloc, 1, sites, alarms)
}

/// A truth for each character of a word, which is TRUE for a 1.
fn truths_of(alloc: Global, word: &str) -> Result<Items<bool>, AllocError> {
    let mut truths = Vec::new(alloc);
    for byte in word.as_bytes() {
        truths.push(*byte == b'1')?;
    }
    Ok(Items::from_vec(truths))
}

/// A scan, as a word spells it: the moment, the conditions and the suppressions.
fn scan_of(alloc: Global, word: &str) -> Result<BankEvent, AllocError> {
    let (moment, given) = parts_of(word, "/");
    let (conditions, suppressions) = parts_of(given, "/");
    let sups = truths_of(alloc, suppressions)?;
    let conds = truths_of(alloc, conditions)?;
    Ok(BankEvent::Scan {
        moment: number_of(moment),
        conds,
        sups,
    })
}

/// An order, as a word spells it: the verb and the alarm's number.
fn order_of(word: &str) -> BankEvent {
    let (verb, alarm) = parts_of(word, ":");
    BankEvent::Order {
        alarm: alarm.parse::<u32>().unwrap_or(0),
        verb: verb_of(verb),
    }
}

/// New alarms as a word spells them, parted by points: each keeps the state of the old alarm of its number, or none for `-`. None latches, and each may be
/// shelved for 5000 ms.
fn reload_of(alloc: Global, word: &str) -> Result<BankEvent, AllocError> {
    let mut news = Vec::new(alloc);
    for part in word.split(".") {
        news.push(NewAlarm {
            site: Site {
                area: 0,
                priority: 2,
            },
            latching: false,
            max_shelve_ms: 5000,
            kept: part.parse::<u32>().ok(),
        })?;
    }
    Ok(BankEvent::Reload(Items::from_vec(news)))
}

fn event_of(alloc: Global, word: &str) -> Result<BankEvent, AllocError> {
    if let Some(reload) = word.strip_prefix("reload/") {
        return reload_of(alloc, reload);
    }
    match word.strip_prefix("scan/") {
        Some(scan) => scan_of(alloc, scan),
        None => Ok(order_of(word)),
    }
}

/// Gives a bank the event of a word, and shows it then.
fn push_advanced(alloc: Global, page: &mut Page, bank: &mut Bank, word: &str) {
    match event_of(alloc, word) {
        Ok(event) => bank.advance(&event),
        Err(_) => page.refuse(),
    }
    push_seen(page, bank);
}

/// The code to which an order would bring an alarm, `-` where it would keep its code; or the refusal.
fn told(reply: Result<Option<Change>, OrderFault>) -> &'static str {
    match reply {
        Ok(Some(change)) => change.to().text(),
        Ok(None) => "-",
        Err(fault) => fault.text(),
    }
}

/// The orders whose answers are shown.
const ORDERS: &str = "ack reset shelve=5000 shelve=5001 unshelve remove return restart";

/// Adds what the three alarms, and one that isn't there, would answer to orders, each in a line.
fn push_replies(page: &mut Page, bank: &Bank) {
    for alarm in 0..4 {
        page.add("\n");
        for word in ORDERS.split(" ") {
            page.word(told(bank.reply(alarm, verb_of(word))));
        }
    }
}

/// Adds a bank's moment, its next end and what its first alarm would answer to ack.
fn push_seen(page: &mut Page, bank: &Bank) {
    page.add("\n");
    page.number(i128::from(bank.moment()));
    match bank.next_end() {
        Some(end) => page.number(i128::from(end)),
        None => page.add(" -"),
    }
    page.word(told(bank.reply(0, Verb::Ack)));
}

/// Shows a lent bank at first and after each event of the words; for the word `replies` it shows all replies.
fn push_shown(alloc: Global, page: &mut Page, bank: &mut Bank, words: &str) {
    push_seen(page, bank);
    for word in words.split(" ") {
        if word == "replies" {
            push_replies(page, bank);
        } else {
            push_advanced(alloc, page, bank, word);
        }
    }
}

/// Shows a bank at first and after each event of the words. It is let go here alone.
pub fn push_bank(alloc: Global, page: &mut Page, words: &str) {
    match bank(alloc) {
        Ok(mut bank) => {
            push_shown(alloc, page, &mut bank, words);
            drop(bank);
        }
        Err(_) => page.refuse(),
    }
}

/// The alarms of that bank, and a place more.
fn panel(alloc: Global) -> Result<Annunciator, AllocError> {
    let bank = bank(alloc)?;
    let places = bank.alarms().len() + 1;
    Annunciator::of(alloc, &bank, places)
}

/// Adds an annunciator's moment and the states of its alarms.
fn push_states(page: &mut Page, panel: &Annunciator) {
    page.add("\n");
    page.number(i128::from(panel.moment()));
    for alarm in panel.alarms() {
        page.word(alarm.state().code().text());
    }
}

/// Shows the bank's alarms in four places at first and after each event of the words.
pub fn push_panel(alloc: Global, page: &mut Page, words: &str) {
    let Ok(mut panel) = panel(alloc) else {
        return page.refuse();
    };
    push_states(page, &panel);
    for word in words.split(" ") {
        match event_of(alloc, word) {
            Ok(event) => panel.advance(&event),
            Err(_) => page.refuse(),
        }
        push_states(page, &panel);
    }
}

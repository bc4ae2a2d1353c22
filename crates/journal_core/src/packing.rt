//! A row in one word: the change of an alarm's code with its alarm and its moment, or the place of a row that is kept apart.
//!
//! A plant has at most 20,000 alarms, numbered from 0, no scan is after `LAST_MOMENT`, and there are 81 pairs of codes: so the words of changes stay
//! below `FIRST_APART`.

ghost use Rattle.std.specs.Prelude.{◌≡◌, ◌≤◌, ◌<◌, ◌↔◌, ◌^◌, IfSome, IsSome};
ghost use Rattle.alarm_machine.specs.declared.limits.TheConstants.{LAST_MOMENT};
ghost use Rattle.journal_core.specs.declared.packing.TheConstants.{ALARMS};
ghost use Rattle.journal_core.specs.declared.packing.KeptRow.TheVariants as kept;
ghost use Rattle.journal_core.specs.Kept.{code_at, change_at, unpacked};

use alarm_machine::{Change, Code, LAST_MOMENT};

/// How many codes there are.
const CODES: u64 = 9;

/// How many pairs of codes there are.
const PAIRS: u64 = 81;

/// The first number of an alarm that a word doesn't hold.
const ALARMS: u64 = 20_000;

/// The first word that is the place of a row that is kept apart.
const FIRST_APART: u64 = 9_223_372_036_854_775_808;

/// What a word stands for. The change of an alarm's code stands in it, and of another row the place in the list apart.
#[derive(Clone, Copy, Drop)]
pub(crate) enum KeptRow {
    Alarm {
        change: Change,
        alarm: u32,
        moment: u64,
    },
    Apart(usize),
}

/// The code of a number, from 0 for NORM to 8 for OOS.
fn code_at(number: u64) -> Code
    ensures { result ≡ code_at number }
{
    match number {
        0 => Code::Norm,
        1 => Code::Unack,
        2 => Code::Acked,
        3 => Code::Rtnun,
        4 => Code::Latun,
        5 => Code::Latak,
        6 => Code::Shelved,
        7 => Code::Suppr,
        _ => Code::Oos,
    }
}

/// The change of a pair of codes by its number; `None` for the pair of one code twice.
fn change_at(pair: u64) -> Option<Change>
    ensures { result ≡ change_at pair }
{
    Change::between(code_at(pair / CODES), code_at(pair % CODES))
}

/// The word of an alarm's change; `None` if the moment or the alarm's number is above what a word holds.
pub(crate) fn packed(change: Change, alarm: u32, moment: u64) -> Option<u64>
    ensures row { IfSome result (λ word. unpacked word ≡ kept.Alarm change alarm moment) }
    ensures fits { IsSome result ↔ ((moment ≤ LAST_MOMENT) × (alarm < ALARMS)) }
{
    let alarm = u64::from(alarm);
    if moment > LAST_MOMENT || alarm >= ALARMS {
        return None;
    }
    let pair = u64::from(change.from().rank()) * CODES + u64::from(change.to().rank());
    Some((moment * ALARMS + alarm) * PAIRS + pair)
}

/// The word of a row that is kept apart, by its place.
pub(crate) fn apart_word(place: usize) -> u64
    requires { place < 2 ^ 63 }
    ensures { unpacked result ≡ kept.Apart place }
{
    FIRST_APART + place as u64
}

pub(crate) fn unpacked(word: u64) -> KeptRow
    ensures { result ≡ unpacked word }
{
    if word >= FIRST_APART {
        return KeptRow::Apart((word - FIRST_APART) as usize);
    }
    match change_at(word % PAIRS) {
        Some(change) => KeptRow::Alarm {
            change,
            alarm: (word / PAIRS % ALARMS) as u32,
            moment: word / PAIRS / ALARMS,
        },
        None => KeptRow::Apart(word as usize),
    }
}

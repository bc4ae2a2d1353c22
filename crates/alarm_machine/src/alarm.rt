ghost use Rattle.std.specs.Prelude.{◌≡◌, ◌≤◌, ◌↔◌, IsTrue, IfOk, true};
ghost use Rattle.alarm_machine.specs.Codes.{code_of, change_between};
ghost use Rattle.alarm_machine.specs.Transitions.{resume, on_scan};
ghost use Rattle.alarm_machine.specs.Alarms.{IsAlarm, new_alarm, keeping, after_scan, after_order, on_order, end_of, is_settled, AnswersOrder, EndsInRange};
ghost use Rattle.alarm_machine.specs.Kept.{kept_end};
ghost use Rattle.alarm_machine.specs.declared.limits.TheConstants.{LAST_MOMENT, LONGEST_SHELVE_MS};

use crate::change::Change;
use crate::states::{AlarmState, Code, OrderFault, Verb};
use std::marker::Model;

/// One alarm: whether it latches, its longest shelving, its state, and the condition and suppression of the last scan.
// The state is kept as its code and the end of its shelf, which is 0 where the alarm isn't shelved, and the longest shelving in 32 bits; the fields stand in
// this order. So an alarm takes 16 bytes: a plant has many.
#[derive(Clone, Copy, PartialEq, Eq, Drop)]
pub struct Alarm {
    end: u64,
    max_shelve_ms: u32,
    code: Code,
    latching: bool,
    condition: bool,
    suppressed: bool,
}

impl Model for Alarm {
    ghost use Rattle.std.specs.Prelude.{◌≡◌};
    ghost use Rattle.alarm_machine.specs.Codes.{code_of};
    ghost use Rattle.alarm_machine.specs.Alarms.{PlainAlarm, IsAlarm};
    ghost use Rattle.alarm_machine.specs.Kept.{state_of, kept_end, code_back};

    ghost Value = { PlainAlarm };

    ghost view = { λ a. record { latching = a.latching; max_shelve_ms = a.max_shelve_ms; state = state_of a.code a.end; condition = a.condition; suppressed = a.suppressed } };

    ghost invariant = { λ a. IsAlarm (record { latching = a.latching; max_shelve_ms = a.max_shelve_ms; state = state_of a.code a.end; condition = a.condition; suppressed = a.suppressed }) × (kept_end (state_of a.code a.end) ≡ a.end) };

    ghost inverse = { λ a. record { end = kept_end a.state; max_shelve_ms = a.max_shelve_ms; code = code_of a.state; latching = a.latching; condition = a.condition; suppressed = a.suppressed } };

    ghost inverse_ok = { λ a h. λ i. record { end = h.1 i; max_shelve_ms = a.max_shelve_ms; code = code_back a.code a.end i; latching = a.latching; condition = a.condition; suppressed = a.suppressed } };
}

/// The end of a state's shelf; 0 where it has none.
fn kept_end(state: AlarmState) -> u64
    ensures { result ≡ kept_end state }
{
    match state {
        AlarmState::Shelved(end) => end,
        _ => 0,
    }
}

/// The state of an alarm that is no longer shelved, suppressed or out of service.
fn resume(condition: bool, suppressed: bool) -> AlarmState
    ensures { result ≡ resume condition suppressed }
{
    if suppressed {
        AlarmState::Suppr
    } else if condition {
        AlarmState::Unack
    } else {
        AlarmState::Norm
    }
}

/// The state of an alarm after a scan, by the table of transitions.
fn on_scan(
    latching: bool,
    state: AlarmState,
    condition: bool,
    suppressed: bool,
    moment: u64,
) -> AlarmState
    ensures { result ≡ on_scan latching state condition suppressed moment }
{
    match state {
        AlarmState::Oos => AlarmState::Oos,
        AlarmState::Shelved(end) if moment < end => AlarmState::Shelved(end),
        AlarmState::Shelved(_) | AlarmState::Suppr => resume(condition, suppressed),
        _ if suppressed => AlarmState::Suppr,
        AlarmState::Acked if condition => AlarmState::Acked,
        _ if condition => AlarmState::Unack,
        AlarmState::Unack if latching => AlarmState::Latun,
        AlarmState::Unack => AlarmState::Rtnun,
        AlarmState::Acked if latching => AlarmState::Latak,
        AlarmState::Acked | AlarmState::Norm => AlarmState::Norm,
        AlarmState::Rtnun | AlarmState::Latun | AlarmState::Latak => state,
    }
}

impl Alarm {
    /// Makes an alarm before its first scan: it is normal, its last condition and suppression are FALSE.
    /// `max_shelve_ms` is its longest shelving in milliseconds, at most 30 days; at 0 it can't be shelved.
    pub fn new(latching: bool, max_shelve_ms: u64) -> Alarm
        requires { max_shelve_ms ≤ LONGEST_SHELVE_MS }
        ensures { result ≡ new_alarm latching max_shelve_ms }
    {
        Alarm {
            end: 0,
            max_shelve_ms: max_shelve_ms as u32,
            code: Code::Norm,
            latching,
            condition: false,
            suppressed: false,
        }
    }

    /// This alarm with what another one has: the state with the end of its shelf, and the condition and suppression of the last scan.
    /// Whether it latches and its longest shelving stay its own.
    pub fn keeping(&self, old: &Alarm) -> Alarm
        ensures { result ≡ keeping old.now self.now }
    {
        Alarm {
            end: old.end,
            max_shelve_ms: self.max_shelve_ms,
            code: old.code,
            latching: self.latching,
            condition: old.condition,
            suppressed: old.suppressed,
        }
    }

    /// The state.
    pub fn state(&self) -> AlarmState
        ensures { result ≡ self.now.state }
    {
        match self.code {
            Code::Norm => AlarmState::Norm,
            Code::Unack => AlarmState::Unack,
            Code::Acked => AlarmState::Acked,
            Code::Rtnun => AlarmState::Rtnun,
            Code::Latun => AlarmState::Latun,
            Code::Latak => AlarmState::Latak,
            Code::Shelved => AlarmState::Shelved(self.end),
            Code::Suppr => AlarmState::Suppr,
            Code::Oos => AlarmState::Oos,
        }
    }

    /// Whether the alarm stays latched after its condition has gone, until it is reset.
    pub fn latching(&self) -> bool
        ensures { result ≡ self.now.latching }
    {
        self.latching
    }

    /// The longest time for which the alarm may be shelved, in milliseconds.
    pub fn max_shelve_ms(&self) -> u64
        ensures time { result ≡ self.now.max_shelve_ms }
        ensures in_range { result ≤ LONGEST_SHELVE_MS }
    {
        u64::from(self.max_shelve_ms)
    }

    /// The condition of the last scan, FALSE before the first.
    pub fn condition(&self) -> bool
        ensures { result ≡ self.now.condition }
    {
        self.condition
    }

    /// The suppression of the last scan, FALSE before the first.
    pub fn suppressed(&self) -> bool
        ensures { result ≡ self.now.suppressed }
    {
        self.suppressed
    }

    /// The moment at which the shelf ends, in milliseconds; `None` unless the alarm is shelved. The state is one that a scan with the last
    /// condition and suppression can leave.
    pub fn end(&self) -> Option<u64>
        ensures end { result ≡ end_of self.now.state }
        ensures in_range { EndsInRange self.now.state }
        ensures settled { is_settled self.now.state self.now.condition self.now.suppressed ≡ true }
    {
        match self.code {
            Code::Shelved => Some(self.end),
            _ => None,
        }
    }

    /// Whether a scan would change nothing of the alarm: its condition and suppression are those of the last scan, and no shelf ends.
    pub fn rests(&self, condition: bool, suppressed: bool, moment: u64) -> bool
        ensures { IsTrue result ↔ (after_scan condition suppressed moment self.now ≡ self.now) }
    {
        let shelf_ends = match self.code {
            Code::Shelved => self.end <= moment,
            _ => false,
        };
        self.condition == condition && self.suppressed == suppressed && !shelf_ends
    }

    /// Takes a state, with the condition and the suppression of a scan.
    #[tactic(auto, using(crate::proofs::Kept::state_back))]
    fn put(&mut self, state: AlarmState, condition: bool, suppressed: bool)
        requires { IsAlarm
            (record {
              latching = self.old.latching;
              max_shelve_ms = self.old.max_shelve_ms;
              state = state;
              condition = condition;
              suppressed = suppressed;
            }) }
        ensures { self.new
            ≡ record {
              latching = self.old.latching;
              max_shelve_ms = self.old.max_shelve_ms;
              state = state;
              condition = condition;
              suppressed = suppressed;
            } }
    {
        self.code = state.code();
        self.end = kept_end(state);
        self.condition = condition;
        self.suppressed = suppressed;
    }

    /// Takes a scan at a moment in milliseconds, with the alarm's condition and suppression after the scan's programs.
    /// Returns the change of the alarm's code, if there is one.
    pub fn scan(&mut self, condition: bool, suppressed: bool, moment: u64) -> Option<Change>
        ensures alarm { self.new ≡ after_scan condition suppressed moment self.old }
        ensures change { result ≡ change_between (code_of self.old.state) (code_of self.new.state) }
    {
        let before = self.code;
        let state = on_scan(self.latching, self.state(), condition, suppressed, moment);
        self.put(state, condition, suppressed);
        Change::between(before, state.code())
    }

    /// The state after an order, or the order's refusal.
    fn on_order(&self, verb: Verb, last: u64) -> Result<AlarmState, OrderFault>
        requires { last ≤ LAST_MOMENT }
        ensures state { result ≡ on_order verb last self.now }
        ensures stays { IfOk result (λ s. EndsInRange s
            × (is_settled s self.now.condition self.now.suppressed ≡ true)) }
    {
        match (verb, self.state()) {
            (Verb::Ack, AlarmState::Unack) => Ok(AlarmState::Acked),
            (Verb::Ack, AlarmState::Rtnun) => Ok(AlarmState::Norm),
            (Verb::Ack, AlarmState::Latun) => Ok(AlarmState::Latak),
            (Verb::Reset, AlarmState::Latak) => Ok(AlarmState::Norm),
            (Verb::Shelve(_), AlarmState::Suppr | AlarmState::Oos) => Err(OrderFault::WrongState),
            (Verb::Shelve(time), _) => {
                if 1 <= time && time <= u64::from(self.max_shelve_ms) {
                    Ok(AlarmState::Shelved(last + time))
                } else {
                    Err(OrderFault::ShelveTime)
                }
            }
            (Verb::Unshelve, AlarmState::Shelved(_)) | (Verb::PutBack, AlarmState::Oos) => {
                Ok(resume(self.condition, self.suppressed))
            }
            (Verb::Remove, AlarmState::Oos) => Err(OrderFault::WrongState),
            (Verb::Remove, _) => Ok(AlarmState::Oos),
            _ => Err(OrderFault::WrongState),
        }
    }

    /// Takes an operator's order; `last` is the moment of the last scan in milliseconds, 0 before the first.
    /// Returns the change of the alarm's code, if there is one: a second shelving moves the shelf's end and changes no code.
    /// Fails with `WrongState` (O3) where the state doesn't take the order, else with `ShelveTime` (O4) where the time is out of range, and then changes nothing.
    pub fn order(&mut self, verb: Verb, last: u64) -> Result<Option<Change>, OrderFault>
        requires { last ≤ LAST_MOMENT }
        ensures { AnswersOrder (after_order verb last self.old) self.old self.new result }
    {
        let state = self.on_order(verb, last)?;
        let before = self.code;
        self.code = state.code();
        self.end = kept_end(state);
        Ok(Change::between(before, state.code()))
    }
}

ghost use Rattle.std.specs.Prelude.{◌≡◌, [], ◌∷◌, List};
ghost use Rattle.std_blocks.specs.Calls.{Call, call};
ghost use Rattle.std_blocks.specs.Timers.{ton};
ghost use Rattle.std_blocks.specs.States.{ton_state, ton_step, ton_shown};

use crate::preset::preset;
use std::marker::Model;

/// The state of an on-delay timer (IEC 61131-3's TON): when the present run of calls with IN TRUE began, if there is one.
#[derive(Clone, Copy, PartialEq, Eq, Drop)]
pub struct TonState {
    start: Option<u64>,
}

impl Model for TonState {
    ghost use Rattle.std_blocks.specs.States.{PlainTonState};

    ghost Value = { PlainTonState };

    ghost view = { λ s. record { start = s.start } };

    ghost inverse = { λ s. record { start = s.start } };
}

impl TonState {
    /// The state before the first call. Q is FALSE and ET 0 until then.
    pub fn new() -> TonState
        ensures { result ≡ ton_state [] }
    {
        TonState { start: None }
    }

    /// Calls the timer with IN and PT at a moment, and returns Q and ET (PT, ET and the moment in milliseconds). A PT below 0 counts
    /// as 0. Moments don't go back from call to call; where one does, no time has passed.
    pub fn call(&mut self, input: bool, pt: i64, moment: u64) -> (bool, i64)
        ensures step { self.new ≡ ton_step (call input pt moment) self.old }
        ensures shown { (result.0, result.1) ≡ ton_shown (call input pt moment) self.old }
        ensures outputs { (calls : List Call) → self.old ≡ ton_state calls
            → (result.0, result.1) ≡ ton (call input pt moment ∷ calls) }
        ensures state { (calls : List Call) → self.old ≡ ton_state calls
            → self.new ≡ ton_state (call input pt moment ∷ calls) }
    {
        if !input {
            self.start = None;
            return (false, 0);
        }
        let start = self.start.unwrap_or(moment);
        self.start = Some(start);
        let limit = preset(pt);
        let elapsed = moment.saturating_sub(start);
        if elapsed >= limit {
            (true, limit as i64)
        } else {
            (false, elapsed as i64)
        }
    }
}

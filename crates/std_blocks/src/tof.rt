ghost use Rattle.std.specs.Prelude.{◌≡◌, [], ◌∷◌, List};
ghost use Rattle.std_blocks.specs.Calls.{Call, call};
ghost use Rattle.std_blocks.specs.Timers.{tof};
ghost use Rattle.std_blocks.specs.States.{tof_state, tof_step, tof_shown};

use crate::preset::preset;
use std::marker::Model;

/// What an off-delay timer has seen of IN.
#[derive(Clone, Copy, PartialEq, Eq, Drop)]
pub enum Fall {
    /// IN was never TRUE.
    Never,
    /// IN was TRUE in the last call.
    On,
    /// IN was TRUE once, and is FALSE since the call at this moment.
    Since(u64),
}

/// The state of an off-delay timer (IEC 61131-3's TOF).
#[derive(Clone, Copy, PartialEq, Eq, Drop)]
pub struct TofState {
    fall: Fall,
}

impl Model for TofState {
    ghost use Rattle.std_blocks.specs.States.{PlainTofState};

    ghost Value = { PlainTofState };

    ghost view = { λ s. record { fall = s.fall } };

    ghost inverse = { λ s. record { fall = s.fall } };
}

impl TofState {
    /// The state before the first call. Q is FALSE and ET 0 until a call has IN TRUE (this profile).
    pub fn new() -> TofState
        ensures { result ≡ tof_state [] }
    {
        TofState { fall: Fall::Never }
    }

    /// Calls the timer with IN and PT at a moment, and returns Q and ET (PT, ET and the moment in milliseconds). A PT below 0 counts
    /// as 0. Moments don't go back from call to call; where one does, no time has passed.
    pub fn call(&mut self, input: bool, pt: i64, moment: u64) -> (bool, i64)
        ensures step { self.new ≡ tof_step (call input pt moment) self.old }
        ensures shown { (result.0, result.1) ≡ tof_shown (call input pt moment) self.old }
        ensures outputs { (calls : List Call) → self.old ≡ tof_state calls
            → (result.0, result.1) ≡ tof (call input pt moment ∷ calls) }
        ensures state { (calls : List Call) → self.old ≡ tof_state calls
            → self.new ≡ tof_state (call input pt moment ∷ calls) }
    {
        if input {
            self.fall = Fall::On;
            return (true, 0);
        }
        let since = match self.fall {
            Fall::Never => return (false, 0),
            Fall::On => moment,
            Fall::Since(since) => since,
        };
        self.fall = Fall::Since(since);
        let limit = preset(pt);
        let elapsed = moment.saturating_sub(since);
        if elapsed < limit {
            (true, elapsed as i64)
        } else {
            (false, limit as i64)
        }
    }
}

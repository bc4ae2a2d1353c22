//! Since when a condition has been met, in few bytes.

ghost use Rattle.std.specs.Prelude.{◌≡◌, ◌≤◌, None};
ghost use Rattle.alarm_machine.specs.declared.limits.TheConstants.{LAST_MOMENT};
ghost use Rattle.alarm_delays.specs.Delays.{since_after};

use std::marker::Model;

/// Since when a condition has been met, in milliseconds, if it is. Contracts see that moment.
// A plant has one for each alarm, and a scan goes over those of all alarms that it moves: so it takes 8 bytes, and not the 16 of an option.
#[derive(Clone, Copy, Drop)]
pub(crate) struct Since {
    /// 0 where the condition isn't met; else 1 more than the moment.
    past: u64,
}

impl Model for Since {
    ghost use Rattle.std.specs.Prelude.{ℕ, Option};
    ghost use Rattle.alarm_delays.specs.Since.{start_in, past_start, past_back};

    ghost Value = { Option ℕ };

    ghost view = { λ s. start_in s.past };

    ghost inverse = { λ start. record { past = past_start start } };

    ghost inverse_ok = { λ s h. λ i. record { past = past_back s.past i } };
}

impl Since {
    /// Not met.
    pub(crate) fn never() -> Since
        ensures { result ≡ None }
    {
        Since { past: 0 }
    }

    /// Since when the condition has been met, if it is.
    pub(crate) fn start(self) -> Option<u64>
        ensures { result ≡ self }
    {
        if self.past == 0 {
            return None;
        }
        Some(self.past - 1)
    }

    /// Since when it has been met after a scan at a moment.
    pub(crate) fn after(self, condition: bool, moment: u64) -> Since
        requires { moment ≤ LAST_MOMENT }
        ensures { result ≡ since_after condition moment self }
    {
        if !condition {
            return Since { past: 0 };
        }
        if self.past == 0 {
            return Since { past: moment + 1 };
        }
        self
    }
}

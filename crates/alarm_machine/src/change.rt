ghost use Rattle.std.specs.Prelude.{◌≡◌, ◌==◌, false};
ghost use Rattle.alarm_machine.specs.Codes.{change_between, same_code};

use crate::states::Code;
use std::marker::Model;

/// A change of an alarm's code: two codes that differ.
#[derive(Clone, Copy, Drop)]
pub struct Change {
    from: Code,
    to: Code,
}

impl Model for Change {
    ghost use Rattle.std.specs.Prelude.{◌≡◌, false};
    ghost use Rattle.alarm_machine.specs.Codes.{PlainChange, same_code};

    ghost Value = { PlainChange };

    ghost view = { λ c. record { from = c.from; to = c.to } };

    ghost invariant = { λ c. same_code c.from c.to ≡ false };

    ghost inverse = { λ m. record { from = m.from; to = m.to } };
}

impl Change {
    /// The change from one code to another; `None` if they are the same.
    pub fn between(from: Code, to: Code) -> Option<Change>
        ensures { result ≡ change_between from to }
    {
        if from.rank() == to.rank() {
            None
        } else {
            Some(Change { from, to })
        }
    }

    /// The code before.
    pub fn from(self) -> Code
        ensures code { result ≡ self.from }
        ensures differs { same_code self.from self.to ≡ false }
    {
        self.from
    }

    /// The code after.
    pub fn to(self) -> Code
        ensures code { result ≡ self.to }
        ensures differs { same_code self.from self.to ≡ false }
    {
        self.to
    }
}

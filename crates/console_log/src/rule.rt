//! The rule of a log: its word is the number of its entries.

use base_trace::Remembered;
use logbook::{Gain, Plain, Play, Rule};

/// The rule between any two steps.
pub struct Counts;

impl<E> Rule<E, u64> for Counts {
    ghost use Rattle.std.specs.Prelude.{[]};
    ghost use base.Fml.{ftrue};
    ghost use Rattle.console_log.specs.Rules.{IsCounted};

    ghost holds = { λ cells log. IsCounted cells log };

    ghost first = { [] };

    ghost hinted = { λ n log. Unit {0} };

    ghost shows = { λ log. [] };

    ghost keeps = { λ names log. ftrue };

    ghost moves = { λ ask before after answer. Unit {0} };
}

/// Nothing is traded.
pub(crate) struct Nothing;

impl<E> Gain<E, u64> for Nothing {
    ghost use base.Fml.{ftrue};

    ghost after = { λ names about answer. ftrue };
}

/// The step that adds an entry.
pub(crate) struct Adds;

impl<E> Play<E, u64> for Adds {
    ghost use Rattle.console_log.specs.Rules.{Adds};

    ghost then = { Adds };
}

/// What the step adds.
impl<E> Plain<Remembered<E>, E, u64> for Adds {
    ghost use Rattle.std.specs.Prelude.{None};

    ghost ask = { λ entry. entry.value };

    ghost state = { λ entry. None };
}

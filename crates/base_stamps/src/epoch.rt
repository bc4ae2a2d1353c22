//! The moment from which a plant's time counts, and the civil times of moments after it.

ghost use Rattle.std.specs.Prelude.{◌≡◌, ◌≢◌, ◌<◌, ◌≤◌, ℕ, IfOk, IfSome, IsNone, string_bytes};
ghost use Rattle.base_stamps.specs.Stamps.{epoch_bound, epoch_text, stamp};

use crate::instant::{instant_of, seconds_of};
use jiff::Timestamp;
use jiff::fmt::temporal::DateTimePrinter;
use std::alloc::{AllocError, Global};
use std::marker::Model;

/// A whole second of the years 1970 to 2399, in UTC. Contracts see the seconds since 1970-01-01T00:00:00Z.
#[derive(Clone, Copy, Drop)]
pub struct Epoch {
    seconds: u64,
}

impl Model for Epoch {
    ghost use Rattle.std.specs.Prelude.{ℕ, ◌<◌};
    ghost use Rattle.base_stamps.specs.Stamps.{epoch_bound};

    ghost Value = { ℕ };

    ghost view = { λ e. e.seconds };

    ghost invariant = { λ e. e.seconds < epoch_bound };

    ghost inverse = { λ s. record { seconds = s } };
}

impl Epoch {
    /// Parses an epoch: exactly `YYYY-MM-DDTHH:MM:SSZ` (ISO 8601), a date of the Gregorian calendar of the years 1970 to 2399, hours to
    /// 23, minutes and seconds to 59. `None` for any other text.
    pub fn read(text: &str) -> Option<Epoch>
        ensures some { IfSome result (λ epoch. text.now ≡ epoch_text epoch) }
        ensures none { IsNone result → (seconds : ℕ) → seconds < epoch_bound
            → text.now ≢ epoch_text seconds }
    {
        let instant = instant_of(text)?;
        let seconds = seconds_of(instant)?;
        Some(Epoch { seconds })
    }

    /// The seconds since 1970-01-01T00:00:00Z, without leap seconds.
    pub fn seconds(&self) -> u64
        ensures seconds { result ≡ self.now }
        ensures small { result < epoch_bound }
    {
        self.seconds
    }

    /// The stamp of a moment in milliseconds after the epoch, as `2024-03-01T00:00:00.000Z` (ISO 8601).
    pub fn stamp(&self, alloc: Global, moment: u64) -> Result<String, AllocError>
        requires { moment ≤ 4_000_000_000_000 }
        ensures { IfOk result (λ text. string_bytes text ≡ stamp self.now moment) }
    {
        let milliseconds = self.seconds * 1000 + moment;
        let instant = Timestamp::from_millisecond(milliseconds as i64).unwrap();
        let printer = DateTimePrinter::new().precision(Some(3));
        let text = printer.timestamp_text(instant.to_plain());
        String::from_str(alloc, text.as_str())
    }
}

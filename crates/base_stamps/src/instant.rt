//! Instants and their texts, as the calendar library reads and prints them.

ghost use Rattle.std.specs.Prelude.{◌≡◌, ◌≢◌, ◌<◌, ◌*◌, IfSome, IsNone, ℕ, pos};
ghost use Rattle.jiff.specs.Types.{Timestamp as PlainTimestamp};
ghost use Rattle.base_stamps.specs.Instants.{IsInstantText};
ghost use Rattle.base_stamps.specs.Stamps.{epoch_bound};

use arrayvec::ArrayString;
use jiff::Timestamp;
use jiff::fmt::temporal::DateTimePrinter;

fn instant_text(instant: Timestamp) -> ArrayString<33>
    ensures { IsInstantText result.bytes instant }
{
    DateTimePrinter::new().timestamp_text(instant.to_plain())
}

/// The instant of which a text is the text; `None` if there is none.
pub fn instant_of(text: &str) -> Option<Timestamp>
    ensures some { IfSome result (IsInstantText text.now) }
    ensures none { IsNone result → (instant : PlainTimestamp) → ¬ (IsInstantText text.now instant) }
{
    let Ok(instant) = text.parse::<Timestamp>() else {
        return None;
    };
    let printed = instant_text(instant);
    if printed.as_str() == text {
        Some(instant)
    } else {
        None
    }
}

/// The whole seconds since 1970 of an instant of the years 1970 to 2399; `None` for any other, and for one between two seconds.
pub fn seconds_of(instant: Timestamp) -> Option<u64>
    ensures some { IfSome result (λ s. (instant.nanosecond ≡ pos (s * 1_000_000_000))
        × (s < epoch_bound)) }
    ensures none { IsNone result → (s : ℕ) → s < epoch_bound
        → instant.nanosecond ≢ pos (s * 1_000_000_000) }
{
    let nanoseconds = instant.as_nanosecond();
    if nanoseconds < 0 || nanoseconds >= 13_569_465_600_000_000_000 {
        return None;
    }
    let whole = nanoseconds as u64;
    if whole % 1_000_000_000 == 0 {
        Some(whole / 1_000_000_000)
    } else {
        None
    }
}

//! What a scan gives to each alarm.

ghost use Rattle.std.specs.Prelude.{◌≡◌, ◌<◌, Bool, List, length, slice_get, Some};

/// Tells the condition and the suppression of each alarm in a scan. Alarms are numbered from 0.
pub trait Signals {
    /// The condition of each alarm, in order.
    ghost conditions: { Self → List Bool };

    /// The suppression of each alarm, in order.
    ghost suppressions: { Self → List Bool };

    /// The condition of the alarm of a number.
    fn condition(&self, alarm: u32) -> bool
        requires { alarm < length (conditions self.now) }
        ensures { slice_get (conditions self.now) alarm ≡ Some result };

    /// The suppression of the alarm of a number.
    fn suppression(&self, alarm: u32) -> bool
        requires { alarm < length (suppressions self.now) }
        ensures { slice_get (suppressions self.now) alarm ≡ Some result };
}

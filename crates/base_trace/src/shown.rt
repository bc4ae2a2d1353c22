//! A value that contracts see as the value itself.

ghost use Rattle.std.specs.Prelude.{◌≡◌};

use crate::remembered::Remembered;
use std::marker::Model;

/// A value that only contracts read. They see it as the value itself, so what was said of the value can be said of this in the same words.
#[derive(Drop)]
pub struct Shown<T> {
    kept: Remembered<T>,
}

impl<T> Model for Shown<T> {
    ghost Value = { T };

    ghost view = { λ s. s.kept.value };
}

impl<T> Shown<T> {
    /// A value as it is now.
    pub fn of(value: &T) -> Shown<T>
        ensures { result ≡ value.now }
    {
        Shown {
            kept: Remembered::of(value),
        }
    }

    /// The same value.
    pub fn again(&self) -> Shown<T>
        ensures { result ≡ self.now }
    {
        Shown {
            kept: self.kept.again(),
        }
    }
}

//! A value that only contracts read.
ghost use Rattle.std.specs.Prelude.{◌≡◌};
ghost use Rattle.std.specs.Borrow.{ftrue};

use std::marker::{Model, PhantomData};

/// A `T` as contracts see it. It has no bytes, and may go to any thread, as no value of `T` is in it.
///
/// std's `Snapshot` says as much, but of a type that holds one it isn't derived that it may go to another thread.
#[derive(Drop)]
pub struct Remembered<T> {
    marker: PhantomData<T>,
    pub ghost value: { T },
}

impl<T> Model for Remembered<T> {
    ghost also_owns = { λ _. ftrue };
}

// It owns nothing.
unsafe impl<T> Send for Remembered<T> {}

// It owns nothing.
unsafe impl<T> Sync for Remembered<T> {}

impl<T> Remembered<T> {
    /// Remembers a value as it is now.
    pub fn of(value: &T) -> Remembered<T>
        ensures { result.value ≡ value.now }
    {
        let _ = value;
        Remembered {
            marker: PhantomData,
        }
    }

    /// Remembers the same value.
    pub fn again(&self) -> Remembered<T>
        ensures { result.value ≡ self.now.value }
    {
        let _ = self;
        Remembered {
            marker: PhantomData,
        }
    }
}

//! A list that only contracts read.
ghost use Rattle.std.specs.Prelude.{◌≡◌, List, [], ◌∷◌, ◌++◌};
ghost use Rattle.std.specs.Borrow.{ftrue};

use std::marker::{Model, PhantomData};

/// A list as contracts see it. It has no bytes, and may go to any thread, as no entry is in it.
#[derive(Drop)]
pub struct Listed<E> {
    marker: PhantomData<E>,
    pub ghost items: { List E },
}

impl<E> Model for Listed<E> {
    ghost also_owns = { λ _. ftrue };
}

// It owns nothing.
unsafe impl<E> Send for Listed<E> {}

// It owns nothing.
unsafe impl<E> Sync for Listed<E> {}

impl<E> Listed<E> {
    /// The empty list.
    pub fn new() -> Listed<E>
        ensures { result.items ≡ [] }
    {
        Listed {
            marker: PhantomData,
        }
    }

    /// The list with one entry more.
    pub fn then(&self, entry: &E) -> Listed<E>
        ensures { result.items ≡ self.now.items ++ entry.now ∷ [] }
    {
        let _ = entry;
        Listed {
            marker: PhantomData,
        }
    }
}

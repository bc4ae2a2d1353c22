//! A console in a thread of its own.
ghost use Rattle.std.specs.Prelude.{◌≡◌, IfSome};
ghost use Rattle.console_operator.specs.Consoles.{EndsAs};

use crate::console::{Console, Finished};
use std::snapshot::Snapshot;
use std::thread::{Promise, Threads, spawn_with};

/// What a thread promises that is to end a console: what it gives back is the end of that console.
#[derive(Drop)]
struct EndOf<O, R>(Snapshot<Console<O, R>>);

impl<O, R> Promise<Option<Finished<O, R>>> for EndOf<O, R> {
    ghost kept_by = { λ p end. IfSome end (λ f. EndsAs p.0.value f) };
}

/// Ends a console in a thread of its own, or in this one where no thread can be made. So a console may go to another thread, and come back
/// ended, where its orders and replies may.
pub fn ends_elsewhere<O, R, H>(rt: &H, console: Console<O, R>) -> Option<Finished<O, R>>
where
    O: Drop + Send + 'static,
    R: Drop + Send + 'static,
    H: Threads,
    ensures { IfSome result (λ f. EndsAs console f) }
{
    let promise = EndOf(Snapshot::of(&console));
    match spawn_with(rt, promise, move || console.finish()) {
        Ok(thread) => thread.join(rt),
        Err(refused) => (refused.value)(),
    }
}

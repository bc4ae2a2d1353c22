//! How the consoles go to their threads.

ghost use Rattle.std.specs.Prelude.{◌≡◌, List, IfOk};
ghost use Rattle.console_link.specs.declared.lane.Lane.{Lane};
ghost use Rattle.alarm_orders.specs.declared.order.Order.{Order};
ghost use Rattle.station.specs.Reply.{Reply};
ghost use Rattle.station.specs.Lanes.{IsConsoleIn};
ghost use Rattle.try_desks.specs.Seated.{AreSeated, SeatsAll};

use crate::post::{Plants, Post};
use crate::stand::{Stint, stand};
use crate::watch::Watch;
use station::Console;
use std::alloc::{AllocError, Global};
use std::snapshot::Snapshot;
use std::sync::Arc;
use std::thread;
use std::thread::{Promise, PromisedHandle, Threads};

/// What a console's thread promises: what it ends is this console.
#[derive(Drop)]
pub struct Seat(Snapshot<Console>);

impl Promise<Stint> for Seat {
    ghost use Rattle.std.specs.Prelude.{IfSome};
    ghost use Rattle.try_desks.specs.Ends.{EndsFrom};

    ghost kept_by = { λ p r. IfSome r.finished (EndsFrom p.0.value) };
}

/// A console's thread.
pub type Seated = PromisedHandle<Stint, Seat>;

/// Starts a console's thread. Fails where memory is refused, or a thread isn't to be had; then the console is gone.
fn start<R: Threads>(
    rt: &R,
    alloc: Global,
    plants: &Plants<'_>,
    console: Console,
    watch: &Arc<Watch>,
) -> Result<Seated, AllocError>
    ensures { IfOk result (λ t. t.promise.0.value ≡ console) }
{
    let theirs = Arc::try_clone(watch)?;
    let post = Post::new(alloc, plants, console.number())?;
    let seat = Seat(Snapshot::of(&console));
    Ok(thread::spawn_with(rt, seat, move || stand(console, post, &*theirs))?)
}

/// Starts a console's thread, and keeps it. Where there is none the console is gone.
fn seat_one<R: Threads>(
    rt: &R,
    alloc: Global,
    plants: &Plants<'_>,
    console: Console,
    watch: &Arc<Watch>,
    threads: &mut Vec<Seated>,
)
    ensures { (lanes : List (Lane Order Reply)) → IsConsoleIn lanes console.link
        → AreSeated lanes threads.old.items → AreSeated lanes threads.new.items }
{
    if let Ok(thread) = start(rt, alloc, plants, console, watch) {
        match threads.push(thread) {
            Ok(()) => {}
            Err(_) => {}
        }
    }
}

/// Starts a thread for each console, the last one first. There are fewer threads where memory is refused, or a thread isn't to be had.
pub fn seat_all<R: Threads>(
    rt: &R,
    alloc: Global,
    plants: &Plants<'_>,
    mut consoles: Vec<Console>,
    watch: &Arc<Watch>,
) -> Vec<Seated>
    ensures { SeatsAll consoles.items result.items }
{
    let mut threads = Vec::new(alloc);
    while let Some(console) = consoles.pop() {
        seat_one(rt, alloc, plants, console, watch, &mut threads);
    }
    threads
}

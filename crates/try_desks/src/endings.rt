//! How the consoles come back.

ghost use Rattle.std.specs.Prelude.{List, All, IfSome};
ghost use Rattle.console_link.specs.declared.lane.Lane.{Lane};
ghost use Rattle.alarm_orders.specs.declared.order.Order.{Order};
ghost use Rattle.station.specs.Reply.{Reply};
ghost use Rattle.station.specs.Lanes.{IsEndIn};
ghost use Rattle.try_desks.specs.Seated.{EndsAll};

use crate::post::Post;
use crate::stand::Stint;
use crate::starts::Seated;
use station::Finished;
use std::alloc::Global;
use std::thread::Threads;

/// The ends of consoles, and their posts.
#[derive(Drop)]
pub struct Ended {
    pub finished: Vec<Finished>,
    pub posts: Vec<Post>,
}

/// Keeps an ended console; where memory is refused it is let go.
fn keep_end(finished: &mut Vec<Finished>, end: Finished)
    ensures { (lanes : List (Lane Order Reply)) → IsEndIn lanes end
        → All (IsEndIn lanes) finished.old.items → All (IsEndIn lanes) finished.new.items }
{
    match finished.push(end) {
        Ok(()) => {}
        Err(_) => {}
    }
}

/// Keeps a post; where memory is refused it is let go.
fn keep_post(posts: &mut Vec<Post>, post: Post) {
    match posts.push(post) {
        Ok(()) => {}
        Err(_) => {}
    }
}

/// Keeps what came back of a console.
fn keep(finished: &mut Vec<Finished>, posts: &mut Vec<Post>, stint: Stint)
    ensures { (lanes : List (Lane Order Reply)) → IfSome stint.finished (IsEndIn lanes)
        → All (IsEndIn lanes) finished.old.items → All (IsEndIn lanes) finished.new.items }
{
    let Stint {
        finished: end,
        post,
    } = stint;
    keep_post(posts, post);
    if let Some(end) = end {
        keep_end(finished, end);
    }
}

/// Waits until the consoles' threads have ended, the last one first, and takes what comes back.
pub fn join_all<R: Threads>(rt: &R, alloc: Global, mut threads: Vec<Seated>) -> Ended
    ensures { EndsAll threads.items result.finished.items }
{
    let mut finished = Vec::new(alloc);
    let mut posts = Vec::new(alloc);
    while let Some(thread) = threads.pop() {
        keep(&mut finished, &mut posts, thread.join(rt));
    }
    Ended { finished, posts }
}

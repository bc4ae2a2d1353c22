//! What jobs started from, kept by the caller while the jobs are away.
ghost use Rattle.std.specs.Prelude.{◌≡◌, IfOk, map};
ghost use Rattle.std.specs.Arc.{arc_value};

use crate::Work;
use std::alloc::AllocError;
use std::marker::Model;
use std::sync::Arc;

/// What a job started from, which contracts see as that value.
pub struct Begun<S> {
    start: Arc<S>,
}

impl<S: Drop> Drop for Begun<S> {
    fn drop(self) {
        let Begun { start: _ } = self;
    }
}

impl<S> Model for Begun<S> {
    ghost use Rattle.std.specs.Arc.{arc_value};

    ghost Value = { S };

    ghost view = { λ b. arc_value b.start };
}

impl<S> Begun<S> {
    /// What starts so.
    pub fn new(start: Arc<S>) -> Begun<S>
        ensures { result ≡ arc_value start }
    {
        Begun { start }
    }

    /// What it starts from.
    pub fn start(&self) -> &S
        ensures { result.now ≡ self.now }
    {
        &self.start
    }
}

impl<S: Drop> Begun<S> {
    /// Fetches the count of its owners from the cache of the thread that has run it, so that whoever gives it up later needn't wait for that.
    pub(crate) fn fetch(&self) {
        let _ = Arc::try_clone(&self.start);
    }
}

/// What jobs start from, in their order, in the room of another list.
pub fn starts_of<J: Work<S, D>, S: Drop, D>(
    jobs: &[J],
    room: Vec<Begun<S>>,
) -> Result<Vec<Begun<S>>, AllocError>
    ensures { IfOk result (λ starts. starts.items ≡ map J.start_of jobs.now) }
{
    let mut starts = room;
    starts.clear();
    starts.reserve(jobs.len())?;
    for job in jobs {
        starts.push(Begun::new(job.start().clone()?))?;
    }
    Ok(starts)
}

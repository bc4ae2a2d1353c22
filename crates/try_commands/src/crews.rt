//! The crews by which each run is answered once more, and whether they answer as the caller alone does.

ghost use Rattle.std.specs.Prelude.{◌<◌, ◌≤◌};

use crew::Ungated;
use engine::{Done, Job, Start};
use standing_crew::Standing;
use std::alloc::{AllocError, Global};
use std::sync::{Arc, Wait};
use std::thread::Threads;
use try_text::Page;

/// Workers that run the programs of a plant.
pub type Workers = Standing<Job, Start, Done, Ungated>;

/// So many workers, of which the caller is one, who share all jobs, however little these cost. Fails where memory is refused, or a thread.
fn workers<H: Threads + Wait + Clone + Send + Drop + 'static>(
    rt: &H,
    alloc: Global,
    number: u32,
) -> Result<Workers, AllocError>
    requires { (0 < number) × (number ≤ 64) }
{
    let Ok(gate) = Arc::new(alloc, Ungated) else {
        return Err(AllocError);
    };
    match Standing::with_least(rt, alloc, number, gate, 0) {
        Ok(workers) => Ok(workers),
        Err(_) => Err(AllocError),
    }
}

/// Two workers, eight, and two that are gone.
#[derive(Drop)]
pub struct Crews {
    pub two: Workers,
    pub eight: Workers,
    pub gone: Workers,
    /// Whether the first two have answered all as the caller alone does.
    are_alike: bool,
}

impl Crews {
    /// The crews before the first run.
    fn new<H: Threads + Wait + Clone + Send + Drop + 'static>(
        rt: &H,
        alloc: Global,
    ) -> Result<Crews, AllocError> {
        let two = workers(rt, alloc, 2)?;
        let eight = workers(rt, alloc, 8)?;
        let mut gone = workers(rt, alloc, 2)?;
        gone.retire(rt);
        Ok(Crews {
            two,
            eight,
            gone,
            are_alike: true,
        })
    }

    /// The crews before the first run. Where memory is refused they are made once more.
    pub fn new_again<H: Threads + Wait + Clone + Send + Drop + 'static>(
        rt: &H,
        alloc: Global,
    ) -> Result<Crews, AllocError> {
        match Crews::new(rt, alloc) {
            Ok(crews) => Ok(crews),
            Err(_) => Crews::new(rt, alloc),
        }
    }

    /// Holds what so many workers answer against what the caller alone does. Where these differ it is added, after a line that says so.
    pub fn hold(&mut self, page: &mut Page, alone: &Page, number: &str, answer: &Page) {
        if answer.is_short() {
            page.refuse();
        }
        if alone.as_slice() != answer.as_slice() {
            self.are_alike = false;
            page.add(number);
            page.line(" WORKERS DIFFER");
            page.add_bytes(answer.as_slice());
        }
    }

    /// Ends the workers, and tells whether all was answered alike.
    pub fn end<H: Threads + Wait>(self, rt: &H) -> bool {
        let Crews {
            two,
            eight,
            gone,
            are_alike,
        } = self;
        two.close(rt);
        eight.close(rt);
        gone.close(rt);
        are_alike
    }
}

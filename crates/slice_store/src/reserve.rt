//! Memory that jobs leave behind for later ones.

ghost use Rattle.std.specs.Prelude.{◌≡◌, []};

use crate::done::{Done, Run};
use crate::start::Start;
use crew::Begun;
use std::alloc::{AllocError, Global};
use std::mem::{replace, swap};

/// Memory of jobs that have ended, by their numbers, for later jobs of these numbers; and of the lists of what is out. What it holds doesn't
/// matter, so contracts see nothing of it.
pub struct Reserve {
    runs: Vec<Option<Box<Run>>>,
    out: Vec<Begun<Start>>,
    ticks: Vec<bool>,
}

impl Drop for Reserve {
    fn drop(self) {
        let Reserve {
            runs: _,
            out: _,
            ticks: _,
        } = self;
    }
}

impl Reserve {
    /// A reserve of nothing.
    pub fn new(alloc: Global) -> Reserve {
        Reserve {
            runs: Vec::new(alloc),
            out: Vec::new(alloc),
            ticks: Vec::new(alloc),
        }
    }

    /// Makes a place for the memory of each job up to a number.
    fn widen(&mut self, number: u32) -> Result<(), AllocError> {
        for _ in self.runs.len()..number as usize + 1 {
            self.runs.push(None)?;
        }
        Ok(())
    }

    /// Takes the memory that the job of a number left, if it left any, and makes a place for it.
    pub(crate) fn take(&mut self, number: u32) -> Result<Option<Box<Run>>, AllocError> {
        self.widen(number)?;
        match self.runs.get_mut(number as usize) {
            Some(place) => Ok(place.take()),
            None => Ok(None),
        }
    }

    /// Takes the memory of a list of what is out.
    pub(crate) fn take_out(&mut self, alloc: Global) -> Vec<Begun<Start>> {
        replace(&mut self.out, Vec::new(alloc))
    }

    /// Takes the memory of a list of ticks.
    pub(crate) fn take_ticks(&mut self, alloc: Global) -> Vec<bool> {
        replace(&mut self.ticks, Vec::new(alloc))
    }

    /// Keeps the memory of lists that aren't used any more, and leaves empty ones. It allocates nothing.
    pub(crate) fn keep_lists(&mut self, out: &mut Vec<Begun<Start>>, ticks: &mut Vec<bool>)
        ensures out { out.new.items ≡ [] }
        ensures ticks { ticks.new.items ≡ [] }
    {
        out.clear();
        self.out.clear();
        swap(&mut self.out, out);
        ticks.clear();
        self.ticks.clear();
        swap(&mut self.ticks, ticks);
    }

    /// Keeps the memory of a run, if there is a place for it. It allocates nothing.
    fn keep(&mut self, done: Done) {
        let number = done.number();
        if let Some(place) = self.runs.get_mut(number as usize) {
            *place = Some(done.into_run());
        }
    }

    /// Keeps the memory of runs. It allocates nothing.
    pub(crate) fn keep_all(&mut self, runs: Vec<Done>) {
        for done in runs {
            self.keep(done);
        }
    }
}

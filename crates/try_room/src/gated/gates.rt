//! A gate that tells how the programs of a scan were run.

use crew::Gate;
use std::sync::Arc;
use std::sync::atomic::{AtomicU64, Ordering};
use std::thread;

/// What the gate saw of a scan: whether the second program has passed, whether the first one was held until then, and whether it was held until the limit.
#[derive(Drop)]
pub struct Watch {
    passed: AtomicU64,
    met: AtomicU64,
    missed: AtomicU64,
}

impl Watch {
    /// Nothing has passed.
    pub fn new() -> Watch {
        Watch {
            passed: AtomicU64::new(0),
            met: AtomicU64::new(0),
            missed: AtomicU64::new(0),
        }
    }

    /// Nothing has passed, in the next scan.
    pub fn forget(&self) {
        self.passed.store(0, Ordering::SeqCst);
        self.met.store(0, Ordering::SeqCst);
        self.missed.store(0, Ordering::SeqCst);
    }

    /// How the programs of the scan were run.
    pub fn told(&self) -> &'static str {
        if self.missed.load(Ordering::SeqCst) > 0 {
            "ONE AFTER ANOTHER"
        } else if self.met.load(Ordering::SeqCst) > 0 {
            "AT ONCE"
        } else {
            "NO JOB"
        }
    }
}

/// A gate that holds the first program until the second has passed, for a number of turns at most.
#[derive(Drop)]
pub struct Holding {
    turns: u32,
    watch: Arc<Watch>,
}

impl Holding {
    /// Holds the first program for so many turns at most.
    pub fn new(turns: u32, watch: Arc<Watch>) -> Holding {
        Holding { turns, watch }
    }
}

impl Gate for Holding {
    fn pass(&self, job: u32) {
        if job == 2 {
            self.watch.passed.fetch_add(1, Ordering::SeqCst);
        }
        if job == 1 {
            for _ in 0..self.turns {
                if self.watch.passed.load(Ordering::SeqCst) > 0 {
                    self.watch.met.fetch_add(1, Ordering::SeqCst);
                    return;
                }
                thread::yield_now();
            }
            self.watch.missed.fetch_add(1, Ordering::SeqCst);
        }
    }
}

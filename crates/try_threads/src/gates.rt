//! A gate that tells whether two jobs were under way at the same time.

use crew::Gate;
use std::sync::Arc;
use std::sync::atomic::{AtomicU64, Ordering};
use std::thread;

/// For so many turns a job is held at most.
const TURNS: u32 = 2_000_000;

/// How many jobs have passed that others wait for, and how many were held until the limit.
#[derive(Drop)]
pub struct Watch {
    passed: AtomicU64,
    missed: AtomicU64,
}

impl Watch {
    /// Nothing has passed.
    pub fn new() -> Watch {
        Watch {
            passed: AtomicU64::new(0),
            missed: AtomicU64::new(0),
        }
    }

    /// Waits anew for the next passing.
    pub fn forget(&self) {
        self.passed.store(0, Ordering::SeqCst);
    }

    /// Whether a job was held until the limit.
    pub fn has_missed(&self) -> bool {
        self.missed.load(Ordering::SeqCst) > 0
    }
}

/// A gate that holds one job until another has passed, for a number of turns at most.
#[derive(Drop)]
pub struct Holding {
    held: u32,
    until: u32,
    watch: Arc<Watch>,
}

impl Holding {
    /// Holds the job `held` until the job `until` has passed.
    pub fn new(held: u32, until: u32, watch: Arc<Watch>) -> Holding {
        Holding { held, until, watch }
    }
}

impl Gate for Holding {
    fn pass(&self, job: u32) {
        if job == self.until {
            self.watch.passed.fetch_add(1, Ordering::SeqCst);
        }
        if job == self.held {
            for _ in 0..TURNS {
                if self.watch.passed.load(Ordering::SeqCst) > 0 {
                    return;
                }
                thread::yield_now();
            }
            self.watch.missed.fetch_add(1, Ordering::SeqCst);
        }
    }
}

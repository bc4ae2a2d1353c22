//! What the owner and other threads tell each other beside the rings.

use std::alloc::{AllocError, Global};
use std::sync::Arc;
use std::sync::atomic::{AtomicBool, AtomicU64, Ordering};

/// Whether the day is over, how far the consoles are with their drill, whether the owner waits for orders, and how many lines of the journal are kept.
#[derive(Drop)]
pub struct Watch {
    over: AtomicBool,
    halved: AtomicU64,
    held: AtomicBool,
    waiting: AtomicU64,
    drilled: AtomicU64,
    kept: AtomicU64,
}

impl Watch {
    /// What they share when the day begins.
    pub fn shared(alloc: Global) -> Result<Arc<Watch>, AllocError> {
        let watch = Watch {
            over: AtomicBool::new(false),
            halved: AtomicU64::new(0),
            held: AtomicBool::new(false),
            waiting: AtomicU64::new(0),
            drilled: AtomicU64::new(0),
            kept: AtomicU64::new(0),
        };
        match Arc::new(alloc, watch) {
            Ok(watch) => Ok(watch),
            Err(_) => Err(AllocError),
        }
    }

    /// The owner takes no more turns.
    pub fn end(&self) {
        self.over.store(true, Ordering::SeqCst);
    }

    /// Whether the day is over.
    pub fn is_over(&self) -> bool {
        self.over.load(Ordering::SeqCst)
    }

    /// One console more has all answers of the first half of its drill.
    pub fn add_halved(&self) {
        self.halved.fetch_add(1, Ordering::SeqCst);
    }

    /// How many consoles have all answers of the first half of their drill.
    pub fn halved(&self) -> u64 {
        self.halved.load(Ordering::SeqCst)
    }

    /// The owner takes no turn until each console has orders under way.
    pub fn hold(&self) {
        self.held.store(true, Ordering::SeqCst);
    }

    /// Whether the owner has waited, or waits, for orders that are under way.
    pub fn is_held(&self) -> bool {
        self.held.load(Ordering::SeqCst)
    }

    /// One console more has the orders under way for which the owner waits.
    pub fn add_waiting(&self) {
        self.waiting.fetch_add(1, Ordering::SeqCst);
    }

    /// How many consoles have the orders under way for which the owner waits.
    pub fn waiting(&self) -> u64 {
        self.waiting.load(Ordering::SeqCst)
    }

    /// One console more is done with its drill.
    pub fn add_drilled(&self) {
        self.drilled.fetch_add(1, Ordering::SeqCst);
    }

    /// How many consoles are done with their drill.
    pub fn drilled(&self) -> u64 {
        self.drilled.load(Ordering::SeqCst)
    }

    /// So many lines of the journal are kept.
    pub fn keep(&self, lines: u64) {
        self.kept.store(lines, Ordering::SeqCst);
    }

    /// How many lines of the journal are kept.
    pub fn kept(&self) -> u64 {
        self.kept.load(Ordering::SeqCst)
    }
}

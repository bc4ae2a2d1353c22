//! What the owner keeps of its turns, to tell the place of each order in the history.

use station::Turn;
use std::alloc::{AllocError, Global};

/// A turn that took orders: how many scans and reloads there were before its orders, and how many orders after it.
#[derive(Clone, Copy, Drop)]
struct Taking {
    others: u64,
    orders: u64,
}

/// The events of a day.
#[derive(Drop)]
pub struct Events {
    /// How many turns there were, each with one scan.
    pub scans: u64,
    /// How often the plant changed.
    pub reloads: u64,
    /// How many orders were taken.
    pub orders: u64,
    /// How many scans of the script were taken.
    pub scripted: u32,
    takings: Vec<Taking>,
}

impl Events {
    /// No events.
    pub fn new(alloc: Global) -> Events {
        Events {
            scans: 0,
            reloads: 0,
            orders: 0,
            scripted: 0,
            takings: Vec::new(alloc),
        }
    }

    /// Adds a turn.
    pub fn add(&mut self, turn: &Turn) -> Result<(), AllocError> {
        self.scans = self.scans.saturating_add(1);
        if turn.taken == 0 {
            return Ok(());
        }
        self.orders = self.orders.saturating_add(u64::from(turn.taken));
        self.takings.push(Taking {
            others: self.scans.saturating_add(self.reloads),
            orders: self.orders,
        })?;
        Ok(())
    }

    /// How many there were.
    pub fn all(&self) -> u64 {
        self.scans
            .saturating_add(self.reloads)
            .saturating_add(self.orders)
    }

    /// The place in the history, from 1, of the order that has this place among orders.
    pub fn place(&self, order: u64) -> u64 {
        for taking in &self.takings {
            if order <= taking.orders {
                return taking.others.saturating_add(order);
            }
        }
        u64::MAX
    }
}

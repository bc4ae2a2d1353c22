//! Numbers of strongly connected components, by Tarjan's algorithm with stacks of its own: no call goes deeper for a longer chain.
//!
//! Nothing is proved of these numbers but that they are found safely and in the end. Who uses them checks what it needs of them.

use std::alloc::{AllocError, Global};

fn entry(list: &[usize], i: usize) -> usize {
    list.get(i).copied().unwrap_or(0)
}

/// Writes an entry of a list, if it is there.
fn put(list: &mut Vec<usize>, i: usize, value: usize) {
    if let Some(slot) = list.get_mut(i) {
        *slot = value;
    }
}

fn zeros(alloc: Global, count: usize) -> Result<Vec<usize>, AllocError> {
    Ok(vec![in alloc; 0; count]?)
}

/// What was found so far. A number is met, stays open, and is closed with its component.
#[derive(Drop)]
struct Walk {
    /// The order in which numbers were met, from 1; 0 for one that wasn't.
    met: Vec<usize>,
    /// The least order of an open number that is known to be reached.
    low: Vec<usize>,
    /// How many entries of a row were followed.
    followed: Vec<usize>,
    /// The components' numbers, from 1 in the order in which they were closed; 0 for an open one.
    component: Vec<usize>,
    /// The open numbers, in the order in which they were met.
    open: Vec<usize>,
    /// The numbers whose rows are being followed, each behind the one that led to it.
    path: Vec<usize>,
    meetings: usize,
    components: usize,
}

impl Walk {
    fn new(alloc: Global, count: usize) -> Result<Walk, AllocError> {
        Ok(Walk {
            met: zeros(alloc, count)?,
            low: zeros(alloc, count)?,
            followed: zeros(alloc, count)?,
            component: zeros(alloc, count)?,
            open: Vec::new(alloc),
            path: Vec::new(alloc),
            meetings: 0,
            components: 0,
        })
    }

    /// Meets a number, whose row is followed next.
    fn meet(&mut self, a: usize) -> Result<(), AllocError> {
        self.meetings = self.meetings.saturating_add(1);
        put(&mut self.met, a, self.meetings);
        put(&mut self.low, a, self.meetings);
        self.open.push(a)?;
        self.path.push(a)?;
        Ok(())
    }

    /// Notes that a number reaches an open one.
    fn lower(&mut self, a: usize, order: usize) {
        let low = entry(&self.low, a);
        put(&mut self.low, a, low.min(order));
    }

    /// Follows a step from one number to another.
    fn follow(&mut self, a: usize, b: usize) -> Result<(), AllocError> {
        let order = entry(&self.met, b);
        if order == 0 {
            return self.meet(b);
        }
        if entry(&self.component, b) == 0 {
            self.lower(a, order);
        }
        Ok(())
    }

    /// Closes the component of which this number was met first.
    fn close(&mut self, first: usize) {
        self.components = self.components.saturating_add(1);
        for _ in 0..self.open.len() {
            let b = self.open.pop().unwrap_or(first);
            put(&mut self.component, b, self.components);
            if b == first {
                return;
            }
        }
    }

    /// Goes back from a number whose row was followed.
    fn leave(&mut self, a: usize) {
        let low = entry(&self.low, a);
        let _a = self.path.pop();
        if let Some(before) = self.path.last().copied() {
            self.lower(before, low);
        }
        if low == entry(&self.met, a) {
            self.close(a);
        }
    }

    /// Takes one step further. False where the path is at its end.
    fn step(&mut self, graph: &[Vec<usize>]) -> Result<bool, AllocError> {
        let Some(a) = self.path.last().copied() else {
            return Ok(false);
        };
        let i = entry(&self.followed, a);
        match graph.get(a).and_then(|row| row.get(i).copied()) {
            Some(b) => {
                put(&mut self.followed, a, i.saturating_add(1));
                self.follow(a, b)?;
            }
            None => self.leave(a),
        }
        Ok(true)
    }

    /// Meets all that a number leads to and wasn't met yet.
    fn explore(&mut self, graph: &[Vec<usize>], from: usize) -> Result<(), AllocError> {
        if entry(&self.met, from) != 0 {
            return Ok(());
        }
        self.meet(from)?;
        for _ in 0..u64::MAX {
            if !self.step(graph)? {
                return Ok(());
            }
        }
        Ok(())
    }
}

/// A number for each number of the graph, which is that of its strongly connected component. A step never leads to a component with a greater number.
/// Neither is proved.
pub fn components(alloc: Global, graph: &[Vec<usize>]) -> Result<Vec<usize>, AllocError> {
    let mut walk = Walk::new(alloc, graph.len())?;
    for from in 0..graph.len() {
        walk.explore(graph, from)?;
    }
    Ok(walk.component)
}

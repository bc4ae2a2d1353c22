//! Moments of alarms, as the ends of their shelves, and the least of them.

ghost use Rattle.std.specs.Prelude.{◌≡◌, ℕ, ◌+◌, ◌*◌, ◌≤◌, ◌^◌, ◌<◌, length, drop, slice_set, slice_index, slice_get, replicate, IfOk, Some, false};
ghost use Rattle.alarm_bank.specs.Shelves.{IsTree, IsTreeBut, IsLeastOf, IsUnder};

use crate::marks::Marks;
use std::alloc::{AllocError, Global};
use std::marker::Model;

/// A number for each place, and the least of them at once: a tree whose node i stands above nodes 2i and 2i + 1. Contracts see the list of numbers.
pub struct Shelf {
    tree: Vec<u64>,
    count: usize,
}

impl Drop for Shelf {
    fn drop(self) {
        let Shelf { tree: _, count: _ } = self;
    }
}

impl Model for Shelf {
    ghost use Rattle.std.specs.Prelude.{ℕ, List, drop};
    ghost use Rattle.alarm_bank.specs.Shelves.{IsTree};

    ghost Value = { List ℕ };

    ghost view = { λ s. drop s.count s.tree.items };

    ghost invariant = { λ s. IsTree s.tree.items s.count };
}

/// Sets the nodes above a place anew, from the lowest one up to the first that keeps its number.
fn mend(tree: &mut [u64], count: usize, place: usize)
    requires tree { IsTreeBut tree.old count place }
    requires place { (count ≤ place) × (place < 2 * count) }
    requires few { count < 2 ^ 32 }
    ensures tree { IsTree tree.new count }
    ensures leaves { drop count tree.new ≡ drop count tree.old }
{
    let mut at = place;
    while 1 < at {
        at /= 2;
        let least = tree[2 * at].min(tree[2 * at + 1]);
        if tree[at] == least {
            return;
        }
        tree[at] = least;
    }
}

/// Marks the places below a node that have at most a number. It looks only at nodes below which there is such a place, and at those beside them.
fn mark_below(tree: &[u64], count: usize, node: usize, most: u64, marks: &mut Marks)
    requires tree { IsTree tree.now count }
    requires node { (1 ≤ node) × (node < 2 * count) }
    requires few { count < 2 ^ 32 }
    requires marks { length marks.old ≡ count }
    ensures size { length marks.new ≡ length marks.old }
    ensures kept { (n : ℕ) → slice_get marks.new n ≡ Some false → slice_get marks.old n ≡ Some false }
    ensures marked { (k n : ℕ) → n < count → IsUnder k node (count + n)
        → slice_index tree.now (count + n) ≤ most → slice_get marks.new n ≡ Some false → ⊥ }
    ensures others { (n : ℕ) → n < count → most < slice_index tree.now (count + n)
        → slice_get marks.new n ≡ slice_get marks.old n }
{
    if tree[node] > most {
        return;
    }
    if node >= count {
        marks.set(node - count);
        return;
    }
    mark_below(tree, count, 2 * node, most, marks);
    mark_below(tree, count, 2 * node + 1, most, marks);
}

impl Shelf {
    /// The greatest number of 64 bits at each of so many places.
    pub fn new(alloc: Global, count: usize) -> Result<Shelf, AllocError>
        requires { count < 2 ^ 32 }
        ensures { IfOk result (λ s. s ≡ replicate count 18446744073709551615) }
    {
        let tree = vec![in alloc; u64::MAX; 2 * count]?;
        Ok(Shelf { tree, count })
    }

    /// Puts another number at one place.
    pub fn put(&mut self, at: usize, number: u64)
        requires at { at < length self.old }
        requires few { length self.old < 2 ^ 32 }
        ensures { self.new ≡ slice_set self.old at number }
    {
        let place = self.count + at;
        if self.tree[place] == number {
            return;
        }
        self.tree[place] = number;
        mend(self.tree.as_mut_slice(), self.count, place);
    }

    /// The least number; the greatest of 64 bits where there is no place.
    pub fn least(&self) -> u64
        ensures { IsLeastOf 18446744073709551615 result self.now }
    {
        if self.count == 0 {
            u64::MAX
        } else {
            self.tree[1]
        }
    }

    /// Marks the places that have at most a number, of marks for all places, and leaves the others as they are. It looks only at the places that it
    /// marks, and at the nodes on the way to them.
    pub fn mark_most(&self, most: u64, marks: &mut Marks)
        requires few { length self.now < 2 ^ 32 }
        requires marks { length marks.old ≡ length self.now }
        ensures size { length marks.new ≡ length marks.old }
        ensures kept { (n : ℕ) → slice_get marks.new n ≡ Some false
            → slice_get marks.old n ≡ Some false }
        ensures marked { (n : ℕ) → n < length self.now → slice_index self.now n ≤ most
            → slice_get marks.new n ≡ Some false → ⊥ }
        ensures others { (n : ℕ) → n < length self.now → most < slice_index self.now n
            → slice_get marks.new n ≡ slice_get marks.old n }
    {
        if self.count > 0 {
            mark_below(self.tree.as_slice(), self.count, 1, most, marks);
        }
    }
}

//! For each global the alarms that watch it, in chains: the last one first, and from each one to the one before it.

ghost use Rattle.std.specs.Prelude.{◌≡◌, ℕ, ◌+◌, ◌<◌, ◌≤◌, ◌^◌, ◌==◌, Bool, true, false, if◌then◌else◌, Option, Some, None, List, pos, length, slice_get, slice_index, slice_index_or, IfOk, OnOk};
ghost use Rattle.logic_cells.specs.Cells.{value_at};
ghost use Rattle.alarm_watch.specs.Chains.{AreChains, GoesDown, HaveTops, HasKey, AreRanges, StandsIn, HaveRanges, IsLonger, ChangesAreMarked, ChangesOfAreMarked};

use crate::watched::number_at;
use alarm_bank::Marks;
use logic_cells::Cells;
use std::alloc::{AllocError, Global};
use std::mem::replace;

/// Puts a link at the head of a global's chain, and returns the one that was there.
fn put_first(first: &mut Vec<u32>, global: u32, link: u32) -> Result<u32, AllocError>
    ensures found { IfOk result (λ found. found ≡ slice_index first.old.items global) }
    ensures put { IfOk result (λ found. (g : ℕ)
        → slice_index first.new.items g
        ≡ (if g == global then link else slice_index first.old.items g)) }
{
    let at = global as usize;
    while first.len() <= at {
        first.push(0)?;
    }
    Ok(replace(&mut first[at], link))
}

/// Chains of alarms by global; a number in them is one more than the alarm's, and 0 for none.
pub struct Chains {
    /// For each global the last of its alarms.
    pub first: Vec<u32>,
    /// For each alarm the one before it.
    pub next: Vec<u32>,
}

impl Drop for Chains {
    fn drop(self) {
        let Chains { first: _, next: _ } = self;
    }
}

/// The chains of alarms by the global of each, if it has one.
pub fn chains_of(alloc: Global, keys: &[Option<u32>]) -> Result<Chains, AllocError>
    requires { length keys.now < 2 ^ 32 }
    ensures { IfOk result (λ chains. AreChains keys.now chains.first.items chains.next.items) }
{
    let mut first = Vec::new(alloc);
    let mut next = Vec::new(alloc);
    for at in 0..keys.len() {
        let before = match keys[at] {
            Some(global) => put_first(&mut first, global, at as u32 + 1)?,
            None => 0,
        };
        next.push(before)?;
    }
    Ok(Chains { first, next })
}

/// For each global the alarms that watch it, side by side in one list.
pub struct Ranges {
    /// For each global where its alarms begin, and for one more.
    pub starts: Vec<u32>,
    /// The alarms.
    pub alarms: Vec<u32>,
}

impl Drop for Ranges {
    fn drop(self) {
        let Ranges {
            starts: _,
            alarms: _,
        } = self;
    }
}

/// Appends the alarms of a chain.
fn push_chain(next: &[u32], from: u32, alarms: &mut Vec<u32>) -> Result<(), AllocError>
    requires down { GoesDown next.now }
    requires from { from ≤ length next.now }
    ensures front { OnOk result (IsLonger (length next.now) alarms.old.items alarms.new.items) }
    ensures stand { OnOk result
        ((keys : List (Option ℕ)) (first : List ℕ) (g n : ℕ) → AreChains keys first next.now
        → from ≡ slice_index first g → HasKey keys n g
        → StandsIn alarms.new.items (length alarms.old.items) (length alarms.new.items) n) }
{
    let mut link = from;
    while link != 0 {
        alarms.push(link - 1)?;
        link = next[(link - 1) as usize];
    }
    Ok(())
}

/// A number of 32 bits. Fails if it is greater.
fn place_of(number: usize) -> Result<u32, AllocError>
    ensures { IfOk result (λ place. place ≡ number) }
{
    match u32::try_from(number) {
        Ok(place) => Ok(place),
        Err(_) => Err(AllocError),
    }
}

/// The alarms of each global side by side, by their chains.
pub fn ranges_of(alloc: Global, chains: &Chains) -> Result<Ranges, AllocError>
    requires down { GoesDown chains.now.next.items }
    requires tops { HaveTops chains.now.first.items chains.now.next.items }
    ensures ranges { IfOk result (λ ranges. AreRanges (length chains.now.next.items) ranges.starts.items
        ranges.alarms.items) }
    ensures stand { IfOk result (λ ranges. (keys : List (Option ℕ))
        → AreChains keys chains.now.first.items chains.now.next.items
        → HaveRanges keys ranges.starts.items ranges.alarms.items) }
{
    let mut starts = Vec::new(alloc);
    let mut alarms = Vec::new(alloc);
    starts.push(0)?;
    for at in 0..chains.first.len() {
        push_chain(chains.next.as_slice(), chains.first[at], &mut alarms)?;
        starts.push(place_of(alarms.len())?)?;
    }
    Ok(Ranges { starts, alarms })
}

/// Marks the alarms of a list from one place up to before another.
#[inline(always)]
fn mark_between(alarms: &[u32], start: usize, stop: usize, marks: &mut Marks)
    requires stop { stop ≤ length alarms.now }
    requires numbers { (p : ℕ) → p < length alarms.now → slice_index alarms.now p < length marks.old }
    ensures size { length marks.new ≡ length marks.old }
    ensures kept { (n : ℕ) → slice_get marks.new n ≡ Some false → slice_get marks.old n ≡ Some false }
    ensures marked { (n : ℕ) → StandsIn alarms.now start stop n → slice_get marks.new n ≡ Some false
        → ⊥ }
{
    for place in start..stop {
        marks.set(alarms[place] as usize);
    }
}

/// Marks the alarms of a global that holds another number in other cells.
#[inline(always)]
fn mark_global(ranges: &Ranges, before: &Cells, now: &Cells, at: usize, marks: &mut Marks)
    requires ranges { AreRanges (length marks.old) ranges.now.starts.items ranges.now.alarms.items }
    requires at { at + 1 < length ranges.now.starts.items }
    ensures size { length marks.new ≡ length marks.old }
    ensures kept { (n : ℕ) → slice_get marks.new n ≡ Some false → slice_get marks.old n ≡ Some false }
    ensures marked { (keys : List (Option ℕ)) (n : ℕ)
        → HaveRanges keys ranges.now.starts.items ranges.now.alarms.items → HasKey keys n at
        → slice_get marks.new n ≡ Some false → value_at before.now at ≡ value_at now.now at }
{
    if number_at(before, at) == number_at(now, at) {
        return;
    }
    let start = ranges.starts[at] as usize;
    let stop = ranges.starts[at + 1] as usize;
    mark_between(ranges.alarms.as_slice(), start, stop, marks);
}

/// Marks the alarms whose global is one of some globals, from one up to before another, and holds another number in other cells.
#[inline(never)]
fn mark_globals(
    ranges: &Ranges,
    before: &Cells,
    now: &Cells,
    from: usize,
    end: usize,
    marks: &mut Marks,
)
    requires ranges { AreRanges (length marks.old) ranges.now.starts.items ranges.now.alarms.items }
    ensures size { length marks.new ≡ length marks.old }
    ensures kept { (n : ℕ) → slice_get marks.new n ≡ Some false → slice_get marks.old n ≡ Some false }
    ensures marked { (keys : List (Option ℕ))
        → HaveRanges keys ranges.now.starts.items ranges.now.alarms.items
        → ChangesOfAreMarked from end keys (value_at before.now) (value_at now.now) marks.new }
{
    for at in from..end.min(ranges.starts.len().saturating_sub(1)) {
        mark_global(ranges, before, now, at, marks);
    }
}

/// How many globals are compared at once.
const BLOCK: usize = 8;

/// Whether the numbers of a block, from this place on, are the same in two lists.
// Without a branch for each, so that they are compared several at once.
#[inline(always)]
fn is_same(before: &[i64], now: &[i64], from: usize) -> bool
    requires before { from + 8 ≤ length before.now }
    requires now { from + 8 ≤ length now.now }
    ensures { result ≡ true → (g : ℕ) → from ≤ g → g < from + 8
        → slice_index_or before.now g (pos 0) ≡ slice_index_or now.now g (pos 0) }
{
    let mut same = true;
    for at in from..from + BLOCK {
        same = same & (before[at] == now[at]);
    }
    same
}

/// Marks the alarms of two kinds of ranges whose global holds another number in other cells. Globals are compared by blocks, and looked at
/// one by one where a block differs.
// It stands by itself: among what stands around it, what its loop needs would not stay in registers.
#[inline(never)]
pub fn mark_changed(
    conditions: &Ranges,
    suppressions: &Ranges,
    before: &Cells,
    now: &Cells,
    marks: &mut Marks,
)
    requires conditions { AreRanges (length marks.old) conditions.now.starts.items
        conditions.now.alarms.items }
    requires suppressions { AreRanges (length marks.old) suppressions.now.starts.items
        suppressions.now.alarms.items }
    ensures size { length marks.new ≡ length marks.old }
    ensures conditions { (keys : List (Option ℕ))
        → HaveRanges keys conditions.now.starts.items conditions.now.alarms.items
        → ChangesAreMarked keys (value_at before.now) (value_at now.now) marks.new }
    ensures suppressions { (keys : List (Option ℕ))
        → HaveRanges keys suppressions.now.starts.items suppressions.now.alarms.items
        → ChangesAreMarked keys (value_at before.now) (value_at now.now) marks.new }
{
    let old = before.as_slice();
    let new = now.as_slice();
    let end = conditions.starts.len().max(suppressions.starts.len());
    let blocks = old.len().min(new.len()).min(end) / BLOCK;
    for block in 0..blocks {
        let from = block * BLOCK;
        if !is_same(old, new, from) {
            mark_globals(conditions, before, now, from, from + BLOCK, marks);
            mark_globals(suppressions, before, now, from, from + BLOCK, marks);
        }
    }
    mark_globals(conditions, before, now, blocks * BLOCK, end, marks);
    mark_globals(suppressions, before, now, blocks * BLOCK, end, marks);
}

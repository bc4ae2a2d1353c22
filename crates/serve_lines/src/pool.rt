//! The pairs of a line, in room that each line uses again.

ghost use Rattle.std.specs.Prelude.{◌≡◌, ◌++◌, ◌∷◌, [], OnOk, OnErr, IfOk, true, false};

use plant_types::{Given, Pair};
use std::alloc::{AllocError, Global};
use std::marker::Model;

/// How many bytes of room are kept at most from one line to the next.
const KEPT: usize = 16_384;

/// How many bytes a pair counts for beside those of its name.
const PAIR: usize = 16;

/// A list of pairs that keeps its room: after `clear`, as many pairs with names as long take no memory. The room of a list of more than
/// 16,384 bytes, of which each pair counts for 16 beside its name, is given back, so that long lines don't pile up.
pub struct Pool {
    pairs: Vec<Pair>,
    /// How many of the pairs count; those after them are only room.
    used: usize,
    /// How many bytes these pairs count for.
    bytes: usize,
}

impl Drop for Pool {
    fn drop(self) {
        let Pool {
            pairs: _,
            used: _,
            bytes: _,
        } = self;
    }
}

impl Model for Pool {
    ghost use Rattle.std.specs.Prelude.{List, take, length, ◌≤◌};
    ghost use Rattle.plant_types.specs.Pairs.{PlainPair};

    ghost Value = { List PlainPair };

    ghost view = { λ pool. take pool.used pool.pairs.items };

    ghost invariant = { λ pool. pool.used ≤ length pool.pairs.items };
}

/// Gives a pair another name and value.
fn fill(pair: &mut Pair, name: &str, given: Given) -> Result<(), AllocError>
    ensures { OnOk result (pair.new ≡ record { name = name.now; given = given }) }
{
    pair.name.clear();
    pair.name.push_str(name)?;
    pair.given = given;
    Ok(())
}

fn has_name(pair: &Pair, name: &[u8]) -> bool
    ensures { result ≡ true → pair.now.name ≡ name.now }
{
    pair.name.as_bytes() == name
}

/// Gives a pair another value.
fn give(pair: &mut Pair, given: Given)
    ensures { pair.new ≡ record { name = pair.old.name; given = given } }
{
    pair.given = given;
}

/// A pair with a copy of a name.
fn new_pair(alloc: Global, name: &str, given: Given) -> Result<Pair, AllocError>
    ensures { IfOk result (λ pair. pair ≡ record { name = name.now; given = given }) }
{
    let name = String::from_str(alloc, name)?;
    Ok(Pair { name, given })
}

impl Pool {
    /// No pairs.
    pub fn new(alloc: Global) -> Pool
        ensures { result ≡ [] }
    {
        Pool {
            pairs: Vec::new(alloc),
            used: 0,
            bytes: 0,
        }
    }

    /// Takes all pairs off the list.
    pub fn clear(&mut self)
        ensures { self.new ≡ [] }
    {
        if self.bytes > KEPT {
            self.pairs.clear();
        }
        self.used = 0;
        self.bytes = 0;
    }

    /// The pairs as a slice.
    pub fn as_slice(&self) -> &[Pair]
        ensures { result.now ≡ self.now }
    {
        &self.pairs.as_slice()[..self.used]
    }

    /// Adds a pair at the end where its name stands there from an earlier line, and returns whether it does; else nothing changes.
    pub(crate) fn push_again(&mut self, name: &[u8], given: Given) -> bool
        ensures added { result ≡ true
            → self.new ≡ self.old ++ (record { name = name.now; given = given }) ∷ [] }
        ensures not_added { result ≡ false → self.new ≡ self.old }
    {
        let used = self.used;
        if used >= self.pairs.len() || !has_name(&self.pairs[used], name) {
            return false;
        }
        give(&mut self.pairs[used], given);
        let bytes = name.len().saturating_add(PAIR);
        self.bytes = self.bytes.saturating_add(bytes);
        self.used = used + 1;
        true
    }

    /// Adds a pair at the end. Fails if memory is refused, and then nothing changes.
    pub fn push(&mut self, alloc: Global, name: &str, given: Given) -> Result<(), AllocError>
        ensures ok { OnOk result
            (self.new ≡ self.old ++ (record { name = name.now; given = given }) ∷ []) }
        ensures err { OnErr result (self.new ≡ self.old) }
    {
        let used = self.used;
        let bytes = name.len().saturating_add(PAIR);
        self.bytes = self.bytes.saturating_add(bytes);
        if used < self.pairs.len() {
            match fill(&mut self.pairs[used], name, given) {
                Ok(()) => {}
                Err(error) => return Err(error),
            }
        } else {
            match new_pair(alloc, name, given) {
                Ok(pair) => {
                    if self.pairs.push(pair).is_err() {
                        return Err(AllocError);
                    }
                }
                Err(error) => return Err(error),
            }
        }
        self.used = used + 1;
        Ok(())
    }
}

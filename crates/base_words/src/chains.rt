//! Numbers in chains by hash.

ghost use Rattle.std.specs.Prelude.{◌≡◌, ℕ, ◌++◌, ◌∷◌, [], ◌+◌, ◌-◌, ◌<◌, ◌≤◌, ◌^◌, List, length, slice_index, slice_set, OnOk, IfOk, IfSome, OnErr};
ghost use Rattle.base_words.specs.Chains.{chain_of, link_at, number_in, IsLast, IsLink, GoBack, BeginAtTops, AreChains, Knows, Know};
ghost use Rattle.base_words.specs.Texts.{place_at};
ghost use Rattle.base_words.specs.declared.texts.ByteRange.{ByteRange};

use crate::texts::{ByteRange, Placed};
use std::alloc::{AllocError, Global};
use std::marker::Model;
use std::mem::replace;

/// Leads to a number.
#[derive(Clone, Copy, Drop)]
pub(crate) struct Link {
    /// One more than the number; 0 for none.
    pub(crate) count: u32,
    /// The number's hash.
    pub(crate) hash: u32,
    /// Where the number's text lies, so that it is found without a look elsewhere.
    pub(crate) place: ByteRange,
}

/// The fewest chains, a power of two.
const FEWEST: usize = 8;

/// Leads to no number.
const NO_LINK: Link = Link {
    count: 0,
    hash: 0,
    place: ByteRange { start: 0, end: 0 },
};

/// Numbers from 0 on, each with a hash and a place, of which the last with a given hash is found without a look at each. Contracts see the lists of
/// hashes and of places, and how many numbers there is room for.
pub(crate) struct Chains {
    hashes: Vec<u32>,
    places: Vec<ByteRange>,
    /// For each chain its last number.
    tops: Vec<Link>,
    /// For each number the one before it in its chain.
    links: Vec<Link>,
}

impl Drop for Chains {
    fn drop(self) {
        let Chains {
            hashes: _,
            places: _,
            tops: _,
            links: _,
        } = self;
    }
}

impl Model for Chains {
    ghost use Rattle.std.specs.Prelude.{length, min};
    ghost use Rattle.base_words.specs.Chains.{PlainChains, ArePlaced};

    ghost Value = { PlainChains };

    ghost view = { λ c. record { hashes = c.hashes.items; places = c.places.items; room = min (min c.hashes.cap (min c.places.cap c.links.cap)) (min (length c.tops.items) 4294967295) } };

    ghost invariant = { λ c. ArePlaced c.hashes.items c.places.items c.tops.items c.links.items };
}

/// The chain of a hash, where there are this many.
#[inline(always)]
fn chain_of(hash: u32, chains: usize) -> usize
    requires { 0 < chains }
    ensures is { result ≡ chain_of hash chains }
    ensures within { result < chains }
{
    hash as usize & (chains - 1)
}

/// The tops of this many chains of all numbers, by their hashes; each number is led to the one before it in its chain. Fails if memory is refused,
/// and then nothing changes.
fn tops_of(
    alloc: Global,
    hashes: &[u32],
    places: &[ByteRange],
    links: &mut [Link],
    chains: usize,
) -> Result<Vec<Link>, AllocError>
    requires some { 0 < chains }
    requires few { length hashes.now < 2 ^ 32 }
    requires size { length links.old ≡ length hashes.now }
    requires placed { length places.now ≡ length hashes.now }
    ensures chains { IfOk result (λ tops. length tops.items ≡ chains) }
    ensures begin { IfOk result (λ tops. BeginAtTops hashes.now (length hashes.now) tops.items) }
    ensures back { IfOk result (λ tops. GoBack hashes.now chains (length hashes.now) links.new) }
    ensures tops_know { IfOk result (λ tops. Know places.now (length tops.items) tops.items) }
    ensures links_know { IfOk result (λ tops. Know places.now (length links.new) links.new) }
    ensures size { length links.new ≡ length hashes.now }
    ensures err { OnErr result (links.new ≡ links.old) }
{
    let mut tops = vec![in alloc; NO_LINK; chains]?;
    for number in 0..hashes.len() {
        let hash = hashes[number];
        let link = Link {
            count: number as u32 + 1,
            hash,
            place: places[number],
        };
        links[number] = replace(&mut tops[chain_of(hash, chains)], link);
    }
    Ok(tops)
}

/// Makes more chains where there are no more than numbers. Fails if memory is refused, and then nothing changes.
fn widen(
    alloc: Global,
    hashes: &[u32],
    places: &[ByteRange],
    tops: &mut Vec<Link>,
    links: &mut Vec<Link>,
) -> Result<(), AllocError>
    requires chains { AreChains hashes.now tops.old.items links.old.items }
    requires placed { length places.now ≡ length hashes.now }
    requires tops_know { Know places.now (length tops.old.items) tops.old.items }
    requires links_know { Know places.now (length links.old.items) links.old.items }
    ensures ok { OnOk result (length hashes.now < length tops.new.items) }
    ensures chains { AreChains hashes.now tops.new.items links.new.items }
    ensures tops_know { Know places.now (length tops.new.items) tops.new.items }
    ensures links_know { Know places.now (length links.new.items) links.new.items }
{
    if hashes.len() >= tops.len() {
        let chains = hashes.len().saturating_mul(2).max(FEWEST);
        *tops = tops_of(alloc, hashes, places, links.as_mut_slice(), chains)?;
    }
    Ok(())
}

/// Puts the link to one more number at the top of its chain, and returns the one that was there.
#[inline(always)]
fn put_top(tops: &mut Vec<Link>, link: Link) -> Link
    requires { 0 < length tops.old.items }
    ensures tops { tops.new.items
        ≡ slice_set tops.old.items (chain_of link.hash (length tops.old.items)) link }
    ensures top { result ≡ link_at tops.old.items (chain_of link.hash (length tops.old.items)) }
    ensures within { chain_of link.hash (length tops.old.items) < length tops.old.items }
{
    let chain = chain_of(link.hash, tops.len());
    replace(&mut tops[chain], link)
}

/// The last number with a hash among those before an end, along a chain from a link on.
#[inline(always)]
fn follow(links: &[Link], from: Link, hash: u32) -> Option<Placed>
    requires from { from.count ≤ length links.now }
    requires down { (k : ℕ) → k < length links.now → (link_at links.now k).count ≤ k }
    ensures last { (hashes : List ℕ) (chains end : ℕ) → GoBack hashes chains end links.now
        → IsLink hashes chains end (chain_of hash chains) from
        → IsLast hashes end hash (number_in result) }
    ensures place { (places : List ByteRange) → Know places (length links.now) links.now → Knows places from
        → IfSome result (λ found. place_at places found.number ≡ found.place) }
{
    let mut link = from;
    while link.count != 0 {
        let number = (link.count - 1) as usize;
        if link.hash == hash {
            return Some(Placed {
                number,
                place: link.place,
            });
        }
        link = links[number];
    }
    None
}

impl Chains {
    pub(crate) fn new(alloc: Global) -> Chains
        ensures hashes { result.hashes ≡ [] }
        ensures places { result.places ≡ [] }
    {
        Chains {
            hashes: Vec::new(alloc),
            places: Vec::new(alloc),
            tops: Vec::new(alloc),
            links: Vec::new(alloc),
        }
    }

    /// The last number with a hash, and its place; `None` if none has it.
    #[inline(always)]
    pub(crate) fn last(&self, hash: u32) -> Option<Placed>
        ensures last { IsLast self.now.hashes (length self.now.hashes) hash (number_in result) }
        ensures place { IfSome result (λ found. place_at self.now.places found.number ≡ found.place) }
    {
        if self.tops.is_empty() {
            return None;
        }
        let top = self.tops[chain_of(hash, self.tops.len())];
        follow(self.links.as_slice(), top, hash)
    }

    /// The last number before this one that has its hash, and its place; `None` if none has it.
    #[inline(always)]
    pub(crate) fn before(&self, number: usize) -> Option<Placed>
        requires { number < length self.now.hashes }
        ensures last { IsLast self.now.hashes number (slice_index self.now.hashes number)
            (number_in result) }
        ensures place { IfSome result (λ found. place_at self.now.places found.number ≡ found.place) }
    {
        follow(
            self.links.as_slice(),
            self.links[number],
            self.hashes[number],
        )
    }

    /// Makes room for one more number. Fails if memory is refused, or if there are 4,294,967,295 numbers.
    pub(crate) fn make_room(&mut self, alloc: Global) -> Result<(), AllocError>
        ensures ok { OnOk result (length self.new.hashes < self.new.room) }
        ensures kept { self.new.hashes ≡ self.old.hashes }
        ensures places { self.new.places ≡ self.old.places }
    {
        if self.hashes.len() >= u32::MAX as usize {
            return Err(AllocError);
        }
        widen(
            alloc,
            self.hashes.as_slice(),
            self.places.as_slice(),
            &mut self.tops,
            &mut self.links,
        )?;
        self.hashes.reserve(1)?;
        self.places.reserve(1)?;
        self.links.reserve(1)
    }

    /// Adds a number with its hash and its place, where there is room.
    pub(crate) fn push_reserved(&mut self, hash: u32, place: ByteRange)
        requires { length self.old.hashes < self.old.room }
        ensures hashes { self.new.hashes ≡ self.old.hashes ++ hash ∷ [] }
        ensures places { self.new.places ≡ self.old.places ++ place ∷ [] }
    {
        let count = self.hashes.len() as u32 + 1;
        let link = put_top(&mut self.tops, Link { count, hash, place });
        self.links.push_reserved(link);
        self.hashes.push_reserved(hash);
        self.places.push_reserved(place);
    }

    /// The same numbers.
    pub(crate) fn copy(&self) -> Result<Chains, AllocError>
        ensures hashes { IfOk result (λ copy. copy.hashes ≡ self.now.hashes) }
        ensures places { IfOk result (λ copy. copy.places ≡ self.now.places) }
    {
        Ok(Chains {
            hashes: self.hashes.clone()?,
            places: self.places.clone()?,
            tops: self.tops.clone()?,
            links: self.links.clone()?,
        })
    }
}

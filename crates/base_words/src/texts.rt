//! Texts that lie one behind another in one.

ghost use Rattle.std.specs.Prelude.{◌≡◌, ◌++◌, ◌∷◌, [], ◌+◌, ◌<◌, ◌^◌, length, IfOk, OnOk, OnErr, Some, option_copied, slice_get};
ghost use Rattle.base_words.specs.Texts.{start_of, place_at, places_of};

use std::alloc::{AllocError, Global};
use std::marker::Model;

/// Where a text lies.
#[derive(Clone, Copy, Drop)]
pub(crate) struct ByteRange {
    pub(crate) start: u32,
    pub(crate) end: u32,
}

/// A number, and where its text lies.
#[derive(Clone, Copy, Drop)]
pub(crate) struct Placed {
    pub(crate) number: usize,
    pub(crate) place: ByteRange,
}

/// Texts in a list, without a piece of memory for each. Contracts see their bytes.
pub(crate) struct Texts {
    text: String,
    /// Where each text ends.
    ends: Vec<u32>,
}

impl Drop for Texts {
    fn drop(self) {
        let Texts { text: _, ends: _ } = self;
    }
}

impl Model for Texts {
    ghost use Rattle.std.specs.Prelude.{List, ℕ, string_bytes};
    ghost use Rattle.base_words.specs.Texts.{texts_in, AreEnds};

    ghost Value = { List (List ℕ) };

    ghost view = { λ t. texts_in 0 t.ends.items (string_bytes t.text) };

    ghost invariant = { λ t. AreEnds 0 t.ends.items (string_bytes t.text) };
}

/// Where the text of a number begins.
#[inline(always)]
fn start_of(ends: &[u32], number: usize) -> usize
    requires { number < length ends.now }
    ensures { result ≡ start_of 0 ends.now number }
{
    match number.checked_sub(1) {
        Some(before) => ends[before] as usize,
        None => 0,
    }
}

/// Where a text of this length ends that begins here. Fails if that is beyond 4,294,967,295.
fn end_of(start: usize, length: usize) -> Result<u32, AllocError>
    ensures { IfOk result (λ end. end ≡ start + length) }
{
    match u32::try_from(start.saturating_add(length)) {
        Ok(end) => Ok(end),
        Err(_) => Err(AllocError),
    }
}

impl Texts {
    pub(crate) fn new(alloc: Global) -> Texts
        ensures { result ≡ [] }
    {
        Texts {
            text: String::new(alloc),
            ends: Vec::new(alloc),
        }
    }

    /// The number of texts.
    #[inline(always)]
    pub(crate) fn len(&self) -> usize
        ensures count { result ≡ length self.now }
        ensures small { result < 2 ^ 63 }
    {
        self.ends.len()
    }

    #[inline(always)]
    pub(crate) fn at(&self, number: usize) -> &str
        requires { number < length self.now }
        ensures { slice_get self.now number ≡ Some result.now }
    {
        let start = start_of(self.ends.as_slice(), number);
        let end = self.ends[number] as usize;
        &self.text[start..end]
    }

    /// The text of a number that is there and whose place is known.
    #[inline(always)]
    pub(crate) fn cut(&self, placed: Placed) -> &str
        requires there { placed.number < length self.now }
        requires place { place_at (places_of 0 self.now) placed.number ≡ placed.place }
        ensures { slice_get self.now placed.number ≡ Some result.now }
    {
        &self.text[placed.place.start as usize..placed.place.end as usize]
    }

    /// The text of a number; `None` if there is none.
    #[inline(always)]
    pub(crate) fn get(&self, number: usize) -> Option<&str>
        ensures { option_copied result ≡ slice_get self.now number }
    {
        if number >= self.len() {
            return None;
        }
        Some(self.at(number))
    }

    /// Adds a text, and returns its place. Fails if memory is refused, or if the texts have more than 4,294,967,295 bytes together.
    pub(crate) fn push(&mut self, text: &str) -> Result<ByteRange, AllocError>
        ensures ok { OnOk result (self.new ≡ self.old ++ text.now ∷ []) }
        ensures place { IfOk result (λ place. places_of 0 self.new
            ≡ places_of 0 self.old ++ place ∷ []) }
        ensures err { OnErr result (self.new ≡ self.old) }
    {
        let start = self.text.len();
        let end = end_of(start, text.len())?;
        self.ends.reserve(1)?;
        self.text.push_str(text)?;
        self.ends.push_reserved(end);
        Ok(ByteRange {
            start: start as u32,
            end,
        })
    }

    /// The same texts.
    pub(crate) fn copy(&self) -> Result<Texts, AllocError>
        ensures { IfOk result (λ copy. copy ≡ self.now) }
    {
        Ok(Texts {
            text: self.text.clone()?,
            ends: self.ends.clone()?,
        })
    }
}

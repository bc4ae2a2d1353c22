//! Marks, of which few are set.

ghost use Rattle.std.specs.Prelude.{◌≡◌, ◌*◌, ◌<◌, ◌≤◌, ℕ, Some, true, false, length, slice_get, slice_index, slice_set, replicate, IfOk, OnErr};
ghost use Rattle.alarm_bank.specs.Marks.{bit_of, flags_of, AreMarks};

use std::alloc::{AllocError, Global};
use std::marker::Model;

/// How many marks a word has.
pub const BITS: usize = 64;

/// A flag for each place, a bit of a word each. Contracts see the list of flags.
pub struct Marks {
    words: Vec<u64>,
    count: usize,
}

impl Drop for Marks {
    fn drop(self) {
        let Marks { words: _, count: _ } = self;
    }
}

impl Model for Marks {
    ghost use Rattle.std.specs.Prelude.{List, Bool};
    ghost use Rattle.alarm_bank.specs.Marks.{flags_of, AreMarks};

    ghost Value = { List Bool };

    ghost view = { λ m. flags_of m.count m.words.items };

    ghost invariant = { λ m. AreMarks m.count m.words.items };
}

/// So many words without a bit, in the room of other words. Fails if memory is refused; then the others stay.
fn clear_words(alloc: Global, words: &mut Vec<u64>, many: usize) -> Result<(), AllocError>
    ensures many { IfOk result (λ r. length words.new.items ≡ many) }
    ensures clear { IfOk result (λ r. (n : ℕ) → slice_index words.new.items n ≡ 0) }
    ensures err { OnErr result (words.new ≡ words.old) }
{
    if words.len() != many {
        *words = vec![in alloc; 0u64; many]?;
        return Ok(());
    }
    for at in 0..words.len() {
        words[at] = 0;
    }
    Ok(())
}

impl Marks {
    /// No marks.
    pub fn new(alloc: Global) -> Result<Marks, AllocError>
        ensures { IfOk result (λ marks. marks ≡ replicate 0 false) }
    {
        let words = vec![in alloc; 0u64; 1]?;
        Ok(Marks { words, count: 0 })
    }

    /// For how many places there are marks.
    #[inline(always)]
    pub fn len(&self) -> usize
        ensures { result ≡ length self.now }
    {
        self.count
    }

    /// Makes marks for so many places, of which none is set, in the room of others. Fails if memory is refused; then the others stay.
    pub fn clear(&mut self, alloc: Global, count: usize) -> Result<(), AllocError>
        ensures ok { IfOk result (λ r. self.new ≡ replicate count false) }
        ensures err { OnErr result (self.new ≡ self.old) }
    {
        clear_words(alloc, &mut self.words, count / BITS + 1)?;
        self.count = count;
        Ok(())
    }

    /// The words: the mark of a place is the bit of its number, counted from the lowest bit of the first word.
    #[inline(always)]
    pub fn words(&self) -> &[u64]
        ensures marks { AreMarks (length self.now) result.now }
        ensures flags { self.now ≡ flags_of (length self.now) result.now }
    {
        self.words.as_slice()
    }

    /// Sets one mark.
    #[inline(always)]
    pub fn set(&mut self, at: usize)
        requires { at < length self.old }
        ensures { self.new ≡ slice_set self.old at true }
    {
        let index = at / BITS;
        let word = self.words[index];
        self.words[index] = word | 1u64 << (at % BITS);
    }

    /// The first place whose mark is set; the number of marks where there is none.
    pub fn first(&self) -> usize
        ensures within { result ≤ length self.now }
        ensures clear { (n : ℕ) → n < result → slice_get self.now n ≡ Some false }
        ensures set { result < length self.now → slice_get self.now result ≡ Some true }
    {
        let count = self.count;
        let words = self.words();
        for index in 0..words.len() {
            let word = words[index];
            if word != 0 {
                return index * BITS + word.trailing_zeros() as usize;
            }
        }
        count
    }
}

//! The sizes that a `reload` line gives: how many bytes of each text of a plant come after it.

ghost use Rattle.std.specs.Prelude.{◌≡◌, ◌<◌, ◌≤◌, ◌++◌, ◌∷◌, [], length, sum, MatchOption, IfSome, None, Some};
ghost use Rattle.serve_lines.specs.Words.{words_of};
ghost use Rattle.serve_lines.specs.Reloads.{total_size, size_of, sources_of, sizes_of, reload_sizes, reload_size};

use crate::numbers::size_number;
use crate::parse::LONGEST_LINE;
use crate::words::{is_word, next_word};
use std::marker::Model;

/// How many bytes a plant file has at most.
const PLANT: u32 = 1_048_576;

/// How many bytes an alarm file has at most.
const ALARMS: u32 = 16_777_216;

/// How many bytes all sources have together at most.
const SOURCES: usize = 4_194_304;

/// How many sources there are at most.
const COUNT: usize = 64;

/// The sizes of sources in bytes, in order: at most 64. Contracts see the list.
#[derive(Drop)]
struct SourceSizes {
    sizes: [u32; 64],
    count: usize,
    /// The sum of the sizes.
    total: usize,
}

impl Model for SourceSizes {
    ghost use Rattle.std.specs.Prelude.{◌≡◌, ◌≤◌, ◌*◌, ℕ, List, take, length, sum};

    ghost Value = { List ℕ };

    ghost view = { λ s. take s.count s.sizes };

    ghost invariant = { λ s. (s.count ≤ 64) × (length s.sizes ≡ 64) × (s.total ≡ sum (take s.count s.sizes)) × (s.total ≤ s.count * 4294967295) };
}

impl SourceSizes {
    fn new() -> SourceSizes
        ensures { result ≡ [] }
    {
        SourceSizes {
            sizes: [0; 64],
            count: 0,
            total: 0,
        }
    }

    /// How many there are.
    fn count(&self) -> usize
        ensures { result ≡ length self.now }
    {
        self.count
    }

    /// How many bytes they are together.
    fn total(&self) -> usize
        ensures { result ≡ sum self.now }
    {
        self.total
    }

    /// Adds a size at the end.
    fn push(&mut self, size: u32)
        requires { length self.old < 64 }
        ensures { self.new ≡ self.old ++ size ∷ [] }
    {
        self.sizes[self.count] = size;
        self.count += 1;
        self.total += size as usize;
    }

    fn as_slice(&self) -> &[u32]
        ensures { result.now ≡ self.now }
    {
        &self.sizes[..self.count]
    }
}

/// The sizes that a `reload` line gives: how many bytes of each text of a plant come after it.
#[derive(Drop)]
pub struct TextSizes {
    plant: u32,
    alarms: u32,
    sources: SourceSizes,
}

impl Model for TextSizes {
    ghost use Rattle.std.specs.Prelude.{◌≤◌, sum};
    ghost use Rattle.serve_lines.specs.Reloads.{PlainSizes};

    ghost Value = { PlainSizes };

    ghost view = { λ s. record { plant = s.plant; alarms = s.alarms; sources = s.sources } };

    ghost invariant = { λ s. sum s.sources ≤ 4194304 };
}

impl TextSizes {
    /// How many bytes the plant file has.
    pub fn plant(&self) -> u32
        ensures { result ≡ self.now.plant }
    {
        self.plant
    }

    /// How many bytes the alarm file has.
    pub fn alarms(&self) -> u32
        ensures { result ≡ self.now.alarms }
    {
        self.alarms
    }

    /// How many bytes each source has.
    pub fn sources(&self) -> &[u32]
        ensures { result.now ≡ self.now.sources }
    {
        self.sources.as_slice()
    }

    /// How many bytes all texts have together.
    pub fn total(&self) -> usize
        ensures { result ≡ total_size self.now }
    {
        self.plant as usize + self.alarms as usize + self.sources.total()
    }
}

/// Parses a number of 1 to 8 digits that is no larger than a limit; `None` for any other word.
fn size_up_to(limit: u32, word: &[u8]) -> Option<u32>
    ensures { result ≡ size_of limit word.now }
{
    let size = size_number(word)?;
    if size > limit { None } else { Some(size) }
}

/// Parses words that are the sizes of sources; `None` where one of them is no size, and where they are past a limit.
#[tactic(auto, unfolding(crate::specs::Reloads::sources_of))]
fn parse_sources(words: &[u8]) -> Option<SourceSizes>
    ensures sizes { MatchOption result (sources_of (words_of words.now) ≡ None)
        (λ s. sources_of (words_of words.now) ≡ Some s) }
    ensures small { IfSome result (λ s. sum s ≤ 4194304) }
{
    let mut sizes = SourceSizes::new();
    let mut rest = words;
    while let Some((word, after)) = next_word(rest) {
        if sizes.count() == COUNT {
            return None;
        }
        let size = size_number(word)?;
        sizes.push(size);
        rest = after;
    }
    if sizes.total() > SOURCES {
        None
    } else {
        Some(sizes)
    }
}

/// Parses the words after `reload`: the sizes of the plant file and of the alarm file, and then that of each source.
#[tactic(auto, unfolding(crate::specs::Reloads::sizes_of))]
fn parse_sizes(words: &[u8]) -> Option<TextSizes>
    ensures { MatchOption result (sizes_of (words_of words.now) ≡ None)
        (λ s. sizes_of (words_of words.now) ≡ Some s) }
{
    let (plant, rest) = next_word(words)?;
    let (alarms, rest) = next_word(rest)?;
    let plant = size_up_to(PLANT, plant)?;
    let alarms = size_up_to(ALARMS, alarms)?;
    let sources = parse_sources(rest)?;
    Some(TextSizes {
        plant,
        alarms,
        sources,
    })
}

/// The sizes that a line gives, without its line end; `None` where it is no `reload`, or one that is refused by its line alone (L1).
#[tactic(auto, unfolding(crate::specs::Reloads::reload_sizes, crate::specs::Reloads::sizes_after))]
pub fn reload_sizes(line: &[u8]) -> Option<TextSizes>
    ensures { MatchOption result (reload_sizes line.now ≡ None) (λ s. reload_sizes line.now ≡ Some s) }
{
    if line.len() > LONGEST_LINE {
        return None;
    }
    let (first, others) = next_word(line)?;
    if is_word(first, b"reload") {
        parse_sizes(others)
    } else {
        None
    }
}

/// How many bytes come after a line, which is without its line end: those of all texts whose sizes it gives, and none after any other line.
#[tactic(auto, unfolding(crate::specs::Reloads::reload_size))]
pub fn reload_size(line: &[u8]) -> usize
    ensures { result ≡ reload_size line.now }
{
    match reload_sizes(line) {
        Some(sizes) => sizes.total(),
        None => 0,
    }
}

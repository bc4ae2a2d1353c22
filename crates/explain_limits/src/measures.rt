//! What has a limit in the sources (C10).

use plant_types::{Bounds, Text, same_word};
use st_tree::Expr;
use st_typing::for_turns;

/// What is counted in sources, and limited.
#[derive(Clone, Copy, PartialEq, Eq, Drop)]
pub enum Measure {
    /// The turns of a FOR.
    Turns,
    /// The elements of an array.
    Elements,
    /// How deep blocks are.
    Depth,
    Programs,
    /// Variables and standard blocks, in each instance anew.
    Slots,
    /// How large bodies are: all branches count, and one turn of a FOR.
    Size,
    /// What a scan does at most: of several branches the dearest counts, and each turn of a FOR.
    Cost,
}

/// The blocks that are there from the start, and how many slots each has.
const STANDARD: [(&[u8], u64); 3] = [(b"TON", 3), (b"TOF", 3), (b"R_TRIG", 2)];

/// How many slots a block has that is there from the start; `None` for another.
pub fn standard_slots(word: &Text) -> Option<u64> {
    for (name, slots) in STANDARD {
        if same_word(name, word.as_bytes()) {
            return Some(slots);
        }
    }
    None
}

/// How many elements an array with these bounds has.
pub fn length_of(bounds: Bounds) -> u64 {
    let span = i64::from(bounds.high).saturating_sub(i64::from(bounds.low));
    u64::try_from(span.saturating_add(1)).unwrap_or(0)
}

impl Measure {
    /// The most that is allowed.
    pub fn most(self) -> u64 {
        match self {
            Measure::Turns => 10_000,
            Measure::Elements => 4_096,
            Measure::Depth => 16,
            Measure::Programs => 512,
            Measure::Slots => 65_536,
            Measure::Size => 1_000_000,
            Measure::Cost => 2_000_000,
        }
    }

    /// What two branches count.
    pub fn join(self, one: u64, other: u64) -> u64 {
        match self {
            Measure::Cost => one.max(other),
            _ => one.saturating_add(other),
        }
    }

    /// How many turns of a FOR count.
    pub fn turns(self, from: &Expr<Text>, to: &Expr<Text>, by: &Option<Expr<Text>>) -> u64 {
        match self {
            Measure::Size => 1,
            _ => u64::try_from(for_turns(from, to, by)).unwrap_or(u64::MAX),
        }
    }
}

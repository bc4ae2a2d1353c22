//! The two ways of weighing a body.

ghost use Rattle.std.specs.Prelude.{◌≡◌, min};
ghost use Rattle.st_tree.specs.View.{view_expr, view_option};
ghost use Rattle.logic_limits.specs.Measures.{joined, turns_by, last_of, weight_in};

use crate::stopping::narrow;
use logic_source::for_turns;
use plant_types::Text;
use st_tree::Expr;

/// Where a count of slots stops: one above its limit (this profile).
pub const LAST_SLOTS: u64 = 65_537;

/// Where a size stops: one above its limit (this profile).
pub const LAST_SIZE: u64 = 1_000_001;

/// Where a cost stops: one above its limit (this profile).
pub const LAST_COST: u64 = 2_000_001;

/// What a routine counts, each number up to one above its limit.
#[derive(Clone, Copy, Drop)]
pub struct Counts {
    pub slots: u64,
    pub size: u64,
    pub cost: u64,
}

/// A way of weighing a body.
#[derive(Clone, Copy, Drop)]
pub enum Measure {
    /// All branches count, and one turn of a FOR.
    Size,
    /// Of several branches the greatest counts, and each turn of a FOR.
    Cost,
}

impl Measure {
    /// Where a weight stops: one above its limit.
    pub fn last(self) -> u64
        ensures { result ≡ last_of self }
    {
        match self {
            Measure::Size => LAST_SIZE,
            Measure::Cost => LAST_COST,
        }
    }

    /// The weight of two branches, up to the last number.
    pub fn join(self, a: u64, b: u64) -> u64
        ensures { result ≡ min (joined self a b) (last_of self) }
    {
        match self {
            Measure::Size => a.saturating_add(b).min(LAST_SIZE),
            Measure::Cost => a.max(b).min(LAST_COST),
        }
    }

    /// How many turns of a FOR count, up to the last number.
    pub fn turns(self, from: &Expr<Text>, to: &Expr<Text>, by: &Option<Expr<Text>>) -> u64
        ensures { result
            ≡ min (turns_by self (view_expr from.now) (view_expr to.now) (view_option by.now))
            (last_of self) }
    {
        match self {
            Measure::Size => 1,
            Measure::Cost => narrow(LAST_COST, for_turns(from, to, by)),
        }
    }

    /// What a routine weighs, by its counts.
    pub fn of(self, counts: Counts) -> u64
        ensures { result ≡ weight_in self counts }
    {
        match self {
            Measure::Size => counts.size,
            Measure::Cost => counts.cost,
        }
    }
}

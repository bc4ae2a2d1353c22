//! A walk over the trees of a plant's units, and what it tells.

use base_words::Names;
use explain_names::Behind;
use explain_tokens::cause_at;
use explain_trees::{Body, BrokenRule, Cursor, Mistake, Told, Trees, filled};
use plant_types::Text;
use st_tree::Argument;
use std::alloc::{AllocError, Global};

/// A rule that is broken, and where to read on.
pub type Breach = (BrokenRule, &'static str);

/// A name that isn't there, or is taken.
pub const NAMES: Breach = (BrokenRule::Names, "docs/LANGUAGE.md, \"Names\"");

/// An input or an output that a block hasn't, or that a call names twice.
pub const MEMBERS: Breach = (BrokenRule::Names, "docs/LANGUAGE.md, \"Function blocks\"");

/// What isn't of its kind.
pub const KINDS: Breach = (BrokenRule::Kinds, "docs/LANGUAGE.md, \"Kinds\"");

/// What isn't of its kind, of arrays.
pub const ARRAYS: Breach = (BrokenRule::Kinds, "docs/LANGUAGE.md, \"Arrays\"");

/// Bounds of an array that aren't in order.
pub const BOUNDS: Breach = (BrokenRule::Constants, "docs/LANGUAGE.md, \"Arrays\"");

/// A block that holds itself.
pub const CIRCLES: Breach = (BrokenRule::Blocks, "docs/LANGUAGE.md, \"Function blocks\"");

/// What isn't constant in a FOR, and what controls it.
pub const STATEMENTS: Breach = (BrokenRule::Constants, "docs/LANGUAGE.md, \"Statements\"");

/// An initial value that isn't constant.
pub const VARIABLES: Breach = (BrokenRule::Constants, "docs/LANGUAGE.md, \"Variables\"");

/// A walk: what it goes over, where it is, and what it has found.
#[derive(Drop)]
pub struct Teller<'t> {
    pub alloc: Global,
    pub plant: &'t Trees<'t>,
    /// The number of the source, from 0.
    pub source: usize,
    pub cursor: Cursor<'t>,
    /// The names of the unit.
    pub body: Body<'t>,
    /// Whether the unit is a block, and no other of its name stands before it.
    pub is_block: bool,
    /// The variables of the FORs around the statement.
    pub controls: Vec<&'t Text>,
    /// What stands behind the last instance, and the arguments of the last call.
    pub behind: Behind<'t>,
    pub arguments: &'t [Argument<Text>],
    /// The names that the unit uses and that aren't there, and the number of the mistake at which each is told.
    pub missing: Names,
    pub kept: Vec<usize>,
    /// The names behind their blocks' and a point, of inputs and outputs that were told of, as of another use.
    pub strays: Names,
    /// The inputs and outputs that the call names.
    pub given: Names,
    pub told: Told,
    /// How many more blocks are looked at for circles, where the plant isn't refused for one.
    pub blocks_left: usize,
}

impl<'t> Teller<'t> {
    /// Whether what breaks a rule would be told.
    pub fn takes(&self, breach: Breach) -> bool {
        self.told.takes(breach.0)
    }

    /// Tells of tokens, from the one of a number to before another, which break a rule, in texts that `filled` fills; returns the number of the mistake, where
    /// it is told.
    pub fn tell(
        &mut self,
        breach: Breach,
        tokens: (usize, usize),
        texts: [&str; 2],
        words: &[&str],
    ) -> Option<usize> {
        if !self.takes(breach) {
            return None;
        }
        let said = filled(self.alloc, &texts, self.cursor.quote(tokens), words);
        let said = self.told.got(said)?;
        let cause = cause_at(self.cursor.marks(tokens), said, breach.1);
        Some(
            self.told.add(Mistake {
                rule: breach.0,
                source: self.source,
                cause,
                more: 0,
            }),
        )
    }

    /// Tells of tokens in a text that `filled` fills.
    pub fn say(&mut self, breach: Breach, tokens: (usize, usize), text: &str, words: &[&str]) {
        self.tell(breach, tokens, [text, ""], words);
    }

    /// A text that was made; empty where memory was refused, which is noted.
    pub fn made(&mut self, text: Result<String, AllocError>) -> String {
        self.told.got(text).unwrap_or(String::new(self.alloc))
    }

    /// Tells of the token of a number, in a text that begins with it.
    pub fn say_at(&mut self, breach: Breach, number: usize, why: &str) {
        self.tell(breach, alone(number), ["@ ", why], &[]);
    }
}

/// The token of a number alone: from it to before the next.
pub fn alone(number: usize) -> (usize, usize) {
    (number, number.saturating_add(1))
}

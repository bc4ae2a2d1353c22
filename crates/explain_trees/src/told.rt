//! The mistakes that were found.

use explain_tokens::Cause;
use std::alloc::{AllocError, Global};

/// The most mistakes that are told.
const MOST_MISTAKES: usize = 20;

/// The rule that a mistake breaks.
#[derive(Clone, Copy, PartialEq, Eq, Drop)]
pub enum BrokenRule {
    /// Each name is there once (C6).
    Names,
    /// Each thing is of the kind that it has to be (C7).
    Kinds,
    /// No function block holds itself (C8).
    Blocks,
    /// Initial values, bounds and steps are constant (C9).
    Constants,
}

/// A mistake: the rule that it breaks, the number of its source, from 0, what is told of it, and how many more words of its unit are wrong by it.
#[derive(Drop)]
pub struct Mistake {
    pub rule: BrokenRule,
    pub source: usize,
    pub cause: Cause,
    pub more: usize,
}

/// What is said behind a mistake of further words that are wrong by it.
fn push_more(alloc: Global, mistake: &mut Mistake) -> Result<(), AllocError> {
    let more = mistake.more;
    if more > 0 {
        let uses = if more == 1 { "use" } else { "uses" };
        let text = format!(in alloc; " (and {more} more {uses} of it in this unit)")?;
        mistake.cause.said.push_str(text.as_str())?;
    }
    Ok(())
}

/// The mistakes that were found so far in order of text: the first that breaks the rule by which the plant is refused, and others, 20 in all at most. Where
/// memory was refused, no more are told.
#[derive(Drop)]
pub struct Told {
    /// The rule by which the plant is refused; none where it is refused for something else.
    pub refused: Option<BrokenRule>,
    list: Vec<Mistake>,
    /// Whether memory was refused.
    is_short: bool,
}

impl Told {
    /// No mistakes, of a plant that is refused by a rule, or for something else.
    pub fn new(alloc: Global, refused: Option<BrokenRule>) -> Told {
        Told {
            refused,
            list: Vec::new(alloc),
            is_short: false,
        }
    }

    /// What was allocated; where memory was refused, that is noted.
    pub fn got<T: Drop, E: Drop>(&mut self, outcome: Result<T, E>) -> Option<T> {
        match outcome {
            Ok(value) => Some(value),
            Err(_) => {
                self.is_short = true;
                None
            }
        }
    }

    /// The number of the first mistake that breaks the rule by which the plant is refused.
    fn first(&self) -> Option<usize> {
        self.list
            .iter()
            .position(|mistake| Some(mistake.rule) == self.refused)
    }

    /// Whether a mistake that breaks a rule would be told: one place is kept for the first that breaks the rule by which the plant is refused.
    pub fn takes(&self, rule: BrokenRule) -> bool {
        let is_open = self.refused.is_some() && self.first().is_none();
        let has_room = self.list.len() < MOST_MISTAKES.saturating_sub(usize::from(is_open));
        !self.is_short && (has_room || (is_open && Some(rule) == self.refused))
    }

    /// Whether no more mistakes would be told.
    pub fn is_full(&self) -> bool {
        !self.takes(self.refused.unwrap_or(BrokenRule::Names))
    }

    /// Takes a mistake that is told, and returns its number.
    pub fn add(&mut self, mistake: Mistake) -> usize {
        let number = self.list.len();
        let pushed = self.list.push(mistake);
        self.got(pushed);
        number
    }

    /// Notes one more word that is wrong by the mistake of a number.
    pub fn count(&mut self, number: usize) {
        if let Some(mistake) = self.list.get_mut(number) {
            mistake.more = mistake.more.saturating_add(1);
        }
    }

    /// All of them: the first that breaks the rule by which the plant is refused, and then the others in order of text. Behind each it is said how many more
    /// words are wrong by it.
    pub fn into_list(self, alloc: Global) -> Result<Vec<Mistake>, AllocError> {
        let first = self.first();
        let Told {
            mut list,
            is_short,
            ..
        } = self;
        if is_short {
            return Err(AllocError);
        }
        for mistake in list.as_mut_slice() {
            push_more(alloc, mistake)?;
        }
        if let Some(number) = first {
            if number < list.len() {
                let mistake = list.remove(number);
                list.insert(0, mistake)?;
            }
        }
        Ok(list)
    }
}

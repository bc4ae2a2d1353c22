//! The rule over a board and what is known of it: its story goes on from all that was seen, and has a mark in one log.
ghost use Rattle.console_boards.specs.Views.{Keeps, Sees, informed, newcomer};

use crate::board::Board;
use crate::view::View;
use atomic_table::{Join, Split};
use crossbeam_utils::rule::{Outcome, Protocol};

/// The board's story goes on from what each reader has seen and was told of, and its mark is of that list, in the log of which each was told.
pub struct Grows;

impl Protocol<Board, View> for Grows {
    ghost holds = { λ b. Keeps (b.opening.value, b.list) b.mark };

    ghost first = { newcomer };
}

/// A look at the board: its story is seen.
pub(crate) struct Looks;

impl Outcome<Board, View> for Looks {
    ghost then = { λ v x y w. Sees v (y.opening.value, y.list) y.mark w };
}

/// What the writer has seen is told, and known to it still.
pub(crate) struct Notes;

impl Split<View> for Notes {
    ghost left = { λ v. v };

    ghost right = { λ v. v };
}

/// A reader takes in what was told.
pub(crate) struct Informs;

impl Join<View> for Informs {
    ghost both = { informed };

    ghost spent = { newcomer };
}

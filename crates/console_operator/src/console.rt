//! A console.
ghost use Rattle.std.specs.Prelude.{◌≡◌, length};
ghost use Rattle.console_operator.specs.Sights.{log_by};

use crate::sight::Sight;
use console_boards::BoardEntry;
use console_log::Mark;

/// A console: it submits orders, takes their answers, and looks at the board. It may go to a thread of its own.
#[derive(Drop)]
pub struct Console<O, R> {
    pub(crate) link: console_link::ConsoleRings<O, R>,
    pub(crate) sight: Sight,
    pub ghost log_is: { link.log ≡ log_by sight },
}

/// A console that has ended: it submits, takes and sees nothing more. It has a mark of the list that it saw last on the board, which is the longest.
#[derive(Drop)]
pub struct Finished<O, R> {
    pub link: console_link::FinishedRings<O, R>,
    pub mark: Mark<BoardEntry>,
    pub ghost counted: { link.seen ≡ length mark.entries },
    pub ghost log_is: { link.log ≡ mark.log },
}

mod asking;
mod ending;
mod looking;

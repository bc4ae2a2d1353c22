//! A console's reader of a board.
ghost use Rattle.std.specs.Prelude.{◌≡◌, Some, true};
ghost use Rattle.left_right.specs.Sides.{view};
ghost use Rattle.console_boards.specs.Stories.{seen_events, seen_list, is_seen_lawful, OpensAsTold};
ghost use Rattle.console_boards.specs.Replies.{after, allows};
ghost use Rattle.console_boards.specs.Marks.{log_in};

use crate::board::Board;
use crate::entry::BoardEntry;
use crate::rule::Grows;
use crate::view::View;
use console_log::Mark;
use left_right::reader::{Reader, Reading};

/// A reader of a board that isn't reading. It knows how many entries it saw last, and has a mark of them.
#[derive(Drop)]
pub struct BoardReader {
    pub(crate) reader: Reader<Board, View, Grows>,
    pub(crate) events: u64,
    pub(crate) mark: Mark<BoardEntry>,
    ghost counted: { events ≡ seen_events (view reader.place).seen },
    ghost marked: { mark.entries ≡ seen_list (view reader.place).seen },
    ghost log_is: { log_in (view reader.place).mark ≡ Some mark.log },
    ghost lawful: { is_seen_lawful after allows (view reader.place).seen ≡ true },
    ghost opens: { OpensAsTold (view reader.place).told (view reader.place).seen },
}

/// A reader with the board that it reads. While it is held, the owner can publish once; the next time it waits until this reader has left.
pub struct BoardReading {
    reading: Reading<Board, View, Grows>,
    ghost saw: { (view reading.place).seen ≡ Some (reading.part.value.opening.value, reading.part.value.list) },
    ghost marked: { reading.part.value.mark.entries ≡ reading.part.value.list },
    ghost log_is: { log_in (view reading.place).mark ≡ Some reading.part.value.mark.log },
    ghost opens: { OpensAsTold (view reading.place).told (view reading.place).seen },
}

impl Drop for BoardReading {
    fn drop(self) {
        let Self { reading } = self;
        drop(reading.leave());
    }
}

mod entering;

//! The owner's writer of a board.
ghost use Rattle.std.specs.Prelude.{◌≡◌, [], Some, false, drop, fold};
ghost use Rattle.left_right.specs.Sides.{view};
ghost use Rattle.console_boards.specs.Stories.{Begins};
ghost use Rattle.console_boards.specs.Marks.{operated, log_in};

use crate::board::Board;
use crate::entry::{BoardEntry, Operation};
use crate::rule::Grows;
use crate::view::View;
use console_log::{Log, Mark};
use left_right::writer::Writer;

/// The writer of a board, with a log of all that was laid by. End it by `end`, after each reader has left.
///
/// It is stuck once an entry was laid by that the log didn't take: then nothing more is laid by or published.
pub struct BoardWriter {
    writer: Writer<Board, Operation, View, Grows>,
    log: Log<BoardEntry>,
    /// A mark of the log before the first entry.
    opening: Mark<BoardEntry>,
    stuck: bool,
    ghost knows: { (view writer.desk.place).seen ≡ Some (writer.desk.shown.value.opening.value, writer.desk.shown.value.list) },
    ghost log_is: { log_in (view writer.desk.place).mark ≡ Some log.log },
    ghost mark_is: { writer.desk.shown.value.mark.log ≡ log.log },
    ghost opens: { (opening.log ≡ log.log) × (opening.entries ≡ []) },
    ghost begins: { Begins writer.desk.shown.value.list log.entries },
    ghost lays: { stuck ≡ false → fold operated (writer.desk.shown.value.opening.value, writer.desk.shown.value.list, writer.desk.shown.value.mark) (drop writer.behind writer.log.items) ≡ (writer.desk.shown.value.opening.value, log.entries, writer.desk.shown.value.mark) },
}

mod publishing;

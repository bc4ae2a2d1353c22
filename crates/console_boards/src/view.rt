use crate::entry::BoardEntry;
use crate::picture::Picture;
use base_trace::Trace;
use console_log::Mark;

/// What a reader or the writer knows of a board: the story that it saw last, the one that it was told of, and a mark in the log of the board. No value
/// of it is made.
pub struct View {
    pub seen: Option<(Picture, Trace<BoardEntry>)>,
    pub told: Option<(Picture, Trace<BoardEntry>)>,
    pub mark: Option<Mark<BoardEntry>>,
}

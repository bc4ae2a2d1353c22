//! The value that is shown.
ghost use Rattle.std.specs.Prelude.{◌≡◌, true, length, All};
ghost use Rattle.console_boards.specs.Stories.{shown, is_lawful};
ghost use Rattle.console_boards.specs.Replies.{after, allows};
ghost use Rattle.console_boards.specs.Counts.{count_of, consoles_in, reloads_in};

use crate::entry::BoardEntry;
use crate::picture::Picture;
use crate::tally::Tally;
use alarm_bank::Annunciator;
use base_trace::{Remembered, Trace};
use console_log::Mark;

/// The alarms of a plant after a list of entries, which contracts alone see. Each of the entries might come after those before it. It counts the reloads among
/// them, and the orders of the consoles of its opening picture.
#[derive(Drop)]
pub struct Board {
    panel: Annunciator,
    pub opening: Remembered<Picture>,
    pub list: Trace<BoardEntry>,
    events: u64,
    reloads: u64,
    tallies: Vec<Tally>,
    pub(crate) mark: Mark<BoardEntry>,
    ghost is_shown: { panel ≡ (shown after opening.value list).panel },
    ghost lawful: { is_lawful after allows opening.value list ≡ true },
    ghost all_counted: { events ≡ length list },
    ghost reloads_counted: { reloads ≡ reloads_in list },
    ghost each_counted: { All (λ t. t.orders ≡ count_of t.console list) tallies.items },
    ghost all_tallied: { consoles_in tallies.items ≡ opening.value.consoles },
}

mod looking;
mod taking;

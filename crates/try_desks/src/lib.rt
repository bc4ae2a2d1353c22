//! The desks of a control room: what an operator at a console orders by its board, in a thread of its own, and what comes back.
//!
//! A desk begins with a drill, a hundred orders that shelve and unshelve its own alarms. Then it goes by its board: it looks, acknowledges and resets
//! what waits in its areas, takes answers, and looks again, until the day is over. So it orders only what its board shows after the answers that it
//! took, and each alarm is acknowledged once.
//!
//! In the middle of the drill the plant may change. A desk tells the owner when the first half is answered, and once the owner waits, that some orders are
//! under way. Those are refused where they are taken after the change. The board shows the reload: from then on the desk has the lamps of the plant that
//! came, waits for the answers of all that it ordered before, and gives again what was refused.
//!
//! What an operator keeps of its answers is held against the journal (`notes`), whose orders are counted (`counts`).
//!
//! Nothing here owns a plant, a station or a journal. That what comes back are consoles of the same station is known by a promise of each thread.
//!
//! Layer try_: nothing of the product stands on it.
#![tactic(auto)]

mod counts;
mod duty;
mod endings;
mod laws;
mod notes;
mod post;
mod sends;
mod stand;
mod starts;
mod watch;

pub use counts::{Orders, count};
pub use endings::{Ended, join_all};
pub use laws::tellings_tell_apart;
pub use notes::{Note, Telling, are_told};
pub use post::{DRILL, Lamp, Plants, Post, is_outdated};
pub use sends::{archive_is_shared, console_goes, engine_is_shared, plant_is_shared};
pub use stand::Stint;
pub use starts::{Seat, Seated, seat_all};
pub use watch::Watch;

//! Two runs of a source's programs, side by side: the walk of the source, and a run in a second way, each over cells of its own. And the programs of a
//! source, run level by level, beside their runs one after another.
//!
//! The jobs of a level are run and gathered in an order drawn from dice, for the random sources of a seed (`push_seed`), or their runs are
//! handed over as a row names them (`push_level_row`). Nothing here is part of the server. Row programs use it to see that all ways end alike and leave the
//! same, scan by scan.
//!
//! Layer try_: nothing of the product stands on it.
#![tactic(auto)]

mod jobs;
mod levels;
mod random_scans;
mod ready;
mod rows;
mod scans;
mod seeds;
mod state;
mod twin;

pub use ready::{Unready, walker_of_sources};
pub use rows::push_level_row;
pub use scans::{Scanned, TwinScans};
pub use seeds::push_seed;
pub use try_walks::Walker;

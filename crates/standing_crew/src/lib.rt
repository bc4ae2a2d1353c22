//! A crew of workers that stand ready from one call to the next.
//!
//! The caller is one of the workers: it keeps some jobs to itself and hands out the others, runs its own, then takes back what nobody has begun,
//! and hears of the rest. What comes back is known by its type alone, so each run is held against what was handed out before the crew answers
//! Ok. The caller does so as runs come, between jobs, while others still run; of its own jobs it knows the runs.
//!
//! Layer base_: it must not know sources, alarms or files.
#![tactic(auto)]

mod gathered;
mod message;
mod share;
mod standing;
mod waiting;

pub use crew::{Begun, starts_of};
pub use gathered::assemble;
pub use standing::Standing;

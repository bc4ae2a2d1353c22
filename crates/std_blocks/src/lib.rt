//! The standard blocks of IEC 61131-3 that this profile has: the timers TON and TOF, and the edge detector R_TRIG.
//!
//! What a block gives is defined on the list of all its calls. The types here keep of that list only what later calls need: a
//! moment, a flag. Moments and times are in milliseconds. Nothing here allocates memory or can fail.
//!
//! Layer st_: it must not know cells, code, alarms or files.
#![tactic(auto)]

mod preset;
mod tof;
mod ton;
mod trig;

pub use tof::{Fall, TofState};
pub use ton::TonState;
pub use trig::TrigState;

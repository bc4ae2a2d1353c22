//! The cells of a plant that was changed while it ran, by those of the old one.
//!
//! Layer vm_: it must not know alarms, files or threads.
#![tactic(auto)]

mod carrying;
mod shapes;

pub use carrying::carry;
pub use vm_logic::{
    Framed, Stack, Walked, place_is_in_source, programs_share_no_cell, run, sound_source_is_small,
};

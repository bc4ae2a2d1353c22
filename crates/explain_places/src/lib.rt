//! Places in the texts of a plant, for people: where a cause stands, and how it is shown, with its file, line and column, and the line there with a mark.
//!
//! It promises that a place is that of the cause's first byte in the text of its file.
//!
//! Layer explain_: it must not know events or commands.
#![tactic(auto)]

mod place;
mod render;

pub use place::{TextPlace, mark_len, place_at, place_of, text_of};
pub use render::shown;

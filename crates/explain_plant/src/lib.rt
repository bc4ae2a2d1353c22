//! What a person is told when a plant is refused: the line of the refusal, and then the place, the line that stands there with a mark under what is wrong, a
//! sentence, and the page on which to read on; and further faults of the same stage that are certain, 20 at most. Of a plant that is accepted `warn` tells what
//! is likely to be wrong in it, with what a `Warner` saw while it was read.
//!
//! No plant is read again: what is wrong in the plant file (C1 to C3) and in the rows of the alarm database (C11 to C14) comes with the fault, as their readers
//! found it; explain_document and explain_rows tell it. What is wrong in sources is found by explain_sources (C4, C5), explain_bodies (C6 to C9) and
//! explain_limits (C10). Behind mistakes of sources those of rows are told too, as far as the globals are spelled rightly.
//!
//! Proved is that the text begins with the whole line of the refusal; that a word is told which is wrong is tried on examples.
//!
//! Layer explain_: it must not know events or commands.
#![tactic(auto)]

mod limits;
mod misplaced;
mod readable;
mod rows;
mod sources;
mod telling;
mod warnings;

pub use explain_files::{Shelf, Shelved};
pub use plant_folder::PlantTexts;
pub use telling::{explain_all, explain_from, explain_missing};
pub use warnings::{Warner, warn};

//! A plant from its files: where they are found, which texts they have, and the verdict on these: the plant or none, and the line that is due.
//!
//! Files are found in a `Folder`; `Disk` is that of the system. `fetch` reads the texts of a plant, `verdict` judges texts, and
//! `files_verdict` does both. A `Listener` hears why a plant is refused, or that it is accepted, with the very texts that were judged.
//!
//! Layer plant_: it must not know events or commands.
#![tactic(auto)]

mod folder;
mod listener;
mod texts;
mod verdicts;

pub use folder::{Disk, FileFault, Folder, PlantFiles};
pub use listener::{Deaf, Listener, PlantTexts};
pub use plant_config::{ConfigFault, Files, Plant};
pub use texts::{FetchFault, Fetched, SourceText, fetch};
pub use verdicts::{accepted_line, files_verdict, verdict};

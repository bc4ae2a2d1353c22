//! Plants that are served: a plant is read, from its texts or from its files, and its session served to the end of the input; or what there is
//! to say of its refusal is written.
//!
//! `admit`, `admit_from` and `check_from` tell what is said of a plant alone. `run` and `run_from` say in one clause what came of both. The crate stands above `serve_session`, whose sessions own neither a plant nor an engine,
//! and gives on all that a program needs to serve: feeds and sinks, folders and listeners, verdicts and faults.
//!
//! Layer serve_: it must not know consoles in threads, nor, but for `main`, what people are told.
#![tactic(auto)]

mod service;
mod verdict;

pub use base_streams::{Failed, Feed, Reading, Sink, Writing};
pub use plant_folder::{
    Deaf, Disk, FetchFault, Fetched, FileFault, Folder, Listener, PlantFiles, PlantTexts,
    SourceText, accepted_line, fetch,
};
pub use serve_faults::{ServeFault, put_all};
pub use serve_session::{Session, Step, out_text_is_one, requests_end, serve};
pub use service::{Ends, RunEnd, run, run_from};
pub use verdict::{admit, admit_from, check_from};

//! Where bytes come from and where they go: feeds and sinks, and std's readers and writers as such.
//!
//! Of each it is told whether a read or a write has failed, and which bytes it gave or took, where these are known.
//!
//! Layer base_: it must not know sources, alarms or files.
#![tactic(auto)]

mod pieces;
mod streams;

pub use pieces::{empty_piece, fill};
pub use streams::{Failed, Feed, Reading, Sink, Writing};

//! The requests of an input: what a request is in a stream of bytes, and how pieces of the stream become requests.
//!
//! A request is a line, and behind the line of a well-formed `reload` as many bytes as it tells of. Which requests an input has is a definition on
//! bytes (`requests_of`); a `Splitter` takes the input in pieces, which may end anywhere, and gives these requests one after another.
//!
//! Layer serve_: it must not know consoles in threads, nor, but for `main`, what people are told.
#![tactic(auto)]

mod laws;
mod lines;
mod splitter;

pub use laws::requests_end;
pub use splitter::{Ended, Held, Splitter, Taken};

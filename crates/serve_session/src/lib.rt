//! The sessions of a server: it reads requests, and answers each before it looks at the next.
//!
//! What it may write for an input is a definition on bytes (`IsOutText`): how they become requests, and what each may be answered. It is one
//! text, but for the place of a C5 (by the law `out_text_is_one`). `serve` is proved to write exactly that, for every crew that runs the programs, every feed
//! and every sink; `Session::step` is one read of it. A session is lent its engine; `serve_runs`, above it, reads a plant and serves it to
//! the end of the input.
//!
//! Layer serve_: it must not know consoles in threads, nor, but for `main`, what people are told.
#![tactic(auto)]

mod laws;
mod reload;
mod room;
mod session;

pub use base_streams::{Failed, Feed, Reading, Sink, Writing};
pub use laws::out_text_is_one;
pub use serve_answers::{Crew, Done, Engine, Job, Start};
pub use serve_faults::{ServeFault, put_all};
pub use serve_requests::requests_end;
pub use session::{Session, Step, serve};

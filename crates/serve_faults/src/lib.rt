//! Why a server stops before its input has ended, and how a text is written whole.
//!
//! Layer serve_: it must not know consoles in threads, nor, but for `main`, what people are told.
#![tactic(auto)]

mod fault;
mod writing;

pub use fault::ServeFault;
pub use writing::put_all;

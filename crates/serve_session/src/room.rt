//! Room for answers.

use serve_lines::Pool;
use std::alloc::Global;

/// Room for an answer and for the pairs of a scan, which each request uses again, and the memory from which answers take more.
#[derive(Drop)]
pub(crate) struct Room {
    pub(crate) alloc: Global,
    pub(crate) text: Vec<u8>,
    pub(crate) pool: Pool,
}

impl Room {
    /// Room before the first request: none.
    pub(crate) fn new(alloc: Global) -> Room {
        Room {
            alloc,
            text: Vec::new(alloc),
            pool: Pool::new(alloc),
        }
    }
}

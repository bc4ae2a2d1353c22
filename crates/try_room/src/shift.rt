//! What a shift has beside the station: its script, what owner and consoles tell each other, the owner's events, and the text of the report.

use crate::events::Events;
use std::alloc::{AllocError, Global};
use std::sync::Arc;
use try_desks::Watch;
use try_text::Page;

/// What a shift has beside the station.
#[derive(Drop)]
pub struct Shift {
    pub script: String,
    pub watch: Arc<Watch>,
    pub events: Events,
    pub page: Page,
}

impl Shift {
    /// A shift that begins.
    pub fn new(alloc: Global, script: String, watch: Arc<Watch>) -> Shift {
        Shift {
            script,
            watch,
            events: Events::new(alloc),
            page: Page::new(alloc),
        }
    }
    /// What there is to tell of the shift, which ends. Fails where memory was refused for a part of it.
    pub fn told(self) -> Result<Vec<u8>, AllocError> {
        let Shift { page, .. } = self;
        page.end()
    }
}

//! The sources of a plant that is served, kept for whoever looks on.

use explain_statements::told_of_fault;
use serve_runs::PlantTexts;
use std::alloc::{AllocError, Global};
use std::cell::Cell;

/// Copies of the names and texts of a plant's sources, which are let go before it is served.
#[derive(Drop)]
struct Copies {
    path: String,
    sources: Vec<(String, Vec<u8>)>,
}

/// Copies of the names and texts of sources.
fn copied(alloc: Global, sources: &[(&str, &[u8])]) -> Result<Vec<(String, Vec<u8>)>, AllocError> {
    let mut copies = Vec::new(alloc);
    for source in sources {
        let name = String::from_str(alloc, source.0)?;
        let text = Vec::from_slice(alloc, source.1)?;
        copies.push((name, text))?;
    }
    Ok(copies)
}

/// The names and texts of copies, lent.
fn lent(alloc: Global, copies: &[(String, Vec<u8>)]) -> Result<Vec<(&str, &[u8])>, AllocError> {
    let mut sources = Vec::new(alloc);
    for copy in copies {
        sources.push((copy.0.as_str(), copy.1.as_slice()))?;
    }
    Ok(sources)
}

/// The sources of the plant that is served, and those of an accepted one that may take its place. Where memory was refused for them there are none.
#[derive(Drop)]
pub struct KeptSources {
    present: Cell<Option<Copies>>,
    next: Cell<Option<Copies>>,
}

impl KeptSources {
    /// None.
    pub fn new() -> KeptSources {
        KeptSources {
            present: Cell::new(None),
            next: Cell::new(None),
        }
    }

    /// Keeps the sources of an accepted plant, which may come to be served.
    pub fn keep(&self, alloc: Global, texts: &PlantTexts<'_>) {
        self.next.set(Copies::of(alloc, texts).ok());
    }

    /// The plant that was accepted last is the one that is served.
    pub fn take_place(&self) {
        self.present.set(self.next.take());
    }

    /// What a person is told of a line FAULT: where its statement stands. `None` where the sources aren't kept, or memory is refused.
    pub fn told_of_fault(&self, alloc: Global, line: &str) -> Option<String> {
        let copies = self.present.take()?;
        let told = copies.told_of_fault(alloc, line).ok();
        self.present.set(Some(copies));
        told
    }
}

impl Copies {
    /// Copies of sources.
    fn of(alloc: Global, texts: &PlantTexts<'_>) -> Result<Copies, AllocError> {
        let path = String::from_str(alloc, texts.path)?;
        let sources = copied(alloc, texts.sources)?;
        Ok(Copies { path, sources })
    }

    /// What a person is told of a line FAULT: where its statement stands.
    fn told_of_fault(&self, alloc: Global, line: &str) -> Result<String, AllocError> {
        let sources = lent(alloc, self.sources.as_slice())?;
        let texts = PlantTexts {
            path: self.path.as_str(),
            plant: b"",
            sources: sources.as_slice(),
            alarms: b"",
        };
        told_of_fault(alloc, &texts, line)
    }
}

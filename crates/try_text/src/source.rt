use crate::spelling::push_line;
use std::alloc::{AllocError, Global};

/// A source that a table gives line by line. In place of a line `..` stands the text of a row.
#[derive(Drop)]
pub struct Source {
    before: Vec<u8>,
    after: Vec<u8>,
    has_gap: bool,
}

impl Source {
    /// The source without lines.
    pub fn new(alloc: Global) -> Source {
        Source {
            before: Vec::new(alloc),
            after: Vec::new(alloc),
            has_gap: false,
        }
    }

    /// Whether it has a line `..`.
    pub fn has_gap(&self) -> bool {
        self.has_gap
    }

    /// Its bytes, up to a line `..`.
    pub fn as_slice(&self) -> &[u8] {
        self.before.as_slice()
    }

    /// Adds a line.
    pub fn add(&mut self, line: &str) -> Result<(), AllocError> {
        if line == ".." {
            self.has_gap = true;
            return Ok(());
        }
        let text = if self.has_gap {
            &mut self.after
        } else {
            &mut self.before
        };
        push_line(text, line)
    }

    /// Its bytes, with a line in place of its line `..`.
    pub fn with(&self, alloc: Global, line: &str) -> Result<Vec<u8>, AllocError> {
        let mut text = Vec::from_slice(alloc, self.before.as_slice())?;
        push_line(&mut text, line)?;
        text.extend_from_slice(self.after.as_slice())?;
        Ok(text)
    }
}

/// A file and its name.
#[derive(Drop)]
pub struct File {
    pub name: String,
    pub source: Source,
}

impl File {
    /// The file without lines.
    pub fn new(alloc: Global, name: &str) -> Result<File, AllocError> {
        Ok(File {
            name: String::from_str(alloc, name)?,
            source: Source::new(alloc),
        })
    }

    /// Its bytes, with a line in place of its line `..`.
    pub fn text(&self, alloc: Global, given: &str) -> Result<Vec<u8>, AllocError> {
        if self.source.has_gap() {
            return self.source.with(alloc, given);
        }
        Vec::from_slice(alloc, self.source.as_slice())
    }
}

/// Whether one of files has a line `..`.
pub fn have_gap(files: &[File]) -> bool {
    for file in files {
        if file.source.has_gap() {
            return true;
        }
    }
    false
}

use std::alloc::{AllocError, Global};

/// A text that is added to. Where memory is refused for a part, that part is missing, and the page says so at its end: so nobody who adds to it
/// has to answer for memory.
#[derive(Drop)]
pub struct Page {
    alloc: Global,
    text: Vec<u8>,
    is_short: bool,
}

impl Page {
    /// The page without a text.
    pub fn new(alloc: Global) -> Page {
        Page {
            alloc,
            text: Vec::new(alloc),
            is_short: false,
        }
    }

    /// Adds bytes.
    pub fn add_bytes(&mut self, bytes: &[u8]) {
        if self.text.extend_from_slice(bytes).is_err() {
            self.is_short = true;
        }
    }

    /// Adds a text.
    pub fn add(&mut self, text: &str) {
        self.add_bytes(text.as_bytes());
    }

    /// Adds a number.
    pub fn add_number(&mut self, number: i128) {
        match number.to_string(self.alloc) {
            Ok(digits) => self.add(digits.as_str()),
            Err(_) => self.is_short = true,
        }
    }

    /// Adds a blank and a word.
    pub fn word(&mut self, word: &str) {
        self.add(" ");
        self.add(word);
    }

    /// Adds a blank and a number.
    pub fn number(&mut self, number: i128) {
        self.add(" ");
        self.add_number(number);
    }

    /// Adds a blank and a truth.
    pub fn truth(&mut self, truth: bool) {
        self.word(if truth { "TRUE" } else { "FALSE" });
    }

    /// Adds a line.
    pub fn line(&mut self, line: &str) {
        self.add(line);
        self.add("\n");
    }

    /// Adds a text, unless memory was refused for it.
    pub fn add_made(&mut self, made: Result<String, AllocError>) {
        match made {
            Ok(text) => self.add(text.as_str()),
            Err(_) => self.is_short = true,
        }
    }

    /// Memory was refused for a part.
    pub fn refuse(&mut self) {
        self.is_short = true;
    }

    /// Whether memory was refused for a part.
    pub fn is_short(&self) -> bool {
        self.is_short
    }

    /// The text so far.
    pub fn as_slice(&self) -> &[u8] {
        self.text.as_slice()
    }

    /// The whole text. Fails if memory was refused for a part.
    pub fn end(self) -> Result<Vec<u8>, AllocError> {
        if self.is_short {
            return Err(AllocError);
        }
        Ok(self.text)
    }
}

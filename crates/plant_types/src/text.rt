ghost use Rattle.std.specs.Prelude.{◌≡◌, IfOk, string_bytes};

use std::alloc::{AllocError, Global};
use std::marker::Model;

/// A text, such as a name. Contracts see its bytes.
pub struct Text {
    text: String,
    at: u32,
}

impl Drop for Text {
    fn drop(self) {
        let Text { text: _, at: _ } = self;
    }
}

impl Model for Text {
    ghost use Rattle.std.specs.Prelude.{List, ℕ, string_bytes};

    ghost Value = { List ℕ };

    ghost view = { λ s. string_bytes s.text };
}

impl Text {
    /// Makes a text of a string.
    pub fn new(text: String) -> Text
        ensures { result ≡ string_bytes text }
    {
        Text { text, at: 0 }
    }

    /// Copies a string slice.
    pub fn from_str(alloc: Global, text: &str) -> Result<Text, AllocError>
        ensures { IfOk result (λ t. t ≡ text.now) }
    {
        Ok(Text {
            text: String::from_str(alloc, text)?,
            at: 0,
        })
    }

    /// Copies the text.
    pub fn copy(&self, alloc: Global) -> Result<Text, AllocError>
        ensures { IfOk result (λ t. t ≡ self.now) }
    {
        let copy = Text::from_str(alloc, self.as_str())?;
        Ok(copy.placed(self.at))
    }

    /// The same text, which stands at a byte of its source.
    pub fn placed(self, at: u32) -> Text
        ensures { result ≡ self }
    {
        let Text { text, at: _ } = self;
        Text { text, at }
    }

    /// The byte of its source at which it stands.
    pub fn at(&self) -> u32 {
        self.at
    }

    /// The text's bytes.
    pub fn as_bytes(&self) -> &[u8]
        ensures { result.now ≡ self.now }
    {
        self.text.as_bytes()
    }

    /// The text as a string slice.
    pub fn as_str(&self) -> &str
        ensures { result.now ≡ self.now }
    {
        self.text.as_str()
    }
}

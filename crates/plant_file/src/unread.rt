//! Where bytes aren't a TOML document any more, and why: for a person.

use std::marker::Model;
use std::str;
use toml::de::Error;

/// Why bytes are no TOML document, as the reader of the document found it. Contracts see nothing of it.
#[derive(Drop)]
pub struct Unread {
    error: Option<Error>,
    at: usize,
    until: usize,
}

impl Model for Unread {
    ghost use Rattle.std.specs.Prelude.{⊤};

    ghost Value = { ⊤ };

    ghost view = { λ _. tt };
}

impl Unread {
    /// For bytes that aren't UTF-8.
    pub(crate) fn not_utf8(bytes: &[u8]) -> Unread {
        let at = match str::from_utf8(bytes) {
            Ok(_) => bytes.len(),
            Err(error) => error.valid_up_to(),
        };
        Unread {
            error: None,
            at,
            until: at,
        }
    }

    /// For a text that the reader of documents refuses.
    pub(crate) fn of(error: Error) -> Unread {
        let (at, until) = match error.span() {
            Some(span) => (span.start, span.end),
            None => (0, 0),
        };
        Unread {
            error: Some(error),
            at,
            until,
        }
    }

    /// The bytes that are wrong, from one number to before another.
    pub fn bytes(&self) -> (usize, usize) {
        (self.at, self.until)
    }

    /// What the reader of documents says; `None` where the bytes aren't UTF-8.
    pub fn message(&self) -> Option<&str> {
        match &self.error {
            Some(error) => Some(error.message()),
            None => None,
        }
    }
}

//! Pieces of an input become requests.

ghost use Rattle.std.specs.Prelude.{◌≡◌, ◌++◌, ◌-◌, ◌<◌, [], ◌∷◌, List, ℕ, length, take, IfOk, OnOk, OnErr, true, false};
ghost use Rattle.serve_requests.specs.Requests.{has_lf, request_of, last_request};
ghost use Rattle.serve_requests.specs.Splitting.{IsHeld, Takes, TakesPart, AskAlike, held_requests};

use crate::lines::{split_at_lf, without_cr};
use serve_lines::{reload_size, reload_sizes};
use std::alloc::{AllocError, Global};
use std::marker::Model;
use std::mem::replace;

/// How many bytes of a line are held at most: those of the longest line, one that shows that it is too long, and a CR.
const MOST_HELD: usize = 1_048_578;

/// A request of which bytes were held until it ended. Contracts see the bytes: of a line that is too long the first ones alone, with its LF.
pub struct Held {
    bytes: Vec<u8>,
}

impl Drop for Held {
    fn drop(self) {
        let Held { bytes: _ } = self;
    }
}

impl Model for Held {
    ghost use Rattle.std.specs.Prelude.{ℕ, List};

    ghost Value = { List ℕ };

    ghost view = { λ h. h.bytes.items };
}

impl Held {
    /// The line of the request, without its line end, and the bytes after it.
    pub fn request(&self) -> (&[u8], &[u8])
        ensures { request_of self.now ≡ record { line = result.0.now; body = result.1.now } }
    {
        let bytes = self.bytes.as_slice();
        match split_at_lf(bytes) {
            Some((line, body)) => (without_cr(line), body),
            None => (bytes, b""),
        }
    }
}

/// What ended with bytes that were taken.
#[derive(Drop)]
pub enum Ended<'a> {
    /// No request: the one that has begun goes on.
    Nothing,
    /// A request that is a line alone, and no `reload`. All of the line lies in these bytes: it is lent, without its line end.
    Line(&'a [u8]),
    /// A request of which bytes were held.
    Held(Held),
}

/// What ended with a first part of bytes, and what is left of them.
#[derive(Drop)]
pub struct Taken<'a> {
    pub ended: Ended<'a>,
    pub rest: &'a [u8],
}

/// Holds more bytes of a line, as many as there is room for up to `MOST_HELD`.
fn hold(held: &mut Vec<u8>, bytes: &[u8]) -> Result<(), AllocError>
    ensures ok { OnOk result
        (held.new.items ≡ held.old.items ++ take (1048578 - length held.old.items) bytes.now) }
    ensures err { OnErr result (held.new.items ≡ held.old.items) }
{
    let room = MOST_HELD.saturating_sub(held.len());
    if bytes.len() <= room {
        return held.extend_from_slice(bytes);
    }
    let (kept, _) = bytes.split_at(room);
    held.extend_from_slice(kept)
}

/// Splits an input into requests. It takes the input in pieces, and holds the bytes of a request that hasn't ended yet. Contracts see these bytes.
pub struct Splitter {
    alloc: Global,
    held: Vec<u8>,
    /// How many bytes are missing of what the line that is held tells of. In a line none is known to be.
    missing: usize,
}

impl Drop for Splitter {
    fn drop(self) {
        let Splitter {
            alloc: _,
            held: _,
            missing: _,
        } = self;
    }
}

impl Model for Splitter {
    ghost use Rattle.std.specs.Prelude.{ℕ, List};
    ghost use Rattle.serve_requests.specs.Missing.{AreMissing};

    ghost Value = { List ℕ };

    ghost view = { λ s. s.held.items };

    ghost invariant = { λ s. AreMissing s.held.items s.missing };
}

impl Splitter {
    /// A splitter before the first piece.
    pub fn new(alloc: Global) -> Splitter
        ensures { result ≡ [] }
    {
        Splitter {
            alloc,
            held: Vec::new(alloc),
            missing: 0,
        }
    }

    /// Takes the bytes of a line up to its LF, and the LF.
    fn take_line<'a>(&mut self, line: &'a [u8]) -> Result<Ended<'a>, AllocError>
        requires in_line { has_lf self.old ≡ false }
        requires lf { has_lf line.now ≡ false }
        ensures { IfOk result (λ ended. (begun : List ℕ) → IsHeld begun self.old
            → Takes begun (line.now ++ 10 ∷ []) ended self.new) }
    {
        if self.held.is_empty() {
            let bare = without_cr(line);
            if reload_sizes(bare).is_none() {
                return Ok(Ended::Line(bare));
            }
        }
        hold(&mut self.held, line)?;
        let size = reload_size(without_cr(self.held.as_slice()));
        self.held.reserve(size.saturating_add(1))?;
        self.held.push(b'\n')?;
        if size > 0 {
            self.missing = size;
            return Ok(Ended::Nothing);
        }
        let bytes = replace(&mut self.held, Vec::new(self.alloc));
        Ok(Ended::Held(Held { bytes }))
    }

    /// Takes what is missing of a body, or all bytes where these are fewer.
    fn take_body<'a>(&mut self, bytes: &'a [u8]) -> Result<Taken<'a>, AllocError>
        requires in_body { has_lf self.old ≡ true }
        requires some { 0 < length bytes.now }
        ensures { IfOk result (λ t. TakesPart self.old bytes.now t.ended t.rest.now self.new) }
    {
        let (part, rest) = bytes.split_at(self.missing.min(bytes.len()));
        self.held.extend_from_slice(part)?;
        if part.len() < self.missing {
            self.missing -= part.len();
            return Ok(Taken {
                ended: Ended::Nothing,
                rest,
            });
        }
        self.missing = 0;
        let bytes = replace(&mut self.held, Vec::new(self.alloc));
        Ok(Taken {
            ended: Ended::Held(Held { bytes }),
            rest,
        })
    }

    /// Takes a first part of bytes: what is missing of a body, a line with its LF, or all bytes of a line that goes on. After an error the splitter is
    /// of no more use.
    pub fn take<'a>(&mut self, bytes: &'a [u8]) -> Result<Taken<'a>, AllocError>
        requires some { 0 < length bytes.now }
        ensures { IfOk result (λ t. TakesPart self.old bytes.now t.ended t.rest.now self.new) }
    {
        if self.missing > 0 {
            return self.take_body(bytes);
        }
        if let Some((line, rest)) = split_at_lf(bytes) {
            let ended = self.take_line(line)?;
            return Ok(Taken { ended, rest });
        }
        hold(&mut self.held, bytes)?;
        let (_, rest) = bytes.split_at(bytes.len());
        Ok(Taken {
            ended: Ended::Nothing,
            rest,
        })
    }

    /// The request that the end of the input ends: what was held, which may be a line without its LF, or a body that is too short; `None` where nothing
    /// was. Nothing is held then.
    pub fn end(&mut self) -> Option<Held>
        ensures last { (begun : List ℕ) → IsHeld begun self.old
            → AskAlike (held_requests result) (last_request begun) }
        ensures held { self.new ≡ [] }
    {
        if self.held.is_empty() {
            return None;
        }
        self.missing = 0;
        let bytes = replace(&mut self.held, Vec::new(self.alloc));
        Some(Held { bytes })
    }
}

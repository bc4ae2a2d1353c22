ghost use Rattle.std.specs.Prelude.{◌≡◌, ◌<◌, ◌≤◌, ◌||◌, ℕ, List, Option, Bool, false, length, IfOk, is_err};
ghost use Rattle.std.specs.Io.KnownBytes.{ReadConsumes, WriteAppends};

use std::io::{self, Read, Write};
use std::marker::Model;

/// The error of a read or a write that failed.
#[derive(Clone, Copy, Drop)]
pub struct Failed;

/// A source of bytes.
pub trait Feed {
    /// The bytes that are still to come, where they are known.
    ghost remaining: { Self → Option (List ℕ) };

    /// Whether a read has failed.
    ghost broken: { Self → Bool };

    /// Reads the next bytes to the front of the buffer, and returns how many: 0 only at the end, or where the buffer is empty.
    /// Only an error makes `failed` true.
    fn read(&mut self, buf: &mut [u8]) -> Result<usize, Failed>
        ensures bound { IfOk result (λ n. n ≤ length buf.new) }
        ensures bytes { ReadConsumes (remaining self.old) (remaining self.new) result buf.new }
        ensures broken { broken self.new ≡ (broken self.old || is_err result) };

    /// Returns whether a read has failed.
    fn failed(&self) -> bool
        ensures { result ≡ broken self.now };
}

/// A destination of bytes.
pub trait Sink {
    /// The bytes that were written, where they are known.
    ghost written: { Self → Option (List ℕ) };

    /// Whether a write has failed.
    ghost broken: { Self → Bool };

    /// Writes bytes from the front of the buffer, and returns how many: at least one, unless the buffer is empty.
    /// Only an error makes `failed` true.
    fn write(&mut self, buf: &[u8]) -> Result<usize, Failed>
        ensures bound { IfOk result (λ n. n ≤ length buf.now) }
        ensures some { IfOk result (λ n. 0 < length buf.now → 0 < n) }
        ensures bytes { WriteAppends (written self.old) (written self.new) result buf.now }
        ensures broken { broken self.new ≡ (broken self.old || is_err result) };

    /// Returns whether a write has failed.
    fn failed(&self) -> bool
        ensures { result ≡ broken self.now };
}

/// A reader of std, as a feed.
#[derive(Drop)]
pub struct Reading<R: Read + Drop> {
    from: R,
    broken: bool,
    error: Option<io::Error>,
}

impl<R: Read + Drop> Model for Reading<R> {
    ghost use Rattle.base_streams.specs.Streams.{PlainReading};

    ghost Value = { PlainReading R };

    ghost view = { λ s. record { from = s.from; broken = s.broken } };
}

impl<R: Read + Drop> Reading<R> {
    /// Makes a feed of a reader; no read has failed yet.
    pub fn new(from: R) -> Reading<R>
        ensures from { result.from ≡ from }
        ensures whole { result.broken ≡ false }
    {
        Reading {
            from,
            broken: false,
            error: None,
        }
    }

    /// Returns the reader.
    pub fn get_ref(&self) -> &R
        ensures { result.now ≡ self.now.from }
    {
        &self.from
    }

    /// Returns the reader's last error, for a person. There is none unless a read has failed.
    pub fn error(&self) -> Option<io::Error> {
        self.error
    }
}

impl<R: Read + Drop> Feed for Reading<R> {
    ghost remaining = { λ s. R.remaining s.from };

    ghost broken = { λ s. s.broken };

    fn read(&mut self, buf: &mut [u8]) -> Result<usize, Failed> {
        match self.from.read(buf) {
            Ok(n) => Ok(n),
            Err(error) => {
                self.broken = true;
                self.error = Some(error);
                Err(Failed)
            }
        }
    }

    fn failed(&self) -> bool {
        self.broken
    }
}

/// A writer of std, as a sink. A write of 0 bytes of a buffer that isn't empty is an error.
#[derive(Drop)]
pub struct Writing<W: Write + Drop> {
    to: W,
    broken: bool,
    error: Option<io::Error>,
}

impl<W: Write + Drop> Model for Writing<W> {
    ghost use Rattle.base_streams.specs.Streams.{PlainWriting};

    ghost Value = { PlainWriting W };

    ghost view = { λ s. record { to = s.to; broken = s.broken } };
}

impl<W: Write + Drop> Writing<W> {
    /// Makes a sink of a writer; no write has failed yet.
    pub fn new(to: W) -> Writing<W>
        ensures to { result.to ≡ to }
        ensures whole { result.broken ≡ false }
    {
        Writing {
            to,
            broken: false,
            error: None,
        }
    }

    /// Returns the writer.
    pub fn get_ref(&self) -> &W
        ensures { result.now ≡ self.now.to }
    {
        &self.to
    }

    /// Returns the writer's last error, for a person. There is none unless a write has failed, nor where one took nothing.
    pub fn error(&self) -> Option<io::Error> {
        self.error
    }

    /// Gives the writer back.
    pub fn into_inner(self) -> W
        ensures { result ≡ self.to }
    {
        self.to
    }
}

impl<W: Write + Drop> Sink for Writing<W> {
    ghost written = { λ s. W.contents s.to };

    ghost broken = { λ s. s.broken };

    fn write(&mut self, buf: &[u8]) -> Result<usize, Failed> {
        match self.to.write(buf) {
            Ok(n) => {
                if n == 0 && !buf.is_empty() {
                    self.broken = true;
                    return Err(Failed);
                }
                Ok(n)
            }
            Err(error) => {
                self.broken = true;
                self.error = Some(error);
                Err(Failed)
            }
        }
    }

    fn failed(&self) -> bool {
        self.broken
    }
}

//! A text is written whole.

ghost use Rattle.std.specs.Prelude.{◌≡◌, ◌++◌, ◌||◌, IfErr, OnOk, OnErr, List, ℕ, false};
ghost use Rattle.std.specs.Io.KnownBytes.{Appends};
ghost use Rattle.serve_faults.specs.Faults.{is_crew, is_read, is_write};

use crate::fault::ServeFault;
use base_streams::Sink;

/// Writes all of a text. Fails only if a write fails.
pub fn put_all<S: Sink>(sink: &mut S, text: &[u8]) -> Result<(), ServeFault>
    ensures ok { OnOk result (Appends (S.written sink.old) (S.written sink.new) text.now) }
    ensures err { OnErr result
        ((part : List ℕ) × (more : List ℕ) × (text.now ≡ part ++ more)
        × Appends (S.written sink.old) (S.written sink.new) part) }
    ensures fault { IfErr result (λ e. e ≡ ServeFault.Write) }
    ensures read { is_read result ≡ false }
    ensures crew { is_crew result ≡ false }
    ensures write { S.broken sink.new ≡ (S.broken sink.old || is_write result) }
{
    let mut rest = text;
    while !rest.is_empty() {
        let Ok(n) = sink.write(rest) else {
            return Err(ServeFault::Write);
        };
        let (_, after) = rest.split_at(n);
        rest = after;
    }
    Ok(())
}

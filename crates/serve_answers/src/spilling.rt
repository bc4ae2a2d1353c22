//! The answers to `list` and to `journal`, written as they are made: however long they are, only about 64 KB of them are held.

ghost use Rattle.std.specs.Prelude.{◌≡◌, ◌++◌, ◌||◌, ◌<◌, ◌≤◌, ◌^◌, length, false, IfOk, OnOk, OnErr};
ghost use Rattle.std.specs.Io.KnownBytes.{Appends};
ghost use Rattle.serve_lines.specs.Lines.{end_line};
ghost use Rattle.engine.specs.Engines.{state_of};
ghost use Rattle.engine.specs.Journal.{journal_of};
ghost use Rattle.serve_faults.specs.Begun.{IsBegun};
ghost use Rattle.serve_faults.specs.Faults.{is_crew, is_read, is_write};
ghost use Rattle.serve_answers.specs.Listings.{text_of, half_total, half_lines_of, half_lines, list_text, journal_body, journal_text, HasListed, IsPassed, HasPassed};

use crate::listings::{push_area, push_numbered, push_shown, row_total};
use base_streams::Sink;
use engine::{Engine, Plant};
use serve_faults::{ServeFault, put_all};
use serve_lines::push_end;
use std::alloc::{AllocError, Global};

/// How many bytes of an answer are held before they are written.
const FULL: usize = 65_536;

/// Writes what is held of an answer where it is much, and holds it no longer. Fails only if a write failed.
fn spill<S: Sink>(sink: &mut S, text: &mut Vec<u8>) -> Result<(), ServeFault>
    ensures ok { OnOk result
        (IsPassed (S.written sink.old) (S.written sink.new) text.old.items text.new.items) }
    ensures held { OnOk result (length text.new.items < 65536) }
    ensures err { OnErr result (IsBegun (S.written sink.old) (S.written sink.new) text.old.items) }
    ensures read { is_read result ≡ false }
    ensures crew { is_crew result ≡ false }
    ensures write { S.broken sink.new ≡ (S.broken sink.old || is_write result) }
{
    if text.len() < FULL {
        return Ok(());
    }
    put_all(sink, text.as_slice())?;
    text.clear();
    Ok(())
}

/// Writes what is held of an answer, and after it the END line for so many lines. Fails if memory was refused or a write failed.
fn write_end<S: Sink>(sink: &mut S, text: &mut Vec<u8>, lines: u64) -> Result<(), ServeFault>
    ensures ok { OnOk result
        (Appends (S.written sink.old) (S.written sink.new) (text.old.items ++ end_line lines)) }
    ensures err { OnErr result
        (IsBegun (S.written sink.old) (S.written sink.new) (text.old.items ++ end_line lines)) }
    ensures read { is_read result ≡ false }
    ensures crew { is_crew result ≡ false }
    ensures write { S.broken sink.new ≡ (S.broken sink.old || is_write result) }
{
    push_end(text, lines)?;
    put_all(sink, text.as_slice())
}

/// A half of the list of alarms.
#[derive(Clone, Copy, Drop)]
pub(crate) enum Half {
    /// The STATE lines, by alarms.
    States,
    /// The COUNT lines, by areas.
    Counts,
}

impl Half {
    /// How many numbers it has lines for: those of the alarms, or of the areas.
    fn total(self, plant: &Plant) -> u32
        ensures { result ≡ half_total plant.now self }
    {
        match self {
            Half::States => plant.alarms(),
            Half::Counts => plant.areas(),
        }
    }

    /// Appends the lines that it has for a number, and returns how many there are.
    fn push(self, text: &mut Vec<u8>, engine: &Engine, number: u32) -> Result<u64, AllocError>
        requires { number < half_total (state_of engine.now).plant self }
        ensures listed { IfOk result (λ n. HasListed text.old.items text.new.items n
            (half_lines_of (state_of engine.now) self number)) }
        ensures few { IfOk result (λ n. n ≤ 36) }
    {
        match self {
            Half::States => push_shown(text, engine, number),
            Half::Counts => push_area(text, engine.plant(), engine.summary(), number),
        }
    }
}

/// Writes the lines of a half of the list after what is held, and returns how many there are; the last of them are held.
fn write_half<S: Sink>(
    engine: &Engine,
    sink: &mut S,
    text: &mut Vec<u8>,
    half: Half,
) -> Result<u64, ServeFault>
    ensures ok { IfOk result (λ n. HasPassed (S.written sink.old) (S.written sink.new) text.old.items
        text.new.items n (half_lines (state_of engine.now) half)) }
    ensures few { IfOk result (λ n. n < 2 ^ 40) }
    ensures held { OnOk result (length text.old.items < 65536 → length text.new.items < 65536) }
    ensures err { OnErr result
        (IsBegun (S.written sink.old) (S.written sink.new)
        (text.old.items ++ text_of (half_lines (state_of engine.now) half))) }
    ensures read { is_read result ≡ false }
    ensures crew { is_crew result ≡ false }
    ensures write { S.broken sink.new ≡ (S.broken sink.old || is_write result) }
{
    let mut lines: u64 = 0;
    for number in 0..half.total(engine.plant()) {
        lines += half.push(text, engine, number)?;
        spill(sink, text)?;
    }
    Ok(lines)
}

/// Writes the answer to `list`, with room for what is held of it. Fails if memory was refused or a write failed.
pub fn write_list<S: Sink>(
    engine: &Engine,
    sink: &mut S,
    text: &mut Vec<u8>,
) -> Result<(), ServeFault>
    ensures ok { OnOk result
        (Appends (S.written sink.old) (S.written sink.new) (list_text (state_of engine.now))) }
    ensures err { OnErr result
        (IsBegun (S.written sink.old) (S.written sink.new) (list_text (state_of engine.now))) }
    ensures read { is_read result ≡ false }
    ensures crew { is_crew result ≡ false }
    ensures write { S.broken sink.new ≡ (S.broken sink.old || is_write result) }
{
    text.clear();
    let states = write_half(engine, sink, text, Half::States)?;
    let counts = write_half(engine, sink, text, Half::Counts)?;
    write_end(sink, text, states + counts)
}

/// Writes the lines of the journal's rows, of which there are so many, after what is held; the last of them are held.
fn write_rows<S: Sink>(
    alloc: Global,
    engine: &Engine,
    sink: &mut S,
    text: &mut Vec<u8>,
    rows: u64,
) -> Result<(), ServeFault>
    requires { rows ≡ length (journal_of engine.now.plant engine.now.history) }
    ensures ok { OnOk result
        (IsPassed (S.written sink.old) (S.written sink.new)
        (text.old.items ++ journal_body engine.now.plant engine.now.history) text.new.items) }
    ensures held { OnOk result (length text.old.items < 65536 → length text.new.items < 65536) }
    ensures err { OnErr result
        (IsBegun (S.written sink.old) (S.written sink.new)
        (text.old.items ++ journal_body engine.now.plant engine.now.history)) }
    ensures read { is_read result ≡ false }
    ensures crew { is_crew result ≡ false }
    ensures write { S.broken sink.new ≡ (S.broken sink.old || is_write result) }
{
    for row in 0..rows {
        push_numbered(alloc, text, engine, row + 1)?;
        spill(sink, text)?;
    }
    Ok(())
}

/// Writes the answer to `journal`, with room for what is held of it. Fails if memory was refused or a write failed.
pub fn write_journal<S: Sink>(
    alloc: Global,
    engine: &Engine,
    sink: &mut S,
    text: &mut Vec<u8>,
) -> Result<(), ServeFault>
    ensures ok { OnOk result
        (Appends (S.written sink.old) (S.written sink.new)
        (journal_text engine.now.plant engine.now.history)) }
    ensures err { OnErr result
        (IsBegun (S.written sink.old) (S.written sink.new)
        (journal_text engine.now.plant engine.now.history)) }
    ensures read { is_read result ≡ false }
    ensures crew { is_crew result ≡ false }
    ensures write { S.broken sink.new ≡ (S.broken sink.old || is_write result) }
{
    text.clear();
    let rows = row_total(engine);
    write_rows(alloc, engine, sink, text, rows)?;
    write_end(sink, text, rows)
}

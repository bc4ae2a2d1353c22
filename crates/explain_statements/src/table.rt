//! The line of each statement.

use crate::routines::{Routine, statements_of};
use crate::sources::{Source, sources_of};
use explain_tokens::{start_of, word_at};
use plant_folder::PlantTexts;
use std::alloc::{AllocError, Global};

/// A row of the table has about so many bytes.
const WIDTH: usize = 96;

/// As wide a name is that others are aligned with.
const MOST: usize = 32;

/// The lines of a text, byte by byte in order of text.
#[derive(Drop)]
struct Lines<'a> {
    text: &'a [u8],
    at: usize,
    line: usize,
}

impl<'a> Lines<'a> {
    /// The line of a byte that isn't before the last one that was asked for, from 1.
    fn of(&mut self, at: usize) -> usize {
        let passed = self.text.get(self.at..at).unwrap_or(b"");
        let breaks = passed.iter().filter(|byte| **byte == b'\n').count();
        self.line = self.line.saturating_add(breaks);
        self.at = self.at.max(at);
        self.line
    }
}

/// Statements of one line, or of lines one after another.
#[derive(Clone, Copy, Drop)]
struct Run {
    statement: usize,
    line: usize,
    /// How many statements.
    len: usize,
    /// 1 where each stands on the line behind that of the one before it, 0 where all stand on one line.
    step: usize,
}

impl Run {
    /// The line of the last statement.
    fn last_line(&self) -> usize {
        self.line
            .saturating_add(self.step.saturating_mul(self.len.saturating_sub(1)))
    }

    /// The run with one statement more, which stands on a line; `None` where it doesn't go on so.
    fn with(&self, line: usize) -> Option<Run> {
        let step = line.saturating_sub(self.last_line());
        if step > 1 || (self.len > 1 && step != self.step) {
            return None;
        }
        Some(Run {
            statement: self.statement,
            line: self.line,
            len: self.len.saturating_add(1),
            step,
        })
    }
}

/// The lines of a routine's statements.
fn lines_of(
    alloc: Global,
    source: &Source<'_>,
    lines: &mut Lines<'_>,
    routine: Routine,
) -> Result<Vec<usize>, AllocError> {
    let tokens = source.tokens.as_slice();
    let mut found = Vec::new(alloc);
    let starts = statements_of(alloc, tokens, routine)?;
    for first in &starts {
        found.push(lines.of(start_of(source.text, tokens, *first)))?;
    }
    Ok(found)
}

/// The runs of statements with these lines.
fn runs_of(alloc: Global, lines: &[usize]) -> Result<Vec<Run>, AllocError> {
    let mut runs = Vec::new(alloc);
    let mut last: Option<Run> = None;
    for (number, line) in lines.iter().enumerate() {
        let grown = match last {
            Some(run) => run.with(*line),
            None => None,
        };
        if let (None, Some(run)) = (grown, last) {
            runs.push(run)?;
        }
        last = Some(grown.unwrap_or(Run {
            statement: number.saturating_add(1),
            line: *line,
            len: 1,
            step: 0,
        }));
    }
    if let Some(run) = last {
        runs.push(run)?;
    }
    Ok(runs)
}

/// The text of a run, as `4:17`, `5-6:18` or `1-3:12-14`.
fn run_text(alloc: Global, run: Run) -> Result<String, AllocError> {
    let (first, line, last_line) = (run.statement, run.line, run.last_line());
    let last = first.saturating_add(run.len.saturating_sub(1));
    if first == last {
        format!(in alloc; "  {first}:{line}")
    } else if line == last_line {
        format!(in alloc; "  {first}-{last}:{line}")
    } else {
        format!(in alloc; "  {first}-{last}:{line}-{last_line}")
    }
}

/// Adds a word and the blanks that it leaves in a column.
fn push_left(text: &mut String, word: &str, width: usize) -> Result<(), AllocError> {
    text.push_str(word)?;
    for _ in word.len()..width {
        text.push_str(" ")?;
    }
    Ok(())
}

/// How wide the columns of units and of files are.
#[derive(Clone, Copy, Drop)]
struct Widths {
    unit: usize,
    file: usize,
}

/// Adds runs, in as many rows as they need.
fn push_runs(
    alloc: Global,
    text: &mut String,
    runs: &[Run],
    widths: Widths,
) -> Result<(), AllocError> {
    let indent = widths.unit.saturating_add(widths.file).saturating_add(2);
    let mut used = indent;
    for run in runs {
        let run = run_text(alloc, *run)?;
        if used > indent && used.saturating_add(run.len()) > WIDTH {
            text.push_str("\n")?;
            push_left(text, "", indent)?;
            used = indent;
        }
        used = used.saturating_add(run.len());
        text.push_str(run.as_str())?;
    }
    text.push_str("\n")
}

/// Adds the row of a unit and its file, whose statements stand in runs.
fn push_row(
    alloc: Global,
    text: &mut String,
    (unit, file): (&str, &str),
    (runs, widths): (&[Run], Widths),
) -> Result<(), AllocError> {
    push_left(text, unit, widths.unit)?;
    text.push_str("  ")?;
    push_left(text, file, widths.file)?;
    push_runs(alloc, text, runs, widths)
}

/// The runs of the statements of a block or a program.
fn runs_in(
    alloc: Global,
    source: &Source<'_>,
    lines: &mut Lines<'_>,
    routine: Routine,
) -> Result<Vec<Run>, AllocError> {
    let found = lines_of(alloc, source, lines, routine)?;
    runs_of(alloc, found.as_slice())
}

/// Adds the rows of a source's blocks and programs.
fn push_source(
    alloc: Global,
    text: &mut String,
    source: &Source<'_>,
    widths: Widths,
) -> Result<(), AllocError> {
    let mut lines = Lines {
        text: source.text,
        at: 0,
        line: 1,
    };
    for routine in &source.routines {
        let runs = runs_in(alloc, source, &mut lines, *routine)?;
        let unit = word_at(source.text, source.tokens.as_slice(), routine.name);
        let pushed = push_row(alloc, text, (unit, source.name), (runs.as_slice(), widths));
        drop(runs);
        pushed?;
    }
    Ok(())
}

/// The length of the longest name of a block or a program, at least so many bytes.
fn longest_unit(sources: &[Source<'_>], least: usize) -> usize {
    let mut width = least;
    for source in sources {
        for routine in &source.routines {
            let word = word_at(source.text, source.tokens.as_slice(), routine.name);
            width = width.max(word.len());
        }
    }
    width.min(MOST)
}

/// The length of the longest name of a source, at least so many bytes.
fn longest_file(sources: &[Source<'_>], least: usize) -> usize {
    let mut width = least;
    for source in sources {
        width = width.max(source.name.len());
    }
    width.min(MOST)
}

/// Adds the heading of a table of sources, and their rows.
fn push_table(
    alloc: Global,
    text: &mut String,
    sources: &[Source<'_>],
    widths: Widths,
) -> Result<(), AllocError> {
    push_left(text, "unit", widths.unit)?;
    text.push_str("  ")?;
    push_left(text, "file", widths.file)?;
    text.push_str("  statement:line\n")?;
    for source in sources {
        push_source(alloc, text, source, widths)?;
    }
    text.push_str("\n")
}

/// The table of sources; nothing where there is no unit.
fn table_of(alloc: Global, sources: &[Source<'_>]) -> Result<String, AllocError> {
    let mut text = String::new(alloc);
    if sources.iter().all(|source| source.routines.is_empty()) {
        return Ok(text);
    }
    let widths = Widths {
        unit: longest_unit(sources, "unit".len()),
        file: longest_file(sources, "file".len()),
    };
    push_table(alloc, &mut text, sources, widths)?;
    Ok(text)
}

/// The line of each statement of all blocks and programs, in a table: the unit, its file, and the numbers of its statements with their lines, as
/// `1-3:12-14  4:17  5-6:18`. Nothing where there is no unit.
pub fn statement_table(alloc: Global, texts: &PlantTexts<'_>) -> Result<String, AllocError> {
    let sources = sources_of(alloc, texts.sources)?;
    let table = table_of(alloc, sources.as_slice());
    drop(sources);
    table
}

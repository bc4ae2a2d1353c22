//! How a cause is shown.

use crate::place::{TextPlace, line_around, place_of, text_of};
use explain_tokens::{FileOf, Spot, part};
use plant_folder::PlantTexts;
use std::alloc::{AllocError, Global};

/// A line with more bytes isn't shown.
const LONGEST_LINE: usize = 200;

/// The name of a file: the plant file's path as given, that of the alarm database, or a source's.
fn name_of<'t>(texts: &PlantTexts<'t>, alarms: &'t str, file: FileOf) -> &'t str {
    match file {
        FileOf::Plant => texts.path,
        FileOf::Source(number) => texts
            .sources
            .get(number)
            .map_or("source", |source| source.0),
        FileOf::Alarms => alarms,
    }
}

/// How many characters bytes of UTF-8 are.
fn width(bytes: &[u8]) -> usize {
    bytes.iter().filter(|byte| **byte & 0xC0 != 0x80).count()
}

/// The line of a mark, with its number, and below it the mark; nothing for a long line.
fn excerpt(
    alloc: Global,
    text: &[u8],
    line: usize,
    mark: (usize, usize),
) -> Result<String, AllocError> {
    let (start, end) = line_around(text, mark.0);
    if end.saturating_sub(start) > LONGEST_LINE {
        return Ok(String::new(alloc));
    }
    let shown = String::from_utf8_lossy(alloc, part(text, start, end))?;
    let number = line.to_string(alloc)?;
    let margin = number.len();
    let before = width(part(text, start, mark.0));
    let marked = width(part(text, mark.0, mark.1.min(end))).max(1);
    format!(in alloc;
        "{number} | {shown}\n{:margin$} | {:before$}{:^<marked$}\n",
        "", "", ""
    )
}

/// What is shown of a spot, where the alarm database has this name: its file and place with what is said, and the line there with the mark. Control characters
/// are blanks.
pub fn shown(
    alloc: Global,
    texts: &PlantTexts<'_>,
    alarms: &str,
    spot: &Spot,
) -> Result<String, AllocError> {
    let (name, said) = (name_of(texts, alarms, spot.file), spot.cause.said.as_str());
    let text = match (spot.cause.mark, place_of(texts, spot)) {
        (Some(mark), Some(TextPlace { line, column })) => {
            let lines = excerpt(alloc, text_of(texts, spot.file), line, mark)?;
            format!(in alloc; "{name}:{line}:{column}: {said}\n{lines}")?
        }
        _ => format!(in alloc; "{name}: {said}\n")?,
    };
    text.chars()
        .map(|c| if c.is_control() && c != '\n' { ' ' } else { c })
        .collect(alloc)
}

//! Places in the texts of a plant.

ghost use Rattle.std.specs.Prelude.{◌≡◌, ◌≤◌, ◌+◌, ◌==◌, not, length, count_by, option_map};
ghost use Rattle.std.specs.List.{suffix_len};
ghost use Rattle.st_lexer.specs.Lexes.{mark_len};
ghost use Rattle.explain_places.specs.Places.{place_in, text_of};

use explain_tokens::{FileOf, Spot, part};
use plant_folder::PlantTexts;

/// A place in a text. Lines count from 1, and so do the bytes of a line; a byte order mark at the text's start isn't counted.
#[derive(Clone, Copy, Drop)]
pub struct TextPlace {
    pub line: usize,
    pub column: usize,
}

/// How many bytes of a byte order mark a text begins with: 3 for EF BB BF, else 0.
pub fn mark_len(text: &[u8]) -> usize
    ensures found { result ≡ mark_len text.now }
    ensures within { result ≤ length text.now }
{
    match text {
        [0xEF, 0xBB, 0xBF, ..] => 3,
        _ => 0,
    }
}

/// The place after these bytes, which are all that stand before it.
fn place_after(before: &[u8]) -> TextPlace
    ensures line { result.line ≡ count_by (λ b. b == 10) before.now + 1 }
    ensures column { result.column ≡ suffix_len (λ b. not (b == 10)) before.now + 1 }
{
    let mut line = 1;
    let mut column = 1;
    for byte in before {
        if *byte == b'\n' {
            line += 1;
            column = 1;
        } else {
            column += 1;
        }
    }
    TextPlace { line, column }
}

/// The place of a byte of a text by its number, from 0; beyond the last it is the text's end, in a byte order mark the text's start.
pub fn place_at(text: &[u8], at: usize) -> TextPlace
    ensures { result ≡ place_in text.now at }
{
    let skipped = mark_len(text);
    let body = &text[skipped..];
    let number = at.saturating_sub(skipped).min(body.len());
    place_after(&body[..number])
}

/// The text of a file of a plant; empty for a source that isn't there.
pub fn text_of<'a>(texts: &PlantTexts<'a>, file: FileOf) -> &'a [u8]
    ensures { result.now ≡ text_of texts.now file }
{
    match file {
        FileOf::Plant => texts.plant,
        FileOf::Source(number) => match texts.sources.get(number) {
            Some(source) => source.1,
            None => b"",
        },
        FileOf::Alarms => texts.alarms,
    }
}

/// The place at which the cause of a spot begins, in the text of the spot's file; `None` where none can be told.
pub fn place_of(texts: &PlantTexts<'_>, spot: &Spot) -> Option<TextPlace>
    ensures { result
        ≡ option_map (λ mark. place_in (text_of texts.now spot.now.file) mark.0) spot.now.cause.mark }
{
    match spot.cause.mark {
        Some(mark) => Some(place_at(text_of(texts, spot.file), mark.0)),
        None => None,
    }
}

/// Where the line of a byte begins, and where it ends, without its line end.
pub fn line_around(text: &[u8], at: usize) -> (usize, usize) {
    let at = at.min(text.len());
    let is_end = |byte: &u8| matches!(*byte, b'\n' | b'\r');
    let before = part(text, 0, at).iter().rposition(is_end);
    let behind = part(text, at, text.len()).iter().position(is_end);
    let start = before.map_or(mark_len(text), |last| last.saturating_add(1));
    let end = behind.map_or(text.len(), |len| at.saturating_add(len));
    (start, end)
}

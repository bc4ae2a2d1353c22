ghost use Rattle.std.specs.Prelude.{◌≡◌, ◌+◌, ◌<◌, ◌≤◌, [], ◌∷◌, length, MatchOption, false};
ghost use Rattle.std.specs.Str.{bytes_eq};
ghost use Rattle.serve_lines.specs.Words.{is_gap, at_gap, words_of};
ghost use Rattle.serve_lines.specs.Cuts.{split_word};

/// Whether a byte separates words: a space or a tab.
// Nearly every byte is above a space, and is done with after one test.
#[inline(always)]
fn is_gap(byte: u8) -> bool
    ensures { result ≡ is_gap byte }
{
    byte <= b' ' && (byte == b' ' || byte == b'\t')
}

/// Skips the spaces and tabs at the start of a line.
pub(crate) fn trim_start(line: &[u8]) -> &[u8]
    ensures words { words_of result.now ≡ words_of line.now }
    ensures at_word { 0 < length result.now → at_gap result.now ≡ false }
    ensures shorter { length result.now ≤ length line.now }
{
    let mut rest = line;
    while let Some((first, others)) = rest.split_first() {
        if !is_gap(*first) {
            return rest;
        }
        rest = others;
    }
    rest
}

/// Splits a line at its first space or tab, into what is before it and the rest from there on; without one all is before it.
pub(crate) fn split_word(line: &[u8]) -> (&[u8], &[u8])
    ensures split { split_word line.now ≡ (result.0.now, result.1.now) }
    ensures sizes { length result.0.now + length result.1.now ≡ length line.now }
{
    for (i, byte) in line.iter().enumerate() {
        if is_gap(*byte) {
            return line.split_at(i);
        }
    }
    line.split_at(line.len())
}

/// The first word of a line and the rest after it; `None` if there is no word.
pub(crate) fn next_word(line: &[u8]) -> Option<(&[u8], &[u8])>
    ensures { MatchOption result (words_of line.now ≡ [])
        (λ r. (words_of line.now ≡ r.0.now ∷ words_of r.1.now) × (length r.1.now < length line.now)) }
{
    let line = trim_start(line);
    if line.is_empty() {
        return None;
    }
    Some(split_word(line))
}

/// Whether a word is the name of a command.
// The names are short and known here, so that tests of their bytes take the place of the call that `==` makes.
#[inline(always)]
pub(crate) fn is_word(word: &[u8], name: &[u8]) -> bool
    ensures { result ≡ bytes_eq word.now name.now }
{
    word.len() == name.len() && word.starts_with(name)
}

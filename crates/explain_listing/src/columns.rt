//! Text in columns.

use std::alloc::{AllocError, Global};

/// Adds the blanks that a word of so many bytes leaves in a column.
fn push_blanks(text: &mut String, taken: usize, width: usize) -> Result<(), AllocError> {
    for _ in taken..width {
        text.push_str(" ")?;
    }
    Ok(())
}

/// Adds a word at the left of a column.
pub fn push_left(text: &mut String, word: &str, width: usize) -> Result<(), AllocError> {
    text.push_str(word)?;
    push_blanks(text, word.len(), width)
}

/// Adds two blanks, and a word at the right of a column.
pub fn push_right(text: &mut String, word: &str, width: usize) -> Result<(), AllocError> {
    text.push_str("  ")?;
    push_blanks(text, word.len(), width)?;
    text.push_str(word)
}

/// Adds two blanks, and a number at the right of a column.
pub fn push_number(
    alloc: Global,
    text: &mut String,
    number: u64,
    width: usize,
) -> Result<(), AllocError> {
    let digits = number.to_string(alloc)?;
    push_right(text, digits.as_str(), width)
}

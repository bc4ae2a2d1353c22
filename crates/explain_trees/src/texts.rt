//! Texts with holes.

use std::alloc::{AllocError, Global};

/// Texts one behind another, in which each `%` stands for the next of these words, and `@` for what is told of: in quotes, and `this` where it is empty.
pub fn filled(
    alloc: Global,
    texts: &[&str],
    told: &str,
    words: &[&str],
) -> Result<String, AllocError> {
    let mut said = String::new(alloc);
    let mut next = 0usize;
    for text in texts {
        for letter in text.chars() {
            if letter == '%' {
                said.push_str(words.get(next).copied().unwrap_or(""))?;
                next = next.saturating_add(1);
            } else if letter == '@' {
                push_told(&mut said, told)?;
            } else {
                said.push(letter)?;
            }
        }
    }
    Ok(said)
}

/// Adds what is told of.
fn push_told(said: &mut String, told: &str) -> Result<(), AllocError> {
    if told.is_empty() {
        return said.push_str("this");
    }
    said.push('\'')?;
    said.push_str(told)?;
    said.push('\'')
}

//! The blocks and programs of a source, and the statements of their bodies, by tokens.

use explain_tokens::{opens_section, sign_at, sign_of, word_at};
use plant_types::same_word;
use st_lexer::Token;
use std::alloc::{AllocError, Global};

/// A block or a program among the tokens of its source.
#[derive(Clone, Copy, Drop)]
pub struct Routine {
    /// The number of the token that is its name.
    pub name: usize,
    /// The number of the token that ends it.
    pub end: usize,
}

/// The blocks and programs of a source that is spelled as the grammar says, in order of text.
pub fn routines_of(alloc: Global, tokens: &[Token]) -> Result<Vec<Routine>, AllocError> {
    let mut routines = Vec::new(alloc);
    let mut name = 0usize;
    for (number, token) in tokens.iter().enumerate() {
        match sign_of(token.kind) {
            "PROGRAM" | "FUNCTION_BLOCK" => name = number.saturating_add(1),
            "END_PROGRAM" | "END_FUNCTION_BLOCK" => routines.push(Routine { name, end: number })?,
            _ => {}
        }
    }
    Ok(routines)
}

/// The numbers of the first tokens of a routine's statements, in order of text: the statement of the number 1 is the first of them.
pub fn statements_of(
    alloc: Global,
    tokens: &[Token],
    routine: Routine,
) -> Result<Vec<usize>, AllocError> {
    let mut starts = Vec::new(alloc);
    let (mut is_declared, mut may_begin) = (false, true);
    for number in routine.name.saturating_add(1)..routine.end {
        let sign = sign_at(tokens, number);
        is_declared = sign != "END_VAR" && (is_declared || opens_section(sign));
        if may_begin && !is_declared && matches!(sign, "word" | ";" | "IF" | "CASE" | "FOR") {
            starts.push(number)?;
        }
        may_begin = !is_declared && matches!(sign, ";" | ":" | "THEN" | "DO" | "ELSE" | "END_VAR");
    }
    Ok(starts)
}

/// The block of the instance of a name that a routine declares, as its declaration writes it; empty where it declares none.
pub fn block_of<'a>(text: &'a [u8], tokens: &[Token], routine: Routine, instance: &str) -> &'a str {
    let mut is_found = false;
    for number in routine.name.saturating_add(1)..routine.end {
        match sign_at(tokens, number) {
            "word" => {
                let word = word_at(text, tokens, number);
                is_found = is_found || same_word(word.as_bytes(), instance.as_bytes());
            }
            ":" if is_found => return word_at(text, tokens, number.saturating_add(1)),
            ";" => is_found = false,
            _ => {}
        }
    }
    ""
}

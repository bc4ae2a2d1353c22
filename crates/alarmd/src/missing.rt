//! Why a file of a plant can't be read.

use std::alloc::{AllocError, Global};
use std::fs;
use std::rt::Files;

/// What is said of a file that can be opened.
const UNREAD: &str = "it can't be read to its end";

/// The most bytes that a file may have.
const MOST_BYTES: u64 = 16_777_217;

/// What the system says when a file is opened.
fn open_reason<R: Files>(rt: &R, alloc: Global, path: &str) -> Result<String, AllocError> {
    match fs::open(rt, path) {
        Ok(_) => String::from_str(alloc, UNREAD),
        Err(error) => error.to_string(alloc),
    }
}

/// What the system says of a path.
fn reason<R: Files>(rt: &R, alloc: Global, path: &str) -> Result<String, AllocError> {
    let found = match fs::metadata(rt, path) {
        Ok(found) => found,
        Err(error) => return error.to_string(alloc),
    };
    if found.is_dir() {
        return String::from_str(alloc, "it is a folder");
    }
    if found.len() > MOST_BYTES {
        return String::from_str(alloc, "it has more than 16777217 bytes");
    }
    if found.is_file() {
        return open_reason(rt, alloc, path);
    }
    String::from_str(alloc, UNREAD)
}

/// A text with a question mark in the place of each control character.
fn printable(alloc: Global, text: &str) -> Result<String, AllocError> {
    text.chars()
        .map(|c| if c.is_control() { '?' } else { c })
        .collect(alloc)
}

/// What is said of a name in which a control character stands; empty of another.
fn hint(name: &str) -> &'static str {
    if name.chars().any(|c| c.is_control()) {
        "the name has a control character: in double quotes '\\' begins an escape, and a path is written with '/'\n"
    } else {
        ""
    }
}

/// What a person is told of a file that can't be read: its name as the refusal has it, the path under which it is sought, and the system's reason. The file
/// isn't read for this.
pub fn why_missing<R: Files>(
    rt: &R,
    alloc: Global,
    path: &str,
    name: &str,
) -> Result<String, AllocError> {
    let reason = reason(rt, alloc, path)?;
    let path = printable(alloc, path)?;
    let (path, hint) = (path.as_str(), hint(name));
    format!(in alloc;
        "FILE {name}\n{path}: {reason}\n{hint}read on: docs/PLANT.md, \"Reading the files\"\n"
    )
}

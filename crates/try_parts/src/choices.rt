//! What the words of the command line choose (`serve_arguments`): the kind of answer, and of the text of help or usage the words that it has to name.

use crate::printing::parts_of;
use serve_arguments::{Choice, Ended, UsageFault, choose, status};
use std::alloc::{AllocError, Global};
use try_text::Page;

/// The words of a text, each after a space; `""` is the empty word.
fn words_of<'a>(alloc: Global, text: &'a str) -> Result<Vec<&'a str>, AllocError> {
    let mut words = Vec::new(alloc);
    for word in text.split(" ") {
        match word {
            "" => {}
            "\"\"" => words.push("")?,
            _ => words.push(word)?,
        }
    }
    Ok(words)
}

/// Adds what was chosen: which of the three things, with the number of workers and the path.
fn push_choice(page: &mut Page, choice: &Choice) {
    match choice {
        Choice::Example => page.add("example"),
        Choice::Check(path) => {
            page.add("check");
            page.word(path.as_str());
        }
        Choice::Run(path, workers) => {
            page.add("run");
            page.number(*workers as i128);
            page.word(path.as_str());
        }
    }
}

/// Adds the kind of a refusal, and whether its text has a part.
fn push_kind(page: &mut Page, fault: &UsageFault, part: &str) {
    let (kind, told) = match fault {
        UsageFault::Memory => return page.refuse(),
        UsageFault::Help(told) => ("help", told),
        UsageFault::Version(told) => ("version", told),
        UsageFault::Usage(told) => ("usage", told),
    };
    page.add(kind);
    page.truth(told.as_str().contains(part));
}

/// What words choose, or the kind of the refusal and whether its text has the part that stands before a mark.
pub fn push_chosen(alloc: Global, page: &mut Page, words: &str) {
    let (part, words) = parts_of(words, "|");
    let Ok(words) = words_of(alloc, words) else {
        return page.refuse();
    };
    match choose(alloc, words.as_slice()) {
        Ok(choice) => push_choice(page, &choice),
        Err(fault) => push_kind(page, &fault, part),
    }
}

/// The status of each end: done, a fault, no command line, a refused plant.
pub fn push_statuses(page: &mut Page) {
    for ended in [Ended::Done, Ended::Fault, Ended::Usage, Ended::Refused] {
        page.number(i128::from(status(&ended)));
    }
}

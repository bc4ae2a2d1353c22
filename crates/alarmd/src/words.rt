//! The words of the command line.

ghost use Rattle.std.specs.Prelude.{IfOk};
ghost use Rattle.serve_arguments.specs.Choices.{HasWorkers};

use plant_types::Text;
use serve_arguments::{Choice, UsageFault, choose};
use std::alloc::{AllocError, Global};
use std::rt::Env;
use std::{env, io};

/// Why the words can't be read: memory, or that one isn't UTF-8.
fn unread(alloc: Global, error: &io::Error) -> UsageFault {
    if error.kind() == io::ErrorKind::OutOfMemory {
        return UsageFault::Memory;
    }
    match Text::from_str(alloc, "error: a word isn't UTF-8\n") {
        Ok(text) => UsageFault::Usage(text),
        Err(_) => UsageFault::Memory,
    }
}

/// The words after the program's name.
fn words(rt: &(impl Env + AllocGlobal)) -> Result<Vec<String>, UsageFault> {
    let args = match env::args(rt) {
        Ok(args) => args,
        Err(error) => return Err(unread(rt.alloc(), &error)),
    };
    let mut words = Vec::new(rt.alloc());
    for word in args.skip(1) {
        if words.push(word).is_err() {
            return Err(UsageFault::Memory);
        }
    }
    Ok(words)
}

/// The same words, borrowed.
fn borrowed(alloc: Global, words: &[String]) -> Result<Vec<&str>, AllocError> {
    let mut texts = Vec::new(alloc);
    for word in words {
        texts.push(word.as_str())?;
    }
    Ok(texts)
}

/// What lent words choose.
fn chosen(alloc: Global, words: &[String]) -> Result<Choice, UsageFault>
    ensures { IfOk result HasWorkers }
{
    let texts = borrowed(alloc, words)?;
    choose(alloc, texts.as_slice())
}

/// What the program is asked for, by its words.
pub fn choice(rt: &(impl Env + AllocGlobal)) -> Result<Choice, UsageFault>
    ensures { IfOk result HasWorkers }
{
    let words = words(rt)?;
    chosen(rt.alloc(), words.as_slice())
}

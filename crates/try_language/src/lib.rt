//! Language rows: the texts of sources and of plants: what they spell, whether they are well formed, and what a person is told of them.
//!
//! The rows stand in `crates/try_plants/stdin` behind the line `== language`, and their answers in its `stdout`. Rows are
//! bytes, so more of them cost no proof. Nothing here is part of the server. Texts are spelled as the crate try_text says, and lines that
//! are none of those below are passed over. Up to the line `== plants` they have texts and the sources of plants, and after it plants
//! of which a person is told.
//!
//! A text is a line `text NAME`, its lines, and one of these words. The first line is printed, and then
//!
//! - `tokens` prints each token on a line of its own, with the numbers of its first byte and of the byte after it;
//! - `count` prints how many tokens there are;
//! - `tree` prints the tree of a source;
//! - `folded` prints the tree of a source with the constants of its bodies folded;
//! - `accepted` prints `ACCEPTED` where a source has a tree.
//!
//! `NO TOKEN 2 5` is printed where no token goes on at line 2 and byte 5 of the line, and `NO TREE 7` where no source goes on with
//! the token 7, counted from 0. In a tree each operator of two operands stands in parentheses with them, and each literal with its kind;
//! an integer without a kind stands in square brackets.
//!
//! The sources of a plant are a line `plant NAME`, sources, each a line `source FILE` and its text, and a line `run`. One line is printed
//! for them: the name, and then
//!
//! - `OK` where they are well formed;
//! - `C6 FILE UNIT` to `C9 FILE UNIT` for the first fault, where UNIT is `VAR_GLOBAL` or the block's or program's name;
//! - `C10 TURNS`, `C10 BLOCK_DEPTH`, `C10 PROGRAMS` or `C10 ELEMENTS` for a limit;
//! - `NO UNIT FILE` for the first source that isn't spelled as the grammar says.
//!
//! Where one of their lines is `..`, only the text's first line or the plant's name is printed, and each line `with x := 1;` after the last
//! word is printed with an answer of its own: that to the same lines with this text in place of `..`.
//!
//! A plant of which a person is told is a line `plant NAME`, its files, each a line `file NAME` and its text, and a line `run`. Where it has
//! no `plant.toml` or `alarms.csv` of its own, one stands in its place that is right (in `src/plants.rt`). Then a line `as C6 p.st p` says
//! how it is refused, or `as accepted` that it is accepted; that it is so, try_plants and the sources above try. Its name is printed, all
//! that is told, and an empty line. `as files` says that its plant file is refused before other files are read, and `as FILE p.st` that this file is missing:
//! then what is told of its other files is asked for too, those that it has being read for this. `as lines` asks for the lines of its statements, `as FAULT 10 p 1 DIVZERO` for what is told of that line.
//! A plant may have more sources: they are all its files whose names end in `.st`, in their order. Where a file has a line `..`, that alone
//! is printed which each line `with x := 1;` asks: the line, and what is told with this text in place of `..`.
//!
//! Layer try_: nothing of the product stands on it.
#![tactic(auto)]

mod faults;
mod judged;
mod plants;
mod rows;
mod shelf;
mod spelled;
mod tree;

use rows::answers_of;
use std::alloc::{AllocError, Global};
use std::thread::Threads;

/// What rows are answered: those on texts and the sources of plants, and behind a line `== plants` those on what a person is told.
pub fn answers_to<H: Threads + Sync>(
    rt: &H,
    alloc: Global,
    rows: &str,
) -> Result<Vec<u8>, AllocError> {
    let (sources, plants) = rows.split_once("\n== plants\n").unwrap_or((rows, ""));
    let mut text = answers_of(rt, alloc, sources, false)?;
    text.extend_from_slice(answers_of(rt, alloc, plants, true)?.as_slice())?;
    Ok(text)
}

//! Rows on plants: plants, and what the server answers to their commands.
//!
//! try_plants reads the table, which stands first in its file `stdin`, and writes what the server answers. Rows are bytes, so more of them cost no proof. Nothing
//! here is part of the server.
//!
//! First stand rows on the plants of the folder `examples`, of which `data` has a copy without its pages and answers: a line
//! `example check PLANT` prints what there is to say of the plant with this plant file, a line `example run PLANT COMMANDS` serves it on the
//! commands of a file. A line `texts` prints the texts of refusals, and a line `laws` calls each law, which does nothing.
//!
//! A plant of the table is a line `plant NAME`, its files, a line `run`, and commands. Empty lines between commands are passed over.
//! A file is a line `file NAME` and its text. Before the first such line stands the text of `p.st`; where a plant has no `plant.toml`
//! or no `alarms.csv` of its own, the one that is built into this crate stands in its place (in `src/plants.rt`). A file that is named
//! and isn't there prints `FILE NAME`. In place of `run` may stand:
//!
//! - `check`, which only reads the plant, and prints how many programs and alarms it has;
//! - `check p.st q.st` likewise, with these sources handed in, in place of those that `plant.toml` lists;
//! - `list files` prints the names of the files that `plant.toml` names;
//! - `check files` and `run files` check and run the plant from a folder in memory, `run texts` from its texts; a run prints how it ends,
//!   and how many bytes of the lines below it haven't been read;
//! - `run gone` runs it by workers that are gone: an engine is given each command by its own call, as by `step` below, and then another is
//!   served all commands, of which is printed what it writes, how it ends and after how many events.
//!
//! These words among the commands are the table's own:
//!
//! - `seen` prints how many events the engine has taken, the last moment and the state of its first alarm;
//! - `repeat 5 ack 1 T1` gives a command five times, and prints the answer to the last;
//! - `with y := 1;` begins the plant anew, with this text in place of the line `..` of one of its files;
//! - `ready scan 7` gives the engine a command by its own calls, made ready and then committed, and prints what it shows before and after;
//!   `step scan 7` gives it by the one call that does both;
//! - `show FEED y` prints what the plant shows, and then what its copy shows, with the numbers of these names;
//! - `listed` prints what a person is told that there is in the plant;
//! - `feed 5` serves the commands so far to new engines, by a feed that gives at most 5 bytes a read and fails at its first read, at its
//!   second, and so on until a session ends well; `sink 5` likewise with a sink that takes at most 5 bytes a write (`-` is no limit); `little
//!   5 7` by a feed and a sink that take so little and don't fail. For each session it prints how it ended, how many bytes and line
//!   ends it wrote, and after how many events; and `APART` where it wrote no beginning of the whole answers. The file `stdout` has no such
//!   word.
//!
//! Beside the served engine the plant's programs take the same scans and restarts once more, by their codes and as the source is read, each
//! over cells of its own. They take a reload too, where it is the first `reload` of an input, and its bytes end with a line. A scan after which these cells differ prints `WALK AND CODE DIFFER` and its moment; an input after which the engine
//! has another number of events, another moment or another output than they have prints `WALK AND SERVER DIFFER`. The file `stdout` has no
//! such line.
//!
//! Each run is by the caller alone, and then once more by two workers and by eight, unless it repeats a command. Where these answer otherwise,
//! a line such as `2 WORKERS DIFFER` and their answer follow. The last line of these answers in the file `stdout` says that they never do.
//!
//! Texts are spelled as the crate try_text says. Each run of commands, up to a word of the table, is an input of its own: where its
//! last line ends in a backslash, the input ends without a line feed. Where memory is refused a row is answered once more.
//!
//! Layer try_: nothing of the product stands on it.
#![tactic(auto)]

mod answers;
mod beside;
mod crews;
mod examples;
mod folders;
mod gone;
mod laws;
mod plants;
mod scripts;
mod sessions;
mod shown;
mod steps;
mod table;

use crews::Crews;
use examples::push_examples_by_all;
use std::alloc::Global;
use std::rt::Files;
use std::sync::Wait;
use std::thread::Threads;
use table::push_answers_to;
use try_text::Page;

/// Adds what a table is answered, and a last line where all crews answer alike. The crews are let go here alone.
pub fn push_plants<R: Files + Threads + Wait + Clone + Send + Sync + Drop + 'static>(
    rt: &R,
    alloc: Global,
    page: &mut Page,
    table: &str,
) {
    let Ok(mut crews) = Crews::new_again(rt, alloc) else {
        return page.refuse();
    };
    push_examples_by_all(rt, alloc, &mut crews, page, table);
    push_answers_to(rt, alloc, &mut crews, page, table);
    if crews.end(rt) {
        page.line("ALIKE WITH 1, 2 AND 8 WORKERS");
    }
}

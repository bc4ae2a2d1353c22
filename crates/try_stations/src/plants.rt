//! The plants of stations: what the table gives, or the example of the server.

use engine::{ConfigFault, Plant};
use std::alloc::{AllocError, Global};
use std::thread::Threads;

/// The files of the plant that is built in, as a table gives them.
const BUILT_IN: &str = "file plant.toml
name = \"P\"
epoch = \"2024-01-01T00:00:00Z\"
areas = [\"north\", \"south\"]
sources = [\"p.st\"]
alarms = \"alarms.csv\"
[[console]]
number = 1
areas = [\"north\"]
[[console]]
number = 2
areas = [\"south\"]

file alarms.csv
tag,area,priority,condition,suppress,latch,max_shelve_ms,text
T1,north,2,c,,FALSE,5000,Feed ratio high

file p.st
VAR_GLOBAL
  a AT %ID0 : DINT;
  c : BOOL;
END_VAR
PROGRAM p
  c := 100 / a > 10;
END_PROGRAM
";

/// A name and the bytes of its file.
type File<'a> = (&'a str, &'a [u8]);

/// The files of a station's plant, and its rows: of the lines after its name.
pub fn parted(lines: &str) -> (&str, &str) {
    match lines.split_once("\nbegin\n") {
        Some(parts) => parts,
        None => (BUILT_IN, lines),
    }
}

/// The files that a table gives, each by a line `file NAME` and its text.
fn files_of(alloc: Global, given: &str) -> Result<Vec<File<'_>>, AllocError> {
    let mut files = Vec::new(alloc);
    for file in given.strip_prefix("file ").unwrap_or("").split("\nfile ") {
        let (name, text) = file.split_once("\n").unwrap_or((file, ""));
        files.push((name, text.as_bytes()))?;
    }
    Ok(files)
}

/// Reads the plant of these files: first its plant file, then its alarms, then its sources. `None` where it is refused.
pub fn read_plant<R: Threads + Sync>(
    rt: &R,
    alloc: Global,
    given: &str,
) -> Result<Option<Plant>, AllocError> {
    let files = files_of(alloc, given)?;
    let Some((plant, others)) = files.as_slice().split_first() else {
        return Ok(None);
    };
    let Some((alarms, sources)) = others.split_first() else {
        return Ok(None);
    };
    match Plant::read(rt, alloc, plant.1, sources, alarms.1) {
        Ok(plant) => Ok(Some(plant)),
        Err(ConfigFault::Memory) => Err(AllocError),
        Err(_) => Ok(None),
    }
}

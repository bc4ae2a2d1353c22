//! The plant of a row: two programs that share nothing, or none.

use engine::{ConfigFault, Plant};
use std::alloc::{AllocError, Global};
use std::thread::Threads;

/// The plant file.
const PLANT: &str = "name = \"P\"
epoch = \"2024-01-01T00:00:00Z\"
areas = [\"north\"]
sources = [\"p.st\"]
alarms = \"alarms.csv\"
[[console]]
number = 1
areas = [\"north\"]
";

/// The alarm file.
const ALARMS: &str = "tag,area,priority,condition,suppress,latch,max_shelve_ms,text
T1,north,2,c,,FALSE,5000,Never
";

/// The globals.
const GLOBALS: &str = "VAR_GLOBAL
  a AT %QD0 : DINT;
  b AT %QD1 : DINT;
  c : BOOL;
END_VAR
";

/// The first program, and the second but for its last statement. The first costs 2 + 1,428 * (3 + 4) + 2 = 10,000, the second 9,998 and its last
/// statement.
const PROGRAMS: &str = "PROGRAM p
  VAR i : DINT; END_VAR
  FOR i := 1 TO 1428 DO a := a + 1; END_FOR;
  a := a;
END_PROGRAM
PROGRAM q
  VAR i : DINT; END_VAR
  FOR i := 1 TO 1428 DO b := b + 2; END_FOR;
";

/// The source: two programs, the second with this last statement; none where this is `-`.
fn source_of(alloc: Global, last: &str) -> Result<String, AllocError> {
    let mut source = String::new(alloc);
    source.push_str(GLOBALS)?;
    if last != "-" {
        source.push_str(PROGRAMS)?;
        source.push_str(last)?;
        source.push_str("\nEND_PROGRAM\n")?;
    }
    Ok(source)
}

/// The plant of a row. `None` where it is refused.
pub fn read_plant<R: Threads + Sync>(
    rt: &R,
    alloc: Global,
    last: &str,
) -> Result<Option<Plant>, AllocError> {
    let source = source_of(alloc, last)?;
    let sources = [("p.st", source.as_bytes())];
    match Plant::read(
        rt,
        alloc,
        PLANT.as_bytes(),
        sources.as_slice(),
        ALARMS.as_bytes(),
    ) {
        Ok(plant) => Ok(Some(plant)),
        Err(ConfigFault::Memory) => Err(AllocError),
        Err(_) => Ok(None),
    }
}

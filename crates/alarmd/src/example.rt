//! The example plant, which is built in.

/// The name of its plant file.
pub const PLANT_NAME: &str = "plant.toml";

/// The name of its source.
pub const SOURCE_NAME: &str = "p.st";

/// Its plant file.
pub const PLANT: &[u8] = b"name = \"P\"
epoch = \"2024-01-01T00:00:00Z\"
areas = [\"north\", \"south\"]
sources = [\"p.st\"]
alarms = \"alarms.csv\"
[[console]]
number = 1
areas = [\"north\"]
[[console]]
number = 2
areas = [\"south\"]
";

/// Its source.
pub const SOURCE: &[u8] = b"VAR_GLOBAL
  a AT %ID0 : DINT;
  c : BOOL;
END_VAR
PROGRAM p
  c := 100 / a > 10;
END_PROGRAM
";

/// Its alarm database.
pub const ALARMS: &[u8] = b"tag,area,priority,condition,suppress,latch,max_shelve_ms,text
T1,north,2,c,,FALSE,5000,Feed ratio high
";

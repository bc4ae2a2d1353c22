//! Cells: the values of a plant's variables, and the clocks of its standard blocks' instances.
//!
//! Programs run over cells, whoever runs them: a walker over frames, or a machine over code. A value has a number, from 0 on, and so has a
//! clock, which is what the instance of a standard block keeps of its calls. A run that traps tells where it stopped.
//!
//! Layer logic_: it must not know instructions, alarms, files or threads.
#![tactic(auto)]

mod cells;
mod clock;
mod laws;
mod picking;
mod stop;

pub use cells::Cells;
pub use clock::{Clock, Standard, Timer};
pub use laws::called_clock;
pub use stop::Stop;

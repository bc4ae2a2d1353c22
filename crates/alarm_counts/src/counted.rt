//! An alarm as it is counted.

use alarm_machine::Code;

/// An alarm as a summary counts it: its area, its priority and the code of its state.
#[derive(Clone, Copy, Drop)]
pub struct Counted {
    /// The number of its area, from 0.
    pub area: u32,
    /// 1 to 4, 1 the highest.
    pub priority: u32,
    /// The code of its state.
    pub code: Code,
}

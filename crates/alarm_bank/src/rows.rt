/// To which area an alarm belongs, and its priority.
#[derive(Clone, Copy, Drop)]
pub struct Site {
    /// The number of its area, from 0.
    pub area: u32,
    /// 1 to 4, 1 the highest.
    pub priority: u32,
}

/// An alarm of a plant that takes the place of another plant while it runs.
#[derive(Clone, Copy, Drop)]
pub struct NewAlarm {
    pub site: Site,
    /// Whether it latches.
    pub latching: bool,
    /// Its longest shelving in milliseconds; at 0 it can't be shelved.
    pub max_shelve_ms: u32,
    /// The number of the old plant's alarm whose state it keeps; `None` for one that is new.
    pub kept: Option<u32>,
}

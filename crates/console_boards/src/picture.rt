use alarm_bank::Annunciator;
use base_trace::Trace;

/// What a board shows at some moment: the alarms with the places that they have, and the numbers of the consoles whose orders it counts.
#[derive(Drop)]
pub struct Picture {
    pub panel: Annunciator,
    pub consoles: Trace<u32>,
}

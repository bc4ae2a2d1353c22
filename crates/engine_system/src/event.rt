use alarm_machine::{Change, LAST_MOMENT, OrderFault};
use crew::CrewFault;
use plant_types::{Place, Trap, Value};
use std::alloc::AllocError;
use std::marker::Model;
use thiserror::Error;

/// How many events a history has at most (this profile).
pub const MOST_EVENTS: usize = 1_000_000;

/// The reply to an order.
#[derive(Clone, Copy, Drop)]
pub enum Reply {
    /// It was done, with the change of the alarm's code, if there is one.
    Done(Option<Change>),
    /// It was refused, and changed no alarm and no program.
    Refused(OrderFault),
}

/// What a scan did. Alarms and globals are given by their numbers.
#[derive(Drop)]
pub struct Report {
    /// The scan's moment in milliseconds.
    pub moment: u64,
    /// The programs that trapped, in program order: where, and why.
    pub faults: Vec<(Place, Trap)>,
    /// The alarms whose code changed, in the order of the database.
    pub changes: Vec<(u32, Change)>,
    /// The outputs whose value isn't that before the scan, in order of declaration.
    pub outs: Vec<(u32, Value)>,
}

impl Model for Report {
    ghost use Rattle.engine_system.specs.Reports.{PlainReport};

    ghost Value = { PlainReport };

    ghost view = { λ r. record { moment = r.moment; faults = r.faults.items; changes = r.changes.items; outs = r.outs.items } };
}

/// Why an event is refused. A refused event changes nothing and isn't in the history.
#[derive(Clone, Copy, Debug, Drop, Error)]
pub enum EngineFault {
    /// Allocation failed. It has no place in the order of the others.
    #[error("memory was refused")]
    Memory,
    /// E1: the moment is before that of the last scan.
    #[error("E1: the moment is before that of the last scan")]
    MomentBack,
    /// E2: the moment is above 4,000,000,000,000.
    #[error("E2: the moment is above {limit}", limit = LAST_MOMENT)]
    MomentRange,
    /// E3: a name that is no input, or twice.
    #[error("E3: a name is no input, or comes twice")]
    ImageName,
    /// E4: a value that doesn't fit its input's kind.
    #[error("E4: a value doesn't fit its input")]
    ImageKind,
    /// E5: the crew that ran the programs failed, and why. It has no place in the order of the others: it comes only where the event would be
    /// taken, and never for memory.
    #[error("E5: the crew failed")]
    Crew(CrewFault),
    /// E6: the history has 1,000,000 events.
    #[error("E6: the history has {limit} events", limit = MOST_EVENTS)]
    HistoryFull,
    /// E7: a plant that is to be reloaded has other consoles, by their numbers in their order.
    #[error("E7: the consoles' numbers, in their order, are others")]
    ReloadConsoles,
    /// E8: a plant that is to be reloaded has another epoch.
    #[error("E8: the epoch is another")]
    ReloadEpoch,
}

impl From<AllocError> for EngineFault {
    ghost use Rattle.std.specs.Prelude.{◌≡◌};
    ghost use Rattle.engine_system.specs.declared.event.EngineFault.TheVariants.{Memory};

    ghost from_gives = { λ _ e. e ≡ Memory };

    fn from(_refused: AllocError) -> EngineFault {
        EngineFault::Memory
    }
}

impl From<CrewFault> for EngineFault {
    ghost use Rattle.std.specs.Prelude.{◌≡◌};
    ghost use Rattle.engine_system.specs.Faults.{refusal_by};

    ghost from_gives = { λ fault e. e ≡ refusal_by fault };

    fn from(fault: CrewFault) -> EngineFault {
        match fault {
            CrewFault::Memory => EngineFault::Memory,
            fault => EngineFault::Crew(fault),
        }
    }
}

impl EngineFault {
    ghost use Rattle.std.specs.Prelude.{◌≡◌};
    ghost use Rattle.engine_system.specs.Faults.{fault_text};

    /// The number by which it is printed, `E1` to `E8`; `""` for `Memory`, which is never printed.
    pub fn text(self) -> &'static str
        ensures { result.now ≡ fault_text self }
    {
        match self {
            EngineFault::Memory => "",
            EngineFault::MomentBack => "E1",
            EngineFault::MomentRange => "E2",
            EngineFault::ImageName => "E3",
            EngineFault::ImageKind => "E4",
            EngineFault::Crew(_) => "E5",
            EngineFault::HistoryFull => "E6",
            EngineFault::ReloadConsoles => "E7",
            EngineFault::ReloadEpoch => "E8",
        }
    }
}

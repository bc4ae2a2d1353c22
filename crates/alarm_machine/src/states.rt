ghost use Rattle.std.specs.Prelude.{◌≡◌, [], ◌∷◌, map};
ghost use Rattle.alarm_machine.specs.Alarms.{end_of};
ghost use Rattle.alarm_machine.specs.Codes.{code_of, code_text, rank};
ghost use Rattle.alarm_machine.specs.Orders.{order_fault_text, verb_text};

/// The name of a state, as it is printed and counted (this profile's codes), in the order in which codes are listed.
#[derive(Clone, Copy, PartialEq, Eq, Drop)]
pub enum Code {
    /// Normal.
    Norm,
    /// Unacknowledged alarm.
    Unack,
    /// Acknowledged alarm.
    Acked,
    /// Returned to normal, unacknowledged.
    Rtnun,
    /// Latched, unacknowledged: the condition has gone, and the alarm waits for acknowledgement and reset.
    Latun,
    /// Latched, acknowledged: the condition has gone, and the alarm waits for its reset.
    Latak,
    /// Shelved by an operator for a time.
    Shelved,
    /// Suppressed by design: the plant's logic says that the alarm has no meaning now.
    Suppr,
    /// Out of service, by hand.
    Oos,
}

impl Code {
    /// All codes, in their order.
    pub fn all() -> [Code; 9]
        ensures { map rank result ≡ 0 ∷ 1 ∷ 2 ∷ 3 ∷ 4 ∷ 5 ∷ 6 ∷ 7 ∷ 8 ∷ [] }
    {
        [
            Code::Norm,
            Code::Unack,
            Code::Acked,
            Code::Rtnun,
            Code::Latun,
            Code::Latak,
            Code::Shelved,
            Code::Suppr,
            Code::Oos,
        ]
    }

    /// Its place in the list of codes, from 0 for NORM to 8 for OOS.
    pub fn rank(self) -> u8
        ensures { result ≡ rank self }
    {
        self as u8
    }

    /// Its text, as `NORM` or `UNACK`.
    pub fn text(self) -> &'static str
        ensures { result.now ≡ code_text self }
    {
        match self {
            Code::Norm => "NORM",
            Code::Unack => "UNACK",
            Code::Acked => "ACKED",
            Code::Rtnun => "RTNUN",
            Code::Latun => "LATUN",
            Code::Latak => "LATAK",
            Code::Shelved => "SHELVED",
            Code::Suppr => "SUPPR",
            Code::Oos => "OOS",
        }
    }
}

/// What an operator orders of an alarm, or of a program (`Restart`).
#[derive(Clone, Copy, PartialEq, Eq, Drop)]
pub enum Verb {
    /// Acknowledge the alarm.
    Ack,
    /// Reset a latched alarm.
    Reset,
    /// Shelve the alarm until this many milliseconds after the last scan.
    Shelve(u64),
    /// End a shelf by hand.
    Unshelve,
    /// Take the alarm out of service.
    Remove,
    /// Return the alarm to service.
    PutBack,
    /// Restart a program that a trap has stopped. Every alarm refuses it.
    Restart,
}

impl Verb {
    /// Its command word, as `ack` or `shelve`.
    pub fn text(self) -> &'static str
        ensures { result.now ≡ verb_text self }
    {
        match self {
            Verb::Ack => "ack",
            Verb::Reset => "reset",
            Verb::Shelve(_) => "shelve",
            Verb::Unshelve => "unshelve",
            Verb::Remove => "remove",
            Verb::PutBack => "return",
            Verb::Restart => "restart",
        }
    }
}

/// Why an order is refused: `OldPlant`, else the first other reason that holds, in this order, is the reply (this profile). An alarm itself returns only
/// `WrongState` and `ShelveTime`.
#[derive(Clone, Copy, Drop)]
pub enum OrderFault {
    /// O1: there is no such alarm or program.
    UnknownTarget,
    /// O2: there is no such console, or the alarm's area isn't one of the console's.
    NotYourArea,
    /// O3: the alarm's state doesn't take this order.
    WrongState,
    /// O4: the time is 0, or longer than the alarm's longest shelving.
    ShelveTime,
    /// O5: the program isn't faulted.
    NotFaulted,
    /// O6: the order was made for a plant that has been replaced since.
    OldPlant,
}

impl OrderFault {
    /// Its number, as `O3`.
    pub fn text(self) -> &'static str
        ensures { result.now ≡ order_fault_text self }
    {
        match self {
            OrderFault::UnknownTarget => "O1",
            OrderFault::NotYourArea => "O2",
            OrderFault::WrongState => "O3",
            OrderFault::ShelveTime => "O4",
            OrderFault::NotFaulted => "O5",
            OrderFault::OldPlant => "O6",
        }
    }
}

/// The state of an alarm (ANSI/ISA-18.2, IEC 62682). `Code` explains each.
#[derive(Clone, Copy, PartialEq, Eq, Drop)]
pub enum AlarmState {
    Norm,
    Unack,
    Acked,
    Rtnun,
    Latun,
    Latak,
    /// Until this moment, in milliseconds: the first scan at that moment or after it ends the shelf.
    Shelved(u64),
    Suppr,
    Oos,
}

impl AlarmState {
    /// The code of the state.
    pub fn code(self) -> Code
        ensures { result ≡ code_of self }
    {
        match self {
            AlarmState::Norm => Code::Norm,
            AlarmState::Unack => Code::Unack,
            AlarmState::Acked => Code::Acked,
            AlarmState::Rtnun => Code::Rtnun,
            AlarmState::Latun => Code::Latun,
            AlarmState::Latak => Code::Latak,
            AlarmState::Shelved(_) => Code::Shelved,
            AlarmState::Suppr => Code::Suppr,
            AlarmState::Oos => Code::Oos,
        }
    }

    /// The moment at which the shelf ends, in milliseconds; `None` unless the alarm is shelved.
    pub fn end(self) -> Option<u64>
        ensures { result ≡ end_of self }
    {
        match self {
            AlarmState::Shelved(end) => Some(end),
            _ => None,
        }
    }
}

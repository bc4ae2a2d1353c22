use alarm_machine::Verb;
use plant_types::Pair;

/// The command that a line asks for.
#[derive(Drop)]
pub enum Command<'a> {
    /// Nothing: the line has no words, or is a remark.
    Nothing,
    /// No command: the line is refused (L1).
    Unknown,
    /// A scan at a moment, in milliseconds, with the values given for inputs, in the line's order.
    Scan(u64, &'a [Pair]),
    /// An order from the console of this number, for the alarm with this tag (ISA-18.2), or to restart the program with this name (this
    /// profile). The word is as the line has it, and may name nothing. A shelving's time is a number of up to 19 digits, and may be one
    /// that no alarm takes.
    Order(Verb, u32, &'a [u8]),
    /// To list the alarms that aren't normal, and how many alarms have each code.
    List,
    /// To print the rows of the journal.
    Journal,
}

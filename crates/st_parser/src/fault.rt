//! Why tokens are not parsed.

/// Why tokens are not parsed as a unit.
#[derive(Clone, Copy, Drop)]
pub enum ParseFault {
    /// Memory was refused.
    Memory,
    /// Parsing stopped at the token of this number, counted from 0. It is the number of tokens where the text ends too early.
    At { token: usize },
}

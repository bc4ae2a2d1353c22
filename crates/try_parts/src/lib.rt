//! Part rows: what the parts below the server answer, each by its own calls: what no contract and no row of a plant says.
//!
//! try_plants reads the table, which stands in its file `stdin` behind a line `== parts`, and writes each row with its answer. Rows are bytes, so more of
//! them cost no proof. Nothing here is part of the server.
//!
//! A row's first word says what is asked; each `push_` function says what its words are. Where memory is refused a row is answered
//! once more, so that the output is the same where one allocation after the reading of the table fails.
//!
//! Layer try_: nothing of the product stands on it.
#![tactic(auto)]

mod alarms;
mod banks;
mod blocks;
mod choices;
mod codes;
mod commands;
mod journals;
mod printing;
mod runs;
mod sharing;
mod sources;
mod splits;
mod table;
mod trees;
mod values;

pub use table::answers_to;

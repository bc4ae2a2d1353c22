//! The alarm database of a plant: a text of comma-separated values, a row for each alarm.
//!
//! `read` returns exactly the rows of a text, or its first fault. The records of the text are those of the crate `csv`; the columns and their forms are this profile's. `examine` says all
//! that is wrong in a text's rows, with the place of each, for a person.
//!
//! Layer plant_: it must not know events or commands.
#![tactic(auto)]

mod column;
mod database;
mod examining;
mod fault;
mod forms;
mod gathering;
mod records;
mod row;
mod tags;

pub use column::{Column, Version};
pub use database::{AlarmDatabase, read};
pub use examining::{Examined, RowFault, RowMistake, examine};
pub use fault::DbFault;
pub use forms::LONGEST_DELAY_MS;
pub use row::DatabaseRow;
pub use tags::Tags;

//! What a person is told of rows of the alarm database that are refused (C11 to C14), and where the fields of its rows stand.
//!
//! What is wrong in a row its reader has found, alarm_db or plant_config: `wrong_rows` tells it, with what else is wrong in the rows, and `rows_beside` tells what is
//! wrong in those of a plant that is refused for something else. Why a row has more fields than its header, or fewer, is found here. `is_table`
//! tells of any text whether it begins as such a table. `Rows` finds fields, for whoever shows one.
//!
//! No clause says what is told; that is tried on examples.
//!
//! Layer explain_: it must not know events or commands.
#![tactic(auto)]

mod alarms;
mod fields;
mod forms;
mod rows;
mod table;
mod uneven;

pub use alarms::is_table;
pub use fields::Rows;
pub use rows::{rows_beside, wrong_rows};

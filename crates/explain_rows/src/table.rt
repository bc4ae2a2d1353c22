//! The alarm database of a refused plant, and what is told of it.

use explain_files::Mark;
use explain_tokens::Cause;
use explain_trees::filled;
use std::alloc::{AllocError, Global};

/// Where it stands what an alarm database is.
const PAGE: &str = "docs/PLANT.md, \"alarms.csv\"";

/// The alarm database of a refused plant, and what is told of it.
#[derive(Drop)]
pub struct Table<'t> {
    pub alloc: Global,
    /// The text of the plant file.
    pub plant: &'t [u8],
    /// The text of the alarm database.
    pub alarms: &'t [u8],
    /// Where the row begins with which the last one that is told goes on.
    pub goes_on: usize,
    pub told: Vec<Cause>,
}

impl<'t> Table<'t> {
    /// An alarm database of which nothing is told yet, and its plant file.
    pub fn untold(alloc: Global, plant: &'t [u8], alarms: &'t [u8]) -> Table<'t> {
        Table {
            alloc,
            plant,
            alarms,
            goes_on: usize::MAX,
            told: Vec::new(alloc),
        }
    }

    /// Tells what is wrong at bytes of the alarm database: a text in which each `%` stands for the next of words.
    pub fn say(
        &mut self,
        mark: Option<Mark>,
        text: &str,
        words: &[&str],
    ) -> Result<(), AllocError> {
        let said = filled(self.alloc, &[text], "", words)?;
        self.told.push(Cause {
            mark,
            said,
            page: PAGE,
        })?;
        Ok(())
    }
}

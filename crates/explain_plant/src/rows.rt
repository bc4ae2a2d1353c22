//! What is wrong in the rows of the alarm database, beside what is found first (C11 to C14).

use crate::readable::Readable;
use crate::telling::Refused;
use alarm_db::RowMistake;
use explain_rows::{rows_beside, wrong_rows};
use explain_tokens::{Cause, FileOf};
use st_parser::Unit;
use std::alloc::AllocError;

impl<'t> Refused<'t> {
    /// Tells what is wrong in the alarm database.
    fn in_table(&mut self, causes: Vec<Cause>) -> Result<(), AllocError> {
        for cause in causes {
            self.tell(FileOf::Alarms, cause)?;
        }
        Ok(())
    }

    /// Tells what is wrong in the rows of a plant of units that are spelled rightly, but at fault; of what the rows name only the areas where there are no units.
    pub fn in_rows_beside(&mut self, units: &[Unit]) -> Result<(), AllocError> {
        if !self.has_alarms || self.in_named_source()? {
            return Ok(());
        }
        self.in_table(rows_beside(self.alloc, (self.plant, self.alarms), units)?)
    }

    /// Tells what is wrong in the rows of a plant whose sources are right but for a limit.
    pub fn in_rows_of_right(&mut self) -> Result<(), AllocError> {
        let readable = Readable::of_right(self.alloc, self.sources)?;
        let told = self.in_rows_beside(readable.units.as_slice());
        drop(readable);
        told
    }

    /// Tells of the mistakes in rows for which the plant is refused, whose sources are right, and of what else is wrong in rows.
    pub fn in_rows(&mut self, mistakes: &[RowMistake]) -> Result<(), AllocError> {
        if self.in_named_source()? {
            return Ok(());
        }
        let readable = Readable::of_right(self.alloc, self.sources)?;
        let texts = (self.plant, self.alarms);
        let causes = wrong_rows(self.alloc, texts, readable.units.as_slice(), mistakes);
        drop(readable);
        self.in_table(causes?)
    }
}

//! Where a limit isn't kept (C10), and by what.

use crate::telling::Refused;
use explain_files::{Mark, keys_of};
use explain_limits::{Measure, where_past};
use explain_rows::Rows;
use explain_tokens::{Cause, FileOf};
use plant_config::Limit;
use std::alloc::AllocError;

/// What a plant may have at most.
const MOST_CONSOLES: usize = 32;

const MOST_ALARMS: usize = 20_000;

const MOST_SOURCE_BYTES: usize = 4_194_304;

const MOST_PLANT_BYTES: usize = 1_048_576;

fn said_of(limit: Limit) -> &'static str {
    match limit {
        Limit::Sources => "there are more than 64 sources",
        Limit::Areas => "there are more than 64 areas",
        Limit::Consoles => "there are more than 32 consoles",
        Limit::Alarms => "there are more than 20000 alarms",
        _ =>
            "a text is too long: the sources may have 4194304 bytes together, the plant file 1048576 and the alarms 16777216",
    }
}

impl<'t> Refused<'t> {
    /// The text that is too long: the source with which all sources together are, else the plant file, or the alarm database.
    fn long_file(&self) -> FileOf {
        let mut size = 0usize;
        let past = self.sources.iter().position(|source| {
            size = size.saturating_add(source.1.len());
            size > MOST_SOURCE_BYTES
        });
        match past {
            Some(number) => FileOf::Source(number),
            None if self.plant.len() > MOST_PLANT_BYTES => FileOf::Plant,
            None => FileOf::Alarms,
        }
    }

    /// The file that is past a limit, and the bytes of what is one too many: a header of a console, or the first field of a row of alarms; else of the list
    /// that has too much of something.
    fn place_past(&self, limit: Limit) -> Result<(FileOf, Option<Mark>), AllocError> {
        let keys = keys_of(self.alloc, self.plant)?;
        let value = |key: &str| keys.find(0, key).map(|entry| entry.value);
        Ok(match limit {
            Limit::Sources => (FileOf::Plant, value("sources")),
            Limit::Areas => (FileOf::Plant, value("areas")),
            Limit::Consoles => (FileOf::Plant, keys.consoles.get(MOST_CONSOLES).copied()),
            Limit::Alarms => {
                let mut rows = Rows::new(self.alloc, self.alarms)?;
                let first = rows.field(MOST_ALARMS.saturating_add(1), 0)?;
                (FileOf::Alarms, Some(first))
            }
            _ => (self.long_file(), None),
        })
    }

    /// Tells where a limit isn't kept, and by what: of FORs with too many turns and of arrays with too many elements each, in order of text.
    pub fn past(&mut self, limit: Limit) -> Result<(), AllocError> {
        let measure = match limit {
            Limit::Turns => Measure::Turns,
            Limit::BlockDepth => Measure::Depth,
            Limit::Programs => Measure::Programs,
            Limit::Elements => Measure::Elements,
            Limit::Slots => Measure::Slots,
            Limit::Size => Measure::Size,
            Limit::Cost => Measure::Cost,
            _ => {
                let (file, mark) = self.place_past(limit)?;
                let said = String::from_str(self.alloc, said_of(limit))?;
                let page = "docs/PLANT.md, \"Limits (this profile)\"";
                return self.tell(file, Cause { mark, said, page });
            }
        };
        for (source, cause) in where_past(self.alloc, self.sources, measure)? {
            self.tell(FileOf::Source(source), cause)?;
        }
        Ok(())
    }
}

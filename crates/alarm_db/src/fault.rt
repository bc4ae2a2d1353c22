//! Why an alarm database is refused.

use crate::column::Column;
use std::alloc::{AllocError, AllocFailed};

/// Why an alarm database is refused; the first that holds, in this order, `Memory` apart. Rows count from 1 after the header.
#[derive(Clone, Copy, Drop)]
pub enum DbFault {
    /// Allocation failed.
    Memory,
    /// C11: there is no header, or another one, or a row has another number of fields.
    Header,
    /// C10 ALARMS: there are more than 20,000 rows.
    TooMany,
    /// C12: a field doesn't have its column's form; the first row with one, and in it the first column.
    Field { row: u32, column: Column },
    /// C13: a tag that an earlier row has; the first such row.
    Twice { row: u32 },
}

impl From<AllocError> for DbFault {
    ghost use Rattle.std.specs.Prelude.{◌≡◌};
    ghost use Rattle.alarm_db.specs.declared.fault.DbFault.TheVariants.{Memory};

    ghost from_gives = { λ _ fault. fault ≡ Memory };

    fn from(_refused: AllocError) -> DbFault {
        DbFault::Memory
    }
}

impl<T: Drop> From<AllocFailed<T>> for DbFault {
    ghost use Rattle.std.specs.Prelude.{◌≡◌};
    ghost use Rattle.alarm_db.specs.declared.fault.DbFault.TheVariants.{Memory};

    ghost from_gives = { λ _ fault. fault ≡ Memory };

    fn from(_refused: AllocFailed<T>) -> DbFault {
        DbFault::Memory
    }
}

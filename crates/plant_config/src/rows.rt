//! Alarms, as they are configured.

ghost use Rattle.std.specs.Prelude.{◌≡◌, IfOk};

use base_trace::Shown;
use plant_types::Text;
use std::alloc::{AllocError, Global};

/// An alarm of a plant. Areas and globals are named by their numbers, from 0 in the order of their declaration.
pub struct AlarmRow {
    /// The alarm's name, in which letter case counts: contracts alone see it. The plant keeps it among its tags.
    pub tag: Shown<Text>,
    /// The number of its area.
    pub area: u32,
    /// 1 to 4, 1 the highest (ISA-18.2 leaves their number to the site).
    pub priority: u32,
    /// The number of the BOOL global that is TRUE while the alarm's condition holds.
    pub condition: u32,
    /// The number of the BOOL global that suppresses the alarm while it is TRUE (ISA-18.2, suppression by design), if any.
    pub suppress: Option<u32>,
    /// Whether the alarm has to be reset once its condition has gone (ISA-18.2, latching).
    pub latching: bool,
    /// For how many milliseconds it can be shelved at most, up to 2,592,000,000 (30 days); 0 where it can't be (ISA-18.2, shelving).
    pub max_shelve_ms: u64,
    /// For how many milliseconds its condition has to hold before it counts, up to 86,400,000 (a day); 0: at once (ISA-18.2, on-delay).
    pub on_delay_ms: u32,
    /// What it says to an operator.
    pub text: Text,
}

impl Drop for AlarmRow {
    fn drop(self) {
        let AlarmRow {
            tag: _,
            area: _,
            priority: _,
            condition: _,
            suppress: _,
            latching: _,
            max_shelve_ms: _,
            on_delay_ms: _,
            text: _,
        } = self;
    }
}

impl AlarmRow {
    /// The same alarm.
    fn copy(&self, alloc: Global) -> Result<AlarmRow, AllocError>
        ensures { IfOk result (λ copy. copy ≡ self.now) }
    {
        Ok(AlarmRow {
            tag: self.tag.again(),
            area: self.area,
            priority: self.priority,
            condition: self.condition,
            suppress: self.suppress,
            latching: self.latching,
            max_shelve_ms: self.max_shelve_ms,
            on_delay_ms: self.on_delay_ms,
            text: self.text.copy(alloc)?,
        })
    }
}

/// The same alarms in the same order.
pub fn copy_rows(alloc: Global, rows: &[AlarmRow]) -> Result<Vec<AlarmRow>, AllocError>
    ensures { IfOk result (λ copies. copies.items ≡ rows.now) }
{
    let mut copies = Vec::new(alloc);
    for row in rows {
        copies.push(row.copy(alloc)?)?;
    }
    Ok(copies)
}

ghost use Rattle.std.specs.Prelude.{◌≡◌, ◌<◌, ◌≤◌, ◌-◌, [], length, map, slice_get, Some, OnOk};
ghost use Rattle.journal_core.specs.Kept.{row_of, HasPlace};
ghost use Rattle.journal_core.specs.Rows.{after_entry, after_entries, fault_entry, change_entry, last_moment, AreNumbered, AreInOrder};

use crate::packing::{KeptRow, apart_word, packed, unpacked};
use crate::row::{Entry, Row};
use alarm_machine::Change;
use plant_types::{Place, Trap};
use std::alloc::{AllocError, Global};
use std::marker::Model;

/// A row that is kept apart, without its number.
#[derive(Clone, Copy, Drop)]
struct ApartRow {
    moment: u64,
    entry: Entry,
}

/// The rows of a journal, numbered from 1 in their order; their moments never go back. Contracts see the rows, and for how many more
/// there is room.
pub struct Log {
    /// A word for each row: its number is its place.
    rows: Vec<u64>,
    /// The rows that a word doesn't hold: those that aren't the change of an alarm's code.
    apart: Vec<ApartRow>,
    /// For how many more rows there is room, whatever their entries are.
    room: usize,
}

impl Drop for Log {
    fn drop(self) {
        let Log {
            rows: _,
            apart: _,
            room: _,
        } = self;
    }
}

impl Model for Log {
    ghost use Rattle.std.specs.Prelude.{vec_capacity};
    ghost use Rattle.journal_core.specs.Rows.{PlainLog};
    ghost use Rattle.journal_core.specs.Kept.{rows_in, IsKept};

    ghost Value = { PlainLog };

    ghost view = { λ l. record { rows = rows_in l.apart.items l.rows.items; room = l.room } };

    ghost invariant = { λ l. IsKept l.rows.items l.apart.items l.room (vec_capacity l.rows) (vec_capacity l.apart) };
}

/// The row of a number, by how it is kept, with the list of those that are kept apart.
fn row_of(apart: &[ApartRow], number: u64, kept: KeptRow) -> Row
    requires { HasPlace (length apart.now) kept }
    ensures { result ≡ row_of apart.now number kept }
{
    match kept {
        KeptRow::Alarm {
            change,
            alarm,
            moment,
        } => Row {
            number,
            moment,
            entry: Entry::Alarm(alarm, change),
        },
        KeptRow::Apart(place) => {
            let row = apart[place];
            Row {
                number,
                moment: row.moment,
                entry: row.entry,
            }
        }
    }
}

impl Log {
    /// A log without rows. It allocates nothing.
    pub fn new(alloc: Global) -> Log
        ensures { result.rows ≡ [] }
    {
        Log {
            rows: Vec::new(alloc),
            apart: Vec::new(alloc),
            room: 0,
        }
    }

    /// How many rows there are.
    #[tactic(auto, using(crate::proofs::KeptLaws::words_length))]
    pub fn len(&self) -> u64
        ensures count { result ≡ length self.now.rows }
        ensures numbered { AreNumbered self.now.rows }
        ensures in_order { AreInOrder self.now.rows }
    {
        self.rows.len() as u64
    }

    /// The row of a number, from 1.
    #[tactic(auto, using(crate::proofs::KeptLaws::words_length))]
    pub fn row(&self, number: u64) -> Row
        requires first { 1 ≤ number }
        requires last { number ≤ length self.now.rows }
        ensures { slice_get self.now.rows (number - 1) ≡ Some result }
    {
        let word = self.rows[(number - 1) as usize];
        row_of(self.apart.as_slice(), number, unpacked(word))
    }

    /// Makes room for so many more rows. Fails if memory is refused; the rows stay as they are, and no room is lost.
    pub fn reserve(&mut self, count: usize) -> Result<(), AllocError>
        ensures rows { self.new.rows ≡ self.old.rows }
        ensures ok { OnOk result (count ≤ self.new.room) }
        ensures room { self.old.room ≤ self.new.room }
    {
        if count <= self.room {
            return Ok(());
        }
        self.rows.reserve(count)?;
        self.apart.reserve(count)?;
        self.room = count;
        Ok(())
    }

    /// Adds the row of an alarm whose code changed, as `push`.
    // It stands in its callers' loops: a call for each row, with an entry made for it, took more than the row itself.
    #[inline(always)]
    fn push_change(&mut self, moment: u64, alarm: u32, change: Change)
        requires room { 0 < self.old.room }
        requires in_order { last_moment self.old.rows ≤ moment }
        ensures { self.new ≡ after_entry moment self.old (change_entry (alarm, change)) }
    {
        match packed(change, alarm, moment) {
            Some(word) => {
                self.rows.push_reserved(word);
                self.room -= 1;
            }
            None => self.push_apart(moment, Entry::Alarm(alarm, change)),
        }
    }

    /// Adds a row that is kept apart, as `push`.
    fn push_apart(&mut self, moment: u64, entry: Entry)
        requires room { 0 < self.old.room }
        requires in_order { last_moment self.old.rows ≤ moment }
        ensures { self.new ≡ after_entry moment self.old entry }
    {
        let place = self.apart.len();
        self.apart.push_reserved(ApartRow { moment, entry });
        self.rows.push_reserved(apart_word(place));
        self.room -= 1;
    }

    /// Adds a row with the next number, for which there is room: it allocates nothing and can't fail. The moment is not before that of
    /// the last row.
    pub fn push(&mut self, moment: u64, entry: Entry)
        requires room { 0 < self.old.room }
        requires in_order { last_moment self.old.rows ≤ moment }
        ensures { self.new ≡ after_entry moment self.old entry }
    {
        match entry {
            Entry::Alarm(alarm, change) => self.push_change(moment, alarm, change),
            _ => self.push_apart(moment, entry),
        }
    }

    /// Adds a row for each fault of a scan, in their order. There is room for them, and the moment is not before that of the last row.
    pub fn push_faults(&mut self, moment: u64, faults: &[(Place, Trap)])
        requires room { length faults.now ≤ self.old.room }
        requires in_order { last_moment self.old.rows ≤ moment }
        ensures { self.new ≡ after_entries moment self.old (map fault_entry faults.now) }
    {
        for fault in faults {
            let (place, trap) = *fault;
            self.push(moment, Entry::Fault(place, trap));
        }
    }

    /// Adds a row for each change of a scan, in their order. There is room for them, and the moment is not before that of the last row.
    pub fn push_changes(&mut self, moment: u64, changes: &[(u32, Change)])
        requires room { length changes.now ≤ self.old.room }
        requires in_order { last_moment self.old.rows ≤ moment }
        ensures { self.new ≡ after_entries moment self.old (map change_entry changes.now) }
    {
        for change in changes {
            let (alarm, codes) = *change;
            self.push_change(moment, alarm, codes);
        }
    }
}

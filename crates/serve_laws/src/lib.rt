//! Laws of a plant's history that operators rest on: what the journal tells, and what comes of a record that is played again.
//!
//! Since its beginning, or since a reload, the journal tells the code of each alarm, and makes the list of alarms (`specs/Told.antt`), where no two
//! alarms have one tag: so in each plant that keeps its rules (`IsPlant`), as that of every engine does, by the type of `Engine`. A record is an input of the server; where it ends
//! at the end of a request, more may follow in the same session or in a new one, with the same answers and the same states (`specs/Records.antt`).
//!
//! These functions do nothing: each has laws as its contract.
//!
//! Layer serve_: it must not know consoles in threads, nor, but for `main`, what people are told.
#![tactic(auto)]

ghost use Rattle.serve_laws.specs.Told.{CodesAreTold, ChangesAreTold, RowsAreAdded, BeginNormal, LinesAreTold, ListIsTold};
ghost use Rattle.serve_laws.specs.Records.{OneHistoryIsLeft, RecordGoesOn, LinesEndRequests, StateDecides, LinesCanBeLeftOut, AskingAddsNothing};

/// The rows that later events add to a journal tell the code of each alarm, where none of these events is a reload: it is the one to which the last
/// change of its tag among these rows leads, and where they have no change of it the one that it had before them. And each change goes from the code
/// that the rows before it tell, so none is missing between two. Before the first event every alarm is NORM. A reload may make an alarm new, which is
/// NORM then without a row that tells it: so the journal tells from its last RELOAD row on, from the codes that this reload left.
pub fn journal_tells_codes()
    ensures last { CodesAreTold }
    ensures each { ChangesAreTold }
    ensures rows { RowsAreAdded }
    ensures begins { BeginNormal }
{}

/// The rows that later events without a reload add to the journal make the list of alarms: its STATE lines are those of the alarms that aren't NORM by
/// these rows, each with the code that they tell, and the whole answer to `list` is made of the state before them and of these rows.
pub fn journal_makes_list()
    ensures lines { LinesAreTold }
    ensures text { ListIsTold }
{}

/// What an input leaves is one history, whatever it is answered.
pub fn input_leaves_one_history()
    ensures { OneHistoryIsLeft }
{}

/// A record that ends at the end of a request, and more after it: both are answered as the record is, and then the rest from the history that the
/// record leaves, which with the rest leaves the history of both. States and journal are those of a history, and a record leaves one history
/// (`input_leaves_one_history`), so who plays a record again has the states in which it ended, and goes on as if there had been no end.
pub fn record_plays_again()
    ensures { RecordGoesOn }
{}

/// A record that ends at the end of a line, and of which no line tells of bytes after it, ends at the end of a request: so does every record without a
/// `reload`.
pub fn lines_end_requests()
    ensures { LinesEndRequests }
{}

/// What comes of an input depends on the state and the journal alone: where two histories leave a plant alike, every input may be answered after
/// the one what it may be answered after the other, and they still leave it alike.
pub fn state_decides_answers()
    ensures { StateDecides }
{}

/// A line of a record that added no event may be left out of it, with the bytes that it tells of: all other requests are answered as with it, and
/// leave the same history. Lines that only ask, as `list` does, never add one; a `reload` may.
pub fn lines_without_event_can_be_left_out()
    ensures left_out { LinesCanBeLeftOut }
    ensures asks { AskingAddsNothing }
{}

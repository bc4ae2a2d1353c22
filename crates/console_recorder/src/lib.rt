//! The recorder of a station: its engine, its archive and its board. Each event goes through all of them, or through none.
//!
//! An event is first made ready in the engine and in the archive's book, which may be refused and changes neither of them but for room, and then committed in
//! both, which can't fail.
//!
//! What a board shows of an engine's history is laid by before its event is committed, which may be refused for memory, and shown after that: a scan by what it gives to the
//! alarms, an order by its console and its reply, a reload by the alarms of the new plant. So the board's alarms are the system's after each event.
//!
//! The share that the recorder has is raised by the book alone, with each of its events; so it shows that none of the engine's is missing there. Orders come to
//! the recorder by `Recording` of console_orders.
//!
//! Layer console_: it must not know the bytes of commands.
#![tactic(auto)]

mod board;
mod both;
mod laying;
mod opening;
mod recorder;

pub use both::{
    ReadyOrder, ReadyReload, ReadyScan, commit_order, commit_reload, commit_scan, ready_order,
    ready_reload, ready_scan,
};
pub use console_archive::{Archive, Book};
pub use console_orders::take_parts;
pub use engine::{
    AlarmState, Crew, Done, Engine, EngineFault, Job, ListedConsole, Order, OrderFault, Pair,
    Plant, ReloadRefused, Reloaded, Reply, Report, Start, Verb,
};
pub use recorder::{Recorder, Refusal};

//! What may go to other threads: each function here asks the prover for `Send` and `Sync` of a type, and it finds both by what the type is
//! made of. A console is for one thread at a time: it may go to another, and isn't shared. Nothing here runs.

use station::{Archive, Console, Engine, Plant};
use std::sync::ledger::Ledger;

/// Asks that a value may go to another thread.
fn goes<T: Send>(_value: &T) {}

/// Asks that a value may go to another thread, and that threads may share it.
fn is_shared<T: Send + Sync>(_value: &T) {}

/// A plant may go, and may be shared.
pub fn plant_is_shared(plant: &Plant) {
    is_shared(plant)
}

/// An engine may go, and may be shared.
pub fn engine_is_shared(engine: &Engine) {
    is_shared(engine)
}

/// An archive may go, and may be shared.
pub fn archive_is_shared<L: Ledger + Send + Sync>(archive: &Archive<L>) {
    is_shared(archive)
}

/// A console may go.
pub fn console_goes(console: &Console) {
    goes(console)
}

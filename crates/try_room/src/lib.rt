//! The control room: what a host does that has a station, with its consoles and the keeper of its journal in threads of their own, and a crew of workers.
//!
//! The plant is that of the folder `house`, a boiler house of forty alarms with two consoles, whose areas are apart. The script stands in the file `stdin` of
//! try_plants, behind a line `== room`: scans, each a line as the server reads it, and remarks. What there is to tell of the shift is answered behind such a line.
//!
//! The owner takes the turn of a scan, and then turns at the same moment, two at least, until nothing waits: no alarm for an acknowledgement or a
//! reset, no console for the answers of its drill, and no line of the journal for the keeper. A console begins with its drill, a hundred orders that
//! shelve and unshelve its own alarms. Then it goes by its board: it looks, acknowledges and resets what waits in its areas, takes answers, and looks
//! again, until the owner's day is over. The keeper has the archive, and takes page after page of it until then.
//!
//! In the middle of the drill the plant is changed: its alarms get other numbers, and there is one more. The owner takes no turn until each console has ten orders
//! under way, and reloads the plant of the station. So just these are refused, and given again for the plant that came.
//!
//! What is told doesn't depend on how threads take turns: a console orders only what its board shows after the answers that it took, so each alarm
//! is acknowledged once; the last scans of the script are of one console's areas, so the last page is always the same; and the keeper has every line
//! where the day is whole. How many turns the owner took, and how many pages the keeper, is never told.
//!
//! Beside the room are rows on who runs the programs of a scan (`gated`), which have no station: behind a line `== crews`.
//!
//! Layer try_: nothing of the product stands on it.
#![tactic(auto)]

mod change;
mod console_reports;
mod crews;
mod day;
mod events;
mod gated;
mod house;
mod keeper;
mod reports;
mod room;
mod shift;

use crews::workers;
pub use gated::push_rows;
use house::read_houses;
use room::run;
use shift::Shift;
use std::alloc::{AllocError, Global};
use std::marker::Brand;
use std::rt::Runtime;
use std::sync::Wait;
use std::sync::ledger::Blank;
use std::thread::Threads;
use try_desks::Watch;

/// How many workers run the programs of the plant, of which the owner is one.
const WORKERS: u32 = 2;

/// Makes the crew and the plants, and lets a station live by the script. Tells whether the day was whole.
fn run_shift<R: Runtime + Threads + Wait + AllocGlobal + Send + Sync + 'static>(
    rt: &R,
    alloc: Global,
    shift: &mut Shift,
) -> bool {
    let Some(crew) = workers(rt, alloc, WORKERS) else {
        shift.page.line("NO WORKERS");
        return false;
    };
    match read_houses(rt, alloc, &mut shift.page) {
        Some(houses) => run::<Brand, R>(rt, alloc, houses, crew, shift, Blank::new(1)),
        None => {
            crew.close(rt);
            false
        }
    }
}

/// Lets a station live by the script, and returns what there is to tell of the shift. The last line says so where the day wasn't whole. Fails where memory was
/// refused for what is told.
pub fn answers_to<R: Runtime + Threads + Wait + AllocGlobal + Send + Sync + 'static>(
    rt: &R,
    alloc: Global,
    script: &str,
) -> Result<Vec<u8>, AllocError> {
    let script = String::from_str(alloc, script)?;
    let watch = Watch::shared(alloc)?;
    let mut shift = Shift::new(alloc, script, watch);
    if !run_shift(rt, alloc, &mut shift) {
        shift.page.line("THE DAY WAS NOT WHOLE");
    }
    shift.told()
}

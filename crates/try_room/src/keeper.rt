//! The keeper: a thread that has the archive and keeps its journal, page by page, while the station turns.

use station::Archive;
use std::alloc::{AllocError, Global};
use std::sync::ledger::Ledger;
use std::sync::{Arc, Wait};
use std::thread;
use std::thread::{JoinHandle, Threads};
use std::time::{Clock, Duration};
use try_desks::Watch;

/// How many rows a page of the keeper has at most.
const PAGE: u32 = 16;

/// How many pages it takes at most.
const MOST_PAGES: u64 = 1_000_000_000;

/// For how long it waits after a page that found no row, in microseconds.
const PAUSE: u64 = 50;

/// What the keeper comes back with: the lines of its pages, or that memory was refused.
pub type Kept = Result<Vec<String>, AllocError>;

/// Takes page after page, until the day is over and none is left.
fn keep<L: Ledger, R: Wait + Clock>(
    rt: &R,
    alloc: Global,
    archive: &Archive<L>,
    watch: &Watch,
) -> Kept {
    let mut lines = Vec::new(alloc);
    for _ in 0..MOST_PAGES {
        let is_over = watch.is_over();
        let next = (lines.len() as u64).saturating_add(1);
        let mut page = archive.page(rt, alloc, next, PAGE)?;
        if page.is_empty() {
            if is_over {
                break;
            }
            thread::sleep(rt, Duration::from_micros(PAUSE));
        }
        lines.append(&mut page)?;
        watch.keep(lines.len() as u64);
    }
    Ok(lines)
}

/// Hands the archive to the keeper's thread. Fails where memory is refused, or a thread isn't to be had.
pub fn start_keeper<
    L: Ledger + Send + Sync + 'static,
    R: Threads + Wait + Clock + Clone + Send + Drop + 'static,
>(
    rt: &R,
    alloc: Global,
    archive: &Arc<Archive<L>>,
    watch: &Arc<Watch>,
) -> Result<JoinHandle<Kept>, AllocError> {
    let archive = Arc::try_clone(archive)?;
    let watch = Arc::try_clone(watch)?;
    let theirs = rt.clone()?;
    Ok(thread::spawn(rt, move || keep(&theirs, alloc, &*archive, &*watch))?)
}

/// Waits for the keeper, where there is one, and takes what it has.
pub fn end_keeper<R: Threads>(rt: &R, keeper: Result<JoinHandle<Kept>, AllocError>) -> Kept {
    match keeper {
        Ok(thread) => thread.join(rt),
        Err(refused) => Err(refused),
    }
}

//! The life of a station.

ghost use Rattle.std.specs.Prelude.{◌≡◌, ◌<◌};

use crate::ending::{end_all, push_end};
use crate::rows::push_rows;
use crate::workers::{Workers, workers_of};
use engine::Plant;
use station::Station;
use std::alloc::Global;
use std::sync::Wait;
use std::sync::ledger::{Blank, Ledger};
use std::thread::Threads;
use try_text::Page;

/// The whole life of a station: it does what its rows say, and adds what they give; the files are its plant's. Where there is no station memory was refused. (A `&str` in its
/// signature would keep the caller from picking the ledger.)
pub fn run<L: Ledger, R: Threads + Wait + Sync>(
    rt: &R,
    alloc: Global,
    plant: Plant,
    page: &mut Page,
    files: &String,
    rows: &String,
    blank: Blank,
)
    requires { (blank.name ≡ L.name) × (blank.parts ≡ L.parts) × (0 < L.parts) }
{
    let workers = workers_of(rows);
    let Ok((mut station, mut consoles)) = Station::<L, Workers>::new(
        rt, alloc, plant, workers, blank,
    ) else {
        return page.refuse();
    };
    push_rows(
        rt,
        alloc,
        &mut station,
        consoles.as_mut_slice(),
        page,
        files,
        rows,
    );
    let mut closing = station.close(rt, end_all(alloc, consoles));
    push_end(&mut closing, page);
    drop(closing);
}

//! Sources that are read in several threads.

ghost use Rattle.std.specs.Prelude.{◌≡◌, ◌<◌, ℕ, List, length, map, IfOk, MatchResult};
ghost use Rattle.st_parser.specs.Units.{view_unit};
ghost use Rattle.st_sources.specs.Sources.{HaveUnits, IsSourceFault};
ghost use Rattle.st_sources.specs.Readings.{IsReadingAt, AreReadings};

use crate::fault::SourceFault;
use crate::reading::{unit, units};
use rayon::prelude::*;
use st_parser::Unit;
use std::alloc::{AllocError, Global};
use std::thread::Threads;

/// Sources with fewer bytes together aren't shared out: they are read before threads would have started.
const LEAST_SHARED: usize = 262_144;

/// How many bytes sources have together.
fn bytes_of(sources: &[(&str, &[u8])]) -> usize {
    let mut bytes: usize = 0;
    for source in sources {
        bytes = bytes.saturating_add(source.1.len());
    }
    bytes
}

/// What each source reads as, in order: each is read by itself, several at once.
fn readings<H: Threads + Sync>(
    rt: &H,
    alloc: Global,
    sources: &[(&str, &[u8])],
) -> Result<Vec<Result<Unit, SourceFault>>, AllocError>
    ensures { IfOk result (λ readings. AreReadings 0 (map (λ s. s.1.now) sources.now) readings.items) }
{
    (0..sources.len())
        .into_par_iter()
        .with_min_len(1)
        .map(
            |number: usize| -> Result<Unit, SourceFault>
                requires { number < length sources.now }
                ensures { IsReadingAt number (map (λ s. s.1.now) sources.entry.now) result }
            { unit(alloc, number, sources[number].1) },
        )
        .collect(rt, alloc)
}

/// The units of sources that were read, or the first fault among them.
fn collected(
    alloc: Global,
    readings: Vec<Result<Unit, SourceFault>>,
) -> Result<Vec<Unit>, SourceFault>
    ensures { (texts : List (List ℕ)) → AreReadings 0 texts readings.items
        → MatchResult result (λ units. HaveUnits texts (map view_unit units.items))
        (IsSourceFault texts) }
{
    let mut units = Vec::new(alloc);
    for reading in readings {
        match reading {
            Ok(unit) => units.push(unit)?,
            Err(fault) => return Err(fault),
        }
    }
    Ok(units)
}

/// The units of sources, as `units` gives them: sources of 262,144 bytes together or more are read in as many threads as there are
/// processors, each source by one thread.
pub fn units_in_threads<H: Threads + Sync>(
    rt: &H,
    alloc: Global,
    sources: &[(&str, &[u8])],
) -> Result<Vec<Unit>, SourceFault>
    ensures { MatchResult result
        (λ units. HaveUnits (map (λ s. s.1.now) sources.now) (map view_unit units.items))
        (IsSourceFault (map (λ s. s.1.now) sources.now)) }
{
    if bytes_of(sources) < LEAST_SHARED {
        return units(alloc, sources);
    }
    match readings(rt, alloc, sources) {
        Ok(readings) => collected(alloc, readings),
        Err(_) => Err(SourceFault::Memory),
    }
}

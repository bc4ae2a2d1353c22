//! A run: a plant is read, and its session served.

ghost use Rattle.std.specs.Prelude.{◌≡◌, false, OnOk, IfErr};
ghost use Rattle.plant_folder.specs.Verdicts.{IsVerdict, IsFilesVerdict};
ghost use Rattle.serve_faults.specs.Faults.{is_read, is_write, crew_faults};
ghost use Rattle.serve_runs.specs.Services.{moved, IsServed, IsStopped, IsRun};

use crate::verdict::{admit, admit_from};
use base_streams::{Feed, Sink};
use plant_config::Plant;
use plant_folder::{Folder, Listener, PlantFiles, PlantTexts};
use serve_faults::ServeFault;
use serve_session::{Crew, Done, Engine, Job, Start, serve};
use std::alloc::Global;
use std::sync::Wait;
use std::thread::Threads;

/// What came of a run.
#[derive(Clone, Copy, Drop)]
pub enum RunEnd {
    /// The plant was served to the end of the input.
    Served,
    /// The plant was refused, and nothing was read.
    Refused,
}

/// What a run is joined to: where its input comes from, where its answers go, and who hears what becomes of its plant.
#[derive(Drop)]
pub struct Ends<F, S, L> {
    pub feed: F,
    pub sink: S,
    pub listener: L,
}

/// Serves a plant from its first event to the end of the input. The listener hears of each plant that is handed in to take its place.
fn serve_plant<
    H: Threads + Wait + Sync,
    C: Crew<Job, Start, Done, H>,
    F: Feed,
    S: Sink,
    L: Listener,
>(
    rt: &H,
    alloc: Global,
    crew: &mut C,
    plant: Plant,
    ends: &mut Ends<F, S, L>,
) -> Result<(), ServeFault>
    requires asked { C.asks }
    requires feed { F.broken ends.old.feed ≡ false }
    requires sink { S.broken ends.old.sink ≡ false }
    ensures ok { OnOk result (IsServed plant (moved F.remaining S.written ends.old ends.new)) }
    ensures err { IfErr result (λ e. IsStopped e plant (moved F.remaining S.written ends.old ends.new)) }
    ensures read { F.broken ends.new.feed ≡ is_read result }
    ensures write { S.broken ends.new.sink ≡ is_write result }
    ensures crew { C.faulted crew.new ≡ crew_faults (C.faulted crew.old) result }
{
    match Engine::new(alloc, plant) {
        Ok(engine) => {
            let mut engine = engine;
            let ended = serve(
                rt,
                alloc,
                &mut engine,
                crew,
                &mut ends.feed,
                &mut ends.sink,
                &mut ends.listener,
            );
            drop(engine);
            ended
        }
        Err(_) => Err(ServeFault::Memory),
    }
}

/// Reads a plant from its texts, as `admit` does, and serves it to the end of the input, its programs run by the crew; or writes the line of
/// its refusal. The listener hears of the plant before anything is read or written, and of each that is handed in to take its place before the answer to
/// that is written.
///
/// After `Served` what was written is exactly the text that belongs to the plant and to the bytes that were read, whatever the crew, and after
/// `Refused` exactly the line of the refusal. Returns `Memory` only where memory was refused, and `Read`, `Write` and `Crew` only where the
/// feed, the sink or the crew failed in this call. After an error either nothing was read and at most a part of the line was written, or the session came as
/// far as `serve` says. It returns only where `serve` does.
pub fn run<H: Threads + Wait + Sync, C: Crew<Job, Start, Done, H>, F: Feed, S: Sink, L: Listener>(
    rt: &H,
    alloc: Global,
    crew: &mut C,
    texts: &PlantTexts<'_>,
    ends: &mut Ends<F, S, L>,
) -> Result<RunEnd, ServeFault>
    requires asked { C.asks }
    requires feed { F.broken ends.old.feed ≡ false }
    requires sink { S.broken ends.old.sink ≡ false }
    ensures run { IsRun (IsVerdict texts.now false)
        (moved F.remaining S.written ends.old ends.new) result }
    ensures read { F.broken ends.new.feed ≡ is_read result }
    ensures write { S.broken ends.new.sink ≡ is_write result }
    ensures crew { C.faulted crew.new ≡ crew_faults (C.faulted crew.old) result }
{
    match admit(rt, alloc, texts, &mut ends.listener, &mut ends.sink) {
        Ok(Some(plant)) => match serve_plant(rt, alloc, crew, plant, ends) {
            Ok(()) => Ok(RunEnd::Served),
            Err(fault) => Err(fault),
        },
        Ok(None) => Ok(RunEnd::Refused),
        Err(fault) => Err(fault),
    }
}

/// Reads a plant from its files, as `admit_from` does, and serves it to the end of the input, its programs run by the crew; or writes the line
/// of its refusal, or of the file that isn't found. What it returns, and what is written then, is as `run` says.
pub fn run_from<
    H: Threads + Wait + Sync,
    C: Crew<Job, Start, Done, H>,
    D: Folder,
    F: Feed,
    S: Sink,
    L: Listener,
>(
    rt: &H,
    alloc: Global,
    crew: &mut C,
    files: &PlantFiles<'_, D>,
    ends: &mut Ends<F, S, L>,
) -> Result<RunEnd, ServeFault>
    requires asked { C.asks }
    requires feed { F.broken ends.old.feed ≡ false }
    requires sink { S.broken ends.old.sink ≡ false }
    ensures run { IsRun (IsFilesVerdict (D.finds files.now.folder.now) files.now.path.now false)
        (moved F.remaining S.written ends.old ends.new) result }
    ensures read { F.broken ends.new.feed ≡ is_read result }
    ensures write { S.broken ends.new.sink ≡ is_write result }
    ensures crew { C.faulted crew.new ≡ crew_faults (C.faulted crew.old) result }
{
    match admit_from(rt, alloc, files, &mut ends.listener, &mut ends.sink) {
        Ok(Some(plant)) => match serve_plant(rt, alloc, crew, plant, ends) {
            Ok(()) => Ok(RunEnd::Served),
            Err(fault) => Err(fault),
        },
        Ok(None) => Ok(RunEnd::Refused),
        Err(fault) => Err(fault),
    }
}

//! What the program says of a plant is written.

ghost use Rattle.std.specs.Prelude.{◌≡◌, false};
ghost use Rattle.plant_folder.specs.Verdicts.{accepted_line, IsVerdict, IsFilesVerdict};
ghost use Rattle.serve_runs.specs.Admits.{IsTold, IsWritten, IsChecked};
ghost use Rattle.serve_faults.specs.Faults.{is_write};

use base_streams::Sink;
use plant_config::Plant;
use plant_folder::{
    Folder, Listener, PlantFiles, PlantTexts, accepted_line, files_verdict, verdict,
};
use serve_faults::{ServeFault, put_all};
use std::alloc::Global;
use std::thread::Threads;

/// Writes the line of a verdict, and returns its plant.
fn told<S: Sink>(
    sink: &mut S,
    plant: Option<Plant>,
    line: &str,
) -> Result<Option<Plant>, ServeFault>
    requires { S.broken sink.old ≡ false }
    ensures told { IsTold (λ answer due. (answer ≡ plant) × (due ≡ line.now))
        (S.written sink.old) (S.written sink.new) result }
    ensures write { S.broken sink.new ≡ is_write result }
{
    match put_all(sink, line.as_bytes()) {
        Ok(()) => Ok(plant),
        Err(fault) => {
            drop(plant);
            Err(fault)
        }
    }
}

/// Reads a plant from its texts, and writes what there is to say of it: the line of the refusal, and then there is no plant; nothing where it is
/// accepted. A listener hears of either before.
///
/// Returns `Memory` only where memory was refused, and then nothing is written; and `Write` only where the sink failed in this call.
#[tactic(auto, using(crate::proofs::AdmitLaws::told_of))]
pub fn admit<H: Threads + Sync, L: Listener, S: Sink>(
    rt: &H,
    alloc: Global,
    texts: &PlantTexts<'_>,
    listener: &mut L,
    sink: &mut S,
) -> Result<Option<Plant>, ServeFault>
    requires { S.broken sink.old ≡ false }
    ensures told { IsTold (IsVerdict texts.now false) (S.written sink.old) (S.written sink.new) result }
    ensures write { S.broken sink.new ≡ is_write result }
{
    match verdict(rt, alloc, texts, listener) {
        Ok((plant, line)) => told(sink, plant, line.as_str()),
        Err(_) => Err(ServeFault::Memory),
    }
}

/// Reads a plant from its files, the plant file and those that it names, and writes what there is to say of it, as `admit` does. Of a file that can't
/// be read, or has more than 16,777,217 bytes, it writes the name.
///
/// Returns `Memory` only where memory was refused, and then nothing is written; and `Write` only where the sink failed in this call.
pub fn admit_from<H: Threads + Sync, F: Folder, L: Listener, S: Sink>(
    rt: &H,
    alloc: Global,
    files: &PlantFiles<'_, F>,
    listener: &mut L,
    sink: &mut S,
) -> Result<Option<Plant>, ServeFault>
    requires { S.broken sink.old ≡ false }
    ensures told { IsTold (IsFilesVerdict (F.finds files.now.folder.now) files.now.path.now false)
        (S.written sink.old) (S.written sink.new) result }
    ensures write { S.broken sink.new ≡ is_write result }
{
    match files_verdict(rt, alloc, files, listener) {
        Ok((plant, line)) => told(sink, plant, line.as_str()),
        Err(_) => Err(ServeFault::Memory),
    }
}

/// Writes the line for an accepted plant. Returns `Memory` only where memory was refused, and then nothing is written.
fn told_accepted<S: Sink>(alloc: Global, plant: &Plant, sink: &mut S) -> Result<(), ServeFault>
    requires { S.broken sink.old ≡ false }
    ensures told { IsWritten (accepted_line plant.now) (S.written sink.old) (S.written sink.new) result }
    ensures write { S.broken sink.new ≡ is_write result }
{
    match accepted_line(alloc, plant) {
        Ok(line) => put_all(sink, line.as_bytes()),
        Err(_) => Err(ServeFault::Memory),
    }
}

/// Tells whether a plant is accepted, from its files: it writes what `admit_from` writes, and the line for an accepted plant; it keeps no plant.
///
/// Returns `Memory` only where memory was refused, and then nothing is written; and `Write` only where the sink failed in this call.
pub fn check_from<H: Threads + Sync, F: Folder, L: Listener, S: Sink>(
    rt: &H,
    alloc: Global,
    files: &PlantFiles<'_, F>,
    listener: &mut L,
    sink: &mut S,
) -> Result<bool, ServeFault>
    requires { S.broken sink.old ≡ false }
    ensures told { IsChecked (F.finds files.now.folder.now) files.now.path.now
        (S.written sink.old) (S.written sink.new) result }
    ensures write { S.broken sink.new ≡ is_write result }
{
    match admit_from(rt, alloc, files, listener, sink) {
        Ok(Some(plant)) => {
            let told = told_accepted(alloc, &plant, sink);
            drop(plant);
            match told {
                Ok(()) => Ok(true),
                Err(fault) => Err(fault),
            }
        }
        Ok(None) => Ok(false),
        Err(fault) => Err(fault),
    }
}

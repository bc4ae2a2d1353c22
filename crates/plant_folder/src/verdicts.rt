//! What the program says of a plant.

ghost use Rattle.std.specs.Prelude.{◌≡◌, ◌≢◌, map, string_bytes, false, IfOk};
ghost use Rattle.plant_config.specs.declared.fault.ConfigFault.TheVariants as config_fault;
ghost use Rattle.plant_folder.specs.Verdicts.{accepted_line, refusal_line, missing_line, fetch_line, HasLine, IsVerdict, IsFilesVerdict};

use crate::folder::{Folder, PlantFiles};
use crate::listener::{Listener, PlantTexts};
use crate::texts::{FetchFault, Fetched, SourceText, fetch};
use plant_config::{ConfigFault, Plant};
use std::alloc::{AllocError, Global};
use std::thread::Threads;

/// The line for a plant that is accepted.
pub fn accepted_line(alloc: Global, plant: &Plant) -> Result<String, AllocError>
    ensures { IfOk result (λ line. string_bytes line ≡ accepted_line plant.now) }
{
    let mut line = String::from_str(alloc, "ACCEPTED PROGRAMS ")?;
    let programs = plant.programs().to_string(alloc)?;
    line.push_str(programs.as_str())?;
    line.push_str(" ALARMS ")?;
    let alarms = plant.alarms().to_string(alloc)?;
    line.push_str(alarms.as_str())?;
    line.push_str("\n")?;
    Ok(line)
}

/// The line for a plant that is refused.
fn refusal_line(alloc: Global, fault: &ConfigFault) -> Result<String, AllocError>
    requires { fault.now ≢ config_fault.Memory }
    ensures { IfOk result (λ line. string_bytes line ≡ refusal_line fault.now) }
{
    let mut line = fault.line(alloc)?;
    line.push_str("\n")?;
    Ok(line)
}

/// The line for a file that isn't found.
fn missing_line(alloc: Global, name: &str) -> Result<String, AllocError>
    ensures { IfOk result (λ line. string_bytes line ≡ missing_line name.now) }
{
    let mut line = String::from_str(alloc, "FILE ")?;
    line.push_str(name)?;
    line.push_str("\n")?;
    Ok(line)
}

/// Reads a plant from its texts. There is none where it is refused, and then with it comes the line that is due; for an accepted plant none is, and
/// the text is empty. A listener hears of either.
pub fn verdict<H: Threads + Sync, L: Listener>(
    rt: &H,
    alloc: Global,
    texts: &PlantTexts<'_>,
    listener: &mut L,
) -> Result<(Option<Plant>, String), AllocError>
    ensures { IfOk result (λ v. IsVerdict texts.now false v.0 (string_bytes v.1)) }
{
    match Plant::read_observed(
        rt,
        alloc,
        texts.plant,
        texts.sources,
        texts.alarms,
        listener,
    ) {
        Ok(plant) => {
            listener.accepted(alloc, texts, &plant);
            Ok((Some(plant), String::new(alloc)))
        }
        Err(ConfigFault::Memory) => Err(AllocError),
        Err(fault) => {
            let line = refusal_line(alloc, &fault)?;
            listener.refused(alloc, texts, &fault);
            Ok((None, line))
        }
    }
}

/// The sources of a plant as pairs of a name and a text.
fn pairs<'a>(
    alloc: Global,
    sources: &'a [SourceText],
) -> Result<Vec<(&'a str, &'a [u8])>, AllocError>
    ensures names { IfOk result (λ v. map (λ s. s.0.now) v.items ≡ map (λ s. s.name) sources.now) }
    ensures texts { IfOk result (λ v. map (λ s. s.1.now) v.items ≡ map (λ s. s.text.items) sources.now) }
{
    let mut pairs = Vec::new(alloc);
    for source in sources {
        pairs.push((source.name.as_str(), source.text.as_slice()))?;
    }
    Ok(pairs)
}

/// The line for texts of a plant that aren't there.
fn fetch_line(alloc: Global, fault: &FetchFault) -> Result<String, AllocError>
    requires { HasLine fault.now }
    ensures { IfOk result (λ line. string_bytes line ≡ fetch_line fault.now) }
{
    match fault {
        FetchFault::Memory => Ok(String::new(alloc)),
        FetchFault::File(name) => missing_line(alloc, name.as_str()),
        FetchFault::Config(refused) => refusal_line(alloc, refused),
    }
}

/// As `verdict`, from texts that were fetched for the plant file of a path.
fn fetched_verdict<H: Threads + Sync, L: Listener>(
    rt: &H,
    alloc: Global,
    path: &str,
    fetched: &Fetched,
    listener: &mut L,
) -> Result<(Option<Plant>, String), AllocError>
    ensures { IfOk result (λ v. IsVerdict fetched.now false v.0 (string_bytes v.1)) }
{
    let sources = pairs(alloc, fetched.sources.as_slice())?;
    let texts = PlantTexts {
        path,
        plant: fetched.plant.as_slice(),
        sources: sources.as_slice(),
        alarms: fetched.alarms.as_slice(),
    };
    verdict(rt, alloc, &texts, listener)
}

/// As `verdict`, from the files of a plant: the plant file and those that it names. The line for a file that can't be read, or has more than
/// 16,777,217 bytes, has its name.
pub fn files_verdict<H: Threads + Sync, F: Folder, L: Listener>(
    rt: &H,
    alloc: Global,
    files: &PlantFiles<'_, F>,
    listener: &mut L,
) -> Result<(Option<Plant>, String), AllocError>
    ensures { IfOk result (λ v. IsFilesVerdict (F.finds files.now.folder.now) files.now.path.now false
        v.0 (string_bytes v.1)) }
{
    match fetch(alloc, files, listener) {
        Ok(fetched) => fetched_verdict(rt, alloc, files.path, &fetched, listener),
        Err(FetchFault::Memory) => Err(AllocError),
        Err(fault) => {
            let line = fetch_line(alloc, &fault)?;
            Ok((None, line))
        }
    }
}
